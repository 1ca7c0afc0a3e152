//! Queries about commits and pairs of them.

use crate::random::next_random;
use ancestor_query::ancestors;
use common_ancestor::{gca, only};
use id_groups::Id;
use range_query::children;
use sample_tables::held_ids;
use segment_codec::{SegmentTable, Steps};
use std::alloc::{AllocError, Global};

/// What is asked of two commits.
#[derive(Clone, Copy)]
pub enum Question {
    /// The ancestors of the first.
    Ancestors,
    /// Those of the first and not of the second.
    Only,
    /// The greatest that both reach.
    Gca,
}

/// How many ids the answer has.
fn ask<T: SegmentTable>(
    alloc: Global,
    table: &T,
    question: Question,
    first: Id,
    second: Id,
) -> Result<u64, AllocError> {
    match question {
        Question::Ancestors => count_ancestors(alloc, table, first),
        Question::Only => count_only(alloc, table, first, second),
        Question::Gca => count_gca(alloc, table, first, second),
    }
}

fn count_ancestors<T: SegmentTable>(alloc: Global, table: &T, id: Id) -> Result<u64, AllocError> {
    let set = held_ids(alloc, table, &[id])?;
    let found = ancestors(alloc, table, &set, &mut Steps::new())?;
    Ok(found.count())
}

fn count_only<T: SegmentTable>(
    alloc: Global,
    table: &T,
    first: Id,
    second: Id,
) -> Result<u64, AllocError> {
    let set = held_ids(alloc, table, &[first])?;
    let other = held_ids(alloc, table, &[second])?;
    let found = only(alloc, table, &set, &other, &mut Steps::new())?;
    Ok(found.count())
}

fn count_gca<T: SegmentTable>(
    alloc: Global,
    table: &T,
    first: Id,
    second: Id,
) -> Result<u64, AllocError> {
    let set = held_ids(alloc, table, &[first, second])?;
    let found = gca(alloc, table, &set, &mut Steps::new())?;
    Ok(found.count())
}

/// How many ids the answers about so many pairs have together. The second of a pair lies at most so far below the first.
pub fn ask_pairs<T: SegmentTable>(
    alloc: Global,
    table: &T,
    question: Question,
    ids: u64,
    reach: u64,
    count: u64,
) -> Result<u64, AllocError> {
    let mut random = 7;
    let mut sum = 0u64;
    for _k in 0..count {
        random = next_random(random);
        let first = (random >> 30) % ids.max(1);
        random = next_random(random);
        let second = first.saturating_sub((random >> 30) % reach.max(1));
        let found = ask(
            alloc,
            table,
            question,
            Id::master(first % (1 << 32)),
            Id::master(second % (1 << 32)),
        )?;
        sum = sum.saturating_add(found);
    }
    Ok(sum)
}

/// How many children so many commits have together. Each lies at most so far below the last of so many.
pub fn ask_children<T: SegmentTable>(
    alloc: Global,
    table: &T,
    ids: u64,
    reach: u64,
    count: u64,
) -> Result<u64, AllocError> {
    let mut random = 7;
    let mut sum = 0u64;
    for _k in 0..count {
        random = next_random(random);
        let id = ids
            .saturating_sub(1)
            .saturating_sub((random >> 30) % reach.max(1));
        let set = held_ids(alloc, table, &[Id::master(id % (1 << 32))])?;
        let found = children(alloc, table, &set, &mut Steps::new())?;
        sum = sum.saturating_add(found.count());
    }
    Ok(sum)
}
