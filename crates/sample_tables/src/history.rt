//! Histories that are drawn by a rule.

ghost use Rattle.std.specs.Prelude.{◌≡◌, ◌+◌, ◌/◌, ◌<◌, ◌^◌, ◌++◌, ℕ, nat_lt, if◌then◌else◌, List, [], ◌∷◌, IfOk, OnOk, IfSome};
ghost use Rattle.segment_codec.specs.Record.{Segment};
ghost use Rattle.segment_codec.specs.Table.{parents_at};
ghost use Rattle.sample_tables.specs.Drawn.{MayBegin, parents_begun, next_drawn, begin_by, history};
ghost use Rattle.sample_tables.specs.Samples.{IsSampleOf, next_segment};

use crate::sample::Sample;
use id_groups::Id;
use std::alloc::{AllocError, Global};

/// How often a commit isn't simply on the one before it, of each sixteen.
#[derive(Clone, Copy, Debug)]
pub struct Rule {
    /// So many are merges of the one before and an earlier one.
    pub merges: u64,
    /// So many have an earlier one as their only parent.
    pub branches: u64,
}

/// How a commit that isn't simply on the one before it begins a segment.
#[derive(Clone, Copy)]
enum Begin {
    /// Without parents.
    Root,
    /// On an earlier commit.
    Branch(u64),
    /// On the one before and an earlier one.
    Merge(u64),
}

fn next_random(x: u64) -> u64
    ensures { result ≡ next_drawn x }
{
    x.wrapping_mul(6364136223846793005)
        .wrapping_add(1442695040888963407)
}

/// The state that the number for the commit `i` is drawn from. None is drawn for the commits 0 and 1.
fn state_for(i: u64, random: u64) -> u64
    ensures { result ≡ (if nat_lt 1 i then next_drawn random else random) }
{
    if i > 1 { next_random(random) } else { random }
}

/// How the commit `i` begins a segment, if it does. An earlier parent is one of the 64 before the one before it.
fn drawn_begin(rule: Rule, random: u64, i: u64) -> Option<Begin>
    requires { 0 < i }
    ensures may { IfSome result (MayBegin i) }
    ensures drawn { result ≡ begin_by rule (random / 2 ^ 33) i }
{
    if i == 1 {
        return None;
    }
    let drawn = random >> 33;
    let kind = drawn % 16;
    let back = 1 + (drawn / 16) % (i.min(65) - 1);
    let earlier = i - 1 - back;
    if kind < rule.merges {
        return Some(Begin::Merge(earlier));
    }
    if kind - rule.merges < rule.branches {
        return Some(Begin::Branch(earlier));
    }
    None
}

/// Adds so many commits, of which the first begins like that.
fn push_begun(sample: &mut Sample, start: Begin, count: u64) -> Result<(), AllocError>
    requires begin { MayBegin sample.old.table.end start }
    requires some { 0 < count }
    requires room { sample.old.table.end + count < 2 ^ 32 }
    ensures added { OnOk result ((segments : List Segment) → IsSampleOf sample.old segments
        → IsSampleOf sample.new (segments ++ next_segment sample.old.table.end (parents_begun sample.old.table.end start) count ∷ [])) }
    ensures count { OnOk result (sample.new.table.end ≡ sample.old.table.end + count) }
{
    let end = sample.count();
    match start {
        Begin::Root => sample.push(&[], count),
        Begin::Branch(earlier) => sample.push(&[Id::master(earlier)], count),
        Begin::Merge(earlier) => { sample.push(&[Id::master(end - 1), Id::master(earlier)], count) }
    }
}

/// The history of so many commits that the rule gives with this start number: the commit 0 has no parents, the commit 1
/// is on it, and for each later one a number is drawn.
pub fn draw_history(
    alloc: Global,
    rule: Rule,
    commits: u64,
    start: u64,
) -> Result<Sample, AllocError>
    requires { commits < 2 ^ 32 }
    ensures count { IfOk result (λ sample. sample.table.end ≡ commits) }
    ensures parents { IfOk result (λ sample. (segments : List Segment) × IsSampleOf sample segments
        × ((i : ℕ) → i < commits → parents_at segments i ≡ history rule start i)) }
{
    let mut sample = Sample::empty(alloc);
    if commits == 0 {
        return Ok(sample);
    }
    let mut random = start;
    let mut open = Begin::Root;
    'commits: for i in 1..commits {
        random = state_for(i, random);
        if let Some(next) = drawn_begin(rule, random, i) {
            let count = i - sample.count();
            push_begun(&mut sample, open, count)?;
            open = next;
        }
    }
    let count = commits - sample.count();
    push_begun(&mut sample, open, count)?;
    Ok(sample)
}
