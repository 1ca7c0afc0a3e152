//! Marks of ids.

ghost use Rattle.std.specs.Prelude.{◌≡◌, ◌<◌, ◌++◌, [], ℕ, List, length, flat_map, IfOk};
ghost use Rattle.std.specs.List.{AllByRecursion};
ghost use Rattle.remote_rules.specs.CloneData.{merge_parents as parents_of_merge};
ghost use Rattle.remote_answers.specs.Marks.{AreMarks, IsWithin, stored_by};

use remote_trait::CloneSegments;
use std::alloc::{AllocError, Global};

/// No mark, for so many ids.
fn no_marks(alloc: Global, count: u64) -> Result<Vec<bool>, AllocError>
    ensures { IfOk result (λ marks. AreMarks count [] marks.items) }
{
    let marks = vec![in alloc; false; count as usize]?;
    Ok(marks)
}

/// Marks these ids.
fn mark(marks: &mut Vec<bool>, ids: &[u64])
    requires { AllByRecursion (λ id. id < length marks.old.items) ids.now }
    ensures size { length marks.new.items ≡ length marks.old.items }
    ensures marks { (count : ℕ) (before : List ℕ) → AreMarks count before marks.old.items → AreMarks count (before ++ ids.now) marks.new.items }
{
    'ids: for id in ids {
        marks[*id as usize] = true;
    }
}

/// The parents, if they are a merge's.
fn merge_parents(parents: &[u64]) -> &[u64]
    ensures { result.now ≡ parents_of_merge parents.now }
{
    if parents.len() < 2 {
        &parents[..0]
    } else {
        parents
    }
}

/// Of so many ids, those whose names a clone stores: the highest of each segment, and the parents of merges.
pub(crate) fn stored_marks(
    alloc: Global,
    count: u64,
    segments: &CloneSegments,
) -> Result<Vec<bool>, AllocError>
    requires { AllByRecursion (IsWithin count) segments.now }
    ensures { IfOk result (λ marks. AreMarks count (flat_map stored_by segments.now) marks.items) }
{
    let mut marks = no_marks(alloc, count)?;
    'segments: for i in 0..segments.len() {
        let segment = segments.at(i);
        mark(&mut marks, &[segment.high]);
        mark(&mut marks, merge_parents(segment.parents.numbers()));
    }
    Ok(marks)
}

/// Of so many ids, those that are parents of a segment's lowest id.
pub(crate) fn parent_marks(
    alloc: Global,
    count: u64,
    segments: &CloneSegments,
) -> Result<Vec<bool>, AllocError>
    requires { AllByRecursion (IsWithin count) segments.now }
    ensures { IfOk result (λ marks. AreMarks count (flat_map (λ s. s.parents) segments.now) marks.items) }
{
    let mut marks = no_marks(alloc, count)?;
    'segments: for i in 0..segments.len() {
        let segment = segments.at(i);
        mark(&mut marks, segment.parents.numbers());
    }
    Ok(marks)
}
