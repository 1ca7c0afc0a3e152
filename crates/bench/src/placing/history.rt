//! The histories that are timed.

ghost use Rattle.std.specs.Prelude.{◌≤◌, IsTrue, [], slice_index_or};
ghost use Rattle.assign_ids.specs.Numbers.{AreBelow, HaveOlderParents, others_of};

use assign_ids::Node::{Other, Placed};
use assign_ids::{Node, ParentsOf};
use std::alloc::{AllocError, Global};

/// Commits of so many parents each.
#[derive(Clone, Copy, Drop)]
pub struct Drawn<'a, const WIDTH: usize> {
    pub rows: &'a [[Node; WIDTH]],
    ghost narrow: { WIDTH ≤ 8 },
}

impl<'a, const WIDTH: usize> ParentsOf for Drawn<'a, WIDTH> {
    ghost use Rattle.std.specs.Prelude.{[], slice_index_or};

    ghost parents = { λ drawn k. slice_index_or drawn.rows.now k [] };

    fn parents_of(&self, k: u32) -> &[Node] {
        match self.rows.get(k as usize) {
            Some(parents) => parents.as_slice(),
            None => &[],
        }
    }
}

/// Whether each parent has a number below this one.
fn are_below(number: usize, parents: &[Node]) -> bool
    ensures { IsTrue result → AreBelow number (others_of parents.now) }
{
    'parents: for i in 0..parents.len() {
        match parents[i] {
            Placed => {}
            Other(parent) => {
                if parent as usize >= number {
                    return false;
                }
            }
        }
    }
    true
}

/// Whether each parent is drawn before its child.
pub fn are_older<const WIDTH: usize>(rows: &[[Node; WIDTH]]) -> bool
    ensures { IsTrue result → HaveOlderParents (λ k. slice_index_or rows.now k []) }
{
    'rows: for number in 0..rows.len() {
        if !are_below(number, rows[number].as_slice()) {
            return false;
        }
    }
    true
}

/// Each commit is the parent of the next.
pub fn chain(alloc: Global, count: u32) -> Result<Vec<[Node; 1]>, AllocError> {
    let mut rows = Vec::new(alloc);
    for number in 0..count {
        rows.push(if number == 0 {
            [Placed]
        } else {
            [Other(number - 1)]
        })?;
    }
    Ok(rows)
}

/// The first commit is the parent of all others.
pub fn fan(alloc: Global, count: u32) -> Result<Vec<[Node; 1]>, AllocError> {
    let mut rows = Vec::new(alloc);
    for number in 0..count {
        rows.push(if number == 0 { [Placed] } else { [Other(0)] })?;
    }
    Ok(rows)
}

/// The parent so far before a commit.
fn parent_before(number: u32, distance: u32) -> Node {
    if distance <= number {
        Other(number - distance)
    } else {
        Placed
    }
}

/// Each commit merges the eight before it, the nearest one first.
pub fn merges(alloc: Global, count: u32) -> Result<Vec<[Node; 8]>, AllocError> {
    let mut rows = Vec::new(alloc);
    for number in 0..count {
        let mut parents = [Placed; 8];
        for i in 0..8u32 {
            parents[i as usize] = parent_before(number, i + 1);
        }
        rows.push(parents)?;
    }
    Ok(rows)
}

/// All commits as heads.
pub fn heads_of(alloc: Global, count: u32) -> Result<Vec<u32>, AllocError> {
    let mut heads = Vec::new(alloc);
    for number in 0..count {
        heads.push(number)?;
    }
    Ok(heads)
}
