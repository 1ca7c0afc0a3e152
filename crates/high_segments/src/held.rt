//! The segment that has an id on a level.

ghost use Rattle.std.specs.Prelude.{◌≡◌, ◌<◌, ◌+◌, ℕ, List, None, Some, MatchOption, IfOk, length, take, slice_get};
ghost use Rattle.segment_codec.specs.Record.{Segment};
ghost use Rattle.segment_codec.specs.Lent.{segment_of};
ghost use Rattle.segment_codec.specs.Table.{segment_at};
ghost use Rattle.segment_levels.specs.Kept.{PlainGroups, groups_in};
ghost use Rattle.segment_levels.specs.Sound.{IsReadable};
ghost use Rattle.segment_levels.specs.Endings.{held_from};
ghost use Rattle.high_segments.specs.Growing.{AreReadable, HasFrom, IsRowFrom, next_end_of};

use crate::kept::KeptLevel;
use crate::level::Level;
use segment_codec::SegmentRef;
use std::alloc::{AllocError, Global};

/// The kept group that has the id, if the level keeps some.
#[inline(always)]
fn find_kept<'a>(level: &'a KeptLevel, id: u64, near: &mut usize) -> Option<SegmentRef<'a>>
    requires { IsReadable level.now }
    ensures { MatchOption result (segment_at (groups_in level.now) id ≡ None) (λ r. segment_at (groups_in level.now) id ≡ Some (segment_of r)) }
{
    if level.keeps_none() {
        return None;
    }
    level.find(id, near)
}

/// The segment that has the id on the last of these levels, under the number of the level that keeps it. On each level the
/// search begins at a place, which level 1 moves to where it found the segment.
pub(crate) fn held<'a>(levels: &'a [KeptLevel], id: u64, near: &mut usize) -> Option<SegmentRef<'a>>
    requires { AreReadable levels.now }
    ensures { MatchOption result (held_from None levels.now id ≡ None) (λ r. held_from None levels.now id ≡ Some (segment_of r)) }
{
    let mut rest = levels;
    'levels: while let Some((top, lower)) = rest.split_last() {
        if id >= top.end() {
            return None;
        }
        if let Some(segment) = find_kept(top, id, near) {
            return Some(segment);
        }
        rest = lower;
    }
    None
}

/// The segments of a level from an id on, at which one begins, up to the end of the last of these levels, whose number it
/// has. The search for the first begins at a place, and that for each other one behind.
fn segments_from(
    alloc: Global,
    levels: &[KeptLevel],
    top: &KeptLevel,
    start: u64,
    near: usize,
) -> Result<Level, AllocError>
    requires { (segments : List Segment) × (from : ℕ) × HasFrom levels.now top.now segments from start }
    ensures { IfOk result (λ run. (segments : List Segment) (from : ℕ) → HasFrom levels.now top.now segments from start → IsRowFrom top.now segments from run) }
{
    let mut run = Level::begin(alloc, top.level(), start, top.grouped());
    let mut place = near;
    'ids: while run.end() < top.end() {
        let segment = held(levels, run.end(), &mut place).unwrap();
        run.push(segment.at_level(top.level()))?;
        place = place.saturating_add(1);
    }
    Ok(run)
}

/// Where the level behind the one at place `k` ends; of the last one its own end.
fn next_end(levels: &[KeptLevel], k: usize) -> u64
    requires { k < length levels.now }
    ensures { result ≡ next_end_of levels.now k }
{
    match levels.get(k + 1) {
        Some(next) => next.end(),
        None => levels[k].end(),
    }
}

/// The segments of the level at place `k` from an id on, at which one begins. The search for the first begins at a place.
pub(crate) fn row_from(
    alloc: Global,
    levels: &[KeptLevel],
    k: usize,
    start: u64,
    near: usize,
) -> Result<Level, AllocError>
    requires within { k < length levels.now }
    requires held { (top : PlainGroups) × (segments : List Segment) × (from : ℕ) × (slice_get levels.now k ≡ Some top) × HasFrom (take (k + 1) levels.now) top segments from start }
    ensures { IfOk result (λ run. (top : PlainGroups) (segments : List Segment) (from : ℕ) → slice_get levels.now k ≡ Some top
        → HasFrom (take (k + 1) levels.now) top segments from start → IsRowFrom top segments from run) }
{
    let (front, _) = levels.split_at(k + 1);
    segments_from(alloc, front, &levels[k], start, near)
}

/// The segments of the level at place `k` that are in no group of the next one.
pub(crate) fn left_over(alloc: Global, levels: &[KeptLevel], k: usize) -> Result<Level, AllocError>
    requires within { k < length levels.now }
    requires held { (top : PlainGroups) × (segments : List Segment) × (from : ℕ) × (slice_get levels.now k ≡ Some top) × HasFrom (take (k + 1) levels.now) top segments from (next_end_of levels.now k) }
    ensures { IfOk result (λ run. (top : PlainGroups) (segments : List Segment) (from : ℕ) → slice_get levels.now k ≡ Some top
        → HasFrom (take (k + 1) levels.now) top segments from (next_end_of levels.now k) → IsRowFrom top segments from run) }
{
    let end = next_end(levels, k);
    row_from(alloc, levels, k, end, 0)
}
