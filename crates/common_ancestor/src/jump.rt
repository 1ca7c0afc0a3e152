//! How far a visit of two sets may go down at once.

ghost use Rattle.std.specs.Prelude.{◌≡◌, ◌-◌, ◌≤◌, ◌^◌, Some, IsTrue, min};
ghost use Rattle.segment_codec.specs.Lent.{segment_of};
ghost use Rattle.segment_codec.specs.Table.{segment_at, IsHeld};
ghost use Rattle.common_ancestor.specs.Jumps.{IsFloor, IsJumpAbove};

use id_groups::Id;
use segment_codec::{SegmentRef, SegmentTable, Steps};

/// Levels of segments end below this one.
const LEVEL_END: u8 = 8;

/// Segments of higher levels are looked for only where so many ids may be passed at once, so that a visit of near ids takes
/// no longer than over flat segments.
const FAR: u64 = 256;

/// The lowest id that one jump from `id` may pass: the one above `other`, where that lies below `id`. Where it doesn't, both
/// sides reach all that a jump passes: any, but a jump pays only where `next`, the next id that waits, lies far below.
#[inline]
pub(crate) fn floor_under(id: Id, other: Id, next: Id) -> u64
    ensures { IsFloor id other result }
{
    if other < id {
        return other.number() + 1;
    }
    let number = id.number();
    if number.saturating_sub(next.number()) < FAR {
        number
    } else {
        0
    }
}

/// Whether a segment begins lower than the best so far, but no lower than the floor. Where hardly anything is grouped, no more
/// than one level is looked at.
#[inline]
fn is_better(floor: u64, best: &SegmentRef<'_>, other: &SegmentRef<'_>) -> bool
    ensures { IsTrue result → floor ≤ other.now.low }
{
    let low = other.low();
    low < best.low() && floor <= low.number()
}

/// Of the segments that end at the id, from level 1 up as long as each is better, the last; `flat` where there is none. Where
/// a segment of a level ends, one of the level below does, which begins no lower.
fn longest_above<'a, T: SegmentTable>(
    table: &'a T,
    id: Id,
    floor: u64,
    flat: SegmentRef<'a>,
    steps: &mut Steps,
) -> SegmentRef<'a>
    requires { segment_at (T.flats table.now) id ≡ Some (segment_of flat) }
    ensures jump { IsJumpAbove (T.flats table.now) id floor (segment_of result) }
    ensures counted { min steps.old.taken (2 ^ 64 - 1) ≤ steps.new.taken }
{
    let mut best = flat;
    'levels: for level in 1..LEVEL_END {
        let Some(other) = table.ending(level, id, steps) else {
            return best;
        };
        if !is_better(floor, &best, &other) {
            return best;
        }
        best = other;
    }
    best
}

/// A segment by which a visit goes down from the id: the flat one that has it, or one that ends at it and begins no lower than
/// the floor.
#[inline]
pub(crate) fn jump_above<'a, T: SegmentTable>(
    table: &'a T,
    id: Id,
    floor: u64,
    steps: &mut Steps,
) -> SegmentRef<'a>
    requires { IsHeld (T.flats table.now) id }
    ensures jump { IsJumpAbove (T.flats table.now) id floor (segment_of result) }
    ensures counted { min steps.old.taken (2 ^ 64 - 1) ≤ steps.new.taken }
{
    let flat = table.flat(id, steps).unwrap();
    if id.number().saturating_sub(floor) < FAR {
        return flat;
    }
    longest_above(table, id, floor, flat, steps)
}
