//! How far a visit may go down at once.

ghost use Rattle.std.specs.Prelude.{◌≡◌, ◌+◌, ◌-◌, ◌≤◌, ◌<◌, ◌^◌, ◌⊎◌, IsTrue, MatchOption, min, true};
ghost use Rattle.id_groups.specs.Lists.{IsIn};
ghost use Rattle.segment_codec.specs.Table.{IsHeld};
ghost use Rattle.segment_codec.specs.Lent.{segment_of};
ghost use Rattle.ancestor_query.specs.Jumps.{IsBest};

use id_groups::Id;
use segment_codec::{SegmentRef, SegmentTable, Steps};

/// Levels of segments end below this one.
const LEVEL_END: u8 = 8;

/// Parents that take more bytes aren't read to learn whether a segment may begin lower.
const FEW_BYTES: usize = 32;

/// Whether a longer segment may end where this one does. One that begins lower has the id before this one's lowest, which so is a
/// parent of this one.
fn may_begin_lower(segment: &SegmentRef<'_>) -> bool
    ensures { IsTrue result ⊎ ¬ (IsIn ((segment_of segment.now).low - 1) (segment_of segment.now).parents) }
{
    if segment.parents_len() > FEW_BYTES {
        return true;
    }
    let before = segment.low().number().saturating_sub(1);
    let mut rest = segment.parents();
    'parents: while let Some(parent) = rest.next() {
        if parent.number() == before {
            return true;
        }
    }
    false
}

/// Counts the look-ups of the levels from one on as made.
#[inline]
fn pass_levels(first: u8, steps: &mut Steps)
    requires { first ≤ 8 }
    ensures few { steps.new.taken + first ≤ steps.old.taken + 8 }
    ensures counted { min steps.old.taken (2 ^ 64 - 1) ≤ steps.new.taken }
    ensures looked { min (steps.old.taken + (8 - first)) (2 ^ 64 - 1) ≤ steps.new.taken }
{
    steps.tick_by(LEVEL_END - first);
}

/// The first segment of the levels from one on that ends at the id and begins lower than the best of those below; where there is
/// none all levels were asked. `level` is then the one behind.
fn next_lower<'a, T: SegmentTable>(
    table: &'a T,
    id: Id,
    best: &SegmentRef<'a>,
    level: &mut u8,
    steps: &mut Steps,
) -> Option<SegmentRef<'a>>
    requires within { level.old ≤ 8 }
    requires best { IsBest (T.flats table.now) (T.ending_at table.now) level.old id (segment_of best.now) }
    ensures within { level.new ≤ 8 }
    ensures from { level.old ≤ level.new }
    ensures best { MatchOption result (IsBest (T.flats table.now) (T.ending_at table.now) 8 id (segment_of best.now)) (λ s. IsBest (T.flats table.now) (T.ending_at table.now) level.new id (segment_of s)) }
    ensures few { steps.new.taken + level.old ≤ steps.old.taken + level.new }
    ensures counted { min steps.old.taken (2 ^ 64 - 1) ≤ steps.new.taken }
    ensures looked { min (steps.old.taken + (level.new - level.old)) (2 ^ 64 - 1) ≤ steps.new.taken }
    ensures all { MatchOption result (level.new ≡ 8) (λ s. (segment_of s).low < (segment_of best.now).low) }
{
    'levels: while *level < LEVEL_END {
        let other = table.ending(*level, id, steps);
        *level += 1;
        if let Some(segment) = other {
            if segment.low().number() < best.low().number() {
                return Some(segment);
            }
        }
    }
    None
}

/// The segment that begins lowest, of the flat one that has the id and those of the higher levels that end there. It
/// takes at most eight look-ups, and counts as many: where none of the levels above can begin lower, they aren't asked.
#[inline]
pub fn best_jump<'a, T: SegmentTable>(table: &'a T, id: Id, steps: &mut Steps) -> SegmentRef<'a>
    requires { IsHeld (T.flats table.now) id }
    ensures best { IsBest (T.flats table.now) (T.ending_at table.now) 8 id (segment_of result) }
    ensures few { steps.new.taken ≤ steps.old.taken + 8 }
    ensures counted { min steps.old.taken (2 ^ 64 - 1) ≤ steps.new.taken }
    ensures looked { min (steps.old.taken + 8) (2 ^ 64 - 1) ≤ steps.new.taken }
{
    let mut best = table.flat(id, steps).unwrap();
    let mut level = 1u8;
    'longer: while may_begin_lower(&best) {
        let Some(longer) = next_lower(table, id, &best, &mut level, steps) else {
            return best;
        };
        best = longer;
    }
    pass_levels(level, steps);
    best
}

/// At so many ids the levels are asked in vain before a walk pauses.
const MISSES: u32 = 16;

/// A pause is of so many ids at first.
const LEAST_PAUSE: u32 = 16;

/// And of no more than so many.
const MOST_PAUSE: u32 = 512;

/// Whether a walk asks the levels at the next id. Where they often give no longer segment it asks none for a while, each time a
/// longer one: so it saves look-ups in vain, and may take a few flat segments one by one.
#[derive(Clone, Copy, Drop)]
pub(crate) struct Pace {
    misses: u32,
    pause: u32,
    next_pause: u32,
}

impl Pace {
    /// Where a walk begins: the levels are asked.
    pub(crate) fn new() -> Pace
        ensures { result.pause ≡ 0 }
    {
        Pace {
            misses: 0,
            pause: 0,
            next_pause: LEAST_PAUSE,
        }
    }

    /// Whether no level is to be asked at this id.
    #[inline(always)]
    fn is_pausing(&mut self) -> bool
        ensures { result ≡ true → 0 < self.old.pause }
    {
        if self.pause == 0 {
            return false;
        }
        self.pause -= 1;
        true
    }

    /// Notes of which level the segment is that was taken. One of a level above the first makes the next pause short again.
    #[inline(always)]
    fn note(&mut self, level: u8) {
        if level > 0 {
            self.misses = 0;
        }
        if level > 1 {
            self.next_pause = LEAST_PAUSE;
        }
        self.misses = self.misses.saturating_add(1);
        if self.misses > MISSES {
            self.misses = 0;
            self.pause = self.next_pause;
            self.next_pause = self.next_pause.saturating_mul(2).min(MOST_PAUSE);
        }
    }
}

/// The flat segment that has the id. It counts as many look-ups as where the levels are asked.
#[inline(always)]
fn flat_jump<'a, T: SegmentTable>(table: &'a T, id: Id, steps: &mut Steps) -> SegmentRef<'a>
    requires { IsHeld (T.flats table.now) id }
    ensures best { IsBest (T.flats table.now) (T.ending_at table.now) 1 id (segment_of result) }
    ensures few { steps.new.taken ≤ steps.old.taken + 8 }
    ensures counted { min steps.old.taken (2 ^ 64 - 1) ≤ steps.new.taken }
    ensures looked { min (steps.old.taken + 8) (2 ^ 64 - 1) ≤ steps.new.taken }
{
    let segment = table.flat(id, steps).unwrap();
    pass_levels(1, steps);
    segment
}

/// The segment by which a walk goes on from the id: that of `best_jump`, or the flat one while the walk asks no level.
#[inline(always)]
pub(crate) fn paced_jump<'a, T: SegmentTable>(
    table: &'a T,
    id: Id,
    pace: &mut Pace,
    steps: &mut Steps,
) -> SegmentRef<'a>
    requires { IsHeld (T.flats table.now) id }
    ensures jump { IsBest (T.flats table.now) (T.ending_at table.now) 1 id (segment_of result) }
    ensures best { pace.old.pause ≡ 0 → IsBest (T.flats table.now) (T.ending_at table.now) 8 id (segment_of result) }
    ensures few { steps.new.taken ≤ steps.old.taken + 8 }
    ensures counted { min steps.old.taken (2 ^ 64 - 1) ≤ steps.new.taken }
    ensures looked { min (steps.old.taken + 8) (2 ^ 64 - 1) ≤ steps.new.taken }
{
    if pace.is_pausing() {
        return flat_jump(table, id, steps);
    }
    let segment = best_jump(table, id, steps);
    pace.note(segment.level());
    segment
}
