//! Whether records are those of the segments that came since levels had less: none is written to tell.

ghost use Rattle.std.specs.Prelude.{◌≡◌, ◌<◌, ◌+◌, ◌++◌, ◌↔◌, ℕ, List, IsTrue, length, drop, flat_map, MatchOption};
ghost use Rattle.segment_codec.specs.Record.{Segment, IsSegment, segment_bytes};
ghost use Rattle.segment_codec.specs.Lent.{segment_of};
ghost use Rattle.segment_rules.specs.NewLevels.{new_levels};
ghost use Rattle.id_groups.specs.Lists.{IsIn};
ghost use Rattle.high_segments.specs.Growing.{HasFrom};
ghost use Rattle.high_segments.specs.Storing.{HasNewAt, CameSince};

use crate::held::held;
use crate::kept::{KeptLevel, Mark};
use crate::levels::{Levels, LevelsMark};
use segment_codec::{SegmentRef, read_segment, strip_short};

/// Whether both are the same segment.
#[inline(always)]
fn is_same(a: SegmentRef<'_>, b: SegmentRef<'_>) -> bool
    ensures { IsTrue result ↔ (segment_of a.entry ≡ segment_of b.entry) }
{
    a.high().number() == b.high().number()
        && a.low().number() == b.low().number()
        && a.level() == b.level()
        && a.parents_bytes() == b.parents_bytes()
}

/// What stands behind the record of the segment; `None` exactly where it doesn't stand in front. A short one isn't read.
#[inline(always)]
fn strip_record<'a>(bytes: &'a [u8], segment: SegmentRef<'_>) -> Option<&'a [u8]>
    requires { IsSegment (segment_of segment) }
    ensures { MatchOption result ((rest : List ℕ) → bytes.now ≡ segment_bytes (segment_of segment.entry) ++ rest → ⊥)
        (λ rest. bytes.now ≡ segment_bytes (segment_of segment.entry) ++ rest.now) }
{
    if let Some(behind) = strip_short(bytes, segment) {
        return Some(behind);
    }
    let (found, rest) = read_segment(bytes)?;
    if is_same(found, segment) {
        return Some(rest);
    }
    None
}

/// What stands behind the records of the segments of a level from an id on, at which one begins, up to the end of the last of these
/// levels, whose number they have; `None` exactly where they don't stand in front. The search for the first begins at a place.
fn strip_segments<'a>(
    bytes: &'a [u8],
    levels: &[KeptLevel],
    top: &KeptLevel,
    start: u64,
    near: usize,
) -> Option<&'a [u8]>
    requires { (segments : List Segment) × (from : ℕ) × HasFrom levels.now top.now segments from start × ((s : Segment) → IsIn s segments → IsSegment s) }
    ensures { (segments : List Segment) (from : ℕ) → HasFrom levels.now top.now segments from start
        → MatchOption result ((rest : List ℕ) → bytes.now ≡ flat_map segment_bytes (drop from segments) ++ rest → ⊥)
        (λ rest. bytes.now ≡ flat_map segment_bytes (drop from segments) ++ rest.now) }
{
    let mut rest = bytes;
    let mut id = start;
    let mut place = near;
    'ids: while id < top.end() {
        let segment = held(levels, id, &mut place).unwrap().at_level(top.level());
        rest = strip_record(rest, segment)?;
        id = segment.high().number() + 1;
        place = place.saturating_add(1);
    }
    Some(rest)
}

/// What stands behind the records of the segments of the level at place `k` from the mark's end on; `None` exactly where they
/// don't stand in front.
fn strip_level<'a>(bytes: &'a [u8], levels: &[KeptLevel], k: usize, mark: Mark) -> Option<&'a [u8]>
    requires within { k < length levels.now }
    requires new { (segments : List Segment) × (from : ℕ) × HasNewAt levels.now k segments from mark.end }
    ensures { (segments : List Segment) (from : ℕ) → HasNewAt levels.now k segments from mark.end
        → MatchOption result ((rest : List ℕ) → bytes.now ≡ flat_map segment_bytes (drop from segments) ++ rest → ⊥)
        (λ rest. bytes.now ≡ flat_map segment_bytes (drop from segments) ++ rest.now) }
{
    let near = mark.count.saturating_add(1);
    let (front, _) = levels.split_at(k + 1);
    strip_segments(bytes, front, &levels[k], mark.end, near)
}

/// What stands behind the records of the segments that came since the levels had so much, by level and then by low; `None` exactly
/// where they don't stand in front.
fn strip_new<'a>(bytes: &'a [u8], levels: &[KeptLevel], marks: &[Mark]) -> Option<&'a [u8]>
    requires { (old : List Segment) × (new : List Segment) × CameSince marks.now levels.now old new }
    ensures { (old new : List Segment) → CameSince marks.now levels.now old new
        → MatchOption result ((rest : List ℕ) → bytes.now ≡ flat_map segment_bytes (new_levels old new) ++ rest → ⊥)
        (λ rest. bytes.now ≡ flat_map segment_bytes (new_levels old new) ++ rest.now) }
{
    let mut rest = bytes;
    'levels: for i in 0..levels.len() {
        rest = strip_level(rest, levels, i, marks[i])?;
    }
    Some(rest)
}

impl Levels {
    /// Whether the bytes are exactly the records of the segments that came since the mark, by level and then by low.
    pub fn are_since(&self, mark: &LevelsMark, bytes: &[u8]) -> bool
        requires { (old : List Segment) × (new : List Segment) × CameSince mark.now.marks self.now.levels old new }
        ensures { (old new : List Segment) → CameSince mark.now.marks self.now.levels old new
            → IsTrue result ↔ (bytes.now ≡ flat_map segment_bytes (new_levels old new)) }
    {
        match strip_new(bytes, self.lend(), &mark.marks) {
            Some(rest) => rest.is_empty(),
            None => false,
        }
    }
}
