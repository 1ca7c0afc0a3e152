//! Records of a batch, read one after another.

ghost use Rattle.std.specs.Prelude.{◌≡◌, ◌≤◌, ◌<◌, ◌^◌, ◌+◌, ◌-◌, ◌++◌, ◌↔◌, IsTrue, List, ℕ, [], ◌∷◌, length, take, OnOk, OnErr, IfOk, Err};
ghost use Rattle.segment_codec.specs.Record.{Segment, IsSegment};
ghost use Rattle.segment_codec.specs.Lent.{segment_of};
ghost use Rattle.segment_codec.specs.Flat.{IsFlat};
ghost use Rattle.segment_codec.specs.Turns.{goes_on, StandInTurn, IsFirstBroken, place_behind};
ghost use Rattle.flat_segments.specs.Placed.{placed_segments, AreRecords, MasterMayStandAt};
ghost use Rattle.flat_segments.specs.Kept.{kept_of};
ghost use Rattle.flat_segments.specs.declared.fault.FlatFault.{FlatFault as Fault};

use crate::entry::Entry;
use crate::fault::FlatFault;
use id_groups::FIRST_OTHER;
use segment_codec::{SegmentRef, pass_segment};
use std::alloc::AllocError;

/// Whether the record, of which it is told whether it goes on, may come at this place of a batch whose first id is given.
#[inline(always)]
fn may_stand_at(first: u64, place: u64, segment: &SegmentRef<'_>, continues: bool) -> bool
    requires segment { IsSegment (segment_of segment.now) }
    requires continues { continues ≡ goes_on (segment_of segment.now) }
    ensures { IsTrue result ↔ MasterMayStandAt first place (segment_of segment.now) }
{
    segment.level() == 0
        && segment.high().number() < FIRST_OTHER
        && segment.low().number() == place
        && (place == first || !continues)
}

/// Keeps the segment, of which it is told whether it goes on, where it doesn't go on from the one before.
#[inline(always)]
fn keep(
    entries: &mut Vec<Entry>,
    segment: &SegmentRef<'_>,
    place: u64,
    continues: bool,
) -> Result<(), AllocError>
    requires flat { IsFlat (segment_of segment.now) }
    requires continues { continues ≡ goes_on (segment_of segment.now) }
    ensures ok { OnOk result (entries.new.items ≡ entries.old.items ++ kept_of (record { place = place; segment = segment_of segment.now } ∷ [])) }
    ensures err { OnErr result (entries.new.items ≡ entries.old.items) }
{
    if continues {
        return Ok(());
    }
    entries.push(Entry::of(segment, place))?;
    Ok(())
}

/// Keeps the segments of a batch, which begins at an id and whose records stand or will stand at a place, and answers
/// the id behind the last. They are known to be records, so none is looked at twice. On a refusal some of them may have been kept
/// behind those before.
pub(crate) fn append(
    entries: &mut Vec<Entry>,
    first: u64,
    records: &[u8],
    at: u64,
) -> Result<u64, FlatFault>
    requires records { (segments : List Segment) × AreRecords segments records.now × (length segments < 2 ^ 32) }
    requires place { at + length records.now < 2 ^ 63 }
    requires first { first ≤ 2 ^ 56 }
    ensures stand { IfOk result (λ end. (segments : List Segment) → AreRecords segments records.now → StandInTurn (MasterMayStandAt first) first segments) }
    ensures end { IfOk result (λ end. (segments : List Segment) → AreRecords segments records.now → end ≡ place_behind first segments) }
    ensures kept { IfOk result (λ end. (segments : List Segment) → AreRecords segments records.now
        → entries.new.items ≡ entries.old.items ++ kept_of (placed_segments at segments)) }
    ensures small { IfOk result (λ end. end ≤ 2 ^ 56) }
    ensures bad { (segments : List Segment) (k : ℕ) → AreRecords segments records.now → result ≡ Err (Fault.BadSegment k) → IsFirstBroken (MasterMayStandAt first) first segments k }
    ensures err { OnErr result (take (length entries.old.items) entries.new.items ≡ entries.old.items) }
{
    let mut rest = records;
    let mut next = first;
    let mut number = 0u32;
    'records: while !rest.is_empty() {
        let (segment, after) = pass_segment(rest);
        let continues = segment.goes_on();
        if !may_stand_at(first, next, &segment, continues) {
            return Err(FlatFault::BadSegment(number));
        }
        let place = at + (records.len() - rest.len()) as u64;
        keep(entries, &segment, place, continues)?;
        next = segment.high().number() + 1;
        number += 1;
        rest = after;
    }
    Ok(next)
}
