//! The rules of a payload that look at its sections as a whole.

ghost use Rattle.std.specs.Prelude.{◌≡◌, ◌≤◌, ◌<◌, ◌+◌, true, false};
ghost use Rattle.id_groups.specs.Lists.{is_in};
ghost use Rattle.std.specs.Prelude.{nat_eq};
ghost use Rattle.segment_codec.specs.Lent.{segment_of, parents_left};
ghost use Rattle.batch_codec.specs.Reading.{are_known, knows_merge, knows_segment, knows_needed, knows_from, flush_fits, clone_fits, whole_fits, kind_fits};
ghost use Rattle.batch_codec.specs.Lent.{segments_of, lent_ids, payload_in};

use crate::counts::{CLONE, FLUSH, VERSION, WHOLE};
use crate::lent::{KnownSlice, Parts, SegmentSlice};
use segment_codec::{Parents, SegmentRef, read_segment};

/// A place from `low` to before `high`: the one near, if that is one of these.
fn probe(low: u32, high: u32, near: u32) -> u32
    requires { low < high }
    ensures low { low ≤ result }
    ensures high { result < high }
{
    if low <= near && near < high {
        near
    } else {
        low + (high - low) / 2
    }
}

/// So many places above this one or below it.
fn leap_from(place: u32, leap: u32, above: bool) -> u32 {
    if above {
        place.saturating_add(leap)
    } else {
        place.saturating_sub(leap)
    }
}

/// Whether the number is one of a known id. The search begins at the place near, leaps farther and farther from there, and goes on by
/// halves; the place behind the one that was found is kept as near.
fn knows(known: KnownSlice<'_>, number: u64, near: &mut u32) -> bool
    ensures { result ≡ is_in nat_eq number (lent_ids known.entry) }
{
    let mut low = 0u32;
    let mut high = known.count;
    let mut leap = 1u32;
    'search: while low < high {
        let middle = probe(low, high, *near);
        let found = known.number_at(middle);
        if found == number {
            *near = middle + 1;
            return true;
        }
        let above = found < number;
        *near = leap_from(middle, leap, above);
        leap = leap.saturating_mul(2);
        (low, high) = narrowed(low, middle, high, above);
    }
    false
}

/// The upper or the lower part of a range, without its middle.
fn narrowed(low: u32, middle: u32, high: u32, above: bool) -> (u32, u32)
    requires { middle < high }
    ensures above { above ≡ true → result ≡ (middle + 1, high) }
    ensures below { above ≡ false → result ≡ (low, middle) }
{
    if above {
        (middle + 1, high)
    } else {
        (low, middle)
    }
}

/// Whether each parent is known, which is sought near a place.
fn knows_all(known: KnownSlice<'_>, parents: Parents<'_>, near: u32) -> bool
    ensures { result ≡ are_known (lent_ids known.entry) (parents_left parents.entry) }
{
    let mut rest = parents;
    let mut near = near;
    'parents: while let Some(parent) = rest.next() {
        if !knows(known, parent.number(), &mut near) {
            return false;
        }
    }
    true
}

/// Whether the segment begins with no merge, or its parents are known, which are sought near a place.
fn knows_merge_of(known: KnownSlice<'_>, segment: SegmentRef<'_>, near: u32) -> bool
    ensures { result ≡ knows_merge (lent_ids known.entry) (segment_of segment.entry).parents }
{
    let mut parents = segment.parents();
    if parents.next().is_none() {
        return true;
    }
    if parents.next().is_none() {
        return true;
    }
    knows_all(known, segment.parents(), near)
}

/// Whether the segment begins behind the cloned ids, or the greatest cloned id in it, and its parents if it begins with a merge,
/// are known. They are sought near a place, which goes up with the segments.
fn knows_segment_of(
    known: KnownSlice<'_>,
    segment: SegmentRef<'_>,
    cloned: u64,
    near: &mut u32,
) -> bool
    ensures { result ≡ knows_segment cloned (lent_ids known.entry) (segment_of segment.entry) }
{
    let greatest = segment.high().number().min(cloned.saturating_sub(1));
    cloned <= segment.low().number()
        || (knows(known, greatest, near) && knows_merge_of(known, segment, *near))
}

/// Whether of each record that begins below the cloned count the greatest cloned id, and each parent of a merge, is known.
fn knows_what_is_needed(known: KnownSlice<'_>, section: SegmentSlice<'_>, cloned: u64) -> bool
    ensures { result ≡ knows_needed cloned (lent_ids known.entry) (segments_of section.entry) }
{
    let mut rest = section.bytes;
    let mut near = 0;
    'records: for _ in 0..section.count {
        let Some((segment, after)) = read_segment(rest) else {
            return true;
        };
        if !knows_segment_of(known, segment, cloned, &mut near) {
            return false;
        }
        rest = after;
    }
    true
}

/// Whether the known ids, which ascend below `after`, are all those from the cloned count on.
fn knows_behind(known: KnownSlice<'_>, cloned: u64, after: u64) -> bool
    ensures { result ≡ knows_from cloned after (lent_ids known.entry) }
{
    if after <= cloned {
        return true;
    }
    let more = after - cloned;
    let count = u64::from(known.count);
    if count < more {
        return false;
    }
    known.number_at((count - more) as u32) == cloned
}

fn is_flush(batch: &Parts<'_>) -> bool
    requires { (payload_in batch.now).before ≤ (payload_in batch.now).after }
    ensures { result ≡ flush_fits (payload_in batch.now) }
{
    batch.cloned == 0
        && u64::from(batch.known.len()) == batch.after - batch.before
        && batch.heads.len() == 0
        && (batch.after > 0 || batch.other_names.len() > 0)
}

fn is_clone(batch: &Parts<'_>) -> bool
    ensures { result ≡ clone_fits (payload_in batch.now) }
{
    batch.cloned == batch.after
        && batch.before == 0
        && batch.after > 0
        && batch.other_names.len() == 0
        && knows_what_is_needed(batch.known, batch.master, batch.cloned)
}

fn is_whole(batch: &Parts<'_>) -> bool
    ensures { result ≡ whole_fits (payload_in batch.now) }
{
    batch.version == VERSION
        && batch.cloned <= batch.after
        && batch.before == 0
        && (batch.after > 0 || batch.other_names.len() > 0)
        && knows_behind(batch.known, batch.cloned, batch.after)
        && knows_what_is_needed(batch.known, batch.master, batch.cloned)
}

/// Whether the payload keeps the rules of its kind.
pub fn has_kind(batch: &Parts<'_>) -> bool
    requires { (payload_in batch.now).before ≤ (payload_in batch.now).after }
    ensures { result ≡ kind_fits (payload_in batch.now) }
{
    match batch.kind {
        FLUSH => is_flush(batch),
        CLONE => is_clone(batch),
        WHOLE => is_whole(batch),
        _ => false,
    }
}
