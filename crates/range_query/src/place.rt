//! Where a walk over the segments begins.

ghost use Rattle.std.specs.Prelude.{◌≡◌, ℕ, ◌+◌, ◌-◌, ◌<◌, ◌≤◌, ◌^◌, length, [], MatchOption, IfSome, Some, min};
ghost use Rattle.segment_codec.specs.Lent.{segment_of};
ghost use Rattle.segment_codec.specs.Table.{IsHeld, segment_at};
ghost use Rattle.span_set.specs.Members.{IsMember, IsCanonical};
ghost use Rattle.range_query.specs.Places.{IsPlace, IsEndAt};

use id_groups::{Id, IdSpan};
use segment_codec::{SegmentRef, SegmentTable, Steps};

/// In spans with fewer ids a walk down looks its few segments up one by one.
const LONG: u64 = 256;

/// How many flat segments end below the id, by halving.
pub(crate) fn count_below<T: SegmentTable>(table: &T, id: Id, steps: &mut Steps) -> u32
    ensures within { result ≤ length (T.flats table.now) }
    ensures place { IsPlace (T.flats table.now) id result }
    ensures fits { length (T.flats table.now) < 2 ^ 32 }
    ensures counted { min steps.old.taken (2 ^ 64 - 1) ≤ steps.new.taken }
{
    let mut low = 0;
    let mut high = table.flat_count();
    'halve: while low < high {
        let middle = low + (high - low) / 2;
        let segment = table.flat_at(middle, steps);
        if segment.high().number() < id.number() {
            low = middle + 1;
        } else {
            high = middle;
        }
    }
    low
}

/// Where a walk down over the span begins: the place of the segment that has its highest id, and no segment's place where the
/// span is short.
pub(crate) fn place_in<T: SegmentTable>(table: &T, span: IdSpan, steps: &mut Steps) -> u32
    ensures { min steps.old.taken (2 ^ 64 - 1) ≤ steps.new.taken }
{
    if span.high.number().saturating_sub(span.low.number()) < LONG {
        return u32::MAX;
    }
    count_below(table, span.high, steps)
}

/// The flat segment at the place, where it has the id.
#[inline(always)]
fn flat_there<'a, T: SegmentTable>(
    table: &'a T,
    id: Id,
    place: u32,
    steps: &mut Steps,
) -> Option<SegmentRef<'a>>
    ensures found { IfSome result (λ s. segment_at (T.flats table.now) id ≡ Some (segment_of s)) }
    ensures end { IfSome result (λ s. IsEndAt (T.flats table.now) id (place + 1)) }
    ensures next { IfSome result (λ s. place + 1 < 2 ^ 32) }
    ensures counted { min steps.old.taken (2 ^ 64 - 1) ≤ steps.new.taken }
{
    if place >= table.flat_count() {
        return None;
    }
    let segment = table.flat_at(place, steps);
    if id.number() < segment.low().number() || segment.high().number() < id.number() {
        return None;
    }
    Some(segment)
}

/// The flat segment that has the id. It is expected at a place, which then moves down by one: so a walk down by flat segments
/// searches for none. Where another segment is there, or none, the id is looked up.
#[inline(always)]
pub(crate) fn flat_down<'a, T: SegmentTable>(
    table: &'a T,
    id: Id,
    place: &mut u32,
    steps: &mut Steps,
) -> SegmentRef<'a>
    requires { IsHeld (T.flats table.now) id }
    ensures found { segment_at (T.flats table.now) id ≡ Some (segment_of result) }
    ensures counted { min steps.old.taken (2 ^ 64 - 1) ≤ steps.new.taken }
{
    match flat_there(table, id, *place, steps) {
        Some(segment) => {
            *place = place.saturating_sub(1);
            segment
        }
        None => table.flat(id, steps).unwrap(),
    }
}

/// How many flat segments there are up to the one that has the id, which is expected at a place. Where another segment is
/// there, or none, it takes halving.
pub(crate) fn count_to<T: SegmentTable>(table: &T, id: Id, place: u32, steps: &mut Steps) -> u32
    requires { IsHeld (T.flats table.now) id }
    ensures end { IsEndAt (T.flats table.now) id result }
    ensures counted { min steps.old.taken (2 ^ 64 - 1) ≤ steps.new.taken }
{
    match flat_there(table, id, place, steps) {
        Some(_) => place + 1,
        None => count_below(table, id, steps) + 1,
    }
}

/// The lowest id of the spans of a set; `None` exactly where there is none.
pub(crate) fn lowest_of(spans: &[IdSpan]) -> Option<Id>
    requires { IsCanonical spans.now }
    ensures { MatchOption result (spans.now ≡ []) (λ low. IsMember spans.now low × ((x : ℕ) → IsMember spans.now x → low ≤ x)) }
{
    if spans.is_empty() {
        return None;
    }
    Some(spans[spans.len() - 1].low)
}
