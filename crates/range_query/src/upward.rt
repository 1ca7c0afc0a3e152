//! What reaches the members of a set.

ghost use Rattle.std.specs.Prelude.{ℕ, ◌-◌, ◌<◌, ◌≤◌, ◌^◌, ◌⊎◌, ◌↔◌, length, drop, slice_index_or, IfOk, OnOk, min};
ghost use Rattle.commit_graph.specs.Sets as sets;
ghost use Rattle.segment_codec.specs.Lent.{segment_of};
ghost use Rattle.segment_codec.specs.Table.{IsHeld};
ghost use Rattle.span_set.specs.Members.{IsMember, IsCanonical};
ghost use Rattle.ancestor_query.specs.Graph.{table_graph};
ghost use Rattle.range_query.specs.Parts.{StandBelow, Enters, IsReachedIn};
ghost use Rattle.range_query.specs.Rising.{Lowest};

use crate::place::{count_below, lowest_of};
use crate::rising::Rising;
use id_groups::{Id, IdSpan};
use segment_codec::{SegmentRef, SegmentTable, Steps};
use span_set::IdSet;
use std::alloc::{AllocError, Global};

/// How many of the first `left` spans don't end below the id.
pub(crate) fn skip_below(spans: &[IdSpan], left: usize, id: Id) -> usize
    requires { left ≤ length spans.now }
    ensures within { result ≤ length spans.now }
    ensures passed { StandBelow id (drop left spans.now) → StandBelow id (drop result spans.now) }
    ensures stop { (d : _) → 0 < result → id ≤ (slice_index_or spans.now (result - 1) d).high }
{
    let mut to = left;
    'skip: while to > 0 && spans[to - 1].high.number() < id.number() {
        to -= 1;
    }
    to
}

/// The least member among the segment's ids up to `high`. The spans from `left` on end below the segment, the others don't.
pub(crate) fn least_in(
    spans: &[IdSpan],
    left: usize,
    segment: SegmentRef<'_>,
    high: Id,
) -> Option<Id>
    requires canonical { IsCanonical spans.now }
    requires within { left ≤ length spans.now }
    requires passed { StandBelow (segment_of segment).low (drop left spans.now) }
    requires stop { (d : _) → 0 < left → (segment_of segment).low ≤ (slice_index_or spans.now (left - 1) d).high }
    ensures { Lowest (IsMember spans.now) (segment_of segment.entry).low high result }
{
    if left == 0 {
        return None;
    }
    let least = spans[left - 1].low.number();
    let low = least.max(segment.low().number());
    if low > high.number() {
        return None;
    }
    Some(Id::from_number(low))
}

/// The lowest id of the segment that is in the answer, up to `high`: its lowest where a parent of that is held so far,
/// else its least member. The spans from `left` on end below the segment, the others don't.
fn lowest_in(
    answer: &Rising,
    spans: &[IdSpan],
    left: usize,
    segment: SegmentRef<'_>,
    high: Id,
) -> Option<Id>
    requires canonical { IsCanonical spans.now }
    requires within { left ≤ length spans.now }
    requires passed { StandBelow (segment_of segment).low (drop left spans.now) }
    requires stop { (d : _) → 0 < left → (segment_of segment).low ≤ (slice_index_or spans.now (left - 1) d).high }
    requires upper { (segment_of segment).low ≤ high }
    ensures { Lowest (Enters answer.now spans.now (segment_of segment.entry)) (segment_of segment.entry).low high result }
{
    if answer.has_parent_of(segment) {
        return Some(segment.low());
    }
    least_in(spans, left, segment, high)
}

/// Adds the ids of the segment that reach a member: those from its lowest that does. The spans of the set
/// from `left` on end below the segment; it answers from which one on they do.
fn add_part(
    answer: &mut Rising,
    set: &IdSet,
    left: usize,
    segment: SegmentRef<'_>,
) -> Result<usize, AllocError>
    requires within { left ≤ length set.now }
    requires passed { StandBelow (segment_of segment).low (drop left set.now) }
    requires over { StandBelow (segment_of segment).low answer.old }
    requires group { (segment_of segment).low < 2 ^ 56 → (segment_of segment).high < 2 ^ 56 }
    ensures within { IfOk result (λ to. to ≤ length set.now) }
    ensures passed { IfOk result (λ to. StandBelow (segment_of segment.entry).low (drop to set.now)) }
    ensures stop { IfOk result (λ to. (d : _) → 0 < to → (segment_of segment.entry).low ≤ (slice_index_or set.now (to - 1) d).high) }
    ensures members { OnOk result ((x : ℕ) → IsMember answer.new x ↔ (IsMember answer.old x ⊎ IsReachedIn answer.old set.now (segment_of segment.entry) x)) }
{
    let spans = set.spans();
    let to = skip_below(spans, left, segment.low());
    let high = segment.high();
    let Some(low) = lowest_in(answer, spans, to, segment, high) else {
        return Ok(to);
    };
    answer.push(IdSpan { low, high })?;
    Ok(to)
}

/// The ids that reach some member along parents, the members among them. Each member is an id of the table. It goes over
/// the flat segments from the one that has the lowest member up to the last. `AllocError` only for want of memory.
pub fn descendants<T: SegmentTable>(
    alloc: Global,
    table: &T,
    set: &IdSet,
    steps: &mut Steps,
) -> Result<IdSet, AllocError>
    requires { (x : ℕ) → IsMember set.now x → IsHeld (T.flats table.now) x }
    ensures members { IfOk result (λ r. (x : ℕ) → IsMember r x ↔ sets.descendants (table_graph (T.flats table.now)) (IsMember set.now) x) }
    ensures canonical { IfOk result IsCanonical }
    ensures counted { min steps.old.taken (2 ^ 64 - 1) ≤ steps.new.taken }
{
    let mut answer = Rising::empty(alloc);
    let Some(lowest) = lowest_of(set.spans()) else {
        return Ok(IdSet::empty(alloc));
    };
    let from = count_below(table, lowest, steps);
    let mut left = set.spans().len();
    'up: for k in from..table.flat_count() {
        let segment = table.flat_at(k, steps);
        left = add_part(&mut answer, set, left, segment)?;
    }
    let found = answer.to_set(alloc)?;
    Ok(found)
}
