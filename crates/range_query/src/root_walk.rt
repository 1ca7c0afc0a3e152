//! The members without a parent among the members.

ghost use Rattle.std.specs.Prelude.{◌≡◌, ℕ, ◌<◌, ◌≤◌, ◌⊎◌, ◌↔◌, ◌-◌, ◌^◌, Some, IfOk, OnOk, IsTrue, max, min};
ghost use Rattle.id_groups.specs.Span.{IsSpan, IsInSpan};
ghost use Rattle.commit_graph.specs.Sets as sets;
ghost use Rattle.segment_codec.specs.Lent.{segment_of};
ghost use Rattle.segment_codec.specs.Table.{IsHeld};
ghost use Rattle.span_set.specs.Members.{IsMember, IsCanonical};
ghost use Rattle.ancestor_query.specs.Graph.{table_graph};
ghost use Rattle.range_query.specs.Parts.{HasParentOf};

use crate::child_walk::has_parent_in;
use crate::place::{flat_down, place_in};
use id_groups::{Id, IdSpan};
use segment_codec::{SegmentRef, SegmentTable, Steps};
use span_set::IdSet;
use std::alloc::{AllocError, Global};

/// Whether a parent of one of the segment's ids is a member.
fn has_parent_of(set: &IdSet, segment: SegmentRef<'_>, id: u64) -> bool
    requires from { (segment_of segment).low ≤ id }
    requires small { id < 2 ^ 57 }
    ensures { IsTrue result ↔ HasParentOf set.now (segment_of segment.entry) id }
{
    if segment.low().number() < id {
        return set.contains(Id::from_number(id - 1));
    }
    has_parent_in(set, segment)
}

/// Adds the lowest of the segment's ids from `low` on where no parent of it is a member. It answers this id.
fn add_lowest(
    answer: &mut IdSet,
    set: &IdSet,
    segment: SegmentRef<'_>,
    low: u64,
) -> Result<u64, AllocError>
    requires small { low < 2 ^ 57 }
    ensures lowest { IfOk result (λ r. r ≡ max (segment_of segment.entry).low low) }
    ensures members { IfOk result (λ r. (x : ℕ) → IsMember answer.new x ↔ (IsMember answer.old x ⊎ ((x ≡ r) × ¬ (HasParentOf set.now (segment_of segment.entry) r)))) }
    ensures canonical { IsCanonical answer.old → IsCanonical answer.new }
{
    let lowest = segment.low().number().max(low);
    if !has_parent_of(set, segment, lowest) {
        answer.insert_span(IdSpan::single(Id::from_number(lowest)))?;
    }
    Ok(lowest)
}

/// Adds the ids of the span, all of which are members, that are no child of a member, a segment at a time: of its ids only
/// the lowest may be one.
fn add_roots<T: SegmentTable>(
    answer: &mut IdSet,
    table: &T,
    set: &IdSet,
    span: IdSpan,
    steps: &mut Steps,
) -> Result<(), AllocError>
    requires span { IsSpan span }
    requires inside { (x : ℕ) → IsInSpan x span → IsMember set.now x }
    requires held { (x : ℕ) → IsInSpan x span → IsHeld (T.flats table.now) x }
    ensures members { OnOk result ((x : ℕ) → IsMember answer.new x
        ↔ (IsMember answer.old x ⊎ (IsInSpan x span × ¬ (sets.children (table_graph (T.flats table.now)) (IsMember set.now) x)))) }
    ensures canonical { IsCanonical answer.old → IsCanonical answer.new }
    ensures counted { min steps.old.taken (2 ^ 64 - 1) ≤ steps.new.taken }
{
    let low = span.low.number();
    let mut end = span.high.number() + 1;
    let mut place = place_in(table, span, steps);
    'parts: while low < end {
        let segment = flat_down(table, Id::from_number(end - 1), &mut place, steps);
        end = add_lowest(answer, set, segment, low)?;
    }
    Ok(())
}

/// The members that are no child of a member. Each member is an id of the table. It takes a look-up for each part of a span
/// in one flat segment, and finds the place of a long span by halving. `AllocError` only for want of memory.
pub fn roots<T: SegmentTable>(
    alloc: Global,
    table: &T,
    set: &IdSet,
    steps: &mut Steps,
) -> Result<IdSet, AllocError>
    requires { (x : ℕ) → IsMember set.now x → IsHeld (T.flats table.now) x }
    ensures members { IfOk result (λ r. (x : ℕ) → IsMember r x ↔ sets.roots (table_graph (T.flats table.now)) (IsMember set.now) x) }
    ensures canonical { IfOk result IsCanonical }
    ensures counted { min steps.old.taken (2 ^ 64 - 1) ≤ steps.new.taken }
{
    let mut answer = IdSet::empty(alloc);
    'spans: for span in set.spans() {
        add_roots(&mut answer, table, set, *span, steps)?;
    }
    Ok(answer)
}
