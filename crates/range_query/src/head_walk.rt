//! The members without a child among the members.

ghost use Rattle.std.specs.Prelude.{◌≡◌, ℕ, [], ◌<◌, ◌≤◌, ◌+◌, ◌⊎◌, ◌↔◌, ◌-◌, ◌^◌, Some, IfOk, OnOk, IsTrue, max, min};
ghost use Rattle.id_groups.specs.Lists.{IsIn};
ghost use Rattle.id_groups.specs.Span.{IsSpan, IsInSpan};
ghost use Rattle.commit_graph.specs.Sets as sets;
ghost use Rattle.segment_codec.specs.Lent.{segment_of};
ghost use Rattle.segment_codec.specs.Table.{IsHeld, parents_in};
ghost use Rattle.span_set.specs.Members.{IsMember, IsCanonical};
ghost use Rattle.ancestor_query.specs.Graph.{table_graph};
ghost use Rattle.ancestor_query.specs.Visits.{Keeps};
ghost use Rattle.range_query.specs.Ends.{HeadsFrom};

use crate::place::{flat_down, place_in};
use ancestor_query::WorkList;
use id_groups::{Id, IdSpan};
use segment_codec::{SegmentRef, SegmentTable, Steps};
use span_set::IdSet;
use std::alloc::{AllocError, Global};

/// Whether the id waits. Those above it are dropped.
#[inline(always)]
fn is_waiting(waiting: &mut WorkList, id: Id) -> bool
    ensures keeps { Keeps waiting.old waiting.new (id + 1) }
    ensures found { IsTrue result ↔ IsIn id waiting.old }
{
    match waiting.next_below(id.number() + 1) {
        Some(top) => top.number() == id.number(),
        None => false,
    }
}

/// Adds the id where it doesn't wait. Those that wait above it are dropped.
#[inline(always)]
fn add_head(answer: &mut IdSet, waiting: &mut WorkList, id: Id) -> Result<(), AllocError>
    ensures keeps { OnOk result (Keeps waiting.old waiting.new (id + 1)) }
    ensures members { OnOk result ((x : ℕ) → IsMember answer.new x ↔ (IsMember answer.old x ⊎ ((x ≡ id) × ¬ (IsIn id waiting.old)))) }
    ensures canonical { IsCanonical answer.old → IsCanonical answer.new }
{
    if !is_waiting(waiting, id) {
        answer.push_below(id)?;
    }
    Ok(())
}

/// Lets the parents of the lowest of the segment's ids from `low` on wait. It answers this id.
#[inline(always)]
fn push_parents(
    waiting: &mut WorkList,
    segment: SegmentRef<'_>,
    low: u64,
) -> Result<u64, AllocError>
    requires small { low < 2 ^ 57 }
    ensures lowest { IfOk result (λ r. r ≡ max (segment_of segment.entry).low low) }
    ensures all { IfOk result (λ r. (x : ℕ) → IsIn x waiting.new ↔ (IsIn x waiting.old ⊎ IsIn x (parents_in (Some (segment_of segment.entry)) r))) }
{
    let lowest = segment.low().number();
    if lowest < low {
        waiting.push(Id::from_number(low - 1))?;
        return Ok(low);
    }
    waiting.push_all(segment.parents())?;
    Ok(lowest)
}

/// Adds the heads among the ids of the span, all of which are members, a segment at a time: of its ids only the highest may
/// be one. What waits are the parents of the members above.
fn add_heads<T: SegmentTable>(
    answer: &mut IdSet,
    waiting: &mut WorkList,
    table: &T,
    set: &IdSet,
    span: IdSpan,
    steps: &mut Steps,
) -> Result<(), AllocError>
    requires span { IsSpan span }
    requires inside { (x : ℕ) → IsInSpan x span → IsMember set.now x }
    requires held { (x : ℕ) → IsInSpan x span → IsHeld (T.flats table.now) x }
    requires above { HeadsFrom (T.flats table.now) set.now (span.high + 1) answer.old waiting.old }
    ensures heads { OnOk result (HeadsFrom (T.flats table.now) set.now span.low answer.new waiting.new) }
    ensures canonical { IsCanonical answer.old → IsCanonical answer.new }
    ensures counted { min steps.old.taken (2 ^ 64 - 1) ≤ steps.new.taken }
{
    let low = span.low.number();
    let mut end = span.high.number() + 1;
    let mut place = place_in(table, span, steps);
    'parts: while low < end {
        let id = Id::from_number(end - 1);
        let segment = flat_down(table, id, &mut place, steps);
        add_head(answer, waiting, id)?;
        end = push_parents(waiting, segment, low)?;
    }
    Ok(())
}

/// Adds the heads. Nothing waits before.
fn add_all_heads<T: SegmentTable>(
    answer: &mut IdSet,
    waiting: &mut WorkList,
    table: &T,
    set: &IdSet,
    steps: &mut Steps,
) -> Result<(), AllocError>
    requires held { (x : ℕ) → IsMember set.now x → IsHeld (T.flats table.now) x }
    requires answer { answer.old ≡ [] }
    requires waiting { waiting.old ≡ [] }
    ensures members { OnOk result ((x : ℕ) → IsMember answer.new x ↔ sets.heads (table_graph (T.flats table.now)) (IsMember set.now) x) }
    ensures canonical { IsCanonical answer.old → IsCanonical answer.new }
    ensures counted { min steps.old.taken (2 ^ 64 - 1) ≤ steps.new.taken }
{
    'spans: for span in set.spans() {
        add_heads(answer, waiting, table, set, *span, steps)?;
    }
    Ok(())
}

/// The members that are no parent of a member; another member may still reach them. Each member is an id of the table. It
/// takes a look-up for each part of a span in one flat segment, and finds the place of a long span by halving. `AllocError`
/// only for want of memory.
pub fn heads<T: SegmentTable>(
    alloc: Global,
    table: &T,
    set: &IdSet,
    steps: &mut Steps,
) -> Result<IdSet, AllocError>
    requires { (x : ℕ) → IsMember set.now x → IsHeld (T.flats table.now) x }
    ensures members { IfOk result (λ r. (x : ℕ) → IsMember r x ↔ sets.heads (table_graph (T.flats table.now)) (IsMember set.now) x) }
    ensures canonical { IfOk result IsCanonical }
    ensures counted { min steps.old.taken (2 ^ 64 - 1) ≤ steps.new.taken }
{
    let mut answer = IdSet::empty(alloc);
    let mut waiting = WorkList::empty(alloc);
    add_all_heads(&mut answer, &mut waiting, table, set, steps)?;
    Ok(answer)
}
