//! The merges among the members of a set.

ghost use Rattle.std.specs.Prelude.{ℕ, ◌≤◌, ◌⊎◌, ◌↔◌, length, IfOk, OnOk, IsTrue, ◌-◌, ◌^◌, min};
ghost use Rattle.id_groups.specs.Span.{IsInSpan};
ghost use Rattle.commit_graph.specs.Sets as sets;
ghost use Rattle.segment_codec.specs.Number.{number_bytes};
ghost use Rattle.segment_codec.specs.Lent.{segment_of};
ghost use Rattle.segment_codec.specs.Table.{IsHeld, parents_at};
ghost use Rattle.span_set.specs.Members.{IsMember, IsCanonical};
ghost use Rattle.ancestor_query.specs.Graph.{table_graph};
ghost use Rattle.range_query.specs.Parts.{IsMergeIn};

use crate::place::count_below;
use id_groups::IdSpan;
use segment_codec::{SegmentRef, SegmentTable, Steps, number_len};
use span_set::IdSet;
use std::alloc::{AllocError, Global};

/// Whether the segment's lowest id has two or more parents. One parent takes at most `longest` bytes, so of most merges
/// the number of their bytes tells it, and none is read.
#[inline(always)]
fn begins_with_merge(segment: SegmentRef<'_>, longest: usize) -> bool
    requires { (n : ℕ) → n ≤ (segment_of segment).low → length (number_bytes n) ≤ longest }
    ensures { IsTrue result ↔ (2 ≤ length (segment_of segment.entry).parents) }
{
    if segment.parents_len() > longest {
        return true;
    }
    let mut parents = segment.parents();
    parents.next().is_some() && parents.next().is_some()
}

/// Adds the lowest id of the segment where it is a merge and one of the span's ids. None of these takes more than
/// `longest` bytes.
#[inline(always)]
fn add_lowest(
    answer: &mut IdSet,
    span: &IdSpan,
    segment: SegmentRef<'_>,
    longest: usize,
) -> Result<(), AllocError>
    requires { (n : ℕ) → n ≤ span.now.high → length (number_bytes n) ≤ longest }
    ensures members { OnOk result ((x : ℕ) → IsMember answer.new x ↔ (IsMember answer.old x ⊎ IsMergeIn span.now (segment_of segment.entry) x)) }
    ensures canonical { IsCanonical answer.old → IsCanonical answer.new }
{
    let low = segment.low().number();
    if low < span.low.number() || span.high.number() < low {
        return Ok(());
    }
    if begins_with_merge(segment, longest) {
        answer.push_below(segment.low())?;
    }
    Ok(())
}

/// Adds the merges among the span's ids. It goes down over the flat segments that have an id of the span.
#[inline(never)]
fn add_merges<T: SegmentTable>(
    answer: &mut IdSet,
    table: &T,
    span: &IdSpan,
    steps: &mut Steps,
) -> Result<(), AllocError>
    requires { IsHeld (T.flats table.now) span.now.high }
    ensures members { OnOk result ((x : ℕ) → IsMember answer.new x
        ↔ (IsMember answer.old x ⊎ (IsInSpan x span.now × (2 ≤ length (parents_at (T.flats table.now) x))))) }
    ensures canonical { IsCanonical answer.old → IsCanonical answer.new }
    ensures counted { min steps.old.taken (2 ^ 64 - 1) ≤ steps.new.taken }
{
    let end = count_below(table, span.high, steps) + 1;
    let longest = number_len(span.high.number());
    'down: for k in (0..end).rev() {
        let segment = table.flat_at(k, steps);
        if segment.high().number() < span.low.number() {
            return Ok(());
        }
        add_lowest(answer, span, segment, longest)?;
    }
    Ok(())
}

/// The members with two or more parents. Each member is an id of the table. It finds the place of each span by halving,
/// and goes over the flat segments that have an id of it. `AllocError` only for want of memory.
pub fn merges<T: SegmentTable>(
    alloc: Global,
    table: &T,
    set: &IdSet,
    steps: &mut Steps,
) -> Result<IdSet, AllocError>
    requires { (x : ℕ) → IsMember set.now x → IsHeld (T.flats table.now) x }
    ensures members { IfOk result (λ r. (x : ℕ) → IsMember r x ↔ sets.merges (table_graph (T.flats table.now)) (IsMember set.now) x) }
    ensures canonical { IfOk result IsCanonical }
    ensures counted { min steps.old.taken (2 ^ 64 - 1) ≤ steps.new.taken }
{
    let mut answer = IdSet::empty(alloc);
    'spans: for span in set.spans() {
        add_merges(&mut answer, table, span, steps)?;
    }
    Ok(answer)
}
