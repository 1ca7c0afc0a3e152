//! What lies on the ways from one set down to another.

ghost use Rattle.std.specs.Prelude.{◌≡◌, ℕ, [], ◌+◌, ◌-◌, ◌<◌, ◌≤◌, ◌^◌, ◌⊎◌, ◌↔◌, length, take, drop, slice_index_or, IfOk, OnOk, IsTrue, min};
ghost use Rattle.id_groups.specs.Lists.{IsIn};
ghost use Rattle.commit_graph.specs.Sets as sets;
ghost use Rattle.segment_codec.specs.Lent.{segment_of};
ghost use Rattle.segment_codec.specs.Table.{IsHeld, IsInSegment};
ghost use Rattle.span_set.specs.Members.{IsMember, IsCanonical};
ghost use Rattle.span_set.specs.Places.{BeginAbove, BeginWithin};
ghost use Rattle.ancestor_query.specs.Graph.{table_graph};
ghost use Rattle.range_query.specs.Cuts.{IsCut, IsSettled};
ghost use Rattle.range_query.specs.Parts.{StandBelow, StandFrom, IsMetIn, IsMissedIn, IsClosedFrom};
ghost use Rattle.range_query.specs.Rising.{Highest};
ghost use Rattle.range_query.specs.declared.cut.Cut.{Cut as PlainCut};

use crate::cut::Cut;
use crate::downward::{Descent, walk_down};
use crate::place::{count_below, lowest_of};
use crate::rising::Rising;
use crate::upward::{least_in, skip_below};
use id_groups::{Id, IdSpan};
use segment_codec::{SegmentRef, SegmentTable, Steps};
use span_set::IdSet;
use std::alloc::{AllocError, Global};

/// How far a walk up has come in the spans of two sets, the lower ends' and what the upper ones reach.
#[derive(Clone, Copy)]
struct Passed {
    /// From this span on those of the lower ends end below the segments that are to come.
    from: usize,
    /// From this span on those that the upper ends reach begin within the segments gone over or below them.
    below: usize,
}

/// How many of the first `at` spans begin above the id.
fn skip_begun(spans: &[IdSpan], at: usize, id: Id) -> usize
    requires canonical { IsCanonical spans.now }
    requires within { at ≤ length spans.now }
    ensures within { result ≤ length spans.now }
    ensures above { BeginAbove id (take result spans.now) }
    ensures rest { BeginWithin id (drop at spans.now) → BeginWithin id (drop result spans.now) }
{
    let mut to = at;
    'skip: while to > 0 && spans[to - 1].low.number() <= id.number() {
        to -= 1;
    }
    to
}

/// The highest id of the segment that is in the spans, of which those from `at` on begin at its highest or below it and
/// the others above it.
fn highest_in(spans: &[IdSpan], at: usize, segment: SegmentRef<'_>) -> Option<Id>
    requires canonical { IsCanonical spans.now }
    requires above { BeginAbove (segment_of segment).high (take at spans.now) }
    requires rest { BeginWithin (segment_of segment).high (drop at spans.now) }
    ensures { Highest (IsMember spans.now) (segment_of segment.entry).low (segment_of segment.entry).high result }
{
    if at >= spans.len() {
        return None;
    }
    let high = spans[at].high.number().min(segment.high().number());
    if high < segment.low().number() {
        return None;
    }
    Some(Id::from_number(high))
}

/// Before which of the segment's ids up to `high` none reaches a member of `from`, while all from there on do: its lowest,
/// where a parent of that isn't missed, else its least member.
fn end_of_missed(
    missed: &Rising,
    from: &[IdSpan],
    left: usize,
    lowest: Id,
    segment: SegmentRef<'_>,
    high: Id,
) -> u64
    requires canonical { IsCanonical from.now }
    requires within { left ≤ length from.now }
    requires passed { StandBelow (segment_of segment).low (drop left from.now) }
    requires stop { (d : _) → 0 < left → (segment_of segment).low ≤ (slice_index_or from.now (left - 1) d).high }
    requires upper { (segment_of segment).low ≤ high }
    ensures top { result ≤ high + 1 }
    ensures missed { (x : ℕ) → (segment_of segment.entry).low ≤ x → x < result → IsMetIn missed.now from.now lowest (segment_of segment.entry) x → ⊥ }
    ensures met { (x : ℕ) → (segment_of segment.entry).low ≤ x → result ≤ x → x ≤ high → IsMetIn missed.now from.now lowest (segment_of segment.entry) x }
{
    if missed.lacks_parent_of(segment, lowest) {
        return segment.low().number();
    }
    match least_in(from, left, segment, high) {
        Some(first) => first.number(),
        None => high.number() + 1,
    }
}

/// Of the segment's ids that the upper ends reach, adds those that reach no member of `from`. It answers how far the walk
/// has come.
fn add_missed(
    missed: &mut Rising,
    from: &IdSet,
    lowest: Id,
    below: &IdSet,
    passed: Passed,
    segment: SegmentRef<'_>,
) -> Result<Passed, AllocError>
    requires within_from { passed.from ≤ length from.now }
    requires within_below { passed.below ≤ length below.now }
    requires passed { StandBelow (segment_of segment).low (drop passed.from from.now) }
    requires begun { BeginWithin (segment_of segment).high (drop passed.below below.now) }
    requires over { StandBelow (segment_of segment).low missed.old }
    requires group { (segment_of segment).low < 2 ^ 56 → (segment_of segment).high < 2 ^ 56 }
    ensures within_from { IfOk result (λ to. to.from ≤ length from.now) }
    ensures within_below { IfOk result (λ to. to.below ≤ length below.now) }
    ensures passed { IfOk result (λ to. StandBelow (segment_of segment.entry).low (drop to.from from.now)) }
    ensures begun { IfOk result (λ to. BeginWithin (segment_of segment.entry).high (drop to.below below.now)) }
    ensures stop { IfOk result (λ to. BeginAbove (segment_of segment.entry).high (take to.below below.now)) }
    ensures kept { OnOk result ((x : ℕ) → IsMember missed.old x → IsMember missed.new x) }
    ensures sound { OnOk result ((x : ℕ) → IsMember missed.new x → IsMember missed.old x ⊎ IsMissedIn missed.old from.now lowest (segment_of segment.entry) x) }
    ensures whole { OnOk result ((x : ℕ) → IsMember below.now x → IsInSegment x (segment_of segment.entry)
        → IsMember missed.new x ⊎ IsMetIn missed.old from.now lowest (segment_of segment.entry) x) }
{
    let at = skip_begun(below.spans(), passed.below, segment.high());
    let left = skip_below(from.spans(), passed.from, segment.low());
    if let Some(high) = highest_in(below.spans(), at, segment) {
        let end = end_of_missed(missed, from.spans(), left, lowest, segment, high);
        missed.push_between(segment.low().number(), end)?;
    }
    Ok(Passed {
        from: left,
        below: at,
    })
}

/// Whether the cut lies no higher than the id and its least, which isn't 0, no lower than the lowest id.
fn is_passed(cut: Cut, lowest: Id, id: Id) -> bool
    ensures { IsTrue result ↔ ((cut.at ≤ id) × (0 < cut.least) × (lowest ≤ cut.least)) }
{
    cut.at <= id.number() && 0 < cut.least && lowest.number() <= cut.least
}

/// Whether the last of the cuts is settled: it is no higher than the id, up to which all that the upper ends reach has been
/// gone over, and all of this from the least of the cut on reaches a member of the lower ends.
fn is_settled(missed: &Rising, lowest: Id, cuts: &[Cut], left: usize, id: Id) -> bool
    requires { left ≤ length cuts.now }
    ensures { IsTrue result → IsSettled missed.now lowest cuts.now id }
{
    if left == 0 {
        return false;
    }
    let cut = cuts[left - 1];
    is_passed(cut, lowest, id) && missed.ends_below(cut.least)
}

/// How many of the first `left` cuts lie above the id.
fn skip_cuts(cuts: &[Cut], left: usize, id: Id) -> usize
    requires { left ≤ length cuts.now }
    ensures { result ≤ left }
{
    let mut to = left;
    'skip: while to > 0 && cuts[to - 1].at <= id.number() {
        to -= 1;
    }
    to
}

/// The ids of the descent that reach no member of `from`, none of which lies below `lowest`. It goes over the flat segments
/// from the one that has `lowest` up to a cut that is settled, or to the one that has the greatest id of the descent.
fn walk_up<T: SegmentTable>(
    alloc: Global,
    table: &T,
    from: &IdSet,
    lowest: Id,
    below: &Descent,
    steps: &mut Steps,
) -> Result<Rising, AllocError>
    requires least { StandFrom lowest from.now }
    requires over { StandFrom lowest below.now.ids }
    requires inside { (x : ℕ) → IsMember below.now.ids x → IsHeld (T.flats table.now) x }
    requires closed { IsClosedFrom (table_graph (T.flats table.now)) lowest below.now.ids }
    requires cuts { (c : PlainCut) → IsIn c below.now.cuts.items → IsCut (table_graph (T.flats table.now)) (IsMember below.now.ids) c }
    ensures sound { IfOk result (λ r. (x : ℕ) → IsMember r x → sets.descendants (table_graph (T.flats table.now)) (IsMember from.now) x → ⊥) }
    ensures whole { IfOk result (λ r. (x : ℕ) → IsMember below.now.ids x → sets.descendants (table_graph (T.flats table.now)) (IsMember from.now) x ⊎ IsMember r x) }
    ensures counted { min steps.old.taken (2 ^ 64 - 1) ≤ steps.new.taken }
{
    let mut missed = Rising::empty(alloc);
    add_all_missed(&mut missed, table, from, lowest, below, steps)?;
    Ok(missed)
}

/// The walk: `missed` gets the ids, and has none before.
fn add_all_missed<T: SegmentTable>(
    missed: &mut Rising,
    table: &T,
    from: &IdSet,
    lowest: Id,
    below: &Descent,
    steps: &mut Steps,
) -> Result<(), AllocError>
    requires least { StandFrom lowest from.now }
    requires over { StandFrom lowest below.now.ids }
    requires inside { (x : ℕ) → IsMember below.now.ids x → IsHeld (T.flats table.now) x }
    requires closed { IsClosedFrom (table_graph (T.flats table.now)) lowest below.now.ids }
    requires cuts { (c : PlainCut) → IsIn c below.now.cuts.items → IsCut (table_graph (T.flats table.now)) (IsMember below.now.ids) c }
    requires missed { missed.old ≡ [] }
    ensures sound { OnOk result ((x : ℕ) → IsMember missed.new x → sets.descendants (table_graph (T.flats table.now)) (IsMember from.now) x → ⊥) }
    ensures whole { OnOk result ((x : ℕ) → IsMember below.now.ids x → sets.descendants (table_graph (T.flats table.now)) (IsMember from.now) x ⊎ IsMember missed.new x) }
    ensures counted { min steps.old.taken (2 ^ 64 - 1) ≤ steps.new.taken }
{
    let Some(greatest) = below.ids.greatest() else {
        return Ok(());
    };
    let first = count_below(table, lowest, steps);
    let mut passed = Passed {
        from: from.spans().len(),
        below: below.ids.spans().len(),
    };
    let mut left = below.cuts.len();
    'up: for k in first..table.flat_count() {
        let segment = table.flat_at(k, steps);
        let low = segment.low();
        if low.number() > greatest.number() {
            return Ok(());
        }
        if is_settled(missed, lowest, &below.cuts, left, low) {
            return Ok(());
        }
        left = skip_cuts(&below.cuts, left, low);
        passed = add_missed(missed, from, lowest, &below.ids, passed, segment)?;
    }
    Ok(())
}

/// The ids of the set that weren't missed.
fn without(alloc: Global, ids: &IdSet, missed: &Rising) -> Result<IdSet, AllocError>
    ensures members { IfOk result (λ r. (x : ℕ) → IsMember r x ↔ (IsMember ids.now x × (IsMember missed.now x → ⊥))) }
    ensures canonical { IfOk result IsCanonical }
{
    let found = ids.minus(alloc, &missed.to_set(alloc)?)?;
    Ok(found)
}

/// The ids that reach some member of `from` and that some member of `to` reaches, both ends among them. Each member is an
/// id of the table. It goes down from `to`, visiting no id below the lowest member of `from`, and then up from there until
/// all that is found above is known to reach a member of `from`. `AllocError` only for want of memory.
pub fn range<T: SegmentTable>(
    alloc: Global,
    table: &T,
    from: &IdSet,
    to: &IdSet,
    steps: &mut Steps,
) -> Result<IdSet, AllocError>
    requires from { (x : ℕ) → IsMember from.now x → IsHeld (T.flats table.now) x }
    requires to { (x : ℕ) → IsMember to.now x → IsHeld (T.flats table.now) x }
    ensures members { IfOk result (λ r. (x : ℕ) → IsMember r x ↔ sets.range (table_graph (T.flats table.now)) (IsMember from.now) (IsMember to.now) x) }
    ensures canonical { IfOk result IsCanonical }
    ensures counted { min steps.old.taken (2 ^ 64 - 1) ≤ steps.new.taken }
{
    let Some(lowest) = lowest_of(from.spans()) else {
        return Ok(IdSet::empty(alloc));
    };
    let below = walk_down(alloc, table, to, lowest, steps)?;
    let missed = walk_up(alloc, table, from, lowest, &below, steps)?;
    let found = without(alloc, &below.ids, &missed)?;
    Ok(found)
}
