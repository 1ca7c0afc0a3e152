//! The children of the members of a set.

ghost use Rattle.std.specs.Prelude.{◌≡◌, true, ℕ, ◌<◌, ◌≤◌, ◌^◌, ◌⊎◌, ◌↔◌, [], length, take, drop, slice_index_or, IfOk, OnOk, Some, IfSome, IsTrue, ◌-◌, min};
ghost use Rattle.commit_graph.specs.Sets as sets;
ghost use Rattle.segment_codec.specs.Lent.{segment_of};
ghost use Rattle.segment_codec.specs.Reading.{ascend_from};
ghost use Rattle.segment_codec.specs.Table.{IsHeld, segment_at};
ghost use Rattle.span_set.specs.Members.{IsMember, IsCanonical};
ghost use Rattle.ancestor_query.specs.Graph.{table_graph};
ghost use Rattle.range_query.specs.Parts.{HasParentIn, IsMoved, StandFrom, StandBelow, IsApart, LackChildren};

use crate::edge_walk::add_by_edges;
use crate::flat_pass::pass_flats;
use crate::ladder::{HIGHEST_LEVEL, Ladder};
use crate::place::{flat_down, lowest_of};
use id_groups::{FIRST_OTHER, Id, IdSpan};
use segment_codec::{SegmentRef, SegmentTable, Steps};
use span_set::IdSet;
use std::alloc::{AllocError, Global};

/// To go past so many flat segments takes about as long as the look-up of one of a level.
const FLATS_WORTH: u64 = 8;

/// What is left of a set on a way down: all but its first `at` spans.
#[derive(Clone, Copy)]
struct Rest<'a> {
    set: &'a IdSet,
    at: usize,
}

/// The ids from `low` to before `end`, over which a way goes down by segments of levels up to `top`.
#[derive(Clone, Copy)]
struct Stretch {
    low: u64,
    end: u64,
    top: usize,
}

/// How many spans begin at the id or above it, of which `at` are known to.
fn skip_from(spans: &[IdSpan], at: usize, id: Id) -> usize
    requires { at ≤ length spans.now }
    ensures within { result ≤ length spans.now }
    ensures passed { StandFrom id (take at spans.now) → StandFrom id (take result spans.now) }
    ensures stop { (d : _) → result < length spans.now → (slice_index_or spans.now result d).low < id }
{
    let mut to = at;
    'skip: while to < spans.len() && id.number() <= spans[to].low.number() {
        to += 1;
    }
    to
}

/// Adds the ids of the segment that lie one above an id of the spans from `at` on.
fn add_moved(
    answer: &mut IdSet,
    spans: &[IdSpan],
    at: usize,
    segment: SegmentRef<'_>,
) -> Result<(), AllocError>
    requires canonical { IsCanonical spans.now }
    requires within { at ≤ length spans.now }
    requires group { (segment_of segment).low < 2 ^ 56 → (segment_of segment).high < 2 ^ 56 }
    ensures members { OnOk result ((x : ℕ) → IsMember answer.new x ↔ (IsMember answer.old x ⊎ IsMoved (drop at spans.now) (segment_of segment.entry) x)) }
    ensures canonical { IsCanonical answer.old → IsCanonical answer.new }
{
    let lowest = segment.low().number();
    let highest = segment.high().number();
    let mut i = at;
    'pieces: while i < spans.len() {
        let low = spans[i].low.number();
        let high = spans[i].high.number();
        if high < lowest {
            return Ok(());
        }
        answer.insert_between(low.max(lowest) + 1, (high + 1).min(highest) + 1)?;
        i += 1;
    }
    Ok(())
}

/// Whether a parent of the segment's lowest id is a member.
pub(crate) fn has_parent_in(set: &IdSet, segment: SegmentRef<'_>) -> bool
    ensures { IsTrue result ↔ HasParentIn set.now (segment_of segment.entry) }
{
    let mut rest = segment.parents();
    'parents: while let Some(parent) = rest.next() {
        if set.contains(parent) {
            return true;
        }
    }
    false
}

/// Adds the lowest id of the segment where a parent of it is a member.
pub(crate) fn add_lowest(
    answer: &mut IdSet,
    set: &IdSet,
    segment: SegmentRef<'_>,
) -> Result<(), AllocError>
    ensures members { OnOk result ((x : ℕ) → IsMember answer.new x
        ↔ (IsMember answer.old x ⊎ ((x ≡ (segment_of segment.entry).low) × HasParentIn set.now (segment_of segment.entry)))) }
    ensures canonical { IsCanonical answer.old → IsCanonical answer.new }
{
    if has_parent_in(set, segment) {
        answer.insert_span(IdSpan::single(segment.low()))?;
    }
    Ok(())
}

/// Whether a parent of the segment is a member, where its parents ascend. All members lie between these ids.
fn has_parent_between(set: &IdSet, lowest: Id, greatest: Id, segment: SegmentRef<'_>) -> bool
    requires ascending { ascend_from 0 (segment_of segment).parents ≡ true }
    requires lowest { (x : ℕ) → IsMember set.now x → lowest ≤ x }
    requires greatest { (x : ℕ) → IsMember set.now x → x ≤ greatest }
    ensures { IsTrue result ↔ HasParentIn set.now (segment_of segment.entry) }
{
    let mut rest = segment.parents();
    'parents: while let Some(parent) = rest.next() {
        if parent.number() > greatest.number() {
            return false;
        }
        if is_member_from(set, lowest, parent) {
            return true;
        }
    }
    false
}

/// Whether the id is a member, none of which lies below `lowest`.
#[inline(always)]
fn is_member_from(set: &IdSet, lowest: Id, id: Id) -> bool
    requires { (x : ℕ) → IsMember set.now x → lowest ≤ x }
    ensures { IsTrue result ↔ IsMember set.now id }
{
    if id.number() < lowest.number() {
        return false;
    }
    set.contains(id)
}

/// The same, whatever the members.
fn has_parent_among(set: &IdSet, segment: SegmentRef<'_>) -> bool
    requires { ascend_from 0 (segment_of segment).parents ≡ true }
    ensures { IsTrue result ↔ HasParentIn set.now (segment_of segment.entry) }
{
    let Some(greatest) = set.greatest() else {
        return false;
    };
    let Some(lowest) = lowest_of(set.spans()) else {
        return false;
    };
    has_parent_between(set, lowest, greatest, segment)
}

/// Whether all spans from the place on lie below the id.
fn are_below(spans: &[IdSpan], at: usize, id: Id) -> bool
    requires { IsCanonical spans.now }
    ensures { IsTrue result → StandBelow id (drop at spans.now) }
{
    if at >= spans.len() {
        return true;
    }
    spans[at].high.number() < id.number()
}

/// Whether the segment, whose parents ascend, has no member below its highest id, and none of its parents is one. The spans that
/// are passed stand from its highest id on.
fn is_apart(rest: Rest<'_>, segment: SegmentRef<'_>) -> bool
    requires within { rest.at ≤ length rest.set.now }
    requires passed { StandFrom (segment_of segment).high (take rest.at rest.set.now) }
    requires ascending { ascend_from 0 (segment_of segment).parents ≡ true }
    ensures { IsTrue result → IsApart rest.entry.set.now (segment_of segment.entry) }
{
    if !are_below(rest.set.spans(), rest.at, segment.low()) {
        return false;
    }
    !has_parent_among(rest.set, segment)
}

/// A segment above the flat ones that ends at the id and none of whose ids has a parent in the set: the first that the
/// ladder leads to from its level down. The spans that are passed stand from the id on.
fn childless_ending<'a, T: SegmentTable>(
    table: &'a T,
    rest: Rest<'_>,
    id: Id,
    ladder: &mut Ladder,
    steps: &mut Steps,
) -> Option<SegmentRef<'a>>
    requires within { rest.at ≤ length rest.set.now }
    requires passed { StandFrom id (take rest.at rest.set.now) }
    ensures none { IfSome result (λ s. ((segment_of s).low ≤ id) × LackChildren (table_graph (T.flats table.now)) rest.entry.set.now (segment_of s).low id) }
    ensures counted { min steps.old.taken (2 ^ 64 - 1) ≤ steps.new.taken }
{
    'levels: while ladder.level() > 0 {
        match table.ending(ladder.level(), id, steps) {
            None => ladder.go_down(),
            Some(segment) => {
                if !ladder.rise() {
                    if is_apart(rest, segment) {
                        return Some(segment);
                    }
                    ladder.go_into(segment.low().number());
                }
            }
        }
    }
    None
}

/// Adds the children among the ids of the flat segment that has the id, up to this one, and answers the segment's lowest id.
/// The spans that are passed stand from the id on.
fn add_flat<T: SegmentTable>(
    answer: &mut IdSet,
    table: &T,
    rest: Rest<'_>,
    id: Id,
    segment: SegmentRef<'_>,
) -> Result<u64, AllocError>
    requires found { segment_at (T.flats table.now) id ≡ Some (segment_of segment) }
    requires within { rest.at ≤ length rest.set.now }
    requires passed { StandFrom id (take rest.at rest.set.now) }
    ensures low { IfOk result (λ low. low ≤ id) }
    ensures members { IfOk result (λ low. (x : ℕ) → IsMember answer.new x
        ↔ (IsMember answer.old x ⊎ ((low ≤ x) × (x ≤ id) × sets.children (table_graph (T.flats table.now)) (IsMember rest.entry.set.now) x))) }
    ensures canonical { IsCanonical answer.old → IsCanonical answer.new }
{
    let part = segment.ending_at(id);
    add_moved(answer, rest.set.spans(), rest.at, part)?;
    add_lowest(answer, rest.set, part)?;
    Ok(part.low().number())
}

/// One above the span at the place; 0 where there is none.
fn end_at(spans: &[IdSpan], at: usize) -> u64
    requires { IsCanonical spans.now }
    ensures { (id x : ℕ) → StandFrom id (take at spans.now) → IsMember spans.now x → result ≤ x → id ≤ x }
{
    if at >= spans.len() {
        return 0;
    }
    spans[at].high.number() + 1
}

/// The flat segment that has the id, which is expected where the ladder says.
fn flat_near<'a, T: SegmentTable>(
    table: &'a T,
    id: Id,
    ladder: &mut Ladder,
    steps: &mut Steps,
) -> SegmentRef<'a>
    requires { IsHeld (T.flats table.now) id }
    ensures found { segment_at (T.flats table.now) id ≡ Some (segment_of result) }
    ensures counted { min steps.old.taken (2 ^ 64 - 1) ≤ steps.new.taken }
{
    let mut place = ladder.place();
    let segment = flat_down(table, id, &mut place, steps);
    ladder.expect_at(place);
    segment
}

/// Goes past a segment above the flat ones none of whose ids up to this one, its highest, has a parent in the set. It answers
/// its lowest id, and one above the id where it found none. The spans that are passed stand from the id on.
fn pass_level<T: SegmentTable>(
    table: &T,
    rest: Rest<'_>,
    id: Id,
    ladder: &mut Ladder,
    steps: &mut Steps,
) -> u64
    requires held { IsHeld (T.flats table.now) id }
    requires within { rest.at ≤ length rest.set.now }
    requires passed { StandFrom id (take rest.at rest.set.now) }
    ensures none { LackChildren (table_graph (T.flats table.now)) rest.entry.set.now result id }
    ensures counted { min steps.old.taken (2 ^ 64 - 1) ≤ steps.new.taken }
{
    ladder.climb(id);
    match childless_ending(table, rest, id, ladder, steps) {
        Some(segment) => {
            let low = segment.low().number();
            ladder.note(id.number().saturating_sub(low));
            low
        }
        None => id.number() + 1,
    }
}

/// Goes past ids up to this one none of which has a parent in the set, by a level or by flat segments. It answers the lowest
/// of them, and one above the id where it knows of none. The spans that are passed stand from the id on.
fn pass<T: SegmentTable>(
    table: &T,
    rest: Rest<'_>,
    id: Id,
    ladder: &mut Ladder,
    steps: &mut Steps,
) -> u64
    requires held { IsHeld (T.flats table.now) id }
    requires within { rest.at ≤ length rest.set.now }
    requires passed { StandFrom id (take rest.at rest.set.now) }
    ensures none { LackChildren (table_graph (T.flats table.now)) rest.entry.set.now result id }
    ensures counted { min steps.old.taken (2 ^ 64 - 1) ≤ steps.new.taken }
{
    let from = end_at(rest.set.spans(), rest.at).max(ladder.floor());
    if id.number() <= from {
        return id.number() + 1;
    }
    if ladder.pause() > 0 {
        return pass_flats(table, rest.set, from, id, ladder, steps);
    }
    pass_level(table, rest, id, ladder, steps)
}

/// Adds the children among the ids of a segment of any level, or of several, up to one of its ids, and answers the lowest id.
/// The spans that are passed stand from the id on.
fn add_next<T: SegmentTable>(
    answer: &mut IdSet,
    table: &T,
    rest: Rest<'_>,
    id: Id,
    ladder: &mut Ladder,
    steps: &mut Steps,
) -> Result<u64, AllocError>
    requires held { IsHeld (T.flats table.now) id }
    requires within { rest.at ≤ length rest.set.now }
    requires passed { StandFrom id (take rest.at rest.set.now) }
    ensures low { IfOk result (λ low. low ≤ id) }
    ensures members { IfOk result (λ low. (x : ℕ) → IsMember answer.new x
        ↔ (IsMember answer.old x ⊎ ((low ≤ x) × (x ≤ id) × sets.children (table_graph (T.flats table.now)) (IsMember rest.entry.set.now) x))) }
    ensures canonical { IsCanonical answer.old → IsCanonical answer.new }
    ensures counted { min steps.old.taken (2 ^ 64 - 1) ≤ steps.new.taken }
{
    let low = pass(table, rest, id, ladder, steps);
    if low <= id.number() {
        return Ok(low);
    }
    let segment = flat_near(table, id, ladder, steps);
    add_flat(answer, table, rest, id, segment)
}

/// Over how many ids a level has to lead to be worth its look-up: as many as some flat segments have.
fn ids_worth<T: SegmentTable>(table: &T) -> u64 {
    let bounds = table.bounds();
    let flats = u64::from(table.flat_count()) + 1;
    (bounds.master / flats).saturating_mul(FLATS_WORTH)
}

/// Adds the children among the ids of the stretch, and maybe some that are lower.
fn add_between<T: SegmentTable>(
    answer: &mut IdSet,
    table: &T,
    set: &IdSet,
    stretch: Stretch,
    steps: &mut Steps,
) -> Result<(), AllocError>
    requires held { (x : ℕ) → stretch.low ≤ x → x < stretch.end → IsHeld (T.flats table.now) x }
    requires bound { stretch.end ≤ 2 ^ 57 }
    requires top { stretch.top < 8 }
    ensures sound { OnOk result ((x : ℕ) → IsMember answer.new x → IsMember answer.old x ⊎ sets.children (table_graph (T.flats table.now)) (IsMember set.now) x) }
    ensures whole { OnOk result ((x : ℕ) → stretch.low ≤ x → x < stretch.end → sets.children (table_graph (T.flats table.now)) (IsMember set.now) x → IsMember answer.new x) }
    ensures kept { OnOk result ((x : ℕ) → IsMember answer.old x → IsMember answer.new x) }
    ensures canonical { IsCanonical answer.old → IsCanonical answer.new }
    ensures counted { min steps.old.taken (2 ^ 64 - 1) ≤ steps.new.taken }
{
    let mut ladder = Ladder::new(stretch.top, ids_worth(table), stretch.low);
    let mut below = stretch.end;
    let mut at = 0;
    'down: while stretch.low < below {
        let id = Id::from_number(below - 1);
        at = skip_from(set.spans(), at, id);
        let rest = Rest { set, at };
        below = add_next(answer, table, rest, id, &mut ladder, steps)?;
    }
    Ok(())
}

/// Adds the children among the ids from `low` on, and maybe some that are lower.
fn add_from<T: SegmentTable>(
    answer: &mut IdSet,
    table: &T,
    set: &IdSet,
    low: u64,
    steps: &mut Steps,
) -> Result<(), AllocError>
    ensures sound { OnOk result ((x : ℕ) → IsMember answer.new x → IsMember answer.old x ⊎ sets.children (table_graph (T.flats table.now)) (IsMember set.now) x) }
    ensures whole { OnOk result ((x : ℕ) → low ≤ x → sets.children (table_graph (T.flats table.now)) (IsMember set.now) x → IsMember answer.new x) }
    ensures kept { OnOk result ((x : ℕ) → IsMember answer.old x → IsMember answer.new x) }
    ensures canonical { IsCanonical answer.old → IsCanonical answer.new }
    ensures counted { min steps.old.taken (2 ^ 64 - 1) ≤ steps.new.taken }
{
    let bounds = table.bounds();
    let others = low.max(FIRST_OTHER);
    let above = Stretch {
        low: others,
        end: FIRST_OTHER + bounds.others,
        top: 0,
    };
    add_between(answer, table, set, above, steps)?;
    let masters = Stretch {
        low,
        end: bounds.master,
        top: HIGHEST_LEVEL,
    };
    add_between(answer, table, set, masters, steps)?;
    Ok(())
}

/// Adds the children, all of which lie above the lowest member: of few members those that edges lead to, and the others on a way down.
fn add_all<T: SegmentTable>(
    answer: &mut IdSet,
    table: &T,
    set: &IdSet,
    lowest: Id,
    steps: &mut Steps,
) -> Result<(), AllocError>
    requires empty { answer.old ≡ [] }
    requires lowest { (x : ℕ) → IsMember set.now x → lowest ≤ x }
    requires held { (x : ℕ) → IsMember set.now x → IsHeld (T.flats table.now) x }
    ensures members { OnOk result ((x : ℕ) → IsMember answer.new x ↔ sets.children (table_graph (T.flats table.now)) (IsMember set.now) x) }
    ensures canonical { IsCanonical answer.old → IsCanonical answer.new }
    ensures counted { min steps.old.taken (2 ^ 64 - 1) ≤ steps.new.taken }
{
    let known = add_by_edges(answer, table, set, steps)?;
    let low = known.max(lowest.number() + 1);
    add_from(answer, table, set, low, steps)?;
    Ok(())
}

/// The ids with a parent in the set, each member of which is an id of the table. Of few members it finds those that the table's
/// edges lead to. The others lie on its way down from the greatest id to the lowest member, or to the segments of which the
/// table has all edges; it passes over a segment of a higher level whole where its parents tell that none of its ids is a child.
/// `AllocError` only for want of memory.
pub fn children<T: SegmentTable>(
    alloc: Global,
    table: &T,
    set: &IdSet,
    steps: &mut Steps,
) -> Result<IdSet, AllocError>
    requires { (x : ℕ) → IsMember set.now x → IsHeld (T.flats table.now) x }
    ensures members { IfOk result (λ r. (x : ℕ) → IsMember r x ↔ sets.children (table_graph (T.flats table.now)) (IsMember set.now) x) }
    ensures canonical { IfOk result IsCanonical }
    ensures counted { min steps.old.taken (2 ^ 64 - 1) ≤ steps.new.taken }
{
    let mut answer = IdSet::empty(alloc);
    let Some(lowest) = lowest_of(set.spans()) else {
        return Ok(answer);
    };
    add_all(&mut answer, table, set, lowest, steps)?;
    Ok(answer)
}
