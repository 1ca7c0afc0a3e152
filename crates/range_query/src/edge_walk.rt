//! Children of few members, found by the edges of a table.

ghost use Rattle.std.specs.Prelude.{◌≡◌, true, false, ℕ, ◌<◌, ◌≤◌, ◌+◌, ◌/◌, ◌%◌, ◌^◌, ◌-◌, ◌⊎◌, ◌↔◌, length, get_or, slice_get, nat_lt, Some, IfOk, OnOk, IsTrue, min};
ghost use Rattle.std.specs.List.{AllWithin};
ghost use Rattle.std.specs.List.Sorted.{IsNonDecreasing};
ghost use Rattle.id_groups.specs.Lists.{IsIn};
ghost use Rattle.commit_graph.specs.Sets as sets;
ghost use Rattle.segment_codec.specs.Edges.{AreEdgesOf};
ghost use Rattle.segment_codec.specs.Record.{Segment};
ghost use Rattle.segment_codec.specs.Table.{IsHeld};
ghost use Rattle.span_set.specs.Members.{IsMember, IsCanonical};
ghost use Rattle.ancestor_query.specs.Graph.{table_graph};
ghost use Rattle.range_query.specs.Edges.{IsNextIn, AreAdded, AreBegun};
ghost use Rattle.range_query.specs.Parts.{HasParentIn};

use crate::child_walk::add_lowest;
use id_groups::Id;
use segment_codec::{Edges, SegmentTable, Steps};
use span_set::IdSet;
use std::alloc::AllocError;

/// So many places an edge tells apart below its parent.
const PLACES: u64 = 1 << 32;

/// Of at most so many members the children are found by edges.
const FEW: u64 = 64;

/// How many of the edges have a parent below the id.
fn edges_below(edges: &[u64], id: Id) -> usize
    requires { IsNonDecreasing edges.now }
    ensures within { result ≤ length edges.now }
    ensures front { AllWithin (λ e. nat_lt (e / 2 ^ 32) id ≡ true) edges.now 0 result }
    ensures back { AllWithin (λ e. nat_lt (e / 2 ^ 32) id ≡ false) edges.now result (length edges.now) }
{
    let number = id.number();
    edges.partition_point(|edge| *edge / PLACES < number)
}

/// Whether the edge at a place, none of those from which on has a parent below the id, has it as its parent.
fn leads_from(edges: &[u64], at: usize, id: Id) -> bool
    requires order { IsNonDecreasing edges.now }
    requires above { AllWithin (λ e. id ≤ e / 2 ^ 32) edges.now at (length edges.now) }
    ensures within { IsTrue result → at < length edges.now }
    ensures none { result ≡ false → AllWithin (λ e. id < e / 2 ^ 32) edges.now at (length edges.now) }
{
    if at >= edges.len() {
        return false;
    }
    edges[at] / PLACES == id.number()
}

/// Adds the lowest id of the segment at the place of an edge, where a parent of it is a member.
fn add_edge<T: SegmentTable>(
    answer: &mut IdSet,
    table: &T,
    set: &IdSet,
    edge: u64,
    steps: &mut Steps,
) -> Result<(), AllocError>
    ensures sound { OnOk result ((x : ℕ) → IsMember answer.new x → IsMember answer.old x ⊎ sets.children (table_graph (T.flats table.now)) (IsMember set.now) x) }
    ensures kept { OnOk result ((x : ℕ) → IsMember answer.old x → IsMember answer.new x) }
    ensures added { OnOk result ((s : Segment) → slice_get (T.flats table.now) (edge % 2 ^ 32) ≡ Some s → HasParentIn set.now s → IsMember answer.new s.low) }
    ensures canonical { IsCanonical answer.old → IsCanonical answer.new }
    ensures counted { min steps.old.taken (2 ^ 64 - 1) ≤ steps.new.taken }
{
    let place = edge % PLACES;
    if place >= u64::from(table.flat_count()) {
        return Ok(());
    }
    let segment = table.flat_at(place as u32, steps);
    add_lowest(answer, set, segment)?;
    Ok(())
}

/// Adds the lowest ids of the segments that begin on a member, as far as edges lead to them.
fn add_begun<T: SegmentTable>(
    answer: &mut IdSet,
    table: &T,
    set: &IdSet,
    edges: Edges<'_>,
    id: Id,
    steps: &mut Steps,
) -> Result<(), AllocError>
    requires member { IsMember set.now id }
    requires edges { AreEdgesOf edges.items.now edges.count (T.flats table.now) }
    ensures sound { OnOk result ((x : ℕ) → IsMember answer.new x → IsMember answer.old x ⊎ sets.children (table_graph (T.flats table.now)) (IsMember set.now) x) }
    ensures kept { OnOk result ((x : ℕ) → IsMember answer.old x → IsMember answer.new x) }
    ensures begun { OnOk result (AreBegun (T.flats table.now) edges.entry.count id answer.new) }
    ensures canonical { IsCanonical answer.old → IsCanonical answer.new }
    ensures counted { min steps.old.taken (2 ^ 64 - 1) ≤ steps.new.taken }
{
    let items = edges.items;
    let mut at = edges_below(items, id);
    'edges: while leads_from(items, at, id) {
        add_edge(answer, table, set, items[at], steps)?;
        at += 1;
    }
    Ok(())
}

/// Adds the id above this one, where it is of the same segment.
fn add_next_in<T: SegmentTable>(
    answer: &mut IdSet,
    table: &T,
    id: Id,
    steps: &mut Steps,
) -> Result<(), AllocError>
    requires { IsHeld (T.flats table.now) id }
    ensures members { OnOk result ((x : ℕ) → IsMember answer.new x ↔ (IsMember answer.old x ⊎ IsNextIn (T.flats table.now) id x)) }
    ensures canonical { IsCanonical answer.old → IsCanonical answer.new }
    ensures counted { min steps.old.taken (2 ^ 64 - 1) ≤ steps.new.taken }
{
    let segment = table.flat(id, steps).unwrap();
    let next = id.number() + 1;
    let end = segment.high().number().min(next) + 1;
    answer.insert_between(next, end)?;
    Ok(())
}

/// Adds the children of a member, but not all that begin a segment without edges.
fn add_of<T: SegmentTable>(
    answer: &mut IdSet,
    table: &T,
    set: &IdSet,
    edges: Edges<'_>,
    id: Id,
    steps: &mut Steps,
) -> Result<(), AllocError>
    requires held { IsHeld (T.flats table.now) id }
    requires member { IsMember set.now id }
    requires edges { AreEdgesOf edges.items.now edges.count (T.flats table.now) }
    ensures sound { OnOk result ((x : ℕ) → IsMember answer.new x → IsMember answer.old x ⊎ sets.children (table_graph (T.flats table.now)) (IsMember set.now) x) }
    ensures kept { OnOk result ((x : ℕ) → IsMember answer.old x → IsMember answer.new x) }
    ensures added { OnOk result (AreAdded (T.flats table.now) edges.entry.count id answer.new) }
    ensures canonical { IsCanonical answer.old → IsCanonical answer.new }
    ensures counted { min steps.old.taken (2 ^ 64 - 1) ≤ steps.new.taken }
{
    add_next_in(answer, table, id, steps)?;
    add_begun(answer, table, set, edges, id, steps)?;
    Ok(())
}

/// Adds the children of all members, but not all that begin a segment without edges.
fn add_each<T: SegmentTable>(
    answer: &mut IdSet,
    table: &T,
    set: &IdSet,
    edges: Edges<'_>,
    steps: &mut Steps,
) -> Result<(), AllocError>
    requires held { (x : ℕ) → IsMember set.now x → IsHeld (T.flats table.now) x }
    requires edges { AreEdgesOf edges.items.now edges.count (T.flats table.now) }
    ensures sound { OnOk result ((x : ℕ) → IsMember answer.new x → IsMember answer.old x ⊎ sets.children (table_graph (T.flats table.now)) (IsMember set.now) x) }
    ensures added { OnOk result ((x : ℕ) → IsMember set.now x → AreAdded (T.flats table.now) edges.entry.count x answer.new) }
    ensures canonical { IsCanonical answer.old → IsCanonical answer.new }
    ensures counted { min steps.old.taken (2 ^ 64 - 1) ≤ steps.new.taken }
{
    'ids: for id in set.ids_down() {
        add_of(answer, table, set, edges, id, steps)?;
    }
    Ok(())
}

/// No id of a flat segment from the place on lies below this one.
fn low_from<T: SegmentTable>(table: &T, place: u32, steps: &mut Steps) -> u64
    ensures low { (k : ℕ) (s : Segment) → place ≤ k → slice_get (T.flats table.now) k ≡ Some s → result ≤ s.low }
    ensures counted { min steps.old.taken (2 ^ 64 - 1) ≤ steps.new.taken }
{
    if place >= table.flat_count() {
        return u64::MAX;
    }
    table.flat_at(place, steps).low().number()
}

/// Adds children of few members by the edges of the table: all below the id that it answers.
pub(crate) fn add_by_edges<T: SegmentTable>(
    answer: &mut IdSet,
    table: &T,
    set: &IdSet,
    steps: &mut Steps,
) -> Result<u64, AllocError>
    requires held { (x : ℕ) → IsMember set.now x → IsHeld (T.flats table.now) x }
    ensures sound { OnOk result ((x : ℕ) → IsMember answer.new x → IsMember answer.old x ⊎ sets.children (table_graph (T.flats table.now)) (IsMember set.now) x) }
    ensures whole { IfOk result (λ end. (x : ℕ) → x < end → sets.children (table_graph (T.flats table.now)) (IsMember set.now) x → IsMember answer.new x) }
    ensures canonical { IsCanonical answer.old → IsCanonical answer.new }
    ensures counted { min steps.old.taken (2 ^ 64 - 1) ≤ steps.new.taken }
{
    let edges = table.edges();
    if edges.count == 0 || set.count() > FEW {
        return Ok(0);
    }
    add_each(answer, table, set, edges, steps)?;
    Ok(low_from(table, edges.count, steps))
}
