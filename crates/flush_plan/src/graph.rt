//! The parents of the commits outside master, read once from a table.

ghost use Rattle.std.specs.Prelude.{◌≡◌, ◌<◌, ◌≤◌, ◌+◌, ◌-◌, ◌^◌, ◌++◌, ◌∷◌, [], ℕ, List, Some, map, length, take, drop, slice_index_or, IfOk, OnOk};
ghost use Rattle.std.specs.List.{AllByRecursion};
ghost use Rattle.segment_codec.specs.Table.{parents_in};
ghost use Rattle.segment_codec.specs.Lent.{parents_left, segment_of};
ghost use Rattle.change_parts.specs.Moves.{node_of};
ghost use Rattle.change_parts.specs.Rows.{table_rows, AreSmall};
ghost use Rattle.flush_plan.specs.Places.{AreRows};

use assign_ids::{Node, ParentsOf};
use change_parts::end_of;
use id_groups::{Group, Id};
use segment_codec::{Parents, SegmentRef, SegmentTable, Steps};
use std::alloc::{AllocError, Global};
use std::marker::Model;

/// Where the parents of a number stand in the list of all.
#[derive(Clone, Copy, Drop)]
struct Place {
    from: usize,
    to: usize,
}

/// What stands at a place.
fn piece<T>(items: &[T], place: Place) -> &[T]
    requires { (place.from ≤ place.to) × (place.to ≤ length items.now) }
    ensures { result.now ≡ take (place.to - place.from) (drop place.from items.now) }
{
    let (_, rest) = items.split_at(place.from);
    let (row, _) = rest.split_at(place.to - place.from);
    row
}

/// The place of a number; an empty one of a number that has none.
fn place_at(places: &[Place], k: u32) -> Place
    ensures { result ≡ slice_index_or places.now k (record { from = 0; to = 0 }) }
{
    match places.get(k as usize) {
        Some(place) => *place,
        None => Place { from: 0, to: 0 },
    }
}

/// The rows that were read so far: the parents of each number, at its place in the list of all.
#[derive(Drop)]
struct Rows {
    places: Vec<Place>,
    ids: Vec<Id>,
}

/// Adds these parents to the list of all.
fn add_parents(ids: &mut Vec<Id>, parents: Parents<'_>) -> Result<(), AllocError>
    ensures { OnOk result (ids.new.items ≡ ids.old.items ++ parents_left parents.entry) }
{
    'parents: for parent in parents {
        ids.push(parent)?;
    }
    Ok(())
}

/// Ends the row that starts there in the list of all.
fn end_row(rows: &mut Rows, start: usize) -> Result<(), AllocError>
    ensures ids { OnOk result (rows.new.ids.items ≡ rows.old.ids.items) }
    ensures places { OnOk result (rows.new.places.items ≡ rows.old.places.items ++ record { from = start; to = length rows.old.ids.items } ∷ []) }
{
    let end = rows.ids.len();
    rows.places.push(Place {
        from: start,
        to: end,
    })?;
    Ok(())
}

/// Adds the row of a number without parents.
fn add_root(rows: &mut Rows) -> Result<(), AllocError>
    ensures { OnOk result ((list : List (List ℕ)) → AreRows rows.old.places.items rows.old.ids.items list → AreRows rows.new.places.items rows.new.ids.items (list ++ [] ∷ [])) }
{
    let start = rows.ids.len();
    end_row(rows, start)?;
    Ok(())
}

/// Adds the row of a number with one parent.
fn add_follower(rows: &mut Rows, parent: Id) -> Result<(), AllocError>
    ensures { OnOk result ((list : List (List ℕ)) → AreRows rows.old.places.items rows.old.ids.items list → AreSmall (parent ∷ [])
        → AreRows rows.new.places.items rows.new.ids.items (list ++ (parent ∷ []) ∷ [])) }
{
    let start = rows.ids.len();
    rows.ids.push(parent)?;
    end_row(rows, start)?;
    Ok(())
}

/// Adds the row of a number with these parents.
fn add_row(rows: &mut Rows, parents: Parents<'_>) -> Result<(), AllocError>
    ensures { OnOk result ((list : List (List ℕ)) → AreRows rows.old.places.items rows.old.ids.items list → AreSmall (parents_left parents.entry)
        → AreRows rows.new.places.items rows.new.ids.items (list ++ parents_left parents.entry ∷ [])) }
{
    let start = rows.ids.len();
    add_parents(&mut rows.ids, parents)?;
    end_row(rows, start)?;
    Ok(())
}

/// Adds the row of an id of the segment.
fn add_first(rows: &mut Rows, segment: SegmentRef<'_>, id: Id) -> Result<(), AllocError>
    ensures { OnOk result ((list : List (List ℕ)) → AreRows rows.old.places.items rows.old.ids.items list → AreSmall (parents_in (Some (segment_of segment.entry)) id)
        → AreRows rows.new.places.items rows.new.ids.items (list ++ parents_in (Some (segment_of segment.entry)) id ∷ [])) }
{
    if segment.low().number() == id.number() {
        add_row(rows, segment.parents())?;
    } else {
        add_follower(rows, Id::from_number(id.number().saturating_sub(1)))?;
    }
    Ok(())
}

/// Adds the rows of k and of the numbers behind it whose ids are of the same segment, below n, and answers the number
/// behind them.
fn add_segment<T: SegmentTable>(
    table: &T,
    rows: &mut Rows,
    k: u32,
    n: u32,
    steps: &mut Steps,
) -> Result<u32, AllocError>
    requires { k < n }
    ensures next { IfOk result (λ next. (k < next) × (next ≤ n)) }
    ensures rows { IfOk result (λ next. AreRows rows.old.places.items rows.old.ids.items (table_rows (T.flats table.now) k)
        → AreRows rows.new.places.items rows.new.ids.items (table_rows (T.flats table.now) next)) }
{
    let id = Id::other(u64::from(k));
    let Some(segment) = table.flat(id, steps) else {
        add_root(rows)?;
        return Ok(k + 1);
    };
    let end = end_of(segment.high(), n);
    add_first(rows, segment, id)?;
    'rows: for j in k + 1..end {
        add_follower(rows, Id::other(u64::from(j - 1)))?;
    }
    Ok(end)
}

/// Lets the next look-up begin at the segment behind the last one's.
fn go_up(steps: &mut Steps) {
    steps.set_near(steps.near().saturating_add(2));
}

/// Adds the rows of the numbers below n, segment by segment. There are none before.
fn read_rows<T: SegmentTable>(table: &T, rows: &mut Rows, n: u32) -> Result<(), AllocError>
    requires { AreRows rows.old.places.items rows.old.ids.items [] }
    ensures { OnOk result (AreRows rows.new.places.items rows.new.ids.items (table_rows (T.flats table.now) n)) }
{
    let mut steps = Steps::new();
    let mut k = 0;
    'rows: while k < n {
        k = add_segment(table, rows, k, n, &mut steps)?;
        go_up(&mut steps);
    }
    Ok(())
}

/// A parent, as placing wants it.
fn node(id: Id) -> Node
    requires { id < 2 ^ 56 + 2 ^ 32 }
    ensures { result ≡ node_of id }
{
    match id.group() {
        Group::Master => Node::Placed,
        Group::Others => Node::Other(id.place() as u32),
    }
}

/// Parents, as placing wants them.
fn nodes(alloc: Global, ids: &[Id]) -> Result<Vec<Node>, AllocError>
    requires { AllByRecursion (λ p. p < 2 ^ 56 + 2 ^ 32) ids.now }
    ensures { IfOk result (λ nodes. nodes.items ≡ map node_of ids.now) }
{
    let mut nodes = Vec::with_capacity(alloc, ids.len())?;
    'ids: for id in ids {
        nodes.push(node(*id))?;
    }
    Ok(nodes)
}

/// The parents of each number, in one list. Contracts see a list for each.
#[derive(Drop)]
pub(crate) struct Graph {
    places: Vec<Place>,
    ids: Vec<Id>,
}

impl Model for Graph {
    ghost use Rattle.std.specs.Prelude.{ℕ, List, map, length};
    ghost use Rattle.std.specs.List.{AllByRecursion};
    ghost use Rattle.flush_plan.specs.Places.{row_at, IsPlaceIn};
    ghost use Rattle.change_parts.specs.Rows.{AreSmall};

    ghost Value = { List (List ℕ) };

    ghost view = { λ g. map (row_at g.ids.items) g.places.items };

    ghost invariant = { λ g. AllByRecursion (IsPlaceIn (length g.ids.items)) g.places.items × AreSmall g.ids.items };
}

/// The same parents, as placing wants them.
#[derive(Drop)]
pub(crate) struct GraphNodes<'a> {
    places: &'a [Place],
    nodes: Vec<Node>,
}

impl<'a> Model for GraphNodes<'a> {
    ghost use Rattle.std.specs.Prelude.{List, map, length};
    ghost use Rattle.std.specs.List.{AllByRecursion};
    ghost use Rattle.assign_ids.specs.declared.graph.Node.{Node};
    ghost use Rattle.flush_plan.specs.Places.{node_row_at, IsPlaceIn};

    ghost Value = { List (List Node) };

    ghost view = { λ g. map (node_row_at g.nodes.items) g.places.now };

    ghost invariant = { λ g. AllByRecursion (IsPlaceIn (length g.nodes.items)) g.places.now };
}

impl<'a> ParentsOf for GraphNodes<'a> {
    ghost use Rattle.std.specs.Prelude.{[], slice_index_or};

    ghost parents = { λ g k. slice_index_or g k [] };

    fn parents_of(&self, k: u32) -> &[Node] {
        piece(&self.nodes, place_at(self.places, k))
    }
}

impl Graph {
    /// These rows.
    fn over(rows: Rows) -> Graph
        requires { (list : List (List ℕ)) × AreRows rows.places.items rows.ids.items list }
        ensures { (list : List (List ℕ)) → AreRows rows.places.items rows.ids.items list → result ≡ list }
    {
        Graph {
            places: rows.places,
            ids: rows.ids,
        }
    }

    /// The parents of the number k, in order; none of a number that it doesn't have.
    pub(crate) fn parents(&self, k: u32) -> &[Id]
        ensures { result.now ≡ slice_index_or self.now k [] }
    {
        piece(&self.ids, place_at(&self.places, k))
    }

    /// The same graph, as placing wants it.
    pub(crate) fn nodes<'a>(&'a self, alloc: Global) -> Result<GraphNodes<'a>, AllocError>
        ensures { IfOk result (λ g. g ≡ map (map node_of) self.now) }
    {
        let nodes = nodes(alloc, &self.ids)?;
        Ok(GraphNodes {
            places: &self.places,
            nodes,
        })
    }
}

/// The parents of the other ids of the table, of which there are n.
pub(crate) fn graph_of<T: SegmentTable>(
    alloc: Global,
    table: &T,
    n: u32,
) -> Result<Graph, AllocError>
    ensures { IfOk result (λ graph. graph ≡ table_rows (T.flats table.now) n) }
{
    let mut rows = Rows {
        places: Vec::with_capacity(alloc, n as usize)?,
        ids: Vec::with_capacity(alloc, n as usize)?,
    };
    read_rows(table, &mut rows, n)?;
    Ok(Graph::over(rows))
}
