//! Paths from known names.

ghost use Rattle.std.specs.Prelude.{◌≡◌, ◌<◌, ◌≤◌, ◌+◌, ◌^◌, ◌⊎◌, ◌↔◌, List, length, IsTrue, IfSome};
ghost use Rattle.id_groups.specs.Lists.{IsIn};
ghost use Rattle.id_groups.specs.Name.{Name as NameBytes};
ghost use Rattle.commit_graph.specs.World.{Row};
ghost use Rattle.segment_codec.specs.Record.{Segment};
ghost use Rattle.segment_codec.specs.Lent.{parents_left, segment_of};
ghost use Rattle.span_set.specs.Members.{IsMember};
ghost use Rattle.remote_trait.specs.Honest.{IsPathOf};
ghost use Rattle.remote_answers.specs.Master.{IsMasterIn, IsMasterOf};
ghost use Rattle.remote_answers.specs.Paths.{AreReached, IsReachedBy, IsMergeParent, LeadsTo, BeginsChild, IsBegunBy, IsChild, IsLast};

use crate::names::MasterNames;
use crate::reached::Reached;
use id_groups::{Id, Name};
use remote_trait::Path;
use segment_codec::{Parents, SegmentRef, SegmentTable, Steps};
use span_set::IdSet;

/// So many places an edge of a table tells apart below its parent.
const PLACES: u64 = 1 << 32;

/// A commit from which first parents lead to another one, and how many do.
#[derive(Clone, Copy)]
struct Way {
    from: u64,
    back: u64,
}

/// A child that begins a segment, and whether it is a merge.
#[derive(Clone, Copy)]
struct Child {
    id: u64,
    is_merge: bool,
}

/// A path to the name from one of the heads or from a parent of a merge that they reach; `None` exactly where none of them reaches
/// the name.
pub fn find_path<T: SegmentTable, N: MasterNames>(
    table: &T,
    names: &N,
    reached: &Reached,
    name: &Name,
) -> Option<Path>
    requires { (rows : List (Row NameBytes)) × IsMasterOf (T.flats table.now) (N.are_of names.now) rows × IsReachedBy (T.flats table.now) rows reached.now }
    ensures { (rows : List (Row NameBytes)) → IsMasterOf (T.flats table.now) (N.are_of names.now) rows → IsReachedBy (T.flats table.now) rows reached.now
        → IsPathOf rows reached.now.heads.items name.now result }
{
    let id = names.id(name)?;
    if !reached.ids.contains(id) {
        return None;
    }
    let way = climb(table, &reached.tops, &reached.ids, id);
    Some(Path {
        x: names.name(Id::master(way.from)),
        n: way.back,
    })
}

/// Climbs from an id that is reached, by children whose first parent was come from, up to the first one that may be named.
fn climb<T: SegmentTable>(table: &T, tops: &IdSet, ids: &IdSet, id: Id) -> Way
    requires reached { (rows : List (Row NameBytes)) × (heads : List NameBytes) × IsMasterIn (T.flats table.now) rows × AreReached (T.flats table.now) rows heads tops.now ids.now }
    requires id { IsMember ids.now id }
    ensures leads { LeadsTo (T.flats table.now) id result }
    ensures reached { IsMember ids.now result.from }
    ensures named { IsMember tops.now result.from ⊎ IsMergeParent (T.flats table.now) ids.now result.from }
{
    let mut steps = Steps::new();
    let mut way = Way {
        from: id.number(),
        back: 0,
    };
    'climb: loop {
        let segment = table.flat(Id::master(way.from), &mut steps).unwrap();
        let high = segment.high().number();
        let last = last_reached(ids, way, high);
        if tops.contains(Id::master(last.from)) {
            return last;
        }
        let child = child_above(table, ids, last.from, high + 1, &mut steps);
        if child.is_merge {
            return last;
        }
        way = Way {
            from: child.id,
            back: last.back + 1,
        };
    }
}

/// The way from the greatest id up to this one that is reached.
fn last_reached(ids: &IdSet, way: Way, high: u64) -> Way
    requires reached { IsMember ids.now way.from }
    requires within { way.from ≤ high }
    requires master { high + 1 < 2 ^ 56 }
    requires back { way.back ≤ way.from }
    ensures last { IsLast ids.now high way result }
    ensures back { result.back ≤ result.from }
{
    let last = ids.greatest_below(Id::master(high + 1)).unwrap().number();
    Way {
        from: last,
        back: way.back + (last - way.from),
    }
}

/// Whether the id is one of the parents.
fn is_among(parents: Parents<'_>, id: u64) -> bool
    ensures { IsTrue result ↔ IsIn id (parents_left parents.entry) }
{
    'parents: for parent in parents {
        if parent.number() == id {
            return true;
        }
    }
    false
}

/// Whether there are two parents or more.
fn are_several(parents: Parents<'_>) -> bool
    ensures { IsTrue result ↔ 2 ≤ length (parents_left parents.entry) }
{
    let mut left = parents;
    left.next().is_some() && left.next().is_some()
}

/// Lets the next look-up begin at the segment so many places behind the last one's.
fn go_up(steps: &mut Steps, places: usize) {
    steps.set_near(steps.near().saturating_add(places).saturating_add(1));
}

/// The child of the id that the segment begins, where it does and the child is reached.
fn child_in(ids: &IdSet, id: u64, segment: SegmentRef<'_>) -> Option<Child>
    ensures { IfSome result (λ c. IsBegunBy ids.now id (segment_of segment.entry) c) }
{
    let low = segment.low();
    if is_among(segment.parents(), id) && ids.contains(low) {
        return Some(Child {
            id: low.number(),
            is_merge: are_several(segment.parents()),
        });
    }
    None
}

/// The child of the id that the segment at the place of an edge begins, where it does and the child is reached.
fn child_at<T: SegmentTable>(
    table: &T,
    ids: &IdSet,
    id: u64,
    edge: u64,
    steps: &mut Steps,
) -> Option<Child>
    ensures { IfSome result (λ c. IsChild (T.flats table.now) ids.now id c) }
{
    let place = edge % PLACES;
    if place >= u64::from(table.flat_count()) {
        return None;
    }
    child_in(ids, id, table.flat_at(place as u32, steps))
}

/// A child of the id that begins a segment and is reached, where the table's edges lead to one.
fn child_by_edges<T: SegmentTable>(
    table: &T,
    ids: &IdSet,
    id: u64,
    steps: &mut Steps,
) -> Option<Child>
    ensures { IfSome result (λ c. IsChild (T.flats table.now) ids.now id c) }
{
    let items = table.edges().items;
    let mut at = items.partition_point(|edge| *edge / PLACES < id);
    'edges: while at < items.len() && items[at] / PLACES == id {
        let child = child_at(table, ids, id, items[at], steps);
        if child.is_some() {
            return child;
        }
        at += 1;
    }
    None
}

/// A child of the id, from this place on, that begins a segment and is reached: one that an edge leads to, or else the first. There is one.
fn child_above<T: SegmentTable>(
    table: &T,
    ids: &IdSet,
    id: u64,
    from: u64,
    steps: &mut Steps,
) -> Child
    requires child { (rows : List (Row NameBytes)) × (s : Segment) × IsMasterIn (T.flats table.now) rows × BeginsChild (T.flats table.now) ids.now id s × (s.low < length rows) × (from ≤ s.low) }
    ensures { IsChild (T.flats table.now) ids.now id result }
{
    match child_by_edges(table, ids, id, steps) {
        Some(child) => child,
        None => child_ahead(table, ids, id, from, steps),
    }
}

/// The first child of the id, from this place on, that begins a segment and is reached. There is one.
fn child_ahead<T: SegmentTable>(
    table: &T,
    ids: &IdSet,
    id: u64,
    from: u64,
    steps: &mut Steps,
) -> Child
    requires child { (rows : List (Row NameBytes)) × (s : Segment) × IsMasterIn (T.flats table.now) rows × BeginsChild (T.flats table.now) ids.now id s × (s.low < length rows) × (from ≤ s.low) }
    ensures { IsChild (T.flats table.now) ids.now id result }
{
    let mut at = from;
    'segments: loop {
        go_up(steps, 1);
        let segment = table.flat(Id::master(at), steps).unwrap();
        let low = segment.low();
        if is_among(segment.parents(), id) && ids.contains(low) {
            go_up(steps, 0);
            return Child {
                id: low.number(),
                is_merge: are_several(segment.parents()),
            };
        }
        at = segment.high().number() + 1;
    }
}
