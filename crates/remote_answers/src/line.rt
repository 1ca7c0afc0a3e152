//! Names along first parents.

ghost use Rattle.std.specs.Prelude.{◌≡◌, ◌<◌, ◌≤◌, ◌^◌, ℕ, List, Some, None, MatchOption, length, take, slice_get, option_and_then};
ghost use Rattle.id_groups.specs.Name.{Name as NameBytes};
ghost use Rattle.commit_graph.specs.World.{Row};
ghost use Rattle.commit_graph.specs.Graph.{first_ancestor as after_steps, first_of_list};
ghost use Rattle.segment_codec.specs.Table.{IsHeld, parents_at};
ghost use Rattle.ancestor_query.specs.Graph.{table_graph};
ghost use Rattle.remote_trait.specs.Honest.{AreNamesOf};
ghost use Rattle.remote_answers.specs.Master.{IsMasterOf, name_at};
ghost use Rattle.remote_answers.specs.Lines.{IsPlace};

use crate::names::MasterNames;
use ancestor_query::first_ancestor;
use id_groups::{Id, Name};
use segment_codec::{SegmentTable, Steps};

/// A place on a line of first parents: an id, the lowest of its segment, and the first parent of that one.
#[derive(Clone, Copy)]
struct Place {
    at: u64,
    low: u64,
    first: Option<Id>,
}

/// The place of an id of the table.
fn place_of<T: SegmentTable>(table: &T, id: Id, steps: &mut Steps) -> Place
    requires { IsHeld (T.flats table.now) id }
    ensures at { result.at ≡ id }
    ensures place { IsPlace (T.flats table.now) result }
{
    let segment = table.flat(id, steps).unwrap();
    Place {
        at: id.number(),
        low: segment.low().number(),
        first: segment.parents().next(),
    }
}

/// The place of the first parent; `None` exactly where there are no parents. Within a segment nothing is looked up.
fn next_place<T: SegmentTable>(table: &T, place: Place, steps: &mut Steps) -> Option<Place>
    requires { IsPlace (T.flats table.now) place }
    ensures { MatchOption result (first_of_list (parents_at (T.flats table.now) place.at) ≡ None)
        (λ next. (first_of_list (parents_at (T.flats table.now) place.at) ≡ Some next.at) × IsPlace (T.flats table.now) next) }
{
    if place.at > place.low {
        return Some(Place {
            at: place.at - 1,
            low: place.low,
            first: place.first,
        });
    }
    let parent = place.first?;
    Some(place_of(table, parent, steps))
}

/// Puts the names that `back` first parents lead to from `x`, one more, and so on, at the front of `out`, and answers how many
/// there are; 0 where `x` isn't there.
pub fn put_names<T: SegmentTable, N: MasterNames>(
    table: &T,
    names: &N,
    x: &Name,
    back: u64,
    out: &mut [Name],
) -> u32
    requires master { (rows : List (Row NameBytes)) × IsMasterOf (T.flats table.now) (N.are_of names.now) rows }
    requires few { length out.old < 2 ^ 32 }
    ensures count { result ≤ length out.old }
    ensures names { (rows : List (Row NameBytes)) → IsMasterOf (T.flats table.now) (N.are_of names.now) rows → AreNamesOf rows x.now back (length out.old) (take result out.new) }
{
    let Some(id) = names.id(x) else {
        return 0;
    };
    let mut steps = Steps::new();
    let Some(first) = first_ancestor(table, id, back, &mut steps) else {
        return 0;
    };
    put_line(table, names, first, out, &mut steps)
}

/// Puts the name of the id, that of its first parent, and so on, and answers how many there are.
fn put_line<T: SegmentTable, N: MasterNames>(
    table: &T,
    names: &N,
    first: Id,
    out: &mut [Name],
    steps: &mut Steps,
) -> u32
    requires first { (rows : List (Row NameBytes)) × IsMasterOf (T.flats table.now) (N.are_of names.now) rows × (first < length rows) }
    requires few { length out.old < 2 ^ 32 }
    ensures count { result ≤ length out.old }
    ensures size { length out.new ≡ length out.old }
    ensures each { (rows : List (Row NameBytes)) → IsMasterOf (T.flats table.now) (N.are_of names.now) rows → (k : ℕ) → k < result
        → slice_get out.new k ≡ option_and_then (name_at rows) (after_steps (table_graph (T.flats table.now)) k first) }
    ensures all { result < length out.old → after_steps (table_graph (T.flats table.now)) result first ≡ None }
{
    let mut place = place_of(table, first, steps);
    'names: for k in 0..out.len() {
        out[k] = names.name(Id::master(place.at));
        match next_place(table, place, steps) {
            Some(next) => place = next,
            None => return k as u32 + 1,
        }
    }
    out.len() as u32
}
