//! Graphs as tables of segments, and what is answered over them.

ghost use Rattle.std.specs.Prelude.{◌≡◌, ◌≤◌, ◌<◌, ◌^◌, ℕ, IsTrue};
ghost use Rattle.id_groups.specs.Lists.{IsIn};
ghost use Rattle.segment_codec.specs.Table.{IsHeld};

use crate::cases::Graph;
use crate::names::parsed;
use flat_segments::FlatFault;
use id_groups::{Group, Id};
use sample_tables::{LevelSample, OtherSample, Sample, held_id};
use segment_codec::SegmentTable;
use set_query::{Expr, ExprFault, eval};
use span_set::IdSet;
use std::alloc::{AllocError, Global};

/// The id of the commit of this name in a graph with so many master commits.
fn id_of(masters: usize, name: u8) -> Id {
    let place = (name as u64).saturating_sub(1);
    let count = masters as u64;
    if place < count {
        Id::master(place)
    } else {
        Id::other(place.saturating_sub(count))
    }
}

/// The last byte of the name of the commit with this id.
fn name_of(masters: usize, id: Id) -> u8 {
    let place = match id.group() {
        Group::Master => id.place(),
        Group::Others => id.place().saturating_add(masters as u64),
    };
    (place.saturating_add(1) % 256) as u8
}

fn ids_of(alloc: Global, masters: usize, names: &[u8]) -> Result<Vec<Id>, AllocError> {
    let mut ids = Vec::new(alloc);
    for name in names {
        ids.push(id_of(masters, *name))?;
    }
    Ok(ids)
}

/// Adds so many commits, the first with these parents and each other on the one before, if they may come.
fn push(sample: &mut Sample, parents: &[Id], count: u64) -> Result<bool, AllocError> {
    if !sample.may_push(parents, count) {
        return Ok(false);
    }
    sample.push(parents, count)?;
    Ok(true)
}

/// Whether the commit at the place has the one before it as its only parent.
fn goes_on(graph: &Graph, place: usize) -> bool {
    match graph.parents.get(place).copied().unwrap_or_default() {
        [parent] => *parent as usize == place,
        _ => false,
    }
}

/// Adds the commits from one place to before another, of which each but the first goes on from the one before, and so many more.
fn push_run(
    alloc: Global,
    sample: &mut Sample,
    graph: &Graph,
    masters: usize,
    from: usize,
    count: u64,
) -> Result<bool, AllocError> {
    let parents = graph.parents.get(from).copied().unwrap_or_default();
    let ids = ids_of(alloc, masters, parents)?;
    push(sample, &ids, count)
}

/// Adds the first commits of the graph and so many more that go on from the last, up to a run of commits that may not come. Whether
/// there is none.
fn push_runs(
    alloc: Global,
    sample: &mut Sample,
    graph: &Graph,
    count: usize,
    more: u64,
) -> Result<bool, AllocError> {
    let mut from = 0usize;
    for place in 0..count {
        let next = place.saturating_add(1);
        if next < count && goes_on(graph, next) {
            continue;
        }
        let run = next.saturating_sub(from) as u64;
        let behind = if next == count { more } else { 0 };
        if !push_run(
            alloc,
            sample,
            graph,
            count,
            from,
            run.saturating_add(behind),
        )? {
            return Ok(false);
        }
        from = next;
    }
    Ok(true)
}

/// The first commits of the graph as a table of master ids, and so many more that go on from the last; `None` where the rows are
/// no history.
pub fn sample_of(
    alloc: Global,
    graph: &Graph,
    count: usize,
    more: u64,
) -> Result<Option<Sample>, AllocError> {
    let mut sample = Sample::empty(alloc);
    if !push_runs(alloc, &mut sample, graph, count, more)? {
        return Ok(None);
    }
    Ok(Some(sample))
}

/// Adds a commit with the parents of these names, if it may come.
fn push_other(
    alloc: Global,
    part: &mut OtherSample,
    masters: usize,
    parents: &[u8],
) -> Result<bool, AllocError> {
    let ids = ids_of(alloc, masters, parents)?;
    if !part.may_push(&ids, 1) {
        return Ok(false);
    }
    part.push(&ids, 1)?;
    Ok(true)
}

/// Adds the commits from one place to before another, up to one that may not come. Whether there is none.
fn push_others(
    alloc: Global,
    part: &mut OtherSample,
    graph: &Graph,
    from: usize,
    to: usize,
) -> Result<bool, AllocError> {
    for place in from..to {
        let parents = graph.parents.get(place).copied().unwrap_or_default();
        if !push_other(alloc, part, graph.masters, parents)? {
            return Ok(false);
        }
    }
    Ok(true)
}

/// The commits from one place to before another as a part of the other group; `None` where they may not come there.
pub fn part_of(
    alloc: Global,
    graph: &Graph,
    from: usize,
    to: usize,
) -> Result<Option<OtherSample>, AllocError> {
    let place = from.saturating_sub(graph.masters) as u64;
    let mut part = OtherSample::empty(alloc, graph.masters as u64, place % 256);
    if !push_others(alloc, &mut part, graph, from, to)? {
        return Ok(None);
    }
    Ok(Some(part))
}

/// All commits of the graph as master ids with their levels.
pub fn levels_of(alloc: Global, sample: &Sample) -> Result<LevelSample, FlatFault> {
    let mut log = Vec::new(alloc);
    log.extend_from_slice(sample.bytes())?;
    LevelSample::over(alloc, log, false).add(sample.bytes().len())
}

/// Whether the table has each of the ids.
fn are_held<T: SegmentTable>(table: &T, ids: &[Id]) -> bool
    ensures { IsTrue result → (x : ℕ) → IsIn x ids.now → IsHeld (T.flats table.now) x }
{
    match ids {
        [] => true,
        [first, others @ ..] => held_id(table, *first).is_some() && are_held(table, others),
    }
}

/// The ids that stand for the names in the expression.
fn ids_in(alloc: Global, masters: usize, expr: &Expr) -> Result<Vec<Id>, AllocError> {
    let mut ids = Vec::new(alloc);
    for k in 0..expr.name_count() {
        ids.push(id_of(masters, expr.name_at(k).lend().bytes[19]))?;
    }
    Ok(ids)
}

/// The last bytes of the names of a set's commits, from the greatest id down.
fn names_in(alloc: Global, masters: usize, set: &IdSet) -> Result<Vec<u8>, AllocError> {
    let mut names = Vec::new(alloc);
    for id in set.ids_down() {
        names.push(name_of(masters, id))?;
    }
    Ok(names)
}

/// The names in the answer where these ids stand for those in the expression; `None` where the table hasn't one of them.
fn asked<T: SegmentTable>(
    alloc: Global,
    table: &T,
    masters: usize,
    expr: &Expr,
    ids: &[Id],
) -> Result<Option<Vec<u8>>, AllocError> {
    if ids.len() != expr.name_count() as usize || !are_held(table, ids) {
        return Ok(None);
    }
    let answer = eval(alloc, table, expr, ids)?;
    let names = names_in(alloc, masters, answer.set())?;
    Ok(Some(names))
}

/// The names in the answer of an expression; `None` where the table hasn't an id that is asked for.
fn names_of<T: SegmentTable>(
    alloc: Global,
    table: &T,
    masters: usize,
    expr: &Expr,
) -> Result<Option<Vec<u8>>, AllocError> {
    let ids = ids_in(alloc, masters, expr)?;
    asked(alloc, table, masters, expr, &ids)
}

/// The last bytes of the names in the answer over a table of a graph with so many master commits; `None` where the table hasn't
/// an id that is asked for.
pub fn evaluated<T: SegmentTable>(
    alloc: Global,
    table: &T,
    masters: usize,
    text: &[u8],
) -> Result<Option<Vec<u8>>, ExprFault> {
    let expr = parsed(alloc, text)?;
    Ok(names_of(alloc, table, masters, &expr)?)
}
