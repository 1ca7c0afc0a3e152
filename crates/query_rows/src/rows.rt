//! Graphs as plain worlds, and what is answered over them.

ghost use Rattle.std.specs.Prelude.{◌<◌, ◌^◌, IsTrue, length};
ghost use Rattle.id_groups.specs.Lists.{AreAllIn};
ghost use Rattle.commit_graph.specs.World.{names_of, rows_of};

use crate::cases::Graph;
use crate::names::{name_of, parsed};
use commit_graph::{Row, World};
use id_groups::Name;
use plain_query::{ExprFault, answer};
use std::alloc::{AllocError, Global};

/// The commit of this name with these parents, if they are at most three and not the same.
fn row_of(own: Name, parents: &[u8]) -> Option<Row> {
    match parents {
        [] => Some(Row::new(own, &[])),
        [first] => Some(Row::new(own, &[name_of(*first)])),
        [first, second] => two_parents(own, name_of(*first), name_of(*second)),
        [first, second, third] => {
            three_parents(own, name_of(*first), name_of(*second), name_of(*third))
        }
        _ => None,
    }
}

fn two_parents(own: Name, first: Name, second: Name) -> Option<Row> {
    if first.is(&second) {
        return None;
    }
    Some(Row::new(own, &[first, second]))
}

fn three_parents(own: Name, first: Name, second: Name, third: Name) -> Option<Row> {
    if first.is(&second) || first.is(&third) || second.is(&third) {
        return None;
    }
    Some(Row::new(own, &[first, second, third]))
}

/// The row of the commit at the place.
fn row_at(graph: &Graph, place: usize) -> Option<Row> {
    let parents = graph.parents.get(place)?;
    row_of(name_of((place % 255) as u8 + 1), parents)
}

/// Whether the world has commits of these names.
fn has_all(world: &World, names: &[Name]) -> bool
    ensures { IsTrue result → AreAllIn names.now (names_of (rows_of world.now)) }
{
    match names {
        [] => true,
        [name, others @ ..] => world.find(name).is_some() && has_all(world, others),
    }
}

/// Puts the row behind the others, if its name is new and its parents are there, and says whether that was so.
fn put(world: &mut World, row: Row) -> Result<bool, AllocError> {
    if world.find(row.name()).is_some() || world.others_count() > 99 {
        return Ok(false);
    }
    if !has_all(world, row.parents()) {
        return Ok(false);
    }
    world.push_other(row)?;
    Ok(true)
}

/// The graph's master rows as a world.
fn master_of(alloc: Global, graph: &Graph) -> Result<Option<World>, AllocError> {
    let mut rows = Vec::new(alloc);
    for place in 0..graph.masters {
        let Some(row) = row_at(graph, place) else {
            return Ok(None);
        };
        rows.push(row)?;
    }
    if rows.len() > 1000 {
        return Ok(None);
    }
    World::of_master(alloc, rows)
}

/// The graph as a world; `None` where its rows are no history.
pub fn world_of(alloc: Global, graph: &Graph) -> Result<Option<World>, AllocError> {
    let Some(mut world) = master_of(alloc, graph)? else {
        return Ok(None);
    };
    for place in graph.masters..graph.parents.len() {
        let Some(row) = row_at(graph, place) else {
            return Ok(None);
        };
        if !put(&mut world, row)? {
            return Ok(None);
        }
    }
    Ok(Some(world))
}

/// The last byte of each name.
fn last_bytes(alloc: Global, names: &[Name]) -> Result<Vec<u8>, AllocError> {
    let mut last = Vec::new(alloc);
    for name in names {
        last.push(name.lend().bytes[19])?;
    }
    Ok(last)
}

/// The last bytes of the names in the answer over the world.
pub fn answered(alloc: Global, world: &World, text: &[u8]) -> Result<Vec<u8>, ExprFault> {
    let expr = parsed(alloc, text)?;
    let names = answer(alloc, world, &expr)?;
    Ok(last_bytes(alloc, &names)?)
}
