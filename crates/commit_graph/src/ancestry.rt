//! Walks along parents, over plain rows.

ghost use Rattle.std.specs.Prelude.{◌≡◌, ◌⊎◌, ◌↔◌, Some, IsSome, IsTrue, IfOk, option_map};
ghost use Rattle.id_groups.specs.Lists.{IsIn};
ghost use Rattle.id_groups.specs.Name.{Name as NameBytes, same_name};
ghost use Rattle.commit_graph.specs.World.{Row as PlainRow};
ghost use Rattle.commit_graph.specs.Ids.{row_at, id_in};
ghost use Rattle.commit_graph.specs.Graph.{graph_of, Reaches, first_ancestor as after_steps};

use crate::{Row, World};
use id_groups::{Id, Name};
use std::alloc::{AllocError, Global};

/// Whether a walk along parents leads from the commit x to y, both ids of the world; from a commit to itself one
/// does. It goes over all rows once, and looks each parent up among the commits that lead to y. `AllocError` only
/// for want of memory.
pub fn reaches(alloc: Global, world: &World, x: Id, y: Id) -> Result<bool, AllocError>
    requires from { IsSome (row_at world.now x) }
    requires to { IsSome (row_at world.now y) }
    ensures { IfOk result (λ found. (from to : PlainRow NameBytes)
        → row_at world.now x ≡ Some from → row_at world.now y ≡ Some to
        → (IsTrue found ↔ Reaches (graph_of same_name world.now) from.name to.name)) }
{
    world.is_world();
    let target = *world.row(y).name();
    let mut leading = Vec::new(alloc);
    for place in 0..world.len() {
        let row = world.nth(place);
        if leads(row, &target, leading.as_slice()) {
            leading.push(*row.name())?;
        }
    }
    Ok(has(leading.as_slice(), world.row(x).name()))
}

/// The commit that `n` steps, each to the first parent, lead to from the commit x, which is an id of the world;
/// `None` exactly where a commit on the way has no parent. It takes no more steps than the world has commits.
pub fn first_ancestor(world: &World, x: Id, n: u64) -> Option<Id>
    requires { IsSome (row_at world.now x) }
    ensures { (from : PlainRow NameBytes) → row_at world.now x ≡ Some from
        → result ≡ option_map (id_in same_name world.now)
        (after_steps (graph_of same_name world.now) n from.name) }
{
    world.is_world();
    let mut at = x;
    for _step in 0..n {
        let parent = world.row(at).parents().first()?;
        at = world.find(parent).unwrap();
    }
    Some(at)
}

/// Whether the row is that of the target, or has a parent among the commits that lead there.
fn leads(row: &Row, target: &Name, leading: &[Name]) -> bool
    ensures { IsTrue result ↔ ((row.now.name ≡ target.now)
        ⊎ ((p : NameBytes) × IsIn p row.now.parents × IsIn p leading.now)) }
{
    if row.name().is(target) {
        return true;
    }
    for parent in row.parents() {
        if has(leading, parent) {
            return true;
        }
    }
    false
}

/// Whether the name is one of the names.
fn has(names: &[Name], name: &Name) -> bool
    ensures { IsTrue result ↔ IsIn name.now names.now }
{
    for held in names {
        if held.is(name) {
            return true;
        }
    }
    false
}
