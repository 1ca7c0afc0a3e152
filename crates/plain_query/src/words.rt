//! The sets of one commit, and those that words name.

ghost use Rattle.std.specs.Prelude.{◌≡◌, Some, IfOk};
ghost use Rattle.id_groups.specs.Name.{same_name};
ghost use Rattle.commit_graph.specs.Graph.{graph_of, first_ancestor, first_of_list};
ghost use Rattle.set_expr.specs.Meaning.{named as meant};
ghost use Rattle.plain_query.specs.Members.{AreMembers, among};

use crate::members::Members;
use crate::places::{row_at_place, row_count};
use commit_graph::World;
use id_groups::Name;
use set_expr::Word;
use std::alloc::{AllocError, Global};

/// The set of the commit of this name alone. `AllocError` only for want of memory.
pub(crate) fn one(alloc: Global, name: &Name) -> Result<Members, AllocError>
    ensures { IfOk result (λ members. AreMembers (λ x. x ≡ name.now) members) }
{
    let mut members = Members::none(alloc);
    members.add(name)?;
    Ok(members)
}

/// The n-th first-parent ancestor of the commit of this name, where there is one. `AllocError` only for want of memory.
pub(crate) fn up(alloc: Global, world: &World, name: &Name, n: u64) -> Result<Members, AllocError>
    ensures { IfOk result (λ members. AreMembers (λ x. first_ancestor (graph_of same_name world.now) n name.now ≡ Some x) members) }
{
    let mut at = *name;
    for _step in 0..n {
        match first_parent(world, &at) {
            Some(parent) => at = parent,
            None => return Ok(Members::none(alloc)),
        }
    }
    one(alloc, &at)
}

/// The name of the commit's first parent; `None` exactly where it has none, or the world has no such commit.
fn first_parent(world: &World, name: &Name) -> Option<Name>
    ensures { result ≡ first_of_list ((graph_of same_name world.now).parents name.now) }
{
    let id = world.find(name)?;
    world.row(id).parents().first().copied()
}

/// The set that the word names. `AllocError` only for want of memory.
pub(crate) fn named(alloc: Global, world: &World, word: Word) -> Result<Members, AllocError>
    ensures { IfOk result (λ members. AreMembers (meant (graph_of same_name world.now) word) members) }
{
    match word {
        Word::All => all_of(alloc, world),
        Word::Master => masters_of(alloc, world),
        Word::Others => others_of(alloc, world),
    }
}

/// All commits of the world. `AllocError` only for want of memory.
fn all_of(alloc: Global, world: &World) -> Result<Members, AllocError>
    ensures { IfOk result (λ members. AreMembers (meant (graph_of same_name world.now) Word.All) members) }
{
    let mut members = Members::none(alloc);
    for place in 0..row_count(world) {
        members.add(row_at_place(world, place).name())?;
    }
    Ok(members)
}

/// The commits of the master group. `AllocError` only for want of memory.
fn masters_of(alloc: Global, world: &World) -> Result<Members, AllocError>
    ensures { IfOk result (λ members. AreMembers (meant (graph_of same_name world.now) Word.Master) members) }
{
    let _rows = row_count(world);
    let mut members = Members::none(alloc);
    for place in 0..world.master_count() {
        members.add(row_at_place(world, place).name())?;
    }
    Ok(members)
}

/// The commits of the other group. `AllocError` only for want of memory.
fn others_of(alloc: Global, world: &World) -> Result<Members, AllocError>
    ensures { IfOk result (λ members. AreMembers (meant (graph_of same_name world.now) Word.Others) members) }
{
    let all = all_of(alloc, world)?;
    let masters = masters_of(alloc, world)?;
    all.minus(alloc, &masters)
}
