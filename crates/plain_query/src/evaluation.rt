//! Expressions over a world, evaluated part by part.

ghost use Rattle.std.specs.Prelude.{◌≡◌, ℕ, IfOk, take, length};
ghost use Rattle.id_groups.specs.Lists.{IsFiltered};
ghost use Rattle.id_groups.specs.Name.{same_name};
ghost use Rattle.commit_graph.specs.Graph.{graph_of};
ghost use Rattle.commit_graph.specs.Sets as sets;
ghost use Rattle.set_expr.specs.Meaning.{IsMember, IsAnswer};
ghost use Rattle.set_expr.specs.Tree.{tree_in};
ghost use Rattle.set_expr.specs.Whole.{tree_of};
ghost use Rattle.plain_query.specs.Members.{AreMembers, among};

use crate::forms::{made_of, made_of_two};
use crate::members::{Members, first_names};
use crate::places::{row_at_place, row_count};
use crate::words::{named, one, up};
use commit_graph::World;
use id_groups::Name;
use set_expr::{Expr, Tree};
use std::alloc::{AllocError, Global};

/// The names of an expression's members, the greatest id first. The expression may name commits that the world doesn't have:
/// none of these stands in the answer. `AllocError` only for want of memory.
pub fn answer(alloc: Global, world: &World, expr: &Expr) -> Result<Vec<Name>, AllocError>
    ensures { IfOk result (λ names. IsAnswer (graph_of same_name world.now) (tree_of expr.now) names.items) }
{
    let members = members_of(alloc, world, expr.tree())?;
    listed(alloc, world, &members)
}

/// The members of the set that the tree means. `AllocError` only for want of memory.
fn members_of(alloc: Global, world: &World, tree: &Tree) -> Result<Members, AllocError>
    ensures { IfOk result (λ members. AreMembers (IsMember (graph_of same_name world.now) (tree_in tree.now)) members) }
{
    match tree {
        Tree::One(name) => one(alloc, name),
        Tree::Named(word) => named(alloc, world, *word),
        Tree::Of(call, set) => {
            let members = members_of(alloc, world, set)?;
            made_of(alloc, world, *call, &members)
        }
        Tree::OfTwo(call, first, second) => {
            let some = members_of(alloc, world, first)?;
            let others = members_of(alloc, world, second)?;
            made_of_two(alloc, world, *call, &some, &others)
        }
        Tree::Up(name, n) => up(alloc, world, name, *n),
        Tree::Top(set, n) => {
            let members = members_of(alloc, world, set)?;
            top(alloc, world, &members, *n)
        }
    }
}

/// The n members that stand last among the world's rows. `AllocError` only for want of memory.
fn top(alloc: Global, world: &World, set: &Members, n: u64) -> Result<Members, AllocError>
    ensures { IfOk result (λ members. AreMembers (sets.top (graph_of same_name world.now) (among set.now) n) members) }
{
    let names = listed(alloc, world, set)?;
    let mut members = Members::none(alloc);
    members.add_all(first_names(names.as_slice(), n))?;
    Ok(members)
}

/// The names of those of the world's commits that are in the set, the last row first. `AllocError` only for want of memory.
fn listed(alloc: Global, world: &World, set: &Members) -> Result<Vec<Name>, AllocError>
    ensures { IfOk result (λ names. IsFiltered (among set.now) (graph_of same_name world.now).down names.items) }
{
    let mut names = Vec::new(alloc);
    for place in (0..row_count(world)).rev() {
        let name = row_at_place(world, place).name();
        if set.has(name) {
            names.push(*name)?;
        }
    }
    Ok(names)
}
