//! Sets that lie along parents from other sets, by one pass over the rows each.

ghost use Rattle.std.specs.Prelude.{◌≤◌, ◌↔◌, IsTrue, IfOk, length};
ghost use Rattle.id_groups.specs.Name.{same_name};
ghost use Rattle.commit_graph.specs.Graph.{graph_of};
ghost use Rattle.commit_graph.specs.Sets as sets;
ghost use Rattle.set_expr.specs.Line.{line};
ghost use Rattle.plain_query.specs.Members.{AreMembers, among};

use crate::members::{Members, first_names};
use crate::places::{row_at_place, row_count};
use crate::words::one;
use commit_graph::{Row, World};
use std::alloc::{AllocError, Global};

/// The parents of the set's commits. `AllocError` only for want of memory.
pub(crate) fn parents_of(alloc: Global, world: &World, set: &Members) -> Result<Members, AllocError>
    ensures { IfOk result (λ members. AreMembers (sets.parents (graph_of same_name world.now) (among set.now)) members) }
{
    let mut members = Members::none(alloc);
    for place in 0..row_count(world) {
        let row = row_at_place(world, place);
        if set.has(row.name()) {
            members.add_all(row.parents())?;
        }
    }
    Ok(members)
}

/// The commits with a parent in the set. `AllocError` only for want of memory.
pub(crate) fn children_of(
    alloc: Global,
    world: &World,
    set: &Members,
) -> Result<Members, AllocError>
    ensures { IfOk result (λ members. AreMembers (sets.children (graph_of same_name world.now) (among set.now)) members) }
{
    let mut members = Members::none(alloc);
    for place in 0..row_count(world) {
        let row = row_at_place(world, place);
        if set.has_any(row.parents()) {
            members.add(row.name())?;
        }
    }
    Ok(members)
}

/// The world's commits with two or more parents. `AllocError` only for want of memory.
pub(crate) fn all_merges(alloc: Global, world: &World) -> Result<Members, AllocError>
    ensures { IfOk result (λ members. AreMembers (λ x. 2 ≤ length ((graph_of same_name world.now).parents x)) members) }
{
    let mut members = Members::none(alloc);
    for place in 0..row_count(world) {
        let row = row_at_place(world, place);
        if is_merge(row) {
            members.add(row.name())?;
        }
    }
    Ok(members)
}

/// Whether the commit has two or more parents.
fn is_merge(row: &Row) -> bool
    ensures { IsTrue result ↔ (2 ≤ length row.now.parents) }
{
    row.parents().len() >= 2
}

/// The commits that those of the set reach. Each parent stands before its child, so that it is enough to go over the rows once,
/// from the last to the first. `AllocError` only for want of memory.
pub(crate) fn ancestors_of(
    alloc: Global,
    world: &World,
    set: &Members,
) -> Result<Members, AllocError>
    ensures { IfOk result (λ members. AreMembers (sets.ancestors (graph_of same_name world.now) (among set.now)) members) }
{
    let mut members = set.copy(alloc)?;
    for place in (0..row_count(world)).rev() {
        let row = row_at_place(world, place);
        if members.has(row.name()) {
            members.add_all(row.parents())?;
        }
    }
    Ok(members)
}

/// The commits that those of the set reach by first parents alone, by one pass as that of [`ancestors_of`]. `AllocError` only for want
/// of memory.
pub(crate) fn line_of(alloc: Global, world: &World, set: &Members) -> Result<Members, AllocError>
    ensures { IfOk result (λ members. AreMembers (line (graph_of same_name world.now) (among set.now)) members) }
{
    let mut members = set.copy(alloc)?;
    for place in (0..row_count(world)).rev() {
        let row = row_at_place(world, place);
        if members.has(row.name()) {
            members.add_all(first_names(row.parents(), 1))?;
        }
    }
    Ok(members)
}

/// The commits that reach some of the set. Each parent stands before its child, so that it is enough to go over the rows once,
/// from the first to the last. `AllocError` only for want of memory.
pub(crate) fn descendants_of(
    alloc: Global,
    world: &World,
    set: &Members,
) -> Result<Members, AllocError>
    ensures { IfOk result (λ members. AreMembers (sets.descendants (graph_of same_name world.now) (among set.now)) members) }
{
    let mut members = set.copy(alloc)?;
    for place in 0..row_count(world) {
        let row = row_at_place(world, place);
        if members.has_any(row.parents()) {
            members.add(row.name())?;
        }
    }
    Ok(members)
}

/// The commits that each one of the set reaches, where it has any. `AllocError` only for want of memory.
pub(crate) fn common_of(alloc: Global, world: &World, set: &Members) -> Result<Members, AllocError>
    ensures { IfOk result (λ members. AreMembers (sets.common (graph_of same_name world.now) (among set.now)) members) }
{
    let mut members = ancestors_of(alloc, world, set)?;
    for name in set.names() {
        let only = one(alloc, name)?;
        let reached = ancestors_of(alloc, world, &only)?;
        let shared = members.inter(alloc, &reached)?;
        members = shared;
    }
    Ok(members)
}
