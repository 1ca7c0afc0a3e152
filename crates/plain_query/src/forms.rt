//! The sets that calls make of sets.

ghost use Rattle.std.specs.Prelude.{IfOk};
ghost use Rattle.id_groups.specs.Name.{same_name};
ghost use Rattle.commit_graph.specs.Graph.{graph_of};
ghost use Rattle.set_expr.specs.Meaning.{made_of as made, made_of_two as made_two};
ghost use Rattle.plain_query.specs.Members.{AreMembers, among};

use crate::members::Members;
use crate::places::row_count;
use crate::walks::{
    all_merges, ancestors_of, children_of, common_of, descendants_of, line_of, parents_of,
};
use commit_graph::World;
use set_expr::{Call, PairCall};
use std::alloc::{AllocError, Global};

/// What the call makes of the set. `AllocError` only for want of memory.
pub(crate) fn made_of(
    alloc: Global,
    world: &World,
    call: Call,
    set: &Members,
) -> Result<Members, AllocError>
    ensures { IfOk result (λ members. AreMembers (made (graph_of same_name world.now) call (among set.now)) members) }
{
    match call {
        Call::Parents => parents_of(alloc, world, set),
        Call::Children => children_of(alloc, world, set),
        Call::Ancestors => ancestors_of(alloc, world, set),
        Call::Descendants => descendants_of(alloc, world, set),
        Call::Heads => heads_of(alloc, world, set),
        Call::Roots => roots_of(alloc, world, set),
        Call::Tips => tips_of(alloc, world, set),
        Call::Merges => merges_of(alloc, world, set),
        Call::Common => common_of(alloc, world, set),
        Call::Gca => gca_of(alloc, world, set),
        Call::Line => line_of(alloc, world, set),
    }
}

/// The members that are no parents of members. `AllocError` only for want of memory.
fn heads_of(alloc: Global, world: &World, set: &Members) -> Result<Members, AllocError>
    ensures { IfOk result (λ members. AreMembers (made (graph_of same_name world.now) Call.Heads (among set.now)) members) }
{
    let parents = parents_of(alloc, world, set)?;
    set.minus(alloc, &parents)
}

/// The members that are no children of members. `AllocError` only for want of memory.
fn roots_of(alloc: Global, world: &World, set: &Members) -> Result<Members, AllocError>
    ensures { IfOk result (λ members. AreMembers (made (graph_of same_name world.now) Call.Roots (among set.now)) members) }
{
    let children = children_of(alloc, world, set)?;
    set.minus(alloc, &children)
}

/// The members that no other member reaches: whatever reaches one reaches it by way of its own parent. `AllocError` only for
/// want of memory.
fn tips_of(alloc: Global, world: &World, set: &Members) -> Result<Members, AllocError>
    ensures { IfOk result (λ members. AreMembers (made (graph_of same_name world.now) Call.Tips (among set.now)) members) }
{
    let _rows = row_count(world);
    let parents = parents_of(alloc, world, set)?;
    let reached = ancestors_of(alloc, world, &parents)?;
    set.minus(alloc, &reached)
}

/// The members with two or more parents. `AllocError` only for want of memory.
fn merges_of(alloc: Global, world: &World, set: &Members) -> Result<Members, AllocError>
    ensures { IfOk result (λ members. AreMembers (made (graph_of same_name world.now) Call.Merges (among set.now)) members) }
{
    let merges = all_merges(alloc, world)?;
    set.inter(alloc, &merges)
}

/// The last commits that each member reaches. `AllocError` only for want of memory.
fn gca_of(alloc: Global, world: &World, set: &Members) -> Result<Members, AllocError>
    ensures { IfOk result (λ members. AreMembers (made (graph_of same_name world.now) Call.Gca (among set.now)) members) }
{
    let common = common_of(alloc, world, set)?;
    heads_of(alloc, world, &common)
}

/// What the call makes of the two sets. `AllocError` only for want of memory.
pub(crate) fn made_of_two(
    alloc: Global,
    world: &World,
    call: PairCall,
    one: &Members,
    other: &Members,
) -> Result<Members, AllocError>
    ensures { IfOk result (λ members. AreMembers (made_two (graph_of same_name world.now) call (among one.now) (among other.now)) members) }
{
    match call {
        PairCall::Range => range_of(alloc, world, one, other),
        PairCall::Only => only_of(alloc, world, one, other),
        PairCall::Union => one.union(alloc, other),
        PairCall::Inter => one.inter(alloc, other),
        PairCall::Minus => one.minus(alloc, other),
    }
}

/// The commits that reach some of the first set and that some of the second reaches. `AllocError` only for want of memory.
fn range_of(
    alloc: Global,
    world: &World,
    low: &Members,
    high: &Members,
) -> Result<Members, AllocError>
    ensures { IfOk result (λ members. AreMembers (made_two (graph_of same_name world.now) PairCall.Range (among low.now) (among high.now)) members) }
{
    let above = descendants_of(alloc, world, low)?;
    let below = ancestors_of(alloc, world, high)?;
    above.inter(alloc, &below)
}

/// The commits that some of the first set reaches, and none of the second. `AllocError` only for want of memory.
fn only_of(
    alloc: Global,
    world: &World,
    one: &Members,
    other: &Members,
) -> Result<Members, AllocError>
    ensures { IfOk result (λ members. AreMembers (made_two (graph_of same_name world.now) PairCall.Only (among one.now) (among other.now)) members) }
{
    let reached = ancestors_of(alloc, world, one)?;
    let lost = ancestors_of(alloc, world, other)?;
    reached.minus(alloc, &lost)
}
