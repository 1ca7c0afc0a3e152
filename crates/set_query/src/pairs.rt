//! Calls of two arguments, of which one may be a call of `ancestors` whose members needn't be listed.

ghost use Rattle.std.specs.Prelude.{min, ◌-◌, ◌≡◌, ℕ, ◌≤◌, ◌^◌, ◌↔◌, IfOk, IfSome};
ghost use Rattle.commit_graph.specs.Sets as sets;
ghost use Rattle.segment_codec.specs.Table.{IsHeld};
ghost use Rattle.span_set.specs.Members.{IsMember, IsCanonical};
ghost use Rattle.ancestor_query.specs.Graph.{table_graph};
ghost use Rattle.set_expr.specs.declared.words.Call.TheVariants as calls;
ghost use Rattle.set_expr.specs.Expr.{Of, OfTwo};
ghost use Rattle.set_expr.specs.Tree.{tree_in};
ghost use Rattle.set_query.specs.Pairs.{whole_of, paired_set};

use crate::forms::made_of_two;
use ancestor_query::ancestors_above;
use id_groups::{ID_END, Id};
use segment_codec::{SegmentTable, Steps};
use set_expr::{Call, PairCall, Tree};
use span_set::IdSet;
use std::alloc::{AllocError, Global};

/// How two sets make one.
#[derive(Clone, Copy)]
pub(crate) enum Pairing {
    /// By this call of both.
    Called(PairCall),
    /// The members of the first that some of the second reaches.
    ReachedBySecond,
    /// The members of the second that some of the first reaches.
    ReachedByFirst,
    /// The members of the first that none of the second reaches.
    MissedBySecond,
}

/// How the call's set is made, and of which two: where it only asks which members of one argument are ancestors, the other
/// is what stands in its call of `ancestors`.
pub(crate) fn paired<'a>(
    call: PairCall,
    first: &'a Tree,
    second: &'a Tree,
) -> (Pairing, &'a Tree, &'a Tree)
    ensures { whole_of result.0 (tree_in result.1.now) (tree_in result.2.now) ≡ OfTwo call (tree_in first.now) (tree_in second.now) }
{
    match call {
        PairCall::Inter => inter_paired(first, second),
        PairCall::Minus => minus_paired(first, second),
        PairCall::Range | PairCall::Only | PairCall::Union => {
            (Pairing::Called(call), first, second)
        }
    }
}

/// How what stands in both arguments is found.
fn inter_paired<'a>(first: &'a Tree, second: &'a Tree) -> (Pairing, &'a Tree, &'a Tree)
    ensures { whole_of result.0 (tree_in result.1.now) (tree_in result.2.now) ≡ OfTwo PairCall.Inter (tree_in first.now) (tree_in second.now) }
{
    if let Some(from) = descending_from(second) {
        return (Pairing::ReachedBySecond, first, from);
    }
    match descending_from(first) {
        Some(from) => (Pairing::ReachedByFirst, from, second),
        None => (Pairing::Called(PairCall::Inter), first, second),
    }
}

/// How what stands in the first argument alone is found.
fn minus_paired<'a>(first: &'a Tree, second: &'a Tree) -> (Pairing, &'a Tree, &'a Tree)
    ensures { whole_of result.0 (tree_in result.1.now) (tree_in result.2.now) ≡ OfTwo PairCall.Minus (tree_in first.now) (tree_in second.now) }
{
    match descending_from(second) {
        Some(from) => (Pairing::MissedBySecond, first, from),
        None => (Pairing::Called(PairCall::Minus), first, second),
    }
}

/// What stands in the tree's call, where it is one of `ancestors`.
fn descending_from<'a>(tree: &'a Tree) -> Option<&'a Tree>
    ensures { IfSome result (λ from. tree_in tree.now ≡ Of calls.Ancestors (tree_in from.now)) }
{
    match tree {
        Tree::Of(Call::Ancestors, set) => Some(set),
        _ => None,
    }
}

/// The set that the two make, whose members are ids of the table. It takes back nothing that `steps` counted. `AllocError`
/// only for want of memory.
pub(crate) fn made_of_pair<T: SegmentTable>(
    alloc: Global,
    table: &T,
    pairing: Pairing,
    one: &IdSet,
    other: &IdSet,
    steps: &mut Steps,
) -> Result<IdSet, AllocError>
    requires one { (x : ℕ) → IsMember one.now x → IsHeld (T.flats table.now) x }
    requires other { (x : ℕ) → IsMember other.now x → IsHeld (T.flats table.now) x }
    ensures members { IfOk result (λ r. (x : ℕ) → IsMember r x ↔ paired_set (table_graph (T.flats table.now)) pairing (IsMember one.now) (IsMember other.now) x) }
    ensures canonical { IfOk result IsCanonical }
    ensures counted { min steps.old.taken (2 ^ 64 - 1) ≤ steps.new.taken }
{
    match pairing {
        Pairing::Called(call) => made_of_two(alloc, table, call, one, other, steps),
        Pairing::ReachedBySecond => reached(alloc, table, one, other, steps),
        Pairing::ReachedByFirst => reached(alloc, table, other, one, steps),
        Pairing::MissedBySecond => missed(alloc, table, one, other, steps),
    }
}

/// The members of the set that some of `from`, ids of the table, reaches. It takes back nothing that `steps` counted.
/// `AllocError` only for want of memory.
fn reached<T: SegmentTable>(
    alloc: Global,
    table: &T,
    set: &IdSet,
    from: &IdSet,
    steps: &mut Steps,
) -> Result<IdSet, AllocError>
    requires { (x : ℕ) → IsMember from.now x → IsHeld (T.flats table.now) x }
    ensures members { IfOk result (λ r. (x : ℕ) → IsMember r x ↔ (IsMember set.now x × sets.ancestors (table_graph (T.flats table.now)) (IsMember from.now) x)) }
    ensures canonical { IfOk result IsCanonical }
    ensures counted { min steps.old.taken (2 ^ 64 - 1) ≤ steps.new.taken }
{
    let above = ancestors_above(alloc, table, from, floor_of(set), steps)?;
    set.inter(alloc, &above)
}

/// The members of the set that none of `from`, ids of the table, reaches. It takes back nothing that `steps` counted.
/// `AllocError` only for want of memory.
fn missed<T: SegmentTable>(
    alloc: Global,
    table: &T,
    set: &IdSet,
    from: &IdSet,
    steps: &mut Steps,
) -> Result<IdSet, AllocError>
    requires { (x : ℕ) → IsMember from.now x → IsHeld (T.flats table.now) x }
    ensures members { IfOk result (λ r. (x : ℕ) → IsMember r x ↔ (IsMember set.now x × ¬ (sets.ancestors (table_graph (T.flats table.now)) (IsMember from.now) x))) }
    ensures canonical { IfOk result IsCanonical }
    ensures counted { min steps.old.taken (2 ^ 64 - 1) ≤ steps.new.taken }
{
    let above = ancestors_above(alloc, table, from, floor_of(set), steps)?;
    set.minus(alloc, &above)
}

/// An id that no member lies below: the lowest member, or the last id there may be.
fn floor_of(set: &IdSet) -> Id
    ensures { (x : ℕ) → IsMember set.now x → result ≤ x }
{
    match set.spans().last() {
        Some(span) => span.low,
        None => Id::from_number(ID_END - 1),
    }
}
