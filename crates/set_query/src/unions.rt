//! Unions of names, and of what names reach: the ids of all that stand in one are one set, which is walked from once.

ghost use Rattle.std.specs.Prelude.{min, ◌-◌, ℕ, ◌≤◌, ◌^◌, ◌↔◌, IfOk, IsTrue};
ghost use Rattle.id_groups.specs.Lists.{IsIn};
ghost use Rattle.commit_graph.specs.Sets as sets;
ghost use Rattle.segment_codec.specs.Table.{IsHeld};
ghost use Rattle.span_set.specs.Members.{IsMember, IsCanonical};
ghost use Rattle.ancestor_query.specs.Graph.{table_graph};
ghost use Rattle.set_expr.specs.Tree.{tree_in};
ghost use Rattle.set_query.specs.Unions.{IsOfNames, IsOfAncestors};

use ancestor_query::ancestors;
use id_groups::{Id, IdSpan};
use segment_codec::{SegmentTable, Steps};
use set_expr::{Call, PairCall, Tree};
use span_set::IdSet;
use std::alloc::{AllocError, Global};

/// Whether the tree is a name, or a union of names alone.
pub(crate) fn is_of_names(tree: &Tree) -> bool
    ensures { IsTrue result → IsOfNames (tree_in tree.now) }
{
    match tree {
        Tree::One(_) => true,
        Tree::OfTwo(PairCall::Union, first, second) => is_of_names(first) && is_of_names(second),
        _ => false,
    }
}

/// Whether the tree is what names reach, or a union of such sets alone.
pub(crate) fn is_of_ancestors(tree: &Tree) -> bool
    ensures { IsTrue result → IsOfAncestors (tree_in tree.now) }
{
    match tree {
        Tree::Of(Call::Ancestors, set) => is_of_names(set),
        Tree::OfTwo(PairCall::Union, first, second) => {
            is_of_ancestors(first) && is_of_ancestors(second)
        }
        _ => false,
    }
}

/// The set of these ids. `AllocError` only for want of memory.
pub(crate) fn set_of(alloc: Global, ids: &[Id]) -> Result<IdSet, AllocError>
    ensures members { IfOk result (λ r. (x : ℕ) → IsMember r x ↔ IsIn x ids.now) }
    ensures canonical { IfOk result IsCanonical }
{
    let mut set = IdSet::empty(alloc);
    'each: for id in ids {
        set.insert_span(IdSpan::single(*id))?;
    }
    Ok(set)
}

/// What some of these ids of the table reach, by one walk. It takes back nothing that `steps` counted. `AllocError` only for
/// want of memory.
pub(crate) fn ancestors_of<T: SegmentTable>(
    alloc: Global,
    table: &T,
    ids: &[Id],
    steps: &mut Steps,
) -> Result<IdSet, AllocError>
    requires { (x : ℕ) → IsIn x ids.now → IsHeld (T.flats table.now) x }
    ensures members { IfOk result (λ r. (x : ℕ) → IsMember r x ↔ sets.ancestors (table_graph (T.flats table.now)) (λ y. IsIn y ids.now) x) }
    ensures canonical { IfOk result IsCanonical }
    ensures counted { min steps.old.taken (2 ^ 64 - 1) ≤ steps.new.taken }
{
    let from = set_of(alloc, ids)?;
    ancestors(alloc, table, &from, steps)
}
