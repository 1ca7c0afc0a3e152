//! Expressions that are made and not read: what is asked of two commits, and of a place.

ghost use Rattle.std.specs.Prelude.{◌≡◌, ◌≤◌, ◌-◌, IfOk};
ghost use Rattle.set_expr.specs.Expr.{One, Named, Of, OfTwo, Top};
ghost use Rattle.set_expr.specs.Tree.{tree_in};
ghost use Rattle.set_expr.specs.Whole.{tree_of};
ghost use Rattle.set_expr.specs.declared.words.Call.TheVariants as calls;
ghost use Rattle.set_expr.specs.declared.words.PairCall.TheVariants as pairs;
ghost use Rattle.set_expr.specs.declared.words.Word.TheVariants as words;

use crate::{Call, Expr, PairCall, Tree, Word};
use id_groups::Name;
use std::alloc::{AllocError, Global};

impl Expr {
    /// The first commit, where the second reaches it, and else nothing: `inter(x,ancestors(y))`.
    pub fn ancestor_of(alloc: Global, x: &Name, y: &Name) -> Result<Expr, AllocError>
        ensures { IfOk result (λ e. tree_of e ≡ OfTwo pairs.Inter (One x.now) (Of calls.Ancestors (One y.now))) }
    {
        let second = called(alloc, Call::Ancestors, Tree::One(*y))?;
        Expr::of_pair(
            alloc,
            x,
            y,
            paired(alloc, PairCall::Inter, Tree::One(*x), second)?,
        )
    }

    /// The merge bases of two commits: `gca(union(x,y))`.
    pub fn merge_bases(alloc: Global, x: &Name, y: &Name) -> Result<Expr, AllocError>
        ensures { IfOk result (λ e. tree_of e ≡ Of calls.Gca (OfTwo pairs.Union (One x.now) (One y.now))) }
    {
        let both = paired(alloc, PairCall::Union, Tree::One(*x), Tree::One(*y))?;
        Expr::of_pair(alloc, x, y, called(alloc, Call::Gca, both)?)
    }

    /// What the first commit reaches and the second doesn't: `only(x,y)`.
    pub fn only(alloc: Global, x: &Name, y: &Name) -> Result<Expr, AllocError>
        ensures { IfOk result (λ e. tree_of e ≡ OfTwo pairs.Only (One x.now) (One y.now)) }
    {
        Expr::of_pair(
            alloc,
            x,
            y,
            paired(alloc, PairCall::Only, Tree::One(*x), Tree::One(*y))?,
        )
    }

    /// The one commit at a place, counted from the greatest id, which is at place 1: `minus(top(all,n),top(all,n-1))`.
    pub fn at_place(alloc: Global, n: u64) -> Result<Expr, AllocError>
        requires { 1 ≤ n }
        ensures { IfOk result (λ e. tree_of e ≡ OfTwo pairs.Minus (Top (Named words.All) n) (Top (Named words.All) (n - 1))) }
    {
        let first = greatest(alloc, n)?;
        Expr::of_none(
            alloc,
            paired(alloc, PairCall::Minus, first, greatest(alloc, n - 1)?)?,
        )
    }
}

/// So many of all commits, those with the greatest ids.
fn greatest(alloc: Global, n: u64) -> Result<Tree, AllocError>
    ensures { IfOk result (λ tree. tree_in tree ≡ Top (Named words.All) n) }
{
    Ok(Tree::Top(Box::new(alloc, Tree::Named(Word::All))?, n))
}

/// What the call makes of a set.
fn called(alloc: Global, call: Call, set: Tree) -> Result<Tree, AllocError>
    ensures { IfOk result (λ tree. tree_in tree ≡ Of call (tree_in set)) }
{
    Ok(Tree::Of(call, Box::new(alloc, set)?))
}

/// What the call makes of two sets.
fn paired(alloc: Global, call: PairCall, first: Tree, second: Tree) -> Result<Tree, AllocError>
    ensures { IfOk result (λ tree. tree_in tree ≡ OfTwo call (tree_in first) (tree_in second)) }
{
    let one = Box::new(alloc, first)?;
    Ok(Tree::OfTwo(call, one, Box::new(alloc, second)?))
}
