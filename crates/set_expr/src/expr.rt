//! Expressions with the names that stand in them.

ghost use Rattle.std.specs.Prelude.{◌≡◌, ◌≤◌, ◌∷◌, [], length};
ghost use Rattle.set_expr.specs.Expr.{commits_in};
ghost use Rattle.set_expr.specs.Tree.{tree_in};

use crate::parse::{Reading, read_tree};
use crate::{ExprFault, Tree};
use id_groups::Name;
use std::alloc::{AllocError, Global};

/// How deep the calls of an expression may stand in one another.
const MOST_LEVELS: u32 = 32;

/// How many nodes an expression may have: its names, words and calls.
const MOST_NODES: u32 = 256;

/// An expression over sets of commits: one that was parsed, or one of the forms that are asked of two commits or of a place.
#[derive(Drop)]
pub struct Expr {
    tree: Tree,
    /// The commits that the tree names, in text order.
    names: Vec<Name>,
    ghost all: { names.items ≡ commits_in (tree_in tree) },
    ghost few: { length names.items ≤ 256 },
}

impl Expr {
    ghost use Rattle.set_expr.specs.Whole.{tree_of};
    ghost use Rattle.std.specs.Prelude.{◌<◌, IfOk, Some, slice_get};
    ghost use Rattle.id_groups.specs.Name.{Name as NameBytes};
    ghost use Rattle.set_expr.specs.Expr.{Expr as Meant};
    ghost use Rattle.set_expr.specs.Spelling.{SpellsExpr};

    /// The expression that the text spells; `Syntax` exactly where it spells none.
    pub fn parse(alloc: Global, text: &[u8]) -> Result<Expr, ExprFault>
        ensures ok { IfOk result (λ e. SpellsExpr text.now (tree_of e)) }
        ensures syntax { result ≡ Err ExprFault.Syntax → (e : Meant NameBytes) → ¬ (SpellsExpr text.now e) }
    {
        let mut reading = Reading {
            nodes: MOST_NODES,
            names: Vec::new(alloc),
        };
        let front = read_tree(alloc, text, MOST_LEVELS, &mut reading)?;
        if !front.rest.is_empty() {
            return Err(ExprFault::Syntax);
        }
        Ok(Expr {
            tree: front.tree,
            names: reading.names,
        })
    }

    /// The expression of this tree, which names these two.
    pub(crate) fn of_pair(alloc: Global, x: &Name, y: &Name, tree: Tree) -> Result<Expr, AllocError>
        requires { commits_in (tree_in tree) ≡ x.now ∷ y.now ∷ [] }
        ensures { IfOk result (λ e. tree_of e ≡ tree_in tree) }
    {
        let mut names = Vec::new(alloc);
        names.push(*x)?;
        names.push(*y)?;
        Ok(Expr { tree, names })
    }

    /// The expression of this tree, which names no commit.
    pub(crate) fn of_none(alloc: Global, tree: Tree) -> Result<Expr, AllocError>
        requires { commits_in (tree_in tree) ≡ [] }
        ensures { IfOk result (λ e. tree_of e ≡ tree_in tree) }
    {
        Ok(Expr {
            tree,
            names: Vec::new(alloc),
        })
    }

    /// How the expression is made.
    pub fn tree<'a>(&'a self) -> &'a Tree
        ensures same { tree_in result.now ≡ tree_of self.now }
        ensures few { length (commits_in (tree_of self.now)) ≤ 256 }
    {
        &self.tree
    }

    /// How many names stand in the expression.
    pub fn name_count(&self) -> u32
        ensures { result ≡ length (commits_in (tree_of self.now)) }
    {
        self.names.len() as u32
    }

    /// The name at place `k` in text order.
    pub fn name_at<'a>(&'a self, k: u32) -> &'a Name
        requires { k < length (commits_in (tree_of self.now)) }
        ensures { slice_get (commits_in (tree_of self.now)) k ≡ Some result.now }
    {
        &self.names[k as usize]
    }
}
