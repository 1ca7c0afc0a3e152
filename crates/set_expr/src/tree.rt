//! How an expression is made.

ghost use Rattle.std.specs.Prelude.{◌≡◌, ◌≤◌, length};
ghost use Rattle.set_expr.specs.Expr.{commits_in};
ghost use Rattle.set_expr.specs.Tree.{tree_in};

use crate::{Call, PairCall, Word};
use id_groups::Name;

/// The tree of an expression.
#[derive(Drop)]
pub enum Tree {
    /// The commit of that name.
    One(Name),
    /// The set that the word names.
    Named(Word),
    /// What the call makes of a set.
    Of(Call, Box<Tree>),
    /// What the call makes of two sets.
    OfTwo(PairCall, Box<Tree>, Box<Tree>),
    /// The n-th first-parent ancestor of the commit of that name.
    Up(Name, u64),
    /// The n members of a set with the greatest ids.
    Top(Box<Tree>, u64),
}

impl Tree {
    /// How many names stand in the tree.
    pub fn name_count(&self) -> usize
        requires { length (commits_in (tree_in self.now)) ≤ 256 }
        ensures { result ≡ length (commits_in (tree_in self.now)) }
    {
        match self {
            Tree::One(_) | Tree::Up(_, _) => 1,
            Tree::Named(_) => 0,
            Tree::Of(_, set) | Tree::Top(set, _) => set.name_count(),
            Tree::OfTwo(_, first, second) => first.name_count() + second.name_count(),
        }
    }
}
