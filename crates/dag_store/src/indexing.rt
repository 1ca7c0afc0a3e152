//! The index of edges, brought on for the questions that go by it.

ghost use Rattle.std.specs.Prelude.{List, ◌↔◌, IsTrue};
ghost use Rattle.id_groups.specs.Lists.{IsIn};
ghost use Rattle.name_map.specs.Added.{Placed, AllStand};
ghost use Rattle.payload_tables.specs.Kept.{AreTablesOf};
ghost use Rattle.set_expr.specs.Tree.{tree_in};
ghost use Rattle.set_expr.specs.declared.words.Call.TheVariants.{Children};
ghost use Rattle.dag_store.specs.Calls.{calls_in};

use payload_tables::Tables;
use set_expr::{Call, Expr, Tree};

/// Whether the tree asks for the children of some set.
fn asks_children(tree: &Tree) -> bool
    ensures { IsTrue result ↔ IsIn Children (calls_in (tree_in tree.now)) }
{
    match tree {
        Tree::One(_) | Tree::Named(_) | Tree::Up(_, _) => false,
        Tree::Of(Call::Children, _) => true,
        Tree::Of(_, set) | Tree::Top(set, _) => asks_children(set),
        Tree::OfTwo(_, first, second) => asks_children(first) || asks_children(second),
    }
}

/// Takes the segments that aren't in the index of edges of the tables into it, where they are many and the expression asks for children, which
/// alone are sought in it: a store that is asked for none makes no index.
pub(crate) fn index_for(tables: &mut Tables, bytes: &[u8], expr: &Expr)
    requires { (added : List Placed) × AreTablesOf tables.old added × AllStand bytes.now added }
    ensures { (added : List Placed) → AreTablesOf tables.old added → AllStand bytes.now added → AreTablesOf tables.new added }
{
    if asks_children(expr.tree()) {
        tables.index(bytes);
    }
}
