//! Laws of worlds.

ghost use Rattle.std.specs.Prelude.{◌≡◌, ◌∷◌, [], Some, None, nat_eq};
ghost use Rattle.id_groups.specs.Lists.{IsIn};
ghost use Rattle.id_groups.specs.Id.{other_id};
ghost use Rattle.id_groups.specs.Name.{Name as NameBytes, same_name};
ghost use Rattle.commit_graph.specs.World.{Row as PlainRow, World as PlainWorld, IsWorld, IsNext, empty_world, rows_of, names_of, with_pending};
ghost use Rattle.commit_graph.specs.Graph.{graph_of, Reaches, first_ancestor};
ghost use Rattle.commit_graph.specs.Ids.{id_in, row_at};
ghost use Rattle.commit_graph.specs.Sets.{heads, tips};
ghost use Rattle.commit_graph.specs.Example.{forked, is_2_or_6};

/// The empty world is a world, and a row that may come next keeps a world one.
pub fn worlds_grow()
    ensures empty { IsWorld {N = NameBytes} empty_world }
    ensures next { (w : PlainWorld NameBytes) (row : PlainRow NameBytes)
        → IsWorld w → IsNext (names_of (rows_of w)) row → IsWorld (with_pending w (row ∷ [])) }
{}

/// No commit is an ancestor of its own parent.
pub fn no_cycle()
    ensures { (w : PlainWorld NameBytes) (x p : NameBytes) → IsWorld w
        → IsIn p ((graph_of same_name w).parents x) → Reaches (graph_of same_name w) p x → ⊥ }
{}

/// A small world: how its commits are numbered, where its first parents lead, and a set whose heads aren't its tips.
pub fn example()
    ensures down { (graph_of nat_eq forked).down ≡ 6 ∷ 5 ∷ 4 ∷ 3 ∷ 2 ∷ 1 ∷ [] }
    ensures id { id_in nat_eq forked 6 ≡ other_id 2 }
    ensures row { row_at forked (other_id 1) ≡ Some (record { name = 5; parents = 4 ∷ [] }) }
    ensures first_parents { first_ancestor (graph_of nat_eq forked) 2 6 ≡ Some 2 }
    ensures root { first_ancestor (graph_of nat_eq forked) 4 6 ≡ None }
    ensures walk { Reaches (graph_of nat_eq forked) 6 2 }
    ensures head { heads (graph_of nat_eq forked) is_2_or_6 2 }
    ensures no_tip { ¬ (tips (graph_of nat_eq forked) is_2_or_6 2) }
{}
