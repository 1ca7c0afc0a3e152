//! What placing means: each commit once, behind its parents, and exactly what the heads reach.

ghost use Rattle.std.specs.Prelude.{◌≡◌, ◌<◌, ◌≤◌, ◌↔◌, ◌++◌, ℕ, List, [], ◌∷◌, true, false, map, nat_eq, reverse};
ghost use Rattle.id_groups.specs.Lists.{IsIn, is_in, AreAllIn, AreDistinct};
ghost use Rattle.id_groups.specs.Name.{Name as NameBytes, same_name};
ghost use Rattle.commit_graph.specs.World.{Row as PlainRow, IsHistory};
ghost use Rattle.commit_graph.specs.Graph.{Reaches};
ghost use Rattle.assign_ids.specs.Placing.{place, place_all};
ghost use Rattle.assign_ids.specs.Numbers.{AreBelow, HaveOlderParents, others_of, rows_below, order_of, graph_below};
ghost use Rattle.assign_ids.specs.Names.{AreNodes, AreNumbered};
ghost use Rattle.assign_ids.specs.declared.graph.Node.{Node as PlainNode};
ghost use Rattle.assign_ids.specs.declared.graph.Node.TheVariants.{Placed, Other};

/// A number that is in the order stays where it is.
pub fn placed_before()
    ensures { (parents : ℕ → List PlainNode) (n x : ℕ) (order : List ℕ) → is_in nat_eq x order ≡ true
        → place nat_eq (rows_below parents n) order x ≡ order }
{}

/// Any other goes behind its parents, which are placed from left to right.
pub fn placed_behind_parents()
    ensures { (parents : ℕ → List PlainNode) (n x : ℕ) (order : List ℕ) → HaveOlderParents parents → x < n → is_in nat_eq x order ≡ false
        → place nat_eq (rows_below parents n) order x ≡ place_all nat_eq (rows_below parents n) order (others_of (parents x)) ++ x ∷ [] }
{}

/// No number is placed twice.
pub fn placed_once()
    ensures { (parents : ℕ → List PlainNode) (n : ℕ) (heads : List ℕ) → HaveOlderParents parents → AreBelow n heads
        → AreDistinct (order_of parents n heads) }
{}

/// Parents stand before their child.
pub fn parents_first()
    ensures { (parents : ℕ → List PlainNode) (n : ℕ) (heads before after : List ℕ) (x : ℕ) → HaveOlderParents parents → AreBelow n heads
        → order_of parents n heads ≡ before ++ (x ∷ after) → AreAllIn (others_of (parents x)) before }
{}

/// What is placed is exactly what the heads reach.
pub fn exactly_ancestors()
    ensures { (parents : ℕ → List PlainNode) (n : ℕ) (heads : List ℕ) (x : ℕ) → HaveOlderParents parents → AreBelow n heads
        → IsIn x (order_of parents n heads) ↔ ((head : ℕ) × IsIn head heads × Reaches (graph_below parents n) head x) }
{}

/// More rows behind those of the heads give the same order.
pub fn more_rows()
    ensures { (parents : ℕ → List PlainNode) (n more : ℕ) (heads : List ℕ) → HaveOlderParents parents → AreBelow n heads → n ≤ more
        → order_of parents more heads ≡ order_of parents n heads }
{}

/// A commit of a history that is in the order stays where it is.
pub fn rows_placed_before()
    ensures { (rows : List (PlainRow NameBytes)) (order : List NameBytes) (x : NameBytes) → is_in same_name x order ≡ true
        → place same_name rows order x ≡ order }
{}

/// Any other commit of a history goes behind its parents, which are placed from left to right.
pub fn rows_placed_behind_parents()
    ensures { (rows : List (PlainRow NameBytes)) (row : PlainRow NameBytes) (order : List NameBytes) → IsHistory [] rows → IsIn row rows
        → is_in same_name row.name order ≡ false
        → place same_name (reverse rows) order row.name ≡ place_all same_name (reverse rows) order row.parents ++ row.name ∷ [] }
{}

/// Placing by names, from the names of master on, is placing by numbers: the commits of a history that aren't in master
/// have numbers, and their parents in master are passed over.
pub fn placed_by_names()
    ensures { (rows : List (PlainRow NameBytes)) (masters : List NameBytes) (n : ℕ) (name : ℕ → NameBytes) (parents : ℕ → List PlainNode)
        (heads : List NameBytes) (nodes : List PlainNode)
        → IsHistory [] rows → AreNumbered rows masters n name parents → HaveOlderParents parents → AreNodes masters n name heads nodes
        → place_all same_name (reverse rows) masters heads ≡ masters ++ map name (order_of parents n (others_of nodes)) }
{}

/// The commit 3 merges 2 and 1, both children of 0: its parents move from left to right and 0 once, and a head in front
/// moves first. Of three parents of which two are in master, one counts.
pub fn order_spelled_out()
    ensures merge { place_all nat_eq (record { name = 3; parents = 2 ∷ 1 ∷ [] } ∷ record { name = 2; parents = 0 ∷ [] } ∷ record { name = 1; parents = 0 ∷ [] } ∷ record { name = 0; parents = [] } ∷ []) [] (3 ∷ [])
        ≡ 0 ∷ 2 ∷ 1 ∷ 3 ∷ [] }
    ensures heads { place_all nat_eq (record { name = 3; parents = 2 ∷ 1 ∷ [] } ∷ record { name = 2; parents = 0 ∷ [] } ∷ record { name = 1; parents = 0 ∷ [] } ∷ record { name = 0; parents = [] } ∷ []) [] (1 ∷ 3 ∷ [])
        ≡ 0 ∷ 1 ∷ 2 ∷ 3 ∷ [] }
    ensures others { others_of (Placed ∷ Other 4 ∷ Placed ∷ []) ≡ 4 ∷ [] }
{}
