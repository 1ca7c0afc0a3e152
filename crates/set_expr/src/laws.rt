//! Laws of the definitions.

ghost use Rattle.std.specs.Prelude.{◌≡◌, ℕ, List, [], ◌∷◌, length, map, codes};
ghost use Rattle.id_groups.specs.Lists.{AreAllIn};
ghost use Rattle.id_groups.specs.Name.{Name, same_name};
ghost use Rattle.commit_graph.specs.Graph.{Graph, graph_of};
ghost use Rattle.commit_graph.specs.Renaming.{IsRenaming, IsClosed};
ghost use Rattle.commit_graph.specs.World.{World, IsWorld, rows_of};
ghost use Rattle.set_expr.specs.Computed.{answer_of};
ghost use Rattle.set_expr.specs.Expr.{Expr, One, Named, Of, OfTwo, commits_in, depth, renamed};
ghost use Rattle.set_expr.specs.Ids.{with_ids};
ghost use Rattle.set_expr.specs.Meaning.{IsAnswer};
ghost use Rattle.set_expr.specs.Spelling.{SpellsExpr, SpellsTree};
ghost use Rattle.set_expr.specs.declared.words.Call.TheVariants.{Parents, Ancestors};
ghost use Rattle.set_expr.specs.declared.words.PairCall.TheVariants.{Union};
ghost use Rattle.set_expr.specs.declared.words.Word.TheVariants.{All};

/// An expression has one answer.
pub fn one_answer()
    ensures { (g : Graph Name) (e : Expr Name) (a b : List Name) → IsAnswer g e a → IsAnswer g e b → a ≡ b }
{}

/// The answer of an expression over a world is the one that is computed.
pub fn answers_computed()
    ensures { (w : World Name) (e : Expr Name) → IsWorld w → AreAllIn (commits_in e) (graph_of same_name w).down → IsAnswer (graph_of same_name w) e (answer_of same_name (graph_of same_name w) (length (rows_of w)) e) }
{}

/// An expression has the same answer under other names, as by the ids of a table.
pub fn answers_renamed()
    ensures { (f : ℕ → Name) (g : Graph ℕ) (h : Graph Name) (e : Expr ℕ) (ids : List ℕ) → IsRenaming f g h → IsClosed g → IsClosed h
        → AreAllIn (commits_in e) g.down → IsAnswer g e ids → IsAnswer h (renamed f e) (map f ids) }
{}

/// The graph of a world has the parents of what it has, and no others: so `answers_renamed` holds between it and another
/// such graph.
pub fn worlds_are_closed()
    ensures { (w : World Name) → IsWorld w → IsClosed (graph_of same_name w) }
{}

/// A text spells at most one expression.
pub fn one_expression()
    ensures { (text : List ℕ) (a b : Expr Name) → SpellsExpr text a → SpellsExpr text b → a ≡ b }
{}

/// An expression over the ids that stand for its names is the expression under other names.
pub fn ids_for_names()
    ensures { (f : Name → ℕ) (e : Expr Name) → with_ids e (map f (commits_in e)) ≡ renamed f e }
{}

/// The text of an expression and how deep its calls stand, and the ids for its names from left to right.
pub fn expressions_spelled_out()
    ensures text { SpellsTree (codes "ancestors(parents(all))") (Of Ancestors (Of Parents (Named All))) }
    ensures levels { depth {N = ℕ} (Of Ancestors (Of Parents (Named All))) ≡ 3 }
    ensures ids { with_ids {N = ℕ} (OfTwo Union (One 8) (Of Parents (One 9))) (3 ∷ 5 ∷ []) ≡ OfTwo Union (One 3) (Of Parents (One 5)) }
{}
