//! Laws of the definitions.

ghost use Rattle.std.specs.Prelude.{List, [], ◌∷◌};
ghost use Rattle.commit_graph.specs.Renaming.{IsClosed};
ghost use Rattle.segment_codec.specs.Examples.{small_table};
ghost use Rattle.segment_codec.specs.Record.{Segment};
ghost use Rattle.segment_codec.specs.Table.{IsLawful};
ghost use Rattle.ancestor_query.specs.Graph.{table_graph};
ghost use Rattle.set_expr.specs.Expr.{One, Of};
ghost use Rattle.set_expr.specs.Meaning.{IsAnswer};
ghost use Rattle.set_expr.specs.declared.words.Call.TheVariants.{Parents};

/// The graph of a lawful table has the parents of what it has, and no others: so an expression has one answer over it and
/// over a world whose commits have other names.
pub fn tables_are_closed()
    ensures { (flats : List Segment) → IsLawful flats → IsClosed (table_graph flats) }
{}

/// What an expression means over a small table.
pub fn answers_spelled_out()
    ensures { IsAnswer (table_graph small_table) (Of Parents (One 5)) (4 ∷ 2 ∷ []) }
{}
