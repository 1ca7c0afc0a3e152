//! Laws of the definitions.

ghost use Rattle.std.specs.Prelude.{◌≡◌, [], ◌∷◌};
ghost use Rattle.sample_tables.specs.Drawn.{drawn, history};

/// The first state behind 5, and the commit 2 for three start numbers: on the one before, on it and an earlier one, and on an
/// earlier one alone.
pub fn histories_spelled_out()
    ensures state { drawn 5 1 ≡ 14816632086413376816 }
    ensures before { history (record { merges = 1; branches = 1 }) 0 2 ≡ 1 ∷ [] }
    ensures merge { history (record { merges = 1; branches = 1 }) 5 2 ≡ 1 ∷ 0 ∷ [] }
    ensures branch { history (record { merges = 1; branches = 1 }) 10 2 ≡ 0 ∷ [] }
    ensures second { history (record { merges = 16; branches = 0 }) 5 1 ≡ 0 ∷ [] }
    ensures first { history (record { merges = 16; branches = 0 }) 5 0 ≡ [] }
{}
