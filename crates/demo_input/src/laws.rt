//! The first draws of some start numbers, proved by computing.

ghost use Rattle.std.specs.Prelude.{◌≡◌, ◌∷◌, [], length};
ghost use Rattle.demo_input.specs.Drawing.{next, drawn, number_of, parents_at};
ghost use Rattle.demo_input.specs.Lines.{demo_lines};

/// The third commit goes on from 0, merges from 5 and branches off from 10; a demonstration of three commits has eight
/// lines.
pub fn first_draws()
    ensures number { next 0 ≡ 1442695040888963407 }
    ensures draw { drawn (next 0) ≡ 167951807 }
    ensures on { parents_at 2 (number_of 0 2) ≡ 1 ∷ [] }
    ensures merge { parents_at 2 (number_of 5 2) ≡ 1 ∷ 0 ∷ [] }
    ensures branch { parents_at 2 (number_of 10 2) ≡ 0 ∷ [] }
    ensures count { length (demo_lines 3 0) ≡ 8 }
{}
