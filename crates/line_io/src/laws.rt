//! Examples of the definitions, proved by computing.

ghost use Rattle.std.specs.Prelude.{◌≡◌, ◌∷◌, [], true, false, codes};
ghost use Rattle.line_io.specs.Lines.{lines_of, whole_lines, is_silent};

/// Lines of some inputs: a carriage return directly before a line feed is no part of the line, a last line keeps its
/// own, and a line counts only if it is whole within the limit.
pub fn examples()
    ensures ends { lines_of 20 (codes "a\r\n\nb\r\r\n c\r") ≡ codes "a" ∷ [] ∷ codes "b\r" ∷ codes " c\r" ∷ [] }
    ensures no_last { lines_of 20 (codes "a\n") ≡ codes "a" ∷ [] }
    ensures last { lines_of 3 (codes "a\nb") ≡ codes "a" ∷ codes "b" ∷ [] }
    ensures over { lines_of 3 (codes "a\nbc") ≡ codes "a" ∷ [] }
    ensures whole { whole_lines 4 (codes "a\nb\nc\n") ≡ codes "a" ∷ codes "b" ∷ [] }
    ensures silent { is_silent (codes "# a") ≡ true }
    ensures blank { is_silent (codes " # a") ≡ false }
{}
