//! Laws of the definitions.

ghost use Rattle.std.specs.Prelude.{◌≡◌, ◌++◌, ◌^◌, ◌+◌, ◌-◌, ◌↔◌, IsTrue, ℕ, List, [], ◌∷◌, length, replicate};
ghost use Rattle.std.specs.List.{AllByRecursion};
ghost use Rattle.segment_codec.specs.Number.{HasNumber, number_bytes};
ghost use Rattle.segment_codec.specs.Record.{Segment, IsSegment, segment_bytes, head_bytes, parents_bytes};
ghost use Rattle.segment_codec.specs.Table.{parents_at, Cover, IsHeaded};
ghost use Rattle.segment_codec.specs.Examples.{small_table, gapped_table};
ghost use Rattle.segment_codec.specs.Turns.{goes_on};

/// Some numbers and records, and their bytes.
#[tactic(auto, unfolding(crate::specs::Number::number_bytes, crate::specs::Record::segment_bytes))]
pub fn numbers_are_spelled()
    ensures zero { number_bytes 0 ≡ 0 ∷ [] }
    ensures one_byte { number_bytes 127 ≡ 127 ∷ [] }
    ensures two_bytes { number_bytes 128 ≡ 0x80 ∷ 1 ∷ [] }
    ensures more { number_bytes 300 ≡ 0xac ∷ 2 ∷ [] }
    ensures other { number_bytes (2 ^ 56) ≡ replicate 8 0x80 ++ 1 ∷ [] }
    ensures last { number_bytes (2 ^ 64 - 1) ≡ replicate 9 0xff ++ 1 ∷ [] }
    ensures chain { segment_bytes (record { low = 2 ^ 56; high = 2 ^ 56 + 1; level = 0; parents = [] })
        ≡ 1 ∷ 0 ∷ 1 ∷ 0 ∷ 0 ∷ 0 ∷ 0 ∷ 0 ∷ 0 ∷ 1 ∷ 1 ∷ 0 ∷ [] }
{}

/// Each number of a record has a spelling, its parents stand behind its head, and no spelling of a record begins another's.
pub fn records_are_spelled()
    ensures numbers { (s : Segment) → IsSegment s
        → HasNumber (s.high - s.low) × HasNumber (length s.parents) × AllByRecursion HasNumber s.parents }
    ensures parts { (s : Segment) → segment_bytes s ≡ head_bytes s ++ parents_bytes s }
    ensures one { (s t : Segment) (x y : List ℕ) → IsSegment s → IsSegment t
        → segment_bytes s ++ x ≡ segment_bytes t ++ y → (s ≡ t) × (x ≡ y) }
{}

/// Tables of a few segments: the parents of their ids, which ids they cover, and which parts of them have one head.
pub fn tables_spelled_out()
    ensures lowest { parents_at small_table 5 ≡ 4 ∷ 2 ∷ [] }
    ensures inside { parents_at small_table 2 ≡ 1 ∷ [] }
    ensures other { parents_at small_table (2 ^ 56 + 1) ≡ 2 ^ 56 ∷ [] }
    ensures not_held { parents_at small_table 6 ≡ [] }
    ensures covered { Cover small_table 6 2 }
    ensures gap { (master others : ℕ) → ¬ (Cover gapped_table master others) }
    ensures headed { IsHeaded small_table (record { low = 3; high = 5; level = 1; parents = 1 ∷ 2 ∷ [] }) }
    ensures two_heads { ¬ (IsHeaded small_table (record { low = 0; high = 3; level = 1; parents = [] })) }
{}

/// A segment goes on exactly where its only parent is the id before it.
pub fn segments_go_on()
    ensures { (s : Segment) → IsTrue (goes_on s) ↔ (s.parents ≡ (s.low - 1) ∷ []) }
{}
