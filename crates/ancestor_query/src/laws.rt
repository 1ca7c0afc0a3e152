//! Laws of the definitions.

ghost use Rattle.std.specs.Prelude.{◌≡◌, ◌+◌, ◌^◌, [], ◌∷◌};
ghost use Rattle.segment_codec.specs.Examples.{small_table};
ghost use Rattle.segment_codec.specs.Flat.{flat_ending};
ghost use Rattle.ancestor_query.specs.Counts.{count_met, IsOnly, EndsWhole};
ghost use Rattle.ancestor_query.specs.Graph.{down_of};

/// Over a small table: its ids, how many of its segments have ids of a set, and at which ids a segment without parents ends.
pub fn counts_spelled_out()
    ensures down { down_of small_table ≡ (2 ^ 56 + 1) ∷ 2 ^ 56 ∷ 5 ∷ 4 ∷ 3 ∷ 2 ∷ 1 ∷ 0 ∷ [] }
    ensures three { count_met (record { low = 4; high = 5 } ∷ record { low = 1; high = 1 } ∷ []) small_table ≡ 3 }
    ensures one { count_met (record { low = 2; high = 2 } ∷ record { low = 0; high = 0 } ∷ []) small_table ≡ 1 }
    ensures none { count_met (record { low = 6; high = 9 } ∷ []) small_table ≡ 0 }
    ensures only { IsOnly 4 (record { low = 4; high = 4 } ∷ []) }
    ensures not_only { ¬ (IsOnly 4 (record { low = 4; high = 5 } ∷ [])) }
    ensures whole { EndsWhole (flat_ending small_table) 2 }
    ensures with_parents { ¬ (EndsWhole (flat_ending small_table) 4) }
    ensures not_the_end { ¬ (EndsWhole (flat_ending small_table) 1) }
{}
