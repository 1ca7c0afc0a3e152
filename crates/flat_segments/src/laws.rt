//! Laws of the definitions.

ghost use Rattle.std.specs.Prelude.{◌≡◌, ◌<◌, ◌≤◌, ℕ, false, List, [], ◌∷◌};
ghost use Rattle.std.specs.List.{AllByRecursion};
ghost use Rattle.segment_codec.specs.Record.{Segment};
ghost use Rattle.segment_codec.specs.Table.{Follow, parents_at};
ghost use Rattle.segment_codec.specs.Flat.{IsFlat};
ghost use Rattle.segment_codec.specs.Turns.{goes_on};
ghost use Rattle.flat_segments.specs.Maximal.{maximal, cut};
ghost use Rattle.flat_segments.specs.ByParents.{AreSegmentsOf};

/// The maximal segments of records have the records' ids, each with the same parents, and none goes on from the id
/// before it.
pub fn maximal_segments()
    ensures ids { (end : ℕ) (records : List Segment) → AllByRecursion IsFlat records → Follow 0 end records → Follow 0 end (maximal end records) }
    ensures parents { (end x : ℕ) (records : List Segment) → AllByRecursion IsFlat records → Follow 0 end records → x < end
        → parents_at (maximal end records) x ≡ parents_at records x }
    ensures apart { (end : ℕ) (records : List Segment) → AllByRecursion (λ s. goes_on s ≡ false) (maximal end records) }
{}

/// Segments that are cut have the ids below the number, each with the same parents.
pub fn cut_segments()
    ensures ids { (below end : ℕ) (segments : List Segment) → Follow 0 end segments → below ≤ end → Follow 0 below (cut below segments) }
    ensures parents { (below end x : ℕ) (segments : List Segment) → Follow 0 end segments → x < below
        → parents_at (cut below segments) x ≡ parents_at segments x }
{}

/// Records of the ids 0 and 1, of 2 and 3 behind them, and of 4, which merges 3 and 1: their maximal segments, and these
/// below 3. The record of 4 goes on from no id, though 3 is one of its parents.
pub fn segments_spelled_out()
    ensures maximal { maximal 5 (record { low = 0; high = 1; level = 0; parents = [] } ∷ record { low = 2; high = 3; level = 0; parents = 1 ∷ [] } ∷ record { low = 4; high = 4; level = 0; parents = 3 ∷ 1 ∷ [] } ∷ [])
        ≡ record { low = 0; high = 3; level = 0; parents = [] } ∷ record { low = 4; high = 4; level = 0; parents = 3 ∷ 1 ∷ [] } ∷ [] }
    ensures cut { cut 3 (record { low = 0; high = 3; level = 0; parents = [] } ∷ record { low = 4; high = 4; level = 0; parents = 3 ∷ 1 ∷ [] } ∷ [])
        ≡ record { low = 0; high = 2; level = 0; parents = [] } ∷ [] }
{}

/// The segments of ids by their parents are one list: the maximal ones of records, cut or not.
pub fn segments_by_parents()
    ensures one { (parents : ℕ → List ℕ) (first end : ℕ) (a b : List Segment) → AreSegmentsOf parents first end a → AreSegmentsOf parents first end b → a ≡ b }
    ensures maximal { (end : ℕ) (records : List Segment) → AllByRecursion IsFlat records → Follow 0 end records
        → AreSegmentsOf (parents_at records) 0 end (maximal end records) }
    ensures cut { (below end : ℕ) (records : List Segment) → AllByRecursion IsFlat records → Follow 0 end records → below ≤ end
        → AreSegmentsOf (parents_at records) 0 below (cut below (maximal end records)) }
{}
