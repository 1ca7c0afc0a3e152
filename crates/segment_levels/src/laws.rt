//! Laws of the definitions.

ghost use Rattle.std.specs.Prelude.{◌≡◌, ◌≢◌, ◌≤◌, ◌<◌, ◌+◌, ◌-◌, ◌↔◌, IsTrue, false, ℕ, suc, List, [], ◌∷◌, ◌++◌, length, drop, take, map, flat_map};
ghost use Rattle.std.specs.List.{AllByRecursion, range_with_len};
ghost use Rattle.id_groups.specs.Lists.{IsIn};
ghost use Rattle.segment_codec.specs.Record.{Segment, IsSegment};
ghost use Rattle.segment_codec.specs.Table.{Follow, IsHeaded, parents_at};
ghost use Rattle.segment_codec.specs.Flat.{IsFlat};
ghost use Rattle.flat_segments.specs.ByParents.{AreSegmentsOf};
ghost use Rattle.flat_segments.specs.Maximal.{maximal, cut};
ghost use Rattle.segment_rules.specs.Flat.{flat_segments_of};
ghost use Rattle.segment_rules.specs.Levels.{level_segments, groups, count_grouped, group_size, have_one_head, top_level};
ghost use Rattle.segment_rules.specs.NewLevels.{new_levels, high_levels};
ghost use Rattle.segment_levels.specs.Heads.{HasOneHead, AreHeaded};
ghost use Rattle.segment_levels.specs.Whole.{IsWholeTo, Grows};

/// Where the complete flat segments of one group stay in another, each level stays, and what comes behind it are the
/// groups of what isn't grouped below it.
pub fn levels_stay()
    ensures stay { (old new : List Segment) (level : ℕ) → Grows old new → (more : List Segment) × (level_segments new level ≡ level_segments old level ++ more) }
    ensures more { (old new : List Segment) (level : ℕ) → Grows old new
        → level_segments new (suc level) ≡ level_segments old (suc level) ++ groups (suc level) 0 (drop (count_grouped 0 (level_segments old level)) (level_segments new level)) }
{}

/// The segments of a level follow one another from id 0 on, each has its highest id as its only head and exactly the
/// parents outside, and above level 0 each has a spelling.
pub fn levels_are_headed()
    ensures follow { (flats : List Segment) (end level : ℕ) → IsWholeTo flats end → (last : ℕ) × (last ≤ end) × Follow 0 last (level_segments flats level) }
    ensures headed { (flats : List Segment) (end level : ℕ) (s : Segment) → IsWholeTo flats end → IsIn s (level_segments flats level) → IsHeaded flats s }
    ensures spelled { (flats : List Segment) (end level : ℕ) (s : Segment) → IsWholeTo flats end → end ≤ 16777216 → suc level ≤ 7
        → IsIn s (level_segments flats (suc level)) → IsSegment s }
{}

/// Segments of a lawful table that follow one another, each with one head, have one head together exactly where each of
/// their ids but the last is a parent of one of them.
pub fn heads_by_ids()
    ensures { (flats : List Segment) (first end : ℕ) (s : Segment) (more : List Segment) → AreHeaded flats first end (s ∷ more)
        → IsTrue (have_one_head (s ∷ more)) ↔ HasOneHead flats first end }
{}

/// A group is the greatest of so many segments at most that has one head, and fewer than sixteen segments of a level are in
/// none.
pub fn groups_are_greatest()
    ensures one { (n : ℕ) (segments : List Segment) → IsTrue (have_one_head (take (group_size n segments) segments)) }
    ensures most { (n : ℕ) (segments : List Segment) → group_size n segments ≤ n }
    ensures greatest { (n m : ℕ) (segments : List Segment) → group_size n segments < m → m ≤ n → have_one_head (take m segments) ≡ false }
    ensures left { (segments : List Segment) → length segments - count_grouped 0 segments < 16 }
{}

/// Where a segment of a level ends, one of the level below ends too.
pub fn levels_nest()
    ensures { (flats : List Segment) (level : ℕ) (s : Segment) → IsIn s (level_segments flats (suc level)) → (t : Segment) × IsIn t (level_segments flats level) × (t.high ≡ s.high) }
{}

/// The segments that a table keeps are the flat segments of its graph, and so are those below a number. They are the
/// segments of ids by their parents.
pub fn segments_of_graph()
    ensures by_parents { (parents : ℕ → List ℕ) (first n : ℕ) → parents first ≢ (first - 1) ∷ []
        → AreSegmentsOf parents first (first + n) (flat_segments_of first (map parents (range_with_len first n))) }
    ensures kept { (end : ℕ) (records : List Segment) → AllByRecursion IsFlat records → Follow 0 end records
        → maximal end records ≡ flat_segments_of 0 (map (parents_at records) (range_with_len 0 end)) }
    ensures below { (below end : ℕ) (records : List Segment) → AllByRecursion IsFlat records → Follow 0 end records → below ≤ end
        → cut below (maximal end records) ≡ flat_segments_of 0 (map (parents_at records) (range_with_len 0 below)) }
{}

/// A segment of a level never changes once it is made. So where the complete flat segments of one group stay in another, what
/// comes with the other is what stands behind the old segments on each level; where there was nothing it is all.
pub fn new_levels_are_behind()
    ensures behind { (old new : List Segment) (end : ℕ) → IsWholeTo new end → Grows old new
        → new_levels old new ≡ flat_map (λ level. drop (length (level_segments old level)) (level_segments new level)) (range_with_len 1 top_level) }
    ensures all { (new : List Segment) → new_levels [] new ≡ high_levels new }
    ensures batch { (parents more : List (List ℕ)) → Grows (flat_segments_of 0 parents) (flat_segments_of 0 (parents ++ more)) }
{}
