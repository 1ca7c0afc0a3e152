//! Laws of what an index holds.

ghost use Rattle.std.specs.Prelude.{◌≡◌, ◌∷◌, List, []};
ghost use Rattle.std.specs.List.Sorted.{IsPermutation};
ghost use Rattle.id_groups.specs.Lists.{AreDistinct};
ghost use Rattle.name_index.specs.Index.{IsIndexOf};
ghost use Rattle.name_index.specs.declared.entry.Entry.{Entry as PlainEntry};
ghost use Rattle.name_index.specs.Named.{NamedPlace, names_in};
ghost use Rattle.name_index.specs.Runs.{front_of, name_in, sort_key};

/// An index of a list is one of the same named places in any order.
pub fn any_order()
    ensures { (runs : List (List PlainEntry)) (all other : List NamedPlace) → IsIndexOf runs all → IsPermutation all other → IsIndexOf runs other }
{}

/// What an index holds has no name twice.
pub fn names_are_distinct()
    ensures { (runs : List (List PlainEntry)) (all : List NamedPlace) → IsIndexOf runs all → AreDistinct (names_in all) }
{}

/// What a name is ordered by, here one of nine bytes; the front of a name that is too short; and what stands at the place
/// 101 in three bytes that stand at 100.
pub fn keys_spelled_out()
    ensures key { sort_key (0 ∷ 0 ∷ 0 ∷ 0 ∷ 0 ∷ 0 ∷ 1 ∷ 2 ∷ 9 ∷ []) ≡ 258 ∷ 0 ∷ 0 ∷ 0 ∷ 0 ∷ 0 ∷ 0 ∷ 1 ∷ 2 ∷ 9 ∷ [] }
    ensures short { front_of (7 ∷ 8 ∷ []) ≡ 0 }
    ensures read { name_in (5 ∷ 6 ∷ 7 ∷ []) 100 101 ≡ 6 ∷ 7 ∷ [] }
{}
