//! Laws of the definitions.

ghost use Rattle.std.specs.Prelude.{◌≡◌, ◌++◌, ◌∷◌, ℕ, List, [], flat_map};
ghost use Rattle.id_groups.specs.Lists.{AreDistinct};
ghost use Rattle.id_groups.specs.Name.{Name};
ghost use Rattle.batch_codec.specs.Payload.{known_names};
ghost use Rattle.name_map.specs.Added.{Placed, AllStand, named_from, payloads_of};
ghost use Rattle.name_map.specs.Part.{upward};
ghost use Rattle.name_map.specs.Map.{PlainMap, IsMapOf, count_known};

/// Payloads that stand in a log stand in it when it has grown.
pub fn payloads_stay()
    ensures { (bytes more : List ℕ) (added : List Placed) → AllStand bytes added → AllStand (bytes ++ more) added }
{}

/// No two known names of a map are the same.
pub fn known_names_are_distinct()
    ensures { (map : PlainMap) (added : List Placed) → IsMapOf map added → AreDistinct (flat_map known_names (payloads_of added)) }
{}

/// The ids 3 and 5, which stand at 40 with their names: where the names stand, and how many of the ids are below 5. Two
/// ids from 3 on.
pub fn names_spelled_out()
    ensures places { (a b : Name) → named_from 40 (record { id = 3; name = a } ∷ record { id = 5; name = b } ∷ []) ≡ record { place = 48; name = a } ∷ record { place = 76; name = b } ∷ [] }
    ensures below { (a b : Name) → count_known 5 (record { id = 3; name = a } ∷ record { id = 5; name = b } ∷ []) ≡ 1 }
    ensures row { upward 3 2 ≡ 3 ∷ 4 ∷ [] }
{}
