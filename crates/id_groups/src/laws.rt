//! Laws of the definitions.

ghost use Rattle.std.specs.Prelude.{◌≡◌, ◌++◌, ◌↔◌, ℕ, List, [], ◌∷◌, codes, Bool, true, false, IsTrue, replicate, Some};
ghost use Rattle.id_groups.specs.Lists.{IsIn, is_in, IsFiltered};
ghost use Rattle.id_groups.specs.Name.{Name as NameBytes, IsName, same_name, hex_text, SpellsName, name_of};
ghost use Rattle.id_groups.specs.Id.{other_id, id_text};

/// How ids and names are printed.
pub fn printed()
    ensures master { id_text 5 ≡ codes "5" }
    ensures other { id_text (other_id 12) ≡ codes "N12" }
    ensures name { hex_text (replicate 19 0 ++ 161 ∷ [])
        ≡ codes "00000000000000000000000000000000000000a1" }
    ensures upper { SpellsName (codes "00000000000000000000000000000000000000A1") (replicate 19 0 ++ 161 ∷ []) }
{}

/// The test of equality decides it.
pub fn names_decided()
    ensures same { (a b : NameBytes) → same_name a b ≡ true → a ≡ b }
    ensures refl { (a : NameBytes) → same_name a a ≡ true }
    ensures found { (a : NameBytes) (names : List NameBytes) → is_in same_name a names ≡ true → IsIn a names }
    ensures missing { (a : NameBytes) (names : List NameBytes) → is_in same_name a names ≡ false → ¬ (IsIn a names) }
{}

/// What a text spells is a name, and it is the one that is read from it.
pub fn names_spelled()
    ensures name { (text : List ℕ) (name : NameBytes) → SpellsName text name → IsName name }
    ensures one { (text : List ℕ) (name : NameBytes) → SpellsName text name ↔ (name_of text ≡ Some name) }
{}

/// A list has one filtering.
pub fn one_filtering()
    ensures { (holds : NameBytes → Bool) (xs ys zs : List NameBytes)
        → IsFiltered (λ x. IsTrue (holds x)) xs ys → IsFiltered (λ x. IsTrue (holds x)) xs zs → ys ≡ zs }
{}
