//! Laws of the definitions.

ghost use Rattle.std.specs.Prelude.{◌≡◌, ◌-◌, ◌^◌, ◌↔◌, ℕ, List, [], ◌∷◌};
ghost use Rattle.id_groups.specs.declared.span.IdSpan.{IdSpan as PlainSpan};
ghost use Rattle.id_groups.specs.Id.{group_of};
ghost use Rattle.id_groups.specs.Lists.{IsIn};
ghost use Rattle.id_groups.specs.Span.{IsSpan, IsInSpan};
ghost use Rattle.span_set.specs.Members.{IsMember, IsCanonical, IsDescending, ids_of};

/// Sets with the same members have the same spans.
pub fn one_form()
    ensures { (a b : List PlainSpan) → IsCanonical a → IsCanonical b
        → ((x : ℕ) → IsMember a x ↔ IsMember b x) → a ≡ b }
{}

/// The ids of a set's spans are its members, from the greatest down, each once; each is of its span's group.
pub fn each_once()
    ensures members { (a : List PlainSpan) (x : ℕ) → IsIn x (ids_of a) ↔ IsMember a x }
    ensures descending { (a : List PlainSpan) → IsCanonical a → IsDescending (ids_of a) }
    ensures group { (s : PlainSpan) (x : ℕ) → IsSpan s → IsInSpan x s
        → (group_of x ≡ group_of s.low) × (group_of x ≡ group_of s.high) }
{}

/// Ids of spans, spans that two groups keep apart, and spans that one group would join.
pub fn spans_spelled_out()
    ensures ids { ids_of (record { low = 8; high = 9 } ∷ record { low = 3; high = 5 } ∷ []) ≡ 9 ∷ 8 ∷ 5 ∷ 4 ∷ 3 ∷ [] }
    ensures apart { IsCanonical (record { low = 2 ^ 56; high = 2 ^ 56 } ∷ record { low = 3; high = 2 ^ 56 - 1 } ∷ []) }
    ensures adjacent { ¬ (IsCanonical (record { low = 6; high = 9 } ∷ record { low = 3; high = 5 } ∷ [])) }
{}
