//! What an unlawful payload says of the whole log.

ghost use Rattle.std.specs.Prelude.{ℕ, List, []};
ghost use Rattle.batch_codec.specs.Payload.{Payload};
ghost use Rattle.change_rules.specs.Lawful.{AreLawful};
ghost use Rattle.change_rules.specs.Holding.{AreSpelled};
ghost use Rattle.change_rules.specs.Unlawful.{IsFirstUnlawful};

/// Where one of the texts is the first that may not come behind those before it, they spell no lawful payloads.
pub fn unlawful_logs_hold_nothing()
    ensures { (texts : List (List ℕ)) (k : ℕ) (payloads : List Payload) → IsFirstUnlawful [] texts k → AreSpelled texts payloads → AreLawful [] payloads → ⊥ }
{}
