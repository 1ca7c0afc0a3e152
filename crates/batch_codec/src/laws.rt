//! Laws of the definitions.

ghost use Rattle.std.specs.Prelude.{◌≡◌, ◌≤◌, ◌<◌, ℕ, List, length, [], ◌∷◌, take};
ghost use Rattle.id_groups.specs.Lists.{IsIn};
ghost use Rattle.batch_codec.specs.Grammar.{AreLawful, MayFollow, IsPayload, AreMaximal, AreFlat, head_names, cloned_head_names};
ghost use Rattle.batch_codec.specs.Examples.{chain_clone, chain_store, short_name};
ghost use Rattle.segment_codec.specs.Record.{Segment};
ghost use Rattle.segment_codec.specs.Table.{Follow};
ghost use Rattle.segment_codec.specs.Turns.{MayStandAt, StandInTurn, IsFirstBroken, place_behind};
ghost use Rattle.batch_codec.specs.Payload.{Payload, known_ids, payload_bytes};

/// The fixed parts take 36 bytes in version 1 and 48 in version 2. A payload in the grammar is the only one with its bytes, of
/// both versions.
#[tactic(auto, unfolding(crate::specs::Payload::payload_bytes))]
pub fn payloads_are_spelled()
    ensures first { length (payload_bytes (record { version = 1; kind = 1; before = 0; after = 0; cloned = 0; master = []; levels = []; known = []; heads = []; others = []; other_names = [] })) ≡ 36 }
    ensures shortest { length (payload_bytes (record { version = 2; kind = 1; before = 0; after = 0; cloned = 0; master = []; levels = []; known = []; heads = []; others = []; other_names = [] })) ≡ 48 }
    ensures one { (p q : Payload) → IsPayload p → IsPayload q → payload_bytes p ≡ payload_bytes q → p ≡ q }
{}

/// A log without payloads is lawful, and one of a clone or a whole store alone. A clone or a whole store with another head isn't,
/// and none may come behind another payload, nor may one of version 1 behind one of version 2.
pub fn lawful_payloads()
    ensures none { AreLawful [] [] }
    ensures clone { AreLawful [] (chain_clone 2 (short_name 25) (short_name 25) ∷ []) }
    ensures old_clone { AreLawful [] (chain_clone 1 (short_name 25) (short_name 25) ∷ []) }
    ensures store { AreLawful [] (chain_store (short_name 25) (short_name 25) ∷ []) }
    ensures other_head { MayFollow [] (chain_clone 2 (short_name 25) (short_name 26)) → ⊥ }
    ensures stores_other_head { MayFollow [] (chain_store (short_name 25) (short_name 26)) → ⊥ }
    ensures second_clone { (first : Payload) → MayFollow (first ∷ []) (chain_clone 2 (short_name 25) (short_name 25)) → ⊥ }
    ensures second_store { (first : Payload) → MayFollow (first ∷ []) (chain_store (short_name 25) (short_name 25)) → ⊥ }
    ensures older_behind { (first p : Payload) → first.version ≡ 2 → p.version ≡ 1 → MayFollow (first ∷ []) p → ⊥ }
{}

/// A new master id without a known name was cloned. All ids of a clone were, so its heads are those of its cloned ids.
pub fn unknown_ids_were_cloned()
    ensures unknown { (p : Payload) (id : ℕ) → IsPayload p → p.before ≤ id → id < p.after → (IsIn id (known_ids p) → ⊥) → id < p.cloned }
    ensures heads { (p : Payload) → IsPayload p → p.kind ≡ 2 → cloned_head_names p ≡ head_names p }
{}

/// A section is right as a whole where its records may come in turn, and then no record is the first broken one.
pub fn sections_by_records()
    ensures turn { (first end : ℕ) (segments : List Segment) → Follow first end segments → AreMaximal segments → AreFlat segments → StandInTurn (MayStandAt first) first segments }
    ensures whole { (first : ℕ) (segments : List Segment) → StandInTurn (MayStandAt first) first segments → Follow first (place_behind first segments) segments × AreMaximal segments × AreFlat segments }
    ensures broken { (first place : ℕ) (segments : List Segment) (k : ℕ) → StandInTurn (MayStandAt first) place segments → IsFirstBroken (MayStandAt first) place segments k → ⊥ }
{}
