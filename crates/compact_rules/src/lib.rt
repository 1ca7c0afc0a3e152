//! A log made anew: the payload of a whole store in place of all that a log has.
#![tactic(auto)]

ghost use Rattle.std.specs.Prelude.{◌≡◌, ◌≢◌, ◌<◌, length, List, [], ◌∷◌};
ghost use Rattle.id_groups.specs.Name.{Name as NameBytes};
ghost use Rattle.commit_graph.specs.World.{World, rows_of};
ghost use Rattle.batch_codec.specs.Payload.{Payload};
ghost use Rattle.change_rules.specs.Tables.{known_in, cloned_count, remote_heads};
ghost use Rattle.change_rules.specs.Holding.{HoldPayloads};
ghost use Rattle.compact_rules.specs.Whole.{whole_change};

/// The world that payloads hold is held by the one payload of a whole store, with the same known names, the same cloned count and the
/// same heads of the remote. That payload is its own: made of itself once more, it stays as it is. Where there is a payload at all, its
/// world has a commit.
pub fn wholes_are_held()
    ensures hold { (payloads : List Payload) (w : World NameBytes) → HoldPayloads payloads w → 0 < length (rows_of w) → HoldPayloads (whole_change payloads w ∷ []) w }
    ensures same { (payloads : List Payload) (w : World NameBytes)
        → (known_in (whole_change payloads w ∷ []) ≡ known_in payloads)
        × (cloned_count (whole_change payloads w ∷ []) ≡ cloned_count payloads)
        × (remote_heads (whole_change payloads w ∷ []) ≡ remote_heads payloads) }
    ensures once { (payloads : List Payload) (w : World NameBytes) → whole_change (whole_change payloads w ∷ []) w ≡ whole_change payloads w }
    ensures some { (payloads : List Payload) (w : World NameBytes) → HoldPayloads payloads w → payloads ≢ [] → 0 < length (rows_of w) }
{}
