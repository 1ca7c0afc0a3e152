//! What a log tells as a remote is what it holds.

ghost use Rattle.std.specs.Prelude.{◌≡◌, ℕ, List, Some, true, false, IfSome};
ghost use Rattle.hex.specs.Hex.{IsBytes};
ghost use Rattle.id_groups.specs.Name.{Name as NameBytes};
ghost use Rattle.commit_graph.specs.World.{World};
ghost use Rattle.batch_codec.specs.Payload.{Payload};
ghost use Rattle.change_rules.specs.Holding.{HoldAs};
ghost use Rattle.change_rules.specs.Lazy.{has_lazy};
ghost use Rattle.remote_rules.specs.Honest.{IsHonest, IsSoundMirror};
ghost use Rattle.remote_store.specs.Told.{master_told};
ghost use Rattle.remote_store.specs.Remote.{PlainStore, bytes_in, mirror_of};

/// Bytes that hold a world in which each commit has a known name tell that world's master.
pub fn logs_are_told()
    ensures { (limit : ℕ) (bytes : List ℕ) (payloads : List Payload) (w : World NameBytes) → HoldAs limit bytes payloads w → has_lazy payloads w ≡ false
        → master_told limit bytes ≡ Some w.master }
{}

/// Over an honest disk whose bytes hold a world in which each commit has a known name, a log is an honest and settled remote of that
/// world's master.
pub fn logs_are_honest()
    ensures { (payloads : List Payload) (w : World NameBytes) (bytes : List ℕ) (r : PlainStore) → bytes_in r.told ≡ Some bytes → HoldAs r.limit bytes payloads w → has_lazy payloads w ≡ false
        → ((mirror_of r).master ≡ Some w.master) × IsHonest (mirror_of r).cloned w.master × ((mirror_of r).settled ≡ true) }
{}

/// Whatever bytes an honest disk has, where a log on it tells a master as a remote it is honest of that master.
pub fn logs_are_sound()
    ensures { (r : PlainStore) → IfSome (bytes_in r.told) IsBytes → IsSoundMirror (mirror_of r) }
{}
