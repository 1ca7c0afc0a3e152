//! What a bundle tells as a remote is the world that it stands for.

ghost use Rattle.std.specs.Prelude.{◌≡◌, ◌≤◌, ℕ, List, Some, true, length, IfSome};
ghost use Rattle.hex.specs.Hex.{IsBytes};
ghost use Rattle.id_groups.specs.Name.{Name as NameBytes};
ghost use Rattle.commit_graph.specs.World.{World};
ghost use Rattle.remote_rules.specs.Honest.{IsHonest, IsSoundMirror};
ghost use Rattle.bundle_codec.specs.Bundle.{StandsFor};
ghost use Rattle.remote_bundle.specs.Remote.{PlainRemote, mirror_of};

use bundle_codec::worlds_have_bundles;

/// Over a disk whose bytes are the bundle of a world, within the limit, a bundle is an honest and settled remote of that world. Whatever
/// the bytes are, where they tell a master as a remote it is honest of that master.
pub fn mirrors_of_bundles()
    ensures honest { (r : PlainRemote) (bytes : List ℕ) (w : World NameBytes) → r.bytes ≡ Some bytes → StandsFor bytes w → length bytes ≤ r.limit
        → ((mirror_of r).master ≡ Some w.master) × IsHonest (mirror_of r).cloned w.master × ((mirror_of r).settled ≡ true) }
    ensures sound { (r : PlainRemote) → IfSome r.bytes IsBytes → IsSoundMirror (mirror_of r) }
{
    worlds_have_bundles();
}
