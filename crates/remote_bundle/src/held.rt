//! What is kept of a bundle, and what is answered of it.

ghost use Rattle.std.specs.Prelude.{◌≡◌, ◌≤◌, ◌<◌, ◌^◌, Err, None, length, take, IfOk, IfSome, OnOk};
ghost use Rattle.remote_rules.specs.Clones.{IsCloneOf};
ghost use Rattle.remote_rules.specs.Known.{master_world};
ghost use Rattle.remote_rules.specs.Honest.{clone_data_of};
ghost use Rattle.remote_trait.specs.Honest.{AreNamesOf, IsPathOf};
ghost use Rattle.bundle_codec.specs.Reading.{bundle_at};
ghost use Rattle.bundle_codec.specs.declared.fault.BundleFault.{BundleFault as Fault};
ghost use Rattle.remote_bundle.specs.Held.{rows_in};

use crate::whole::ReadBundle;
use bundle_codec::BundleFault;
use id_groups::Name;
use remote_answers::{Reached, clone_of, find_path, put_names};
use remote_trait::{CloneData, Path};
use std::alloc::{AllocError, Global};
use std::marker::Model;

/// A bundle that was read, and what the heads reach that were asked with last. Contracts see its bytes.
#[derive(Drop)]
pub(crate) struct Held {
    bundle: ReadBundle,
    reached: Reached,
}

impl Model for Held {
    ghost use Rattle.std.specs.Prelude.{List, ℕ};
    ghost use Rattle.remote_bundle.specs.Held.{IsHeld};

    ghost Value = { List ℕ };

    ghost view = { λ h. h.bundle.bytes };

    ghost invariant = { λ h. IsHeld h.bundle h.reached };
}

impl Held {
    /// What is kept of the bundle that the bytes are. `Bad` comes exactly where they are none.
    pub(crate) fn read(alloc: Global, bytes: Vec<u8>) -> Result<Held, BundleFault>
        ensures bytes { IfOk result (λ h. h ≡ bytes.items) }
        ensures fit { OnOk result (bundle_at bytes.items ≡ None → ⊥) }
        ensures bad { result ≡ Err Fault.Bad → bundle_at bytes.items ≡ None }
    {
        let bundle = ReadBundle::read(alloc, bytes)?;
        Ok(Held {
            bundle,
            reached: Reached::nothing(alloc),
        })
    }

    /// The clone data of its rows.
    pub(crate) fn clone_data(&self, alloc: Global) -> Result<CloneData, AllocError>
        ensures { IfOk result (λ given. IfSome (rows_in self.now) (λ rows. IsCloneOf rows given × (given ≡ clone_data_of (master_world rows)))) }
    {
        let table = self.bundle.segments();
        let names = self.bundle.names();
        clone_of(alloc, &table, &names)
    }

    /// Puts the names that `back` first parents lead to from `x`, one more, and so on, at the front of `out`, and answers how many
    /// there are.
    pub(crate) fn put_names(&self, x: &Name, back: u64, out: &mut [Name]) -> u32
        requires { length out.old < 2 ^ 32 }
        ensures count { result ≤ length out.old }
        ensures names { IfSome (rows_in self.now) (λ rows. AreNamesOf rows x.now back (length out.old) (take result out.new)) }
    {
        let table = self.bundle.segments();
        let names = self.bundle.names();
        put_names(&table, &names, x, back, out)
    }

    /// A path to the name from what heads reach.
    pub(crate) fn find_path(
        &mut self,
        alloc: Global,
        heads: &[Name],
        name: &Name,
    ) -> Result<Option<Path>, AllocError>
        ensures same { self.new ≡ self.old }
        ensures path { IfOk result (λ found. IfSome (rows_in self.old) (λ rows. IsPathOf rows heads.now name.now found)) }
    {
        self.bundle.index_edges(alloc);
        let table = self.bundle.segments();
        let names = self.bundle.names();
        self.reached.go_to(alloc, &table, &names, heads)?;
        Ok(find_path(&table, &names, &self.reached, name))
    }
}
