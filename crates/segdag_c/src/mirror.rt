//! The mirrors of an open log.

ghost use Rattle.std.specs.Prelude.{◌≡◌, ◌≤◌, ◌<◌, ◌^◌, length, take, IfOk, IfSome, IsErrOf};
ghost use Rattle.remote_trait.specs.Calls.{Leaves, Refreshes, Fails, raised};
ghost use Rattle.remote_trait.specs.Honest.{AreNamesOf, IsPathOf};
ghost use Rattle.remote_rules.specs.Clones.{IsCloneOf};

use call_disk::OwnedDisk;
use id_groups::Name;
use remote_bundle::BundleRemote;
use remote_store::StoreRemote;
use remote_trait::{CloneData, Path, Remote, RemoteFault};
use std::alloc::Global;

/// A mirror, with the number by which C speaks of it.
#[derive(Drop)]
pub enum Mirror {
    /// A log.
    Log(u32, StoreRemote<OwnedDisk>),
    /// A bundle.
    Bundle(u32, BundleRemote<OwnedDisk>),
}

impl Remote for Mirror {
    ghost use Rattle.segdag_c.specs.Mirrors.{shown_of};

    ghost shown = { λ m. shown_of m };

    fn refresh(&mut self, alloc: Global) -> Result<(), RemoteFault> {
        match self {
            Mirror::Log(_, log) => log.refresh(alloc),
            Mirror::Bundle(_, bundle) => bundle.refresh(alloc),
        }
    }

    fn clone_data(&mut self, alloc: Global) -> Result<CloneData, RemoteFault> {
        match self {
            Mirror::Log(_, log) => log.clone_data(alloc),
            Mirror::Bundle(_, bundle) => bundle.clone_data(alloc),
        }
    }

    fn names_of(
        &mut self,
        alloc: Global,
        x: &Name,
        back: u64,
        out: &mut [Name],
    ) -> Result<u32, RemoteFault> {
        match self {
            Mirror::Log(_, log) => log.names_of(alloc, x, back, out),
            Mirror::Bundle(_, bundle) => bundle.names_of(alloc, x, back, out),
        }
    }

    fn path_of(
        &mut self,
        alloc: Global,
        heads: &[Name],
        name: &Name,
    ) -> Result<Option<Path>, RemoteFault> {
        match self {
            Mirror::Log(_, log) => log.path_of(alloc, heads, name),
            Mirror::Bundle(_, bundle) => bundle.path_of(alloc, heads, name),
        }
    }
}
