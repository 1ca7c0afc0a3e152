//! The remote.

ghost use Rattle.std.specs.Prelude.{◌≡◌, ◌≤◌, ◌<◌, ◌^◌, true, false, length, take, IfOk, IfSome, IsErrOf};
ghost use Rattle.remote_trait.specs.declared.fault.RemoteFault.TheVariants.{Failed as FaultFailed};
ghost use Rattle.remote_trait.specs.Calls.{Leaves, Refreshes, Fails, raised};
ghost use Rattle.remote_trait.specs.Honest.{AreNamesOf, IsPathOf};
ghost use Rattle.remote_rules.specs.Clones.{IsCloneOf};
ghost use Rattle.remote_rules.specs.Known.{master_world};
ghost use Rattle.remote_rules.specs.Honest.{clone_data_of};
ghost use Rattle.remote_bundle.specs.Remote.{mirror_of, rows_told, KeepsBundle, KeepsFile, HasBundleCause};

use crate::held::Held;
use crate::reading::peek;
use disk_trait::Disk;
use id_groups::Name;
use remote_trait::{CloneData, Path, Remote, RemoteFault};
use std::alloc::{AllocError, Global};
use std::marker::Model;
use std::mem::replace;

/// A bundle on a disk as a remote. It reads the file at its first call, and at each call after it while none has read it; it never
/// writes. `Failed` comes where a call of the disk fails, or the file is larger than the limit, or no bundle.
#[derive(Drop)]
pub struct BundleRemote<D: Disk + Drop> {
    disk: D,
    limit: u64,
    kept: Option<Held>,
    faults: u64,
    asked: u64,
}

impl<D: Disk + Drop> Model for BundleRemote<D> {
    ghost use Rattle.std.specs.Prelude.{is_some};
    ghost use Rattle.remote_bundle.specs.Remote.{PlainRemote, IsKeptOf};

    ghost Value = { PlainRemote };

    ghost view = { λ r. record { limit = r.limit; bytes = D.bytes r.disk; disk_faults = D.faults r.disk; faults = r.faults; asked = r.asked; is_kept = is_some r.kept } };

    ghost invariant = { λ r. IsKeptOf r.limit (D.bytes r.disk) r.kept };
}

impl<D: Disk + Drop> BundleRemote<D> {
    /// The bundle on this disk, whose file has at most so many bytes. No call of the disk is made yet.
    pub fn new(disk: D, limit: u64) -> BundleRemote<D>
        ensures { result ≡ record { limit = limit; bytes = D.bytes disk; disk_faults = D.faults disk; faults = 0; asked = 0; is_kept = false } }
    {
        BundleRemote {
            disk,
            limit,
            kept: None,
            faults: 0,
            asked: 0,
        }
    }

    /// Reads the file. A failure is counted.
    fn load(&mut self, alloc: Global) -> Result<(), RemoteFault>
        requires { self.old.is_kept ≡ false }
        ensures left { KeepsBundle self.old self.new result }
        ensures once { KeepsFile self.old self.new result }
    {
        match peek(alloc, &mut self.disk, self.limit) {
            Ok(held) => {
                drop(replace(&mut self.kept, Some(held)));
                Ok(())
            }
            Err(RemoteFault::Memory) => Err(RemoteFault::Memory),
            Err(RemoteFault::Failed) => {
                self.faults = self.faults.saturating_add(1);
                Err(RemoteFault::Failed)
            }
        }
    }

    /// Reads the file, if nothing is kept of it.
    fn keep(&mut self, alloc: Global) -> Result<(), RemoteFault>
        ensures left { KeepsBundle self.old self.new result }
        ensures once { KeepsFile self.old self.new result }
    {
        if self.kept.is_some() {
            return Ok(());
        }
        self.load(alloc)
    }

    /// The clone data of what is kept.
    fn kept_clone(&self, alloc: Global) -> Result<CloneData, AllocError>
        requires { self.now.is_kept ≡ true }
        ensures { IfOk result (λ given. IfSome (rows_told self.now) (λ rows. IsCloneOf rows given × (given ≡ clone_data_of (master_world rows)))) }
    {
        self.kept.as_ref().unwrap().clone_data(alloc)
    }

    /// Names from what is kept.
    fn kept_names(&self, x: &Name, back: u64, out: &mut [Name]) -> u32
        requires kept { self.now.is_kept ≡ true }
        requires few { length out.old < 2 ^ 32 }
        ensures count { result ≤ length out.old }
        ensures names { IfSome (rows_told self.now) (λ rows. AreNamesOf rows x.now back (length out.old) (take result out.new)) }
    {
        self.kept.as_ref().unwrap().put_names(x, back, out)
    }

    /// A path from what is kept.
    fn kept_path(
        &mut self,
        alloc: Global,
        heads: &[Name],
        name: &Name,
    ) -> Result<Option<Path>, AllocError>
        requires { self.old.is_kept ≡ true }
        ensures same { self.new ≡ self.old }
        ensures path { IfOk result (λ found. IfSome (rows_told self.old) (λ rows. IsPathOf rows heads.now name.now found)) }
    {
        self.kept.as_mut().unwrap().find_path(alloc, heads, name)
    }
}

impl<D: Disk + Drop> Remote for BundleRemote<D> {
    ghost use Rattle.remote_bundle.specs.Remote.{mirror_of};

    ghost shown = { λ r. mirror_of r };

    /// Reads the file, if nothing is kept of it, and changes nothing else.
    fn refresh(&mut self, alloc: Global) -> Result<(), RemoteFault>
        ensures left { Refreshes (mirror_of self.old) (mirror_of self.new) }
        ensures failed { IsErrOf result FaultFailed → Fails (mirror_of self.old) (mirror_of self.new) }
        ensures cause { HasBundleCause self.old self.new result }
        ensures once { KeepsFile self.old self.new result }
    {
        self.keep(alloc)
    }

    fn clone_data(&mut self, alloc: Global) -> Result<CloneData, RemoteFault>
        ensures left { Leaves (λ asked. asked) (mirror_of self.old) (mirror_of self.new) }
        ensures failed { IsErrOf result FaultFailed → Fails (mirror_of self.old) (mirror_of self.new) }
        ensures told { IfOk result (λ given. IfSome (mirror_of self.old).cloned (λ told. given ≡ told)) }
        ensures honest { IfOk result (λ given. IfSome (mirror_of self.old).master (λ rows. IsCloneOf rows given)) }
        ensures cause { HasBundleCause self.old self.new result }
        ensures once { KeepsFile self.old self.new result }
    {
        self.keep(alloc)?;
        Ok(self.kept_clone(alloc)?)
    }

    fn names_of(
        &mut self,
        alloc: Global,
        x: &Name,
        back: u64,
        out: &mut [Name],
    ) -> Result<u32, RemoteFault>
        requires { length out.old < 2 ^ 32 }
        ensures count { IfOk result (λ n. n ≤ length out.old) }
        ensures left { Leaves (raised (length out.old)) (mirror_of self.old) (mirror_of self.new) }
        ensures failed { IsErrOf result FaultFailed → Fails (mirror_of self.old) (mirror_of self.new) }
        ensures honest { IfOk result (λ n. IfSome (mirror_of self.old).master (λ rows. AreNamesOf rows x.now back (length out.old) (take n out.new))) }
        ensures cause { HasBundleCause self.old self.new result }
        ensures once { KeepsFile self.old self.new result }
    {
        self.asked = self.asked.saturating_add(out.len() as u64);
        self.keep(alloc)?;
        Ok(self.kept_names(x, back, out))
    }

    fn path_of(
        &mut self,
        alloc: Global,
        heads: &[Name],
        name: &Name,
    ) -> Result<Option<Path>, RemoteFault>
        ensures left { Leaves (raised 1) (mirror_of self.old) (mirror_of self.new) }
        ensures failed { IsErrOf result FaultFailed → Fails (mirror_of self.old) (mirror_of self.new) }
        ensures honest { IfOk result (λ found. IfSome (mirror_of self.old).master (λ rows. IsPathOf rows heads.now name.now found)) }
        ensures cause { HasBundleCause self.old self.new result }
        ensures once { KeepsFile self.old self.new result }
    {
        self.asked = self.asked.saturating_add(1);
        self.keep(alloc)?;
        Ok(self.kept_path(alloc, heads, name)?)
    }
}
