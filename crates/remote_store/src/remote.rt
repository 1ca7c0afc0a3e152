//! The remote.

ghost use Rattle.std.specs.Prelude.{◌≡◌, ◌≤◌, ◌<◌, ◌^◌, true, None, length, take, is_some, IfOk, IfSome, IsErrOf};
ghost use Rattle.change_rules.specs.Standard.{AreLimits};
ghost use Rattle.remote_trait.specs.declared.fault.RemoteFault.TheVariants.{Failed as FaultFailed};
ghost use Rattle.remote_trait.specs.Calls.{Leaves, Refreshes, Fails, raised};
ghost use Rattle.remote_trait.specs.Honest.{AreNamesOf, IsPathOf};
ghost use Rattle.remote_rules.specs.Clones.{IsCloneOf};
ghost use Rattle.remote_rules.specs.Known.{master_world};
ghost use Rattle.remote_rules.specs.Honest.{clone_data_of};
ghost use Rattle.remote_store.specs.Remote.{mirror_of, rows_told, rows_kept, KeepsStore, HasStoreCause, ReadsAnew, ReadsWhereLacking};

use crate::loaded::Loaded;
use change_rules::Limits;
use disk_trait::Disk;
use id_groups::Name;
use remote_trait::{CloneData, Path, Remote, RemoteFault};
use std::alloc::{AllocError, Global};
use std::marker::Model;
use std::mem::replace;

/// A log on a disk as a remote. It reads the log at its first call, at each `refresh`, and at the next call after one that answered a
/// fault, at no other call, and never writes. Where another process adds to the log meanwhile, what it answers is of the log of some moment
/// of its last reading.
#[derive(Drop)]
pub struct StoreRemote<D: Disk + Drop> {
    disk: D,
    limits: Limits,
    kept: Option<Loaded>,
    faults: u64,
    asked: u64,
}

impl<D: Disk + Drop> Model for StoreRemote<D> {
    ghost use Rattle.std.specs.Prelude.{◌≡◌, ◌≤◌, ◌^◌, Some, IfSome};
    ghost use Rattle.remote_store.specs.Told.{texts_within};
    ghost use Rattle.remote_store.specs.Fit.{IsUnfit};
    ghost use Rattle.remote_store.specs.Remote.{PlainRemote, bytes_in};

    ghost Value = { PlainRemote D };

    ghost view = { λ r. record { log = record { limit = r.limits.log; told = D.told r.disk; disk_faults = D.faults r.disk; faults = r.faults; asked = r.asked; kept = r.kept }; disk = r.disk } };

    ghost invariant = { λ r. (1 ≤ r.limits.log) × (r.limits.log ≤ 2 ^ 32)
        × IfSome (bytes_in (D.told r.disk)) (λ bytes. IfSome r.kept (λ texts. (texts_within r.limits.log bytes ≡ Some texts) × (IsUnfit r.limits.log bytes → ⊥))) };
}

impl<D: Disk + Drop> StoreRemote<D> {
    /// The log on this disk, within these limits. No call of the disk is made yet.
    pub fn new(disk: D, limits: Limits) -> StoreRemote<D>
        requires { AreLimits limits }
        ensures { result ≡ record { log = record { limit = limits.log; told = D.told disk; disk_faults = D.faults disk; faults = 0; asked = 0; kept = None }; disk = disk } }
    {
        StoreRemote {
            disk,
            limits,
            kept: None,
            faults: 0,
            asked: 0,
        }
    }

    /// Lets go of what is kept, so that the next call reads the log again.
    fn let_go(&mut self)
        ensures { self.new ≡ record { log = record self.old.log { kept = None }; disk = self.old.disk } }
    {
        drop(self.kept.take());
    }

    /// Reads the log. A failure is counted.
    fn peek(&mut self, alloc: Global) -> Result<(), RemoteFault>
        requires { self.old.log.kept ≡ None }
        ensures left { KeepsStore self.old.log self.new.log result }
        ensures anew { ReadsAnew D.meanwhile self.old self.new result }
    {
        match Loaded::peek(alloc, &mut self.disk, self.limits.log) {
            Ok(loaded) => {
                drop(replace(&mut self.kept, Some(loaded)));
                Ok(())
            }
            Err(RemoteFault::Memory) => Err(RemoteFault::Memory),
            Err(RemoteFault::Failed) => {
                self.faults = self.faults.saturating_add(1);
                Err(RemoteFault::Failed)
            }
        }
    }

    /// Reads the log, if nothing is kept of it.
    fn keep(&mut self, alloc: Global) -> Result<(), RemoteFault>
        ensures left { KeepsStore self.old.log self.new.log result }
        ensures log { ReadsWhereLacking D.meanwhile self.old self.new result }
    {
        if self.kept.is_some() {
            return Ok(());
        }
        self.peek(alloc)
    }

    /// The clone data of what is kept.
    fn kept_clone(&self, alloc: Global) -> Result<CloneData, AllocError>
        requires { is_some self.now.log.kept ≡ true }
        ensures told { IfOk result (λ given. IfSome (rows_told self.now.log) (λ rows. IsCloneOf rows given × (given ≡ clone_data_of (master_world rows)))) }
        ensures kept { IfOk result (λ given. IfSome (rows_kept self.now.log) (λ rows. IsCloneOf rows given × (given ≡ clone_data_of (master_world rows)))) }
    {
        self.kept.as_ref().unwrap().clone_data(alloc)
    }

    /// Names from what is kept.
    fn kept_names(&self, x: &Name, back: u64, out: &mut [Name]) -> u32
        requires kept { is_some self.now.log.kept ≡ true }
        requires few { length out.old < 2 ^ 32 }
        ensures count { result ≤ length out.old }
        ensures names { IfSome (rows_told self.now.log) (λ rows. AreNamesOf rows x.now back (length out.old) (take result out.new)) }
        ensures kept { IfSome (rows_kept self.now.log) (λ rows. AreNamesOf rows x.now back (length out.old) (take result out.new)) }
    {
        self.kept.as_ref().unwrap().put_names(x, back, out)
    }

    /// A path from what is kept.
    fn kept_path(
        &mut self,
        alloc: Global,
        heads: &[Name],
        name: &Name,
    ) -> Result<Option<Path>, AllocError>
        requires { is_some self.old.log.kept ≡ true }
        ensures same { self.new ≡ self.old }
        ensures path { IfOk result (λ found. IfSome (rows_told self.old.log) (λ rows. IsPathOf rows heads.now name.now found)) }
        ensures kept { IfOk result (λ found. IfSome (rows_kept self.old.log) (λ rows. IsPathOf rows heads.now name.now found)) }
    {
        self.kept.as_mut().unwrap().find_path(alloc, heads, name)
    }
}

impl<D: Disk + Drop> Remote for StoreRemote<D> {
    ghost use Rattle.remote_store.specs.Remote.{mirror_of};

    ghost shown = { λ r. mirror_of r.log };

    fn refresh(&mut self, alloc: Global) -> Result<(), RemoteFault>
        ensures left { Refreshes (mirror_of self.old.log) (mirror_of self.new.log) }
        ensures failed { IsErrOf result FaultFailed → Fails (mirror_of self.old.log) (mirror_of self.new.log) }
        ensures cause { HasStoreCause self.old.log self.new.log result }
        ensures anew { ReadsAnew D.meanwhile self.old self.new result }
    {
        self.let_go();
        self.peek(alloc)
    }

    fn clone_data(&mut self, alloc: Global) -> Result<CloneData, RemoteFault>
        ensures left { Leaves (λ asked. asked) (mirror_of self.old.log) (mirror_of self.new.log) }
        ensures failed { IsErrOf result FaultFailed → Fails (mirror_of self.old.log) (mirror_of self.new.log) }
        ensures told { IfOk result (λ given. IfSome (mirror_of self.old.log).cloned (λ told. given ≡ told)) }
        ensures honest { IfOk result (λ given. IfSome (mirror_of self.old.log).master (λ rows. IsCloneOf rows given)) }
        ensures cause { HasStoreCause self.old.log self.new.log result }
        ensures log { ReadsWhereLacking D.meanwhile self.old self.new result }
        ensures kept { IfOk result (λ given. IfSome (rows_kept self.new.log) (λ rows. IsCloneOf rows given × (given ≡ clone_data_of (master_world rows)))) }
    {
        self.keep(alloc)?;
        match self.kept_clone(alloc) {
            Ok(given) => Ok(given),
            Err(_refused) => {
                self.let_go();
                Err(RemoteFault::Memory)
            }
        }
    }

    fn names_of(
        &mut self,
        alloc: Global,
        x: &Name,
        back: u64,
        out: &mut [Name],
    ) -> Result<u32, RemoteFault>
        requires { length out.old < 2 ^ 32 }
        ensures count { IfOk result (λ n. n ≤ length out.old) }
        ensures left { Leaves (raised (length out.old)) (mirror_of self.old.log) (mirror_of self.new.log) }
        ensures failed { IsErrOf result FaultFailed → Fails (mirror_of self.old.log) (mirror_of self.new.log) }
        ensures honest { IfOk result (λ n. IfSome (mirror_of self.old.log).master (λ rows. AreNamesOf rows x.now back (length out.old) (take n out.new))) }
        ensures cause { HasStoreCause self.old.log self.new.log result }
        ensures log { ReadsWhereLacking D.meanwhile self.old self.new result }
        ensures kept { IfOk result (λ n. IfSome (rows_kept self.new.log) (λ rows. AreNamesOf rows x.now back (length out.old) (take n out.new))) }
    {
        self.asked = self.asked.saturating_add(out.len() as u64);
        self.keep(alloc)?;
        Ok(self.kept_names(x, back, out))
    }

    fn path_of(
        &mut self,
        alloc: Global,
        heads: &[Name],
        name: &Name,
    ) -> Result<Option<Path>, RemoteFault>
        ensures left { Leaves (raised 1) (mirror_of self.old.log) (mirror_of self.new.log) }
        ensures failed { IsErrOf result FaultFailed → Fails (mirror_of self.old.log) (mirror_of self.new.log) }
        ensures honest { IfOk result (λ found. IfSome (mirror_of self.old.log).master (λ rows. IsPathOf rows heads.now name.now found)) }
        ensures cause { HasStoreCause self.old.log self.new.log result }
        ensures log { ReadsWhereLacking D.meanwhile self.old self.new result }
        ensures kept { IfOk result (λ found. IfSome (rows_kept self.new.log) (λ rows. IsPathOf rows heads.now name.now found)) }
    {
        self.asked = self.asked.saturating_add(1);
        self.keep(alloc)?;
        match self.kept_path(alloc, heads, name) {
            Ok(found) => Ok(found),
            Err(_refused) => {
                self.let_go();
                Err(RemoteFault::Memory)
            }
        }
    }
}
