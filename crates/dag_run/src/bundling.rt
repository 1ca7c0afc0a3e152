//! Putting the bundle of the stored master.

ghost use Rattle.std.specs.Prelude.{◌≡◌, ◌⊎◌, List, Err, IfErr, IfSome, length};
ghost use Rattle.disk_trait.specs.Since.{IsUntouched};
ghost use Rattle.outside.specs.Counts.{Rose};
ghost use Rattle.outside.specs.Told.{WhereTold};
ghost use Rattle.id_groups.specs.Name.{Name};
ghost use Rattle.commit_graph.specs.World.{World};
ghost use Rattle.disk_trait.specs.Calls.{Goes};
ghost use Rattle.gated_log.specs.Load.{LeavesOldOrFresh};
ghost use Rattle.batch_codec.specs.Payload.{Payload};
ghost use Rattle.change_rules.specs.Holding.{HoldAs, KeepsHolding};
ghost use Rattle.change_rules.specs.Standard.{AreLimits};
ghost use Rattle.step_rules.specs.State.{start};
ghost use Rattle.dag_store.specs.Stands.{Stands};
ghost use Rattle.dag_run.specs.Bundling.{Bundles, BundleMeans, BundleRefuses, IsBundleStatus, IsOfStore, PutsWhole, unbundled_of, unbundled_status};
ghost use Rattle.dag_run.specs.Ends.{StatusRefuses};

use crate::Limits;
use dag_store::{LoadFault, Store};
use disk_trait::Disk;
use line_io::Sink;
use std::alloc::Global;
use store_bundle::bundle_of_store;

/// Why there is no bundle to put.
#[derive(Clone, Copy)]
pub enum Unbundled {
    /// The disk failed while the log was loaded.
    NotLoaded,
    /// The bytes of the disk are no log.
    NoLog,
    /// Memory was wanting.
    Memory,
    /// A commit of master has no stored name.
    Unnamed,
}

/// Why there is none where no store was loaded.
fn not_loaded(fault: LoadFault) -> Unbundled
    ensures { result ≡ unbundled_of fault }
{
    match fault {
        LoadFault::Frame(_) => Unbundled::NoLog,
        LoadFault::TooLarge(_) => Unbundled::NoLog,
        LoadFault::Batch(_) => Unbundled::NoLog,
        LoadFault::Disk(_) => Unbundled::NotLoaded,
        LoadFault::Memory => Unbundled::Memory,
    }
}

/// The status where there is none.
fn status(fault: Unbundled) -> u8
    ensures { result ≡ unbundled_status fault }
{
    match fault {
        Unbundled::NotLoaded => 3,
        Unbundled::NoLog => 4,
        Unbundled::Memory => 7,
        Unbundled::Unnamed => 10,
    }
}

/// The bundle of the master of a store, which is dropped.
fn bundle_of_loaded(alloc: Global, store: Store) -> Result<Vec<u8>, Unbundled>
    ensures bundles { (payloads : List Payload) (w : World Name) → Stands (length payloads) store (start w payloads) → Bundles payloads w result }
    ensures err { IfErr result IsOfStore }
{
    match bundle_of_store(alloc, &store) {
        Ok(Some(bundle)) => Ok(bundle),
        Ok(None) => Err(Unbundled::Unnamed),
        Err(_) => Err(Unbundled::Memory),
    }
}

/// Loads the log, and makes the bundle of its master.
fn load_bundle<D: Disk>(alloc: Global, limits: Limits, log: &mut D) -> Result<Vec<u8>, Unbundled>
    requires { AreLimits limits }
    ensures bundles { (payloads : List Payload) (w : World Name) → IfSome (D.bytes log.old) (λ bytes. HoldAs limits.log bytes payloads w → Bundles payloads w result) }
    ensures refuses { IfSome (D.bytes log.old) (λ bytes. BundleRefuses limits.log bytes result) }
    ensures holds { (w : World Name) → Goes (KeepsHolding limits.log w) (D.told log.old) (D.told log.new) }
    ensures loaded { Goes LeavesOldOrFresh (D.told log.old) (D.told log.new) }
    ensures unwritten { result ≡ Err Unbundled.NoLog → Goes IsUntouched (D.told log.old) (D.told log.new) }
    ensures disk { result ≡ Err Unbundled.NotLoaded → Rose (D.faults log.old) (D.faults log.new) }
{
    match Store::load(alloc, log, limits, 1) {
        Ok(store) => bundle_of_loaded(alloc, store),
        Err(fault) => Err(not_loaded(fault)),
    }
}

/// Puts the bundle as one piece, and gives the status.
fn put_whole<O: Sink>(bundle: Vec<u8>, output: &mut O) -> u8
    ensures has { (result ≡ 0) ⊎ (result ≡ 6) }
    ensures puts { WhereTold (O.taken output.old) (O.taken output.new) (PutsWhole bundle.items result) }
    ensures sink { result ≡ 6 → Rose (O.faults output.old) (O.faults output.new) }
{
    match output.put(&bundle) {
        Ok(()) => 0,
        Err(_) => 6,
    }
}

/// Puts the bundle of the log's master, and gives the status: 0 where all of it was put, 3 where a call of the disk failed, 4 where its
/// bytes are no log, 6 where the sink failed, 7 where memory was wanting, and 10 where a commit of master has no stored name. All memory
/// is taken before anything is put.
pub(crate) fn put_bundle<D: Disk, O: Sink>(
    alloc: Global,
    limits: Limits,
    log: &mut D,
    output: &mut O,
) -> u8
    requires { AreLimits limits }
    ensures known { IsBundleStatus result }
    ensures means { (payloads : List Payload) (w : World Name) → IfSome (D.bytes log.old) (λ bytes. HoldAs limits.log bytes payloads w
        → WhereTold (O.taken output.old) (O.taken output.new) (BundleMeans payloads w result)) }
    ensures refuses { IfSome (D.bytes log.old) (λ bytes. StatusRefuses limits.log bytes result) }
    ensures holds { (w : World Name) → Goes (KeepsHolding limits.log w) (D.told log.old) (D.told log.new) }
    ensures loaded { Goes LeavesOldOrFresh (D.told log.old) (D.told log.new) }
    ensures quiet { (result ≡ 0) ⊎ ((result ≡ 6) ⊎ (output.new ≡ output.old)) }
    ensures unwritten { result ≡ 4 → Goes IsUntouched (D.told log.old) (D.told log.new) }
    ensures disk { result ≡ 3 → Rose (D.faults log.old) (D.faults log.new) }
    ensures sink { result ≡ 6 → Rose (O.faults output.old) (O.faults output.new) }
{
    match load_bundle(alloc, limits, log) {
        Ok(bundle) => put_whole(bundle, output),
        Err(fault) => status(fault),
    }
}
