//! Loading a log whose bytes are lent.

ghost use Rattle.std.specs.Prelude.{◌≡◌, ◌<◌, [], Some, IfOk, IfErr, IfSome};
ghost use Rattle.call_disk.specs.Awaited.{awaited};
ghost use Rattle.call_disk.specs.Lent.{HasBytes};
ghost use Rattle.call_disk.specs.Performed.{HonestDisk};
ghost use Rattle.change_rules.specs.Standard.{standard};
ghost use Rattle.segdag_c.specs.Loads.{load_failure, HoldsOpened, IsOpened, IsRightly, LoadNotes, Settles};

use crate::codes::Failure;
use crate::held::Held;
use call_disk::{Beneath, LentDisk, NotedCalls};
use dag_store::{Limits, LoadFault, Store};
use line_io::MemorySink;
use mirror_set::Mirrors;
use std::alloc::Global;
use std::marker::Brand;

/// Why C is told that a log isn't loaded.
fn failure_of(fault: LoadFault) -> Failure
    ensures { result ≡ load_failure fault }
{
    match fault {
        LoadFault::Disk(_) => Failure::Disk,
        LoadFault::Memory => Failure::Memory,
        LoadFault::Frame(_) | LoadFault::TooLarge(_) | LoadFault::Batch(_) => Failure::NoLog,
    }
}

/// The store of the log that these bytes are, with room for so many names of mirrors, and what is to be performed, for a disk that has
/// the bytes.
fn load_on<B: Beneath>(
    alloc: Global,
    bytes: &[u8],
    cache: u32,
) -> Result<(Store, NotedCalls), Failure>
    requires cache { 0 < cache }
    requires lends { HasBytes B.disk bytes.now }
    ensures limits { IfOk result (λ loaded. loaded.0.limits ≡ standard) }
    ensures opened { IfOk result (λ loaded. IsOpened bytes.now cache loaded.0) }
    ensures notes { IfOk result (λ loaded. IfSome B.disk (λ disk. Settles loaded.0 (awaited loaded.1) disk.told)) }
    ensures rightly { IfErr result (IsRightly bytes.now) }
{
    let mut disk = LentDisk::<B>::new(alloc, bytes);
    match Store::load(alloc, &mut disk, Limits::standard(), cache) {
        Ok(store) => Ok((store, disk.into_noted())),
        Err(fault) => Err(failure_of(fault)),
    }
}

/// The store of the log that these bytes are, with room for so many names of mirrors, and what is to be performed.
fn load_store(alloc: Global, bytes: &[u8], cache: u32) -> Result<(Store, NotedCalls), Failure>
    ghost disk: { HonestDisk }
    requires { 0 < cache }
    ensures limits { IfOk result (λ loaded. loaded.0.limits ≡ standard) }
    ensures opened { IfOk result (λ loaded. IsOpened bytes.now cache loaded.0) }
    ensures notes { IfOk result (λ loaded. LoadNotes bytes.now loaded.0 (awaited loaded.1) disk.told) }
    ensures rightly { IfErr result (IsRightly bytes.now) }
{
    load_on::<Brand>(alloc, bytes, cache)
}

/// An open log, beside no mirrors.
fn held_of(alloc: Global, store: Store, log: NotedCalls, reply: MemorySink) -> Held
    requires { store.limits ≡ standard }
    ensures store { result.store ≡ Some store }
    ensures mirrors { result.mirrors.list.items ≡ [] }
    ensures log { result.log ≡ log }
{
    Held {
        store: Some(store),
        log,
        mirrors: Mirrors::new(Vec::new(alloc)),
        reply,
        names: Vec::new(alloc),
    }
}

/// Loads the log that these bytes are. What is to be performed is noted.
pub(crate) fn load_log(alloc: Global, bytes: &[u8], cache: u32) -> Result<Held, Failure>
    ghost disk: { HonestDisk }
    requires { 0 < cache }
    ensures opened { IfOk result (HoldsOpened bytes.now cache disk.told) }
    ensures rightly { IfErr result (IsRightly bytes.now) }
{
    let Ok(reply) = MemorySink::new(alloc, &[]) else {
        return Err(Failure::Memory);
    };
    match load_store(alloc, bytes, cache) {
        Ok((store, log)) => Ok(held_of(alloc, store, log, reply)),
        Err(failure) => Err(failure),
    }
}
