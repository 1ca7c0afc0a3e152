//! What was prepared for a session, stored.

ghost use Rattle.std.specs.Prelude.{◌≡◌, ◌<◌, ◌≤◌, true, false, Ok, IfSome};
ghost use Rattle.outside.specs.Counts.{Rose};
ghost use Rattle.disk_trait.specs.Calls.{Goes};
ghost use Rattle.gated_log.specs.Held.{Held, longer};
ghost use Rattle.gated_log.specs.Holding.{IsOnDisk};
ghost use Rattle.payload_tables.specs.Kept.{PlainTables};
ghost use Rattle.dag_store.specs.Kept.{IsKept};
ghost use Rattle.dag_store.specs.Changes.{ChangeLeaves, IsQuiet};
ghost use Rattle.dag_store.specs.Finishes.{FinishesAs, Finishes, IsBehind, IsToFinish, payload_in};

use crate::replies::{Changed, Counts};
use crate::store::Store;
use change_parts::Change;
use change_rules::Limits;
use disk_trait::Disk;
use gated_log::{Committed, Log};
use lazy_names::LazyNames;
use payload_tables::Tables;
use std::alloc::Global;
use step_rules::Refusal;
use store_plans::{Next, Session};

/// The parts of a store, of which a change is still to be stored.
#[derive(Drop)]
pub(crate) struct Parts {
    pub(crate) log: Log,
    pub(crate) tables: Box<Tables>,
    pub(crate) sessions: Vec<Session>,
    pub(crate) limits: Limits,
    pub(crate) names: LazyNames,
}

/// The store of these parts.
fn store_of(alloc: Global, parts: Parts) -> Store
    requires { IsKept parts.log parts.tables.value parts.sessions.items parts.limits }
    ensures { result ≡ record { log = parts.log; sessions = parts.sessions.items; limits = parts.limits; cache = parts.names } }
{
    Store {
        alloc,
        log: parts.log,
        tables: parts.tables,
        sessions: parts.sessions,
        limits: parts.limits,
        cache: parts.names,
    }
}

/// Stores what was prepared, where something changes, for sessions as they are then.
fn commit<D: Disk>(disk: &mut D, alloc: Global, parts: Parts, change: Change) -> Changed
    requires begins { IfSome (D.told disk.old) (IsOnDisk parts.log) }
    requires limit { parts.log.limit ≡ parts.limits.log }
    requires same { change.same ≡ true → IsKept parts.log parts.tables.value parts.sessions.items parts.limits }
    requires room { change.same ≡ false → (longer parts.log change.payload ≤ parts.log.limit) × (longer parts.log change.payload ≤ parts.log.room) }
    requires stored { (new : Held) → change.same ≡ false → IsBehind parts.log change.payload new → IsKept new parts.tables.value parts.sessions.items parts.limits }
    ensures finishes { Finishes parts.log parts.sessions.items parts.limits parts.names change result }
    ensures leaves { Goes (ChangeLeaves (record { log = parts.log; sessions = parts.sessions.items; limits = parts.limits; cache = parts.names }) change.payload result) (D.told disk.old) (D.told disk.new) }
    ensures quiet { change.same ≡ true → disk.new ≡ disk.old }
    ensures later { D.faults disk.old ≤ D.faults disk.new }
    ensures cause { (fault : _) → result ≡ Changed.Disk fault → Rose (D.faults disk.old) (D.faults disk.new) }
{
    let counts = Counts {
        master: change.master,
        others: change.others,
        pending: 0,
    };
    if change.same {
        return Changed::Done(store_of(alloc, parts), counts, None);
    }
    let Parts {
        log,
        tables,
        sessions,
        limits,
        names,
    } = parts;
    match log.commit(disk, change.payload.bytes()) {
        Committed::Done(log, clock) => {
            let parts = Parts {
                log,
                tables,
                sessions,
                limits,
                names,
            };
            Changed::Done(store_of(alloc, parts), counts, Some(clock))
        }
        Committed::Disk(fault) => Changed::Disk(fault),
        Committed::Full(_log, _limit) => unreachable!(),
        Committed::Memory(_log) => unreachable!(),
    }
}

/// Stores what was prepared for the session in this place, where something changes; or hands the store back with the refusal.
pub(crate) fn finish<D: Disk>(
    disk: &mut D,
    alloc: Global,
    parts: Parts,
    at: usize,
    next: Result<Next, Refusal>,
) -> Changed
    requires begins { IfSome (D.told disk.old) (IsOnDisk parts.log) }
    requires made { (old : Held) × (before : PlainTables) × IsToFinish old parts.log before parts.tables.value parts.sessions.items parts.limits at next }
    ensures ends { FinishesAs parts.log parts.sessions.items parts.limits parts.names at next result }
    ensures leaves { Goes (ChangeLeaves (record { log = parts.log; sessions = parts.sessions.items; limits = parts.limits; cache = parts.names }) (payload_in next) result) (D.told disk.old) (D.told disk.new) }
    ensures quiet { IsQuiet result → disk.new ≡ disk.old }
    ensures later { D.faults disk.old ≤ D.faults disk.new }
    ensures cause { (fault : _) → result ≡ Changed.Disk fault → Rose (D.faults disk.old) (D.faults disk.new) }
{
    let mut parts = parts;
    match next {
        Ok(ready) => {
            let Next { change, session } = ready;
            parts.sessions[at] = session;
            commit(disk, alloc, parts, change)
        }
        Err(refusal) => Changed::Refused(store_of(alloc, parts), refusal),
    }
}
