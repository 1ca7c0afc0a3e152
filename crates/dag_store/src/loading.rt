//! Reading a log into a store's parts.

ghost use Rattle.std.specs.Prelude.{◌≡◌, ◌⊎◌, ◌<◌, ◌≤◌, ◌^◌, ℕ, List, [], length, map, IfOk, IfErr};
ghost use Rattle.gated_log.specs.Held.{log_bytes};
ghost use Rattle.name_map.specs.Added.{Placed, payloads_of, AllStand};
ghost use Rattle.change_rules.specs.Change.{text_of};
ghost use Rattle.change_rules.specs.Unlawful.{IsFirstUnlawful};
ghost use Rattle.payload_tables.specs.Kept.{AreTablesOf};
ghost use Rattle.std.specs.List.{AllByRecursion};
ghost use Rattle.log_tables.specs.Within.{EndsWithin};
ghost use Rattle.dag_store.specs.Kept.{session_at};
ghost use Rattle.store_plans.specs.Sessions.{IsOnNewest};

use crate::replies::LoadFault;
use gated_log::{LoadLog, Log};
use log_tables::{TablesFault, read_tables};
use payload_tables::Tables;
use std::alloc::{AllocError, AllocFailed, Global};
use store_plans::Session;

impl From<LoadLog> for LoadFault {
    ghost use Rattle.std.specs.Prelude.{◌≡◌};
    ghost use Rattle.dag_store.specs.Loading.{fault_of};

    ghost from_gives = { λ fault e. e ≡ fault_of fault };

    fn from(fault: LoadLog) -> LoadFault {
        match fault {
            LoadLog::Damaged(at) => LoadFault::Frame(at),
            LoadLog::TooLarge(size) => LoadFault::TooLarge(size),
            LoadLog::Disk(fault) => LoadFault::Disk(fault),
            LoadLog::Memory => LoadFault::Memory,
        }
    }
}

impl From<TablesFault> for LoadFault {
    ghost use Rattle.std.specs.Prelude.{◌≡◌};
    ghost use Rattle.dag_store.specs.Loading.{fault_of_tables};

    ghost from_gives = { λ fault e. e ≡ fault_of_tables fault };

    fn from(fault: TablesFault) -> LoadFault {
        match fault {
            TablesFault::Unlawful(k) => LoadFault::Batch(k),
            TablesFault::Memory => LoadFault::Memory,
        }
    }
}

impl From<AllocError> for LoadFault {
    ghost use Rattle.std.specs.Prelude.{◌≡◌};
    ghost use Rattle.dag_store.specs.declared.replies.LoadFault.TheVariants.{Memory};

    ghost from_gives = { λ _ fault. fault ≡ Memory };

    fn from(_refused: AllocError) -> LoadFault {
        LoadFault::Memory
    }
}

impl<T: Drop> From<AllocFailed<T>> for LoadFault {
    ghost use Rattle.std.specs.Prelude.{◌≡◌};
    ghost use Rattle.dag_store.specs.declared.replies.LoadFault.TheVariants.{Memory};

    ghost from_gives = { λ _ fault. fault ≡ Memory };

    fn from(_refused: AllocFailed<T>) -> LoadFault {
        LoadFault::Memory
    }
}

/// The tables of a log's payloads behind a box, which a store is handed on with.
pub(crate) fn boxed_tables(alloc: Global, log: &Log) -> Result<Box<Tables>, LoadFault>
    requires { log.now.limit ≤ 2 ^ 32 }
    ensures ok { IfOk result (λ tables. (added : List Placed) × AreTablesOf tables.value added × AllStand (log_bytes log.now) added × (log.now.payloads ≡ map text_of (payloads_of added))
        × AllByRecursion (EndsWithin log.now) added) }
    ensures err { IfErr result (λ fault. (fault ≡ LoadFault.Memory) ⊎ ((k : ℕ) × (fault ≡ LoadFault.Batch k) × IsFirstUnlawful [] log.now.payloads k)) }
{
    let tables = read_tables(alloc, log)?;
    let boxed = Box::new(alloc, tables)?;
    Ok(boxed)
}

/// Sixteen sessions without rows on all payloads of the log.
pub(crate) fn new_sessions(
    alloc: Global,
    log: &Log,
    tables: &Tables,
) -> Result<Vec<Session>, LoadFault>
    requires { (added : List Placed) × AreTablesOf tables.now added × (log.now.payloads ≡ map text_of (payloads_of added)) }
    ensures count { IfOk result (λ sessions. length sessions.items ≡ 16) }
    ensures each { (added : List Placed) (s : ℕ) → AreTablesOf tables.now added → log.now.payloads ≡ map text_of (payloads_of added) → s < 16
        → IfOk result (λ sessions. IsOnNewest added (session_at sessions.items s)) }
    ensures err { IfErr result (λ fault. fault ≡ LoadFault.Memory) }
{
    let mut sessions = Vec::with_capacity(alloc, 16)?;
    'sessions: for _step in 0..16u32 {
        let session = Session::newest(alloc, tables, log.batch_count())?;
        sessions.push(session)?;
    }
    Ok(sessions)
}
