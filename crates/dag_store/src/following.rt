//! Taking what another process has stored.

ghost use Rattle.std.specs.Prelude.{◌≡◌, ◌<◌, ◌≤◌, ◌^◌, ◌++◌, ◌∷◌, ℕ, List, [], Err, OnErr, OnOk, length};
ghost use Rattle.gated_log.specs.Held.{Held, log_bytes, longer};
ghost use Rattle.batch_codec.specs.Payload.{Payload};
ghost use Rattle.name_map.specs.Added.{Placed, payloads_of};
ghost use Rattle.change_rules.specs.Holding.{IsSpelled};
ghost use Rattle.change_rules.specs.Unlawful.{MayStand};
ghost use Rattle.payload_tables.specs.Kept.{AreTablesOf};
ghost use Rattle.remote_rules.specs.Mirror.{Mirror};
ghost use Rattle.step_rules.specs.State.{State};
ghost use Rattle.store_plans.specs.Changes.{AreOver, HasRoom, added_behind};
ghost use Rattle.dag_store.specs.Finishes.{IsBehind};
ghost use Rattle.dag_store.specs.Following.{FollowsTo, GoOn, MayGoOn, OneHasCause, Takes, TakesOne, TakesTo, Written, texts_of};
ghost use Rattle.dag_store.specs.Kept.{IsKept};
ghost use Rattle.dag_store.specs.Stands.{StandsBeside};

use crate::elsewhere::append;
use crate::store::Store;
use batch_codec::BatchRef;
use change_rules::Limits;
use gated_log::{Log, ReserveFault};
use lazy_names::LazyNames;
use payload_tables::{TableFault, Tables};
use std::alloc::Global;
use store_plans::Session;

/// Why a payload isn't taken.
#[derive(Clone, Copy, PartialEq, Eq, Debug)]
pub enum FollowFault {
    /// It isn't in the grammar, or may not come behind those of the store.
    Unlawful,
    /// The log would become longer than its limit.
    Full,
    /// There was no memory.
    Memory,
}

impl From<ReserveFault> for FollowFault {
    ghost use Rattle.std.specs.Prelude.{◌≡◌};
    ghost use Rattle.dag_store.specs.Following.{fault_of_room};

    ghost from_gives = { λ fault e. e ≡ fault_of_room fault };

    fn from(fault: ReserveFault) -> FollowFault {
        match fault {
            ReserveFault::Full => FollowFault::Full,
            ReserveFault::Memory => FollowFault::Memory,
        }
    }
}

impl From<TableFault> for FollowFault {
    ghost use Rattle.std.specs.Prelude.{◌≡◌};
    ghost use Rattle.dag_store.specs.Following.{fault_of_table};

    ghost from_gives = { λ fault e. e ≡ fault_of_table fault };

    fn from(fault: TableFault) -> FollowFault {
        match fault {
            TableFault::Unlawful => FollowFault::Unlawful,
            TableFault::Memory => FollowFault::Memory,
        }
    }
}

/// How taking one payload ended.
#[derive(Drop)]
pub(crate) enum Taken {
    /// The store with the payload. Each session is where it was.
    Done(Store),
    /// The store as it was, and why.
    Refused(Store, FollowFault),
}

/// How following ended.
#[derive(Drop)]
pub enum Followed {
    /// The store with all payloads. Each session is where it was.
    Done(Store),
    /// The store with so many of them, and why it doesn't have the next one.
    Refused(Store, u32, FollowFault),
}

/// Makes room in the log for a payload, and adds it to the tables at the place where it will stand. A refusal changes nothing but the
/// log's room.
fn take_payload(log: &mut Log, tables: &mut Tables, payload: &[u8]) -> Result<(), FollowFault>
    requires over { (added : List Placed) × AreOver log.old tables.old added }
    requires limit { log.old.limit ≤ 2 ^ 32 }
    ensures room { HasRoom log.old log.new }
    ensures enough { OnOk result ((longer log.new payload.now ≤ log.new.limit) × (longer log.new payload.now ≤ log.new.room)) }
    ensures taken { (added : List Placed) → AreOver log.old tables.old added
        → OnOk result ((p : Payload) × IsSpelled payload.now p × AreTablesOf tables.new (added_behind log.old added p)) }
    ensures refused { OnErr result (tables.new ≡ tables.old) }
    ensures unlawful { (added : List Placed) → AreOver log.old tables.old added → result ≡ Err FollowFault.Unlawful
        → (p : Payload) → MayStand (payloads_of added) payload.now p → ⊥ }
    ensures full { result ≡ Err FollowFault.Full → log.old.limit < longer log.old payload.now }
{
    let Some(batch) = BatchRef::read(payload) else {
        return Err(FollowFault::Unlawful);
    };
    log.reserve(payload.len() as u64)?;
    let bytes = log.bytes();
    let at = bytes.len() as u64 + 8;
    tables.add_batch(bytes, &batch, at)?;
    Ok(())
}

/// The store whose log has a payload more that was taken, for sessions as they are.
fn with_payload(
    alloc: Global,
    log: Log,
    tables: Box<Tables>,
    sessions: Vec<Session>,
    limits: Limits,
    names: LazyNames,
    payload: &[u8],
) -> Store
    requires room { (longer log payload.now ≤ log.limit) × (longer log payload.now ≤ log.room) }
    requires kept { (new : Held) → IsBehind log payload.now new → IsKept new tables.value sessions.items limits }
    ensures store { result ≡ record { log = result.log; sessions = sessions.items; limits = limits; cache = names } }
    ensures payloads { result.log.payloads ≡ log.payloads ++ payload.now ∷ [] }
    ensures gate { result.log.gate ≡ 0 }
{
    let log = append(log, payload);
    Store {
        alloc,
        log,
        tables,
        sessions,
        limits,
        cache: names,
    }
}

impl Store {
    /// How many bytes the log has up to its closed gate and with it. What another process stores behind it begins at that gate.
    pub fn log_length(&self) -> u64
        ensures { result ≡ length (log_bytes self.now.log) }
    {
        self.log.bytes().len() as u64
    }

    /// Takes a payload that another process has stored behind those that this store has. Each session is where it was. A refusal leaves
    /// the store as it was, but for the log's room.
    fn take(self, payload: &[u8]) -> Taken
        ensures takes { TakesOne self payload.now result }
        ensures stands { (began : ℕ) (mirrors : List Mirror) (st : State) (c : Written) → StandsBeside began self mirrors st
            → IsSpelled payload.now c.payload → MayGoOn st.store c → TakesTo began mirrors st c result }
        ensures cause { OneHasCause self payload.now result }
    {
        let Store {
            alloc,
            mut log,
            mut tables,
            sessions,
            limits,
            cache: names,
        } = self;
        match take_payload(&mut log, &mut tables, payload) {
            Ok(()) => {
                Taken::Done(with_payload(alloc, log, tables, sessions, limits, names, payload))
            }
            Err(fault) => {
                let store = Store {
                    alloc,
                    log,
                    tables,
                    sessions,
                    limits,
                    cache: names,
                };
                Taken::Refused(store, fault)
            }
        }
    }

    /// Takes what another process has stored behind the payloads of this store: those of a log that was read from the place of its closed
    /// gate on. The store stands then for the worlds that it stood for and those that came; each session is where it was until it is
    /// reloaded. No disk is called.
    ///
    /// It takes one payload after the other up to the first that it refuses: `Unlawful` only where that is none that may come behind those
    /// before it, `Full` only where the log would become longer than its limit.
    pub fn follow(self, more: &Log) -> Followed
        ensures takes { Takes self more.now.payloads result }
        ensures stands { (began : ℕ) (mirrors : List Mirror) (st : State) (changes : List Written) → StandsBeside began self mirrors st
            → more.now.payloads ≡ texts_of changes → GoOn st changes → FollowsTo began mirrors st changes result }
    {
        let mut store = self;
        'batches: for k in 0..more.batch_count() {
            match store.take(more.batch(k)) {
                Taken::Done(next) => store = next,
                Taken::Refused(same, fault) => return Followed::Refused(same, k, fault),
            }
        }
        Followed::Done(store)
    }
}
