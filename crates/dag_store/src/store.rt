//! A store, and what it tells without memory.

ghost use Rattle.std.specs.Prelude.{◌≡◌, ◌<◌, ◌≤◌, ℕ, List, [], Err, length, map, IfErr, IfOk, IfSome};
ghost use Rattle.disk_trait.specs.Since.{IsUntouched};
ghost use Rattle.id_groups.specs.Name.{Name as NameBytes};
ghost use Rattle.outside.specs.Counts.{Rose};
ghost use Rattle.commit_graph.specs.World.{World};
ghost use Rattle.disk_trait.specs.Calls.{Goes};
ghost use Rattle.gated_log.specs.Load.{IsSureOf, IsSureBehind, LeavesOldOrFresh};
ghost use Rattle.batch_codec.specs.Payload.{Payload};
ghost use Rattle.name_map.specs.Added.{Placed, payloads_of};
ghost use Rattle.payload_tables.specs.Kept.{AreTablesOf};
ghost use Rattle.change_rules.specs.Standard.{AreLimits};
ghost use Rattle.change_rules.specs.Change.{text_of};
ghost use Rattle.change_rules.specs.Holding.{HoldAs, KeepsHolding};
ghost use Rattle.change_rules.specs.Unlawful.{IsNoLog};
ghost use Rattle.gated_log.specs.Load.{LoadCalls, WithinCalls};
ghost use Rattle.step_rules.specs.State.{State, with_pending_rows};
ghost use Rattle.step_rules.specs.Verb.{Discard, Levels, Status};
ghost use Rattle.step_rules.specs.Reply.{Discarded, LevelSizes, Sizes};
ghost use Rattle.step_rules.specs.Step.{CommandStep};
ghost use Rattle.dag_store.specs.Stands.{Stands};
ghost use Rattle.dag_store.specs.Steps.{ChangesOnly};
ghost use Rattle.dag_store.specs.Loading.{LoadAnswers, Opens, IsLoadedStore, IsNoLogFault};
ghost use Rattle.store_plans.specs.Sessions.{IsOnNewest};
ghost use Rattle.dag_store.specs.Kept.{session_at};

use crate::loading::{boxed_tables, new_sessions};
use crate::replies::{Counts, LoadFault};
use change_rules::Limits;
use disk_trait::Disk;
use gated_log::Log;
use high_segments::LevelCounts;
use lazy_names::LazyNames;
use payload_tables::{PendingRows, Tables};
use std::alloc::Global;
use std::marker::Model;
use store_plans::Session;

/// A log, its tables, sixteen sessions on it, and names that mirrors gave. Contracts see the log, what is kept of each session, the
/// limits and these names. The tables stand behind a box, since a store is handed on by value with each line.
#[derive(Drop)]
pub struct Store {
    pub(crate) alloc: Global,
    pub(crate) log: Log,
    pub(crate) tables: Box<Tables>,
    pub(crate) sessions: Vec<Session>,
    pub(crate) limits: Limits,
    pub(crate) cache: LazyNames,
}

impl Model for Store {
    ghost use Rattle.dag_store.specs.Kept.{PlainStore, IsKept};

    ghost Value = { PlainStore };

    ghost view = { λ s. record { log = s.log; sessions = s.sessions.items; limits = s.limits; cache = s.cache } };

    ghost invariant = { λ s. IsKept s.log s.tables.value s.sessions.items s.limits };
}

/// What a store has beside its log and its tables: sixteen sessions without rows on all payloads of the log, and room for so many names.
fn new_parts(
    alloc: Global,
    log: &Log,
    tables: &Tables,
    cache: u32,
) -> Result<(Vec<Session>, LazyNames), LoadFault>
    requires tables { (added : List Placed) × AreTablesOf tables.now added × (log.now.payloads ≡ map text_of (payloads_of added)) }
    requires cache { 0 < cache }
    ensures count { IfOk result (λ parts. length parts.0.items ≡ 16) }
    ensures each { (added : List Placed) (s : ℕ) → AreTablesOf tables.now added → log.now.payloads ≡ map text_of (payloads_of added) → s < 16
        → IfOk result (λ parts. IsOnNewest added (session_at parts.0.items s)) }
    ensures cache { IfOk result (λ parts. parts.1 ≡ record { entries = []; capacity = cache }) }
    ensures err { IfErr result (λ fault. fault ≡ LoadFault.Memory) }
{
    let sessions = new_sessions(alloc, log, tables)?;
    let names = LazyNames::new(alloc, cache)?;
    Ok((sessions, names))
}

impl Store {
    /// The store of a log: sixteen sessions on its newest world, and room for so many names of mirrors. While it is loaded, a crash
    /// leaves what holds that world.
    pub fn load<D: Disk>(
        alloc: Global,
        disk: &mut D,
        limits: Limits,
        cache: u32,
    ) -> Result<Store, LoadFault>
        requires limits { AreLimits limits }
        requires cache { 0 < cache }
        ensures cache { IfOk result (λ store. store.cache ≡ record { entries = []; capacity = cache }) }
        ensures limits { IfOk result (λ store. store.limits ≡ limits) }
        ensures answers { IfSome (D.bytes disk.old) (λ bytes. LoadAnswers limits bytes result) }
        ensures opens { (payloads : List Payload) (w : World NameBytes) → IfSome (D.bytes disk.old) (λ bytes. HoldAs limits.log bytes payloads w → Opens limits payloads w result) }
        ensures images { (w : World NameBytes) → Goes (KeepsHolding limits.log w) (D.told disk.old) (D.told disk.new) }
        ensures loaded { Goes LeavesOldOrFresh (D.told disk.old) (D.told disk.new) }
        ensures sure { ((fault : _) → result ≡ Err (LoadFault.Disk fault) → ⊥)
            → (payloads : List (List ℕ)) → Goes (IsSureOf limits.log payloads) (D.told disk.old) (D.told disk.new) }
        ensures behind { (payloads : List (List ℕ)) → Goes (IsSureBehind limits.log payloads) (D.told disk.old) (D.told disk.new) }
        ensures done { IfOk result (λ store. Goes (IsLoadedStore store) (D.told disk.old) (D.told disk.new)) }
        ensures calls { Goes (WithinCalls 4) (D.told disk.old) (D.told disk.new) }
        ensures within { Goes LoadCalls (D.told disk.old) (D.told disk.new) }
        ensures unwritten { IfErr result (λ fault. IsNoLogFault fault → Goes IsUntouched (D.told disk.old) (D.told disk.new)) }
        ensures lawful { IfOk result (λ store. IfSome (D.bytes disk.old) (λ bytes. IsNoLog limits.log bytes → ⊥)) }
        ensures later { D.faults disk.old ≤ D.faults disk.new }
        ensures cause { (fault : _) → result ≡ Err (LoadFault.Disk fault) → Rose (D.faults disk.old) (D.faults disk.new) }
    {
        let log = Log::load(alloc, disk, limits.log)?;
        let tables = boxed_tables(alloc, &log)?;
        let parts = new_parts(alloc, &log, &tables, cache)?;
        let (sessions, names) = parts;
        Ok(Store {
            alloc,
            log,
            tables,
            sessions,
            limits,
            cache: names,
        })
    }

    /// How many bytes the log may have.
    pub fn log_limit(&self) -> u64
        ensures limits { result ≡ self.now.limits.log }
        ensures log { result ≡ self.now.log.limit }
    {
        self.limits.log
    }

    /// The sizes of what a session works on.
    pub fn status(&self, s: u8) -> Counts
        requires { s < 16 }
        ensures { (began : ℕ) (st : State) → Stands began self.now st.store
            → CommandStep self.now.limits st s Status (Sizes result.master result.others result.pending) st }
    {
        let session = &self.sessions[usize::from(s)];
        Counts {
            master: session.below,
            others: u64::from(session.others.count()),
            pending: u64::from(session.pending.len()),
        }
    }

    /// How many segments the stored master has, level by level.
    pub fn levels(&self) -> LevelCounts
        ensures { (began s : ℕ) (st : State) → Stands began self.now st.store → CommandStep self.now.limits st s Levels (LevelSizes result) st }
    {
        self.tables.levels().counts()
    }

    /// Lets the pending rows of a session go, and answers how many they were.
    pub fn discard(&mut self, s: u8) -> u32
        requires { s < 16 }
        ensures step { (began : ℕ) (st : State) → Stands began self.old st.store
            → CommandStep self.old.limits st s Discard (Discarded result) (record st { store = with_pending_rows st.store s [] }) × Stands began self.new (with_pending_rows st.store s []) }
        ensures alone { ChangesOnly s self.old self.new }
        ensures cache { self.new.cache ≡ self.old.cache }
    {
        let alloc = self.alloc;
        let session = &mut self.sessions[usize::from(s)];
        let count = session.pending.len();
        session.pending = PendingRows::empty(alloc, session.pending.first());
        count
    }
}
