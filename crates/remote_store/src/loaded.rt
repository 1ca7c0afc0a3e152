//! A log that was read, and what is made of it.

ghost use Rattle.std.specs.Prelude.{◌≡◌, ◌≤◌, ◌<◌, ◌^◌, ◌↔◌, ℕ, List, length, take, IfOk, IfSome, IsTrue, Err, OnOk};
ghost use Rattle.outside.specs.Told.{WhereTold};
ghost use Rattle.disk_trait.specs.Calls.{Goes};
ghost use Rattle.disk_trait.specs.Meanwhile.{Lasts};
ghost use Rattle.gated_log.specs.Load.{OnlyReads, after_reads};
ghost use Rattle.name_map.specs.Added.{Placed};
ghost use Rattle.payload_tables.specs.Kept.{AreTablesOf};
ghost use Rattle.payload_tables.specs.Pending.{PlainPending};
ghost use Rattle.payload_tables.specs.Bases.{flat_segments_in};
ghost use Rattle.remote_trait.specs.declared.fault.RemoteFault.TheVariants.{Failed as FaultFailed};
ghost use Rattle.remote_trait.specs.Honest.{AreNamesOf, IsPathOf};
ghost use Rattle.remote_rules.specs.Clones.{IsCloneOf};
ghost use Rattle.remote_rules.specs.Known.{master_world};
ghost use Rattle.remote_rules.specs.Honest.{clone_data_of};
ghost use Rattle.high_segments.specs.Views.{flats_in};
ghost use Rattle.remote_store.specs.Told.{told_in};
ghost use Rattle.remote_store.specs.Fit.{AreNoRemote};
ghost use Rattle.remote_answers.specs.Master.{IsMasterIn};
ghost use Rattle.remote_store.specs.Names.{AreLogNames};
ghost use Rattle.remote_store.specs.Loaded.{Peeks, PeeksLog, PeeksGrown, PeeksLogGrown, MakesOf, HaveNames, IsRead};

use crate::names::LogNames;
use disk_trait::Disk;
use gated_log::{LoadLog, Log};
use high_segments::View;
use id_groups::Name;
use log_tables::{TablesFault, read_tables};
use payload_tables::{PendingRows, Tables};
use remote_answers::{Reached, clone_of, find_path, put_names};
use remote_trait::{CloneData, Path, RemoteFault};
use std::alloc::{AllocError, Global};
use std::marker::Model;

/// A log in which each commit has a known name, its tables, and what the heads reach that were asked with last. Contracts see the log's
/// texts.
#[derive(Drop)]
pub(crate) struct Loaded {
    log: Log,
    tables: Tables,
    none: PendingRows,
    reached: Reached,
}

impl Model for Loaded {
    ghost use Rattle.std.specs.Prelude.{List, ℕ};
    ghost use Rattle.remote_store.specs.Loaded.{IsLoaded};

    ghost Value = { List (List ℕ) };

    ghost view = { λ l. l.log.payloads };

    ghost invariant = { λ l. IsLoaded l.log l.tables l.none l.reached };
}

/// What the fault of a log is to who asks a remote.
fn log_fault(fault: LoadLog) -> RemoteFault
    ensures { (result ≡ RemoteFault.Memory) ↔ (fault ≡ LoadLog.Memory) }
{
    match fault {
        LoadLog::Memory => RemoteFault::Memory,
        _ => RemoteFault::Failed,
    }
}

/// What the fault of tables is to who asks a remote.
fn table_fault(fault: TablesFault) -> RemoteFault
    ensures { result ≡ RemoteFault.Failed → (k : ℕ) × (fault ≡ TablesFault.Unlawful k) }
{
    match fault {
        TablesFault::Memory => RemoteFault::Memory,
        TablesFault::Unlawful(_) => RemoteFault::Failed,
    }
}

/// Reads what is on the disk.
fn peek_log<D: Disk>(alloc: Global, disk: &mut D, limit: u64) -> Result<Log, RemoteFault>
    requires { (1 ≤ limit) × (limit ≤ 2 ^ 32) }
    ensures answers { IfSome (D.bytes disk.old) (λ bytes. PeeksLog limit bytes (D.faults disk.old) (D.faults disk.new) result) }
    ensures limit { IfOk result (λ log. log.limit ≡ limit) }
    ensures grown { (payloads : ℕ → List (List ℕ)) → WhereTold (D.meanwhile disk.old) (D.meanwhile disk.new) (PeeksLogGrown limit payloads (D.faults disk.old) (D.faults disk.new) result) }
    ensures lasts { WhereTold (D.meanwhile disk.old) (D.meanwhile disk.new) Lasts }
    ensures reads { Goes (OnlyReads 3) (D.told disk.old) (D.told disk.new) }
    ensures done { OnOk result (Goes (λ old new. new ≡ after_reads 2 old) (D.told disk.old) (D.told disk.new)) }
    ensures later { D.faults disk.old ≤ D.faults disk.new }
{
    match Log::peek(alloc, disk, limit) {
        Ok(log) => Ok(log),
        Err(fault) => Err(log_fault(fault)),
    }
}

/// The tables of a log.
fn tables_of(alloc: Global, log: &Log) -> Result<Tables, RemoteFault>
    requires { log.now.limit ≤ 2 ^ 32 }
    ensures { MakesOf log.now result }
{
    match read_tables(alloc, log) {
        Ok(tables) => Ok(tables),
        Err(fault) => Err(table_fault(fault)),
    }
}

/// Whether each commit has a known name.
fn is_named(tables: &Tables) -> bool
    ensures { (added : List Placed) → AreTablesOf tables.now added → IsTrue result ↔ HaveNames added }
{
    let count = tables.master_count();
    tables.names().known_below(count) >= count
}

/// The segments of a log that was read.
fn table_of<'a>(log: &'a Log, tables: &'a Tables, none: &'a PendingRows) -> View<'a>
    requires { IsRead log.now tables.now none.now }
    ensures { (read : IsRead log.now tables.now none.now) → (flats_in result ≡ flat_segments_in read.of_world) × IsMasterIn (flats_in result) read.of_world.master }
{
    tables.newest(log.bytes()).view(none)
}

/// The names of a log that was read.
fn names_of<'a>(log: &'a Log, tables: &'a Tables) -> LogNames<'a>
    ensures { (none : PlainPending) (read : IsRead log.now tables.now none) → AreLogNames result.names.now result.bytes.now result.count read.of_world.master }
{
    LogNames {
        names: tables.names(),
        bytes: log.bytes(),
        count: tables.master_count(),
    }
}

/// Takes the segments of a log that was read into the index of edges of its tables, where they are many, so that paths go by it.
fn index_edges(log: &Log, tables: &mut Tables)
    requires { (none : PlainPending) × IsRead log.now tables.old none }
    ensures { (none : PlainPending) (read : IsRead log.now tables.old none) → (later : IsRead log.now tables.new none) × (later.of_world ≡ read.of_world) }
{
    tables.index(log.bytes());
}

impl Loaded {
    /// Reads what is on the disk. `Failed` where a call of the disk fails, or its bytes are no log, or one of a world with commits
    /// that have no known name.
    pub(crate) fn peek<D: Disk>(
        alloc: Global,
        disk: &mut D,
        limit: u64,
    ) -> Result<Loaded, RemoteFault>
        requires { (1 ≤ limit) × (limit ≤ 2 ^ 32) }
        ensures answers { IfSome (D.bytes disk.old) (λ bytes. Peeks limit bytes (D.faults disk.old) (D.faults disk.new) result) }
        ensures grown { (payloads : ℕ → List (List ℕ)) → WhereTold (D.meanwhile disk.old) (D.meanwhile disk.new) (PeeksGrown limit payloads (D.faults disk.old) (D.faults disk.new) result) }
        ensures lasts { WhereTold (D.meanwhile disk.old) (D.meanwhile disk.new) Lasts }
        ensures reads { Goes (OnlyReads 3) (D.told disk.old) (D.told disk.new) }
        ensures done { OnOk result (Goes (λ old new. new ≡ after_reads 2 old) (D.told disk.old) (D.told disk.new)) }
        ensures later { D.faults disk.old ≤ D.faults disk.new }
    {
        let log = peek_log(alloc, disk, limit)?;
        let loaded = Loaded::of_log(alloc, log)?;
        Ok(loaded)
    }

    /// What is made of a log.
    fn of_log(alloc: Global, log: Log) -> Result<Loaded, RemoteFault>
        requires { log.limit ≤ 2 ^ 32 }
        ensures texts { IfOk result (λ loaded. loaded ≡ log.payloads) }
        ensures failed { result ≡ Err FaultFailed → AreNoRemote log.payloads }
        ensures fit { OnOk result (AreNoRemote log.payloads → ⊥) }
    {
        let tables = tables_of(alloc, &log)?;
        if !is_named(&tables) {
            return Err(RemoteFault::Failed);
        }
        let none = PendingRows::empty(alloc, u64::from(tables.others().count()));
        Ok(Loaded {
            log,
            tables,
            none,
            reached: Reached::nothing(alloc),
        })
    }

    /// The clone data of the master.
    pub(crate) fn clone_data(&self, alloc: Global) -> Result<CloneData, AllocError>
        ensures { IfOk result (λ given. IfSome (told_in self.now) (λ rows. IsCloneOf rows given × (given ≡ clone_data_of (master_world rows)))) }
    {
        let table = table_of(&self.log, &self.tables, &self.none);
        let names = names_of(&self.log, &self.tables);
        clone_of(alloc, &table, &names)
    }

    /// Puts the names that `back` first parents lead to from `x`, one more, and so on, at the front of `out`, and answers how many
    /// there are.
    pub(crate) fn put_names(&self, x: &Name, back: u64, out: &mut [Name]) -> u32
        requires { length out.old < 2 ^ 32 }
        ensures count { result ≤ length out.old }
        ensures names { IfSome (told_in self.now) (λ rows. AreNamesOf rows x.now back (length out.old) (take result out.new)) }
    {
        let table = table_of(&self.log, &self.tables, &self.none);
        let names = names_of(&self.log, &self.tables);
        put_names(&table, &names, x, back, out)
    }

    /// A path to the name from what heads reach.
    pub(crate) fn find_path(
        &mut self,
        alloc: Global,
        heads: &[Name],
        name: &Name,
    ) -> Result<Option<Path>, AllocError>
        ensures same { self.new ≡ self.old }
        ensures path { IfOk result (λ found. IfSome (told_in self.old) (λ rows. IsPathOf rows heads.now name.now found)) }
    {
        index_edges(&self.log, &mut self.tables);
        let table = table_of(&self.log, &self.tables, &self.none);
        let names = names_of(&self.log, &self.tables);
        self.reached.go_to(alloc, &table, &names, heads)?;
        Ok(find_path(&table, &names, &self.reached, name))
    }
}
