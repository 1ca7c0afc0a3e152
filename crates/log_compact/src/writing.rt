//! A log written anew in another one.

ghost use Rattle.std.specs.Prelude.{◌≡◌, ◌≢◌, ◌≤◌, ◌⊎◌, ◌^◌, List, [], map, IfOk, IfErr, IfSome, Err};
ghost use Rattle.disk_trait.specs.Since.{IsUntouched};
ghost use Rattle.id_groups.specs.Name.{Name as NameBytes};
ghost use Rattle.commit_graph.specs.World.{World};
ghost use Rattle.outside.specs.Counts.{Rose};
ghost use Rattle.disk_trait.specs.Calls.{Goes};
ghost use Rattle.gated_log.specs.Held.{log_bytes};
ghost use Rattle.gated_log.specs.Holding.{HasPayloads, IsOnDisk};
ghost use Rattle.gated_log.specs.Load.{LeavesOldOrFresh};
ghost use Rattle.batch_codec.specs.Payload.{Payload};
ghost use Rattle.name_map.specs.Added.{Placed, payloads_of, AllStand};
ghost use Rattle.change_rules.specs.Change.{text_of as payload_text};
ghost use Rattle.change_rules.specs.Holding.{HoldPayloads, HoldAs, KeepsHolding};
ghost use Rattle.payload_tables.specs.Kept.{AreTablesOf};
ghost use Rattle.log_compact.specs.Compacts.{PlainWhole, whole_list, batch_of, IsMadeOf, MakesWhole, ReadsWhole, StoresWhole, AnswersWhole, WritesWhole, KeepsNoneOrNew, HasText, KeepsNoneOrWhole, HasWhole, Shrinks, IsReadAs, IsWrittenAs, IsOfFrom, IsUnstored, IsOfReading, from_answer, to_answer, written_to};

use crate::answer::{Compacted, Shrunk};
use crate::whole::whole_payload;
use disk_trait::Disk;
use gated_log::{Committed, LoadLog, Log};
use log_tables::{TablesFault, read_tables};
use payload_tables::Tables;
use std::alloc::{AllocError, Global};
use std::marker::Model;

/// What is made of a log: the payload of its whole store, empty where it has none, the sizes of its world, and how long it is.
#[derive(Drop)]
struct Whole {
    text: Vec<u8>,
    master: u64,
    others: u64,
    length: u64,
}

impl Model for Whole {
    ghost use Rattle.log_compact.specs.Compacts.{PlainWhole};

    ghost Value = { PlainWhole };

    ghost view = { λ w. record { text = w.text.items; master = w.master; others = w.others; length = w.length } };
}

/// What a fault of the log that is read answers.
fn from_fault(fault: LoadLog) -> Compacted
    ensures { result ≡ from_answer fault }
{
    match fault {
        LoadLog::Damaged(_) => Compacted::FromBad,
        LoadLog::TooLarge(_) => Compacted::FromBad,
        LoadLog::Disk(fault) => Compacted::FromDisk(fault),
        LoadLog::Memory => Compacted::Memory,
    }
}

/// What a fault of the log that is to be written answers.
fn to_fault(fault: LoadLog) -> Compacted
    ensures { result ≡ to_answer fault }
{
    match fault {
        LoadLog::Damaged(_) => Compacted::NotFresh,
        LoadLog::TooLarge(_) => Compacted::NotFresh,
        LoadLog::Disk(fault) => Compacted::ToDisk(fault),
        LoadLog::Memory => Compacted::Memory,
    }
}

/// The payload of the whole store of a log, of which these are the tables; empty where the log has none.
fn text_of(alloc: Global, log: &Log, tables: &Tables) -> Result<Vec<u8>, AllocError>
    requires { (added : List Placed) × AreTablesOf tables.now added × AllStand (log_bytes log.now) added × (log.now.payloads ≡ map payload_text (payloads_of added)) }
    ensures { (added : List Placed) (w : World NameBytes) → AreTablesOf tables.now added → AllStand (log_bytes log.now) added → log.now.payloads ≡ map payload_text (payloads_of added)
        → HoldPayloads (payloads_of added) w → IfOk result (λ text. batch_of text.items ≡ map payload_text (whole_list (payloads_of added) w)) }
{
    if log.batch_count() == 0 {
        return Ok(Vec::new(alloc));
    }
    whole_payload(alloc, tables, log.bytes())
}

/// What is made of a log, of which these are the tables.
fn made_of(alloc: Global, log: &Log, tables: &Tables) -> Result<Whole, AllocError>
    requires { (added : List Placed) × AreTablesOf tables.now added × AllStand (log_bytes log.now) added × (log.now.payloads ≡ map payload_text (payloads_of added)) }
    ensures { (added : List Placed) → AreTablesOf tables.now added → AllStand (log_bytes log.now) added → log.now.payloads ≡ map payload_text (payloads_of added)
        → IfOk result (IsMadeOf (payloads_of added)) }
{
    let text = text_of(alloc, log, tables)?;
    Ok(Whole {
        text,
        master: tables.master_count(),
        others: u64::from(tables.others().count()),
        length: log.bytes().len() as u64,
    })
}

/// What is made of a log.
fn whole_of(alloc: Global, log: &Log) -> Result<Whole, Compacted>
    requires { log.now.limit ≤ 2 ^ 32 }
    ensures made { MakesWhole log.now.payloads result }
    ensures err { IfErr result IsOfReading }
{
    let tables = match read_tables(alloc, log) {
        Ok(tables) => tables,
        Err(TablesFault::Unlawful(_)) => return Err(Compacted::FromBad),
        Err(TablesFault::Memory) => return Err(Compacted::Memory),
    };
    match made_of(alloc, log, &tables) {
        Ok(whole) => Ok(whole),
        Err(AllocError) => Err(Compacted::Memory),
    }
}

/// Reads what is to be written. The disk holds at each moment what it held.
fn read_whole<D: Disk>(alloc: Global, from: &mut D, limit: u64) -> Result<Whole, Compacted>
    requires { (1 ≤ limit) × (limit ≤ 2 ^ 32) }
    ensures answers { IfSome (D.bytes from.old) (λ bytes. ReadsWhole limit bytes result) }
    ensures err { IfErr result IsOfReading }
    ensures holds { (w : World NameBytes) → Goes (KeepsHolding limit w) (D.told from.old) (D.told from.new) }
    ensures loaded { Goes LeavesOldOrFresh (D.told from.old) (D.told from.new) }
    ensures unwritten { result ≡ Err Compacted.FromBad → Goes IsUntouched (D.told from.old) (D.told from.new) }
    ensures later { D.faults from.old ≤ D.faults from.new }
    ensures cause { (fault : _) → result ≡ Err (Compacted.FromDisk fault) → Rose (D.faults from.old) (D.faults from.new) }
{
    match Log::load(alloc, from, limit) {
        Ok(log) => whole_of(alloc, &log),
        Err(fault) => Err(from_fault(fault)),
    }
}

/// The sizes, where it is written to the log.
fn written(whole: &Whole, log: &Log) -> Shrunk
    ensures { result ≡ written_to whole.now log.now.payloads }
{
    Shrunk {
        master: whole.master,
        others: whole.others,
        length_from: whole.length,
        length_to: log.bytes().len() as u64,
    }
}

/// Stores the payload, if there is one, in a log that has none.
fn store_whole<D: Disk>(log: Log, to: &mut D, whole: &Whole) -> Compacted
    requires none { log.payloads ≡ [] }
    requires begins { IfSome (D.told to.old) (IsOnDisk log) }
    requires payloads { IfSome (D.told to.old) (λ t. HasPayloads log.limit t log.payloads) }
    ensures answers { StoresWhole log.limit whole.now result }
    ensures moments { Goes (KeepsNoneOrNew log.limit whole.now.text) (D.told to.old) (D.told to.new) }
    ensures done { (shrunk : _) → result ≡ Compacted.Done shrunk → Goes (HasText log.limit whole.now.text) (D.told to.old) (D.told to.new) }
    ensures quiet { IsUnstored result → to.new ≡ to.old }
    ensures later { D.faults to.old ≤ D.faults to.new }
    ensures cause { (fault : _) → result ≡ Compacted.ToDisk fault → Rose (D.faults to.old) (D.faults to.new) }
{
    if whole.text.is_empty() {
        return Compacted::Done(written(whole, &log));
    }
    match log.commit(to, &whole.text) {
        Committed::Done(log, _clock) => Compacted::Done(written(whole, &log)),
        Committed::Full(_log, limit) => Compacted::Full(limit),
        Committed::Memory(_log) => Compacted::Memory,
        Committed::Disk(fault) => Compacted::ToDisk(fault),
    }
}

/// Stores the payload, if there is one, in a log that was just read, unless that has a batch.
fn store_fresh<D: Disk>(log: Log, to: &mut D, whole: &Whole) -> Compacted
    requires begins { IfSome (D.told to.old) (IsOnDisk log) }
    requires payloads { IfSome (D.told to.old) (λ t. HasPayloads log.limit t log.payloads) }
    ensures answers { ((log.payloads ≢ []) × (result ≡ Compacted.NotFresh)) ⊎ ((log.payloads ≡ []) × StoresWhole log.limit whole.now result) }
    ensures moments { Goes (KeepsNoneOrNew log.limit whole.now.text) (D.told to.old) (D.told to.new) }
    ensures done { (shrunk : _) → result ≡ Compacted.Done shrunk → Goes (HasText log.limit whole.now.text) (D.told to.old) (D.told to.new) }
    ensures quiet { IsUnstored result → to.new ≡ to.old }
    ensures later { D.faults to.old ≤ D.faults to.new }
    ensures cause { (fault : _) → result ≡ Compacted.ToDisk fault → Rose (D.faults to.old) (D.faults to.new) }
{
    if log.batch_count() > 0 {
        return Compacted::NotFresh;
    }
    store_whole(log, to, whole)
}

/// Stores it on a disk that has no batch.
fn write_whole<D: Disk>(alloc: Global, to: &mut D, limit: u64, whole: &Whole) -> Compacted
    requires { (1 ≤ limit) × (limit ≤ 2 ^ 32) }
    ensures answers { AnswersWhole limit whole.now result }
    ensures writes { IfSome (D.bytes to.old) (λ bytes. WritesWhole limit bytes whole.now result) }
    ensures moments { Goes (KeepsNoneOrNew limit whole.now.text) (D.told to.old) (D.told to.new) }
    ensures done { (shrunk : _) → result ≡ Compacted.Done shrunk → Goes (HasText limit whole.now.text) (D.told to.old) (D.told to.new) }
    ensures unwritten { result ≡ Compacted.NotFresh → Goes IsUntouched (D.told to.old) (D.told to.new) }
    ensures loaded { IsUnstored result → Goes LeavesOldOrFresh (D.told to.old) (D.told to.new) }
    ensures later { D.faults to.old ≤ D.faults to.new }
    ensures cause { (fault : _) → result ≡ Compacted.ToDisk fault → Rose (D.faults to.old) (D.faults to.new) }
{
    match Log::load(alloc, to, limit) {
        Ok(log) => store_fresh(log, to, whole),
        Err(fault) => to_fault(fault),
    }
}

/// Writes what the first disk's log holds to the second disk, in one batch of a log that has none. The first is only loaded: a crash
/// leaves what it might have left before, or at most a byte where it had no more than one. Of an empty log no batch is written.
///
/// Where each list of bytes that a crash of the second disk may leave is a log without a batch, at each moment since each one has no
/// batch, or holds the world, with the same known names, cloned count and heads of the remote; and so does each one where it is done.
/// `FromBad` comes exactly where the first disk's bytes are no log, `NotFresh` exactly where the second disk's bytes are none or have a
/// batch, and `Full` exactly where the payload is too long. A disk whose bytes are refused so isn't written.
pub fn compact<D: Disk>(alloc: Global, from: &mut D, to: &mut D, limit: u64) -> Compacted
    requires { (1 ≤ limit) × (limit ≤ 2 ^ 32) }
    ensures reads { IfSome (D.bytes from.old) (λ bytes. IsReadAs limit bytes result) }
    ensures writes { IfSome (D.bytes to.old) (λ bytes. IsWrittenAs limit bytes result) }
    ensures shrinks { (payloads : List Payload) (w : World NameBytes) → IfSome (D.bytes from.old) (λ bytes. HoldAs limit bytes payloads w → Shrinks limit payloads w result) }
    ensures holds { (w : World NameBytes) → Goes (KeepsHolding limit w) (D.told from.old) (D.told from.new) }
    ensures from_loaded { Goes LeavesOldOrFresh (D.told from.old) (D.told from.new) }
    ensures moments { (payloads : List Payload) (w : World NameBytes)
        → IfSome (D.bytes from.old) (λ bytes. HoldAs limit bytes payloads w → Goes (KeepsNoneOrWhole limit payloads w) (D.told to.old) (D.told to.new)) }
    ensures done { (payloads : List Payload) (w : World NameBytes) (shrunk : _) → result ≡ Compacted.Done shrunk
        → IfSome (D.bytes from.old) (λ bytes. HoldAs limit bytes payloads w → Goes (HasWhole limit payloads w) (D.told to.old) (D.told to.new)) }
    ensures quiet { IsOfFrom result → to.new ≡ to.old }
    ensures from_unwritten { result ≡ Compacted.FromBad → Goes IsUntouched (D.told from.old) (D.told from.new) }
    ensures unwritten { result ≡ Compacted.NotFresh → Goes IsUntouched (D.told to.old) (D.told to.new) }
    ensures loaded { IsUnstored result → Goes LeavesOldOrFresh (D.told to.old) (D.told to.new) }
    ensures from_later { D.faults from.old ≤ D.faults from.new }
    ensures to_later { D.faults to.old ≤ D.faults to.new }
    ensures from_cause { (fault : _) → result ≡ Compacted.FromDisk fault → Rose (D.faults from.old) (D.faults from.new) }
    ensures to_cause { (fault : _) → result ≡ Compacted.ToDisk fault → Rose (D.faults to.old) (D.faults to.new) }
{
    match read_whole(alloc, from, limit) {
        Ok(whole) => write_whole(alloc, to, limit, &whole),
        Err(answer) => answer,
    }
}
