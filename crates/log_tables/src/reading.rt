//! Reading a log's payloads into tables.

ghost use Rattle.std.specs.Prelude.{◌≡◌, ◌⊎◌, ◌<◌, ◌≤◌, ◌+◌, ◌^◌, ◌++◌, ◌∷◌, ℕ, List, [], length, map, IfOk, IfErr, OnOk};
ghost use Rattle.std.specs.List.{AllByRecursion};
ghost use Rattle.batch_codec.specs.Payload.{Payload};
ghost use Rattle.gated_log.specs.Held.{log_bytes};
ghost use Rattle.name_map.specs.Added.{Placed, payloads_of, AllStand};
ghost use Rattle.change_rules.specs.Change.{text_of};
ghost use Rattle.change_rules.specs.Holding.{IsSpelled};
ghost use Rattle.change_rules.specs.Unlawful.{IsFirstUnlawful, MayStand};
ghost use Rattle.payload_tables.specs.Build.{IsBuildOf};
ghost use Rattle.payload_tables.specs.Kept.{AreTablesOf};
ghost use Rattle.log_tables.specs.Within.{EndsWithin};

use batch_codec::BatchRef;
use gated_log::Log;
use payload_tables::{TableFault, Tables, TablesBuild};
use std::alloc::Global;

/// Why a log gives no tables.
#[derive(Clone, Copy, PartialEq, Eq, Debug)]
pub enum TablesFault {
    /// The payload of this number is outside the grammar, or may not come behind those before it.
    Unlawful(u32),
    /// Memory ran out.
    Memory,
}

/// Adds the log's payload of the number `k`, whose bytes these are, at its place `at`.
fn read_batch(
    tables: &mut Tables,
    bytes: &[u8],
    payload: &[u8],
    k: u32,
    at: u64,
) -> Result<(), TablesFault>
    requires tables { (added : List Placed) × AreTablesOf tables.old added × AllStand bytes.now added }
    requires room { at + length payload.now < 2 ^ 63 }
    ensures added { (added : List Placed) → AreTablesOf tables.old added → AllStand bytes.now added
        → OnOk result ((p : Payload) × IsSpelled payload.now p × AreTablesOf tables.new (added ++ record { at = at; payload = p } ∷ [])) }
    ensures err { (added : List Placed) → AreTablesOf tables.old added → AllStand bytes.now added
        → IfErr result (λ fault. (fault ≡ TablesFault.Memory) ⊎ ((fault ≡ TablesFault.Unlawful k) × ((p : Payload) → MayStand (payloads_of added) payload.now p → ⊥))) }
{
    let Some(batch) = BatchRef::read(payload) else {
        return Err(TablesFault::Unlawful(k));
    };
    match tables.add_batch(bytes, &batch, at) {
        Ok(()) => Ok(()),
        Err(TableFault::Unlawful) => Err(TablesFault::Unlawful(k)),
        Err(TableFault::Memory) => Err(TablesFault::Memory),
    }
}

/// Adds the log's payload whose bytes these are, at its place `at`.
fn build_batch(
    build: &mut TablesBuild,
    bytes: &[u8],
    payload: &[u8],
    at: u64,
) -> Result<(), TableFault>
    requires build { (added : List Placed) × IsBuildOf build.old added × AllStand bytes.now added }
    requires room { at + length payload.now < 2 ^ 63 }
    ensures { (added : List Placed) → IsBuildOf build.old added → AllStand bytes.now added
        → OnOk result ((p : Payload) × IsSpelled payload.now p × IsBuildOf build.new (added ++ record { at = at; payload = p } ∷ [])) }
{
    let Some(batch) = BatchRef::read(payload) else {
        return Err(TableFault::Unlawful);
    };
    build.add_batch(bytes, &batch, at)?;
    Ok(())
}

/// The tables of a log's payloads, whose names are looked at once, when all are read. It may refuse others than the first
/// that is unlawful.
fn build_tables(alloc: Global, log: &Log) -> Result<Tables, TableFault>
    requires { log.now.limit ≤ 2 ^ 32 }
    ensures { IfOk result (λ tables. (added : List Placed) × AreTablesOf tables added × AllStand (log_bytes log.now) added × (log.now.payloads ≡ map text_of (payloads_of added))
        × AllByRecursion (EndsWithin log.now) added) }
{
    let bytes = log.bytes();
    let mut build = TablesBuild::empty(alloc);
    let mut end = 0;
    'batches: for k in 0..log.batch_count() {
        let payload = log.batch(k);
        build_batch(&mut build, bytes, payload, end + 9)?;
        end += 9 + payload.len() as u64;
    }
    let tables = build.finish(bytes)?;
    Ok(tables)
}

/// The tables of a log's payloads, added one behind the other: what is told is the first that is unlawful.
fn read_in_turn(alloc: Global, log: &Log) -> Result<Tables, TablesFault>
    requires { log.now.limit ≤ 2 ^ 32 }
    ensures ok { IfOk result (λ tables. (added : List Placed) × AreTablesOf tables added × AllStand (log_bytes log.now) added × (log.now.payloads ≡ map text_of (payloads_of added))
        × AllByRecursion (EndsWithin log.now) added) }
    ensures err { IfErr result (λ fault. (fault ≡ TablesFault.Memory) ⊎ ((k : ℕ) × (fault ≡ TablesFault.Unlawful k) × IsFirstUnlawful [] log.now.payloads k)) }
{
    let bytes = log.bytes();
    let mut tables = Tables::empty(alloc);
    let mut end = 0;
    'batches: for k in 0..log.batch_count() {
        let payload = log.batch(k);
        read_batch(&mut tables, bytes, payload, k, end + 9)?;
        end += 9 + payload.len() as u64;
    }
    Ok(tables)
}

/// The tables of a log's payloads. They are made at once, and one behind the other only to tell which payload is unlawful.
///
/// `Unlawful` has the number of the first payload that is outside the grammar or may not come behind those before it.
pub fn read_tables(alloc: Global, log: &Log) -> Result<Tables, TablesFault>
    requires { log.now.limit ≤ 2 ^ 32 }
    ensures ok { IfOk result (λ tables. (added : List Placed) × AreTablesOf tables added × AllStand (log_bytes log.now) added × (log.now.payloads ≡ map text_of (payloads_of added))
        × AllByRecursion (EndsWithin log.now) added) }
    ensures err { IfErr result (λ fault. (fault ≡ TablesFault.Memory) ⊎ ((k : ℕ) × (fault ≡ TablesFault.Unlawful k) × IsFirstUnlawful [] log.now.payloads k)) }
{
    match build_tables(alloc, log) {
        Ok(tables) => Ok(tables),
        Err(TableFault::Memory) => Err(TablesFault::Memory),
        Err(TableFault::Unlawful) => read_in_turn(alloc, log),
    }
}
