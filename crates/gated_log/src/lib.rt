#![tactic(auto)]

//! A log of payloads behind gates, which a crash leaves with the payloads from before or with one more.
//!
//! Place 0 is a gate. A gate of value 1 is open, and every other one is closed. Behind an open gate stand the length
//! of a payload in eight bytes, the greatest first, the payload, and the next gate. The log ends at its first closed
//! gate, and bytes behind it mean nothing. A file of 0 or 1 bytes is a fresh log, whatever the byte is.

ghost use Rattle.std.specs.Prelude.{◌≡◌, ◌⊎◌, ◌++◌, ◌^◌, ◌<◌, ◌≤◌, ◌↔◌, ◌+◌, ◌-◌, ℕ, List, [], ◌∷◌, length, take, drop, slice_index, slice_index_or, IfSome, IfOk, IfErr, OnOk, OnErr, IsTrue, vec_capacity};
ghost use Rattle.std.specs.List.{AllByRecursion};
ghost use Rattle.disk_trait.specs.Calls.{Goes, Passes};
ghost use Rattle.disk_trait.specs.Meanwhile.{Lasts, IsBetween};
ghost use Rattle.outside.specs.Counts.{HasCause, Rose};
ghost use Rattle.outside.specs.Told.{WhereTold};
ghost use Rattle.gated_log.specs.Log.{IsLog, IsDamaged, batches, gates_of, log_length, StandsFrom, StandBehind};
ghost use Rattle.gated_log.specs.Held.{Held, log_bytes, staged, room_of};
ghost use Rattle.gated_log.specs.Holding.{IsOnDisk, IsLogWithin, KeepsOldOrNew, HasNew};
ghost use Rattle.gated_log.specs.Commit.{Answers, Reserves, WritesSurely, WritesInPart, CommitsInPart};
ghost use Rattle.gated_log.specs.Growing.{IsGrowing, AnswersGrown, ReadsGrown, LoadsGrown};
ghost use Rattle.gated_log.specs.Load.{LoadCalls, KeepsBytes, Loads, LeavesOldOrFresh, LeavesFresh, KeepsImages, KeepsPayloads, IsSureOf, IsSureBehind, IsLoaded, IsLogOf, OnlyReads, after_reads, IsFresh, IsStarted, WithinCalls, IsUnwritten};

mod errors;
mod scan;
mod turn;

use crate::scan::{find_gates, payload_at};
use crate::turn::{MOST_READS, Turn, read_once};
use disk_trait::{Disk, DiskFault};
use std::alloc::{AllocError, Global};
use std::marker::Model;
use std::mem::replace;

/// A log, whole in memory. Contracts see its payloads, the value of its closed gate, its limit, and how long it may
/// become by one payload without more memory.
#[derive(Drop)]
pub struct Log {
    bytes: Vec<u8>,
    gates: Vec<usize>,
    limit: u64,
}

impl Model for Log {
    ghost use Rattle.std.specs.Prelude.{vec_capacity, length};
    ghost use Rattle.gated_log.specs.Held.{Held, held, room_of, IsWhole};

    ghost Value = { Held };

    ghost view = { λ a. held a.gates.items a.bytes.items a.limit (room_of (vec_capacity a.bytes) (vec_capacity a.gates) (length a.gates.items)) };

    ghost invariant = { λ a. IsWhole a.gates.items a.bytes.items a.limit };
}

/// Why a log isn't loaded.
#[derive(Clone, Copy, Debug, PartialEq, Eq)]
pub enum LoadLog {
    /// The gate at this place is open, and its batch with the next gate runs past the end.
    Damaged(u64),
    /// The file has so many bytes, more than the limit.
    TooLarge(u64),
    /// A call of the disk failed.
    Disk(DiskFault),
    /// Memory was wanted.
    Memory,
}

/// Why no room is made. Both leave the log as it was.
#[derive(Clone, Copy, Debug, PartialEq, Eq)]
pub enum ReserveFault {
    /// The log would become longer than its limit.
    Full,
    /// Memory was wanted.
    Memory,
}

/// How a commit ended.
#[derive(Drop)]
pub enum Committed {
    /// The log with the payload, and the clock after the last sync.
    Done(Log, u64),
    /// The log would become longer than its limit, which stands beside it. No call was made.
    Full(Log, u64),
    /// Memory was wanted. No call was made.
    Memory(Log),
    /// A call of the disk failed, and the log is gone.
    Disk(DiskFault),
}

// Makes room for the batch of a payload of so many bytes, and for the place of its gate.
fn make_room(bytes: &mut Vec<u8>, gates: &mut Vec<usize>, size: usize) -> Result<(), AllocError>
    requires { size + 9 < 2 ^ 64 }
    ensures bytes { bytes.new.items ≡ bytes.old.items }
    ensures gates { gates.new.items ≡ gates.old.items }
    ensures ok { OnOk result ((length bytes.old.items + size + 9 ≤ vec_capacity bytes.new) × (length gates.old.items < vec_capacity gates.new)) }
    ensures room { OnOk result (length bytes.old.items + size + 9 ≤ room_of (vec_capacity bytes.new) (vec_capacity gates.new) (length gates.old.items)) }
    ensures same { OnErr result (room_of (vec_capacity bytes.new) (vec_capacity gates.new) (length gates.old.items) ≡ room_of (vec_capacity bytes.old) (vec_capacity gates.old) (length gates.old.items)) }
    ensures full { OnErr result (room_of (vec_capacity bytes.old) (vec_capacity gates.old) (length gates.old.items) < length bytes.old.items + size + 9) }
{
    bytes.try_reserve(size + 9)?;
    gates.try_reserve(1)
}

// Puts the length, the payload and a closed gate behind the bytes, and the place of the gate before them to the gates.
fn stage(bytes: &mut Vec<u8>, gates: &mut Vec<usize>, payload: &[u8]) -> Result<(), AllocError>
    requires { 0 < length bytes.old.items }
    ensures ok { OnOk result ((bytes.new.items ≡ bytes.old.items ++ staged payload.now) × (gates.new.items ≡ gates.old.items ++ (length bytes.old.items - 1) ∷ [])) }
    ensures err { OnErr result ((bytes.new.items ≡ bytes.old.items) × (gates.new.items ≡ gates.old.items)) }
    ensures same { OnErr result (room_of (vec_capacity bytes.new) (vec_capacity gates.new) (length gates.old.items) ≡ room_of (vec_capacity bytes.old) (vec_capacity gates.old) (length gates.old.items)) }
    ensures full { OnErr result (room_of (vec_capacity bytes.old) (vec_capacity gates.old) (length gates.old.items) < length bytes.old.items + length payload.now + 9) }
{
    let gate = bytes.len() - 1;
    let size = payload.len();
    make_room(bytes, gates, size)?;
    bytes.extend_from_slice(&(size as u64).to_be_bytes())?;
    bytes.extend_from_slice(payload)?;
    bytes.push(0)?;
    gates.push(gate)?;
    Ok(())
}

// Whether a log of so many bytes has no place for a payload of that size.
fn is_full(used: usize, limit: u64, payload: u64) -> bool
    requires { used ≤ limit }
    ensures { IsTrue result ↔ (limit < used + payload + 9) }
{
    let left = limit - used as u64;
    left < 9 || left - 9 < payload
}

// Writes the piece from a place on, which is at most the number of bytes, and makes sure of it.
fn write_surely<D: Disk>(disk: &mut D, at: u64, piece: &[u8]) -> Result<(), DiskFault>
    requires { IfSome (D.told disk.old) (λ t. at ≤ length t.bytes) }
    ensures ok { OnOk result (Goes (WritesSurely at piece.now) (D.told disk.old) (D.told disk.new)) }
    ensures err { OnErr result (Goes (WritesInPart at piece.now) (D.told disk.old) (D.told disk.new)) }
    ensures calls { Goes (WithinCalls 2) (D.told disk.old) (D.told disk.new) }
    ensures cause { HasCause (D.faults disk.old) (D.faults disk.new) result }
{
    disk.write(at, piece)?;
    disk.sync()?;
    Ok(())
}

impl Log {
    /// Makes sure of what is on the disk, and reads it. A fresh file gets a closed gate, which is synced. The calls are
    /// sync, size, and then one read, or for a fresh file one write and one sync. Where the last gate that was read is
    /// open and its payload isn't whole, the size is asked again, and what another process put there meanwhile is read.
    pub fn load<D: Disk>(alloc: Global, disk: &mut D, limit: u64) -> Result<Log, LoadLog>
        requires { (1 ≤ limit) × (limit ≤ 2 ^ 32) }
        ensures answers { IfSome (D.bytes disk.old) (λ bytes. Loads limit bytes result) }
        ensures limit { IfOk result (λ log. log.limit ≡ limit) }
        ensures images { Goes KeepsImages (D.told disk.old) (D.told disk.new) }
        ensures fresh { Goes LeavesOldOrFresh (D.told disk.old) (D.told disk.new) }
        ensures moments { (payloads : List (List ℕ)) → Goes (KeepsPayloads limit payloads) (D.told disk.old) (D.told disk.new) }
        ensures sure { ((fault : _) → result ≡ Err (LoadLog.Disk fault) → ⊥) → (payloads : List (List ℕ)) → Goes (IsSureOf limit payloads) (D.told disk.old) (D.told disk.new) }
        ensures behind { (payloads : List (List ℕ)) → Goes (IsSureBehind limit payloads) (D.told disk.old) (D.told disk.new) }
        ensures done { IfOk result (λ log. Goes (IsLoaded log) (D.told disk.old) (D.told disk.new)) }
        ensures calls { Goes (WithinCalls 4) (D.told disk.old) (D.told disk.new) }
        ensures within { Goes LoadCalls (D.told disk.old) (D.told disk.new) }
        ensures unwritten { OnOk result (Goes KeepsBytes (D.told disk.old) (D.told disk.new)) }
        ensures too_large { (size : _) → result ≡ Err (LoadLog.TooLarge size) → Goes (IsUnwritten 2) (D.told disk.old) (D.told disk.new) }
        ensures damaged { (at : _) → result ≡ Err (LoadLog.Damaged at) → Goes (IsUnwritten 4) (D.told disk.old) (D.told disk.new) }
        ensures meanwhile { (payloads : ℕ → List (List ℕ)) → LoadsGrown limit payloads result (D.meanwhile disk.old) (D.meanwhile disk.new) }
        ensures later { D.faults disk.old ≤ D.faults disk.new }
        ensures cause { (fault : _) → result ≡ Err (LoadLog.Disk fault) → Rose (D.faults disk.old) (D.faults disk.new) }
    {
        disk.sync()?;
        let size = disk.size()?;
        if size > limit {
            return Err(LoadLog::TooLarge(size));
        }
        if size <= 1 {
            return Log::start(alloc, disk, limit);
        }
        Log::read_all(alloc, disk, size, limit)
    }

    /// Reads what is on the disk, and writes nothing. The calls are size and then one read. It goes on as a load does
    /// where another process extends the log meanwhile.
    pub fn peek<D: Disk>(alloc: Global, disk: &mut D, limit: u64) -> Result<Log, LoadLog>
        requires { (1 ≤ limit) × (limit ≤ 2 ^ 32) }
        ensures answers { IfSome (D.bytes disk.old) (λ bytes. Loads limit bytes result) }
        ensures limit { IfOk result (λ log. log.limit ≡ limit) }
        ensures meanwhile { (payloads : ℕ → List (List ℕ)) → WhereTold (D.meanwhile disk.old) (D.meanwhile disk.new) (ReadsGrown limit payloads result) }
        ensures reads { Goes (OnlyReads 3) (D.told disk.old) (D.told disk.new) }
        ensures done { OnOk result (Goes (λ old new. new ≡ after_reads 2 old) (D.told disk.old) (D.told disk.new)) }
        ensures later { D.faults disk.old ≤ D.faults disk.new }
        ensures cause { (fault : _) → result ≡ Err (LoadLog.Disk fault) → Rose (D.faults disk.old) (D.faults disk.new) }
    {
        let length = disk.size()?;
        if length > limit {
            return Err(LoadLog::TooLarge(length));
        }
        Log::read_all(alloc, disk, length, limit)
    }

    // Reads all of the disk's bytes, of which there are so many, and those that another process puts behind them meanwhile.
    fn read_all<D: Disk>(alloc: Global, disk: &mut D, size: u64, limit: u64) -> Result<Log, LoadLog>
        requires limits { (1 ≤ limit) × (limit ≤ 2 ^ 32) × (size ≤ limit) }
        requires size { IfSome (D.bytes disk.old) (λ bytes. size ≡ length bytes) }
        ensures answers { IfSome (D.bytes disk.old) (λ bytes. Loads limit bytes result) }
        ensures meanwhile { (payloads : ℕ → List (List ℕ)) (from start : ℕ) → WhereTold (D.meanwhile disk.old) (D.meanwhile disk.new) (λ old new.
            Lasts old new × (IsGrowing old.film payloads from → IsBetween from old.now start → size ≡ length (old.film start)
            → AnswersGrown limit old.film payloads from new.now result)) }
        ensures limit { IfOk result (λ log. log.limit ≡ limit) }
        ensures ok { OnOk result (Goes Passes (D.told disk.old) (D.told disk.new)) }
        ensures reads { Goes (OnlyReads 2) (D.told disk.old) (D.told disk.new) }
        ensures once { IfSome (D.bytes disk.old) (λ bytes. ((at : ℕ) → IsDamaged bytes at → ⊥) → Goes (OnlyReads 1) (D.told disk.old) (D.told disk.new)) }
        ensures damaged { (at : _) → result ≡ Err (LoadLog.Damaged at) → Goes (λ old new. new ≡ after_reads 2 old) (D.told disk.old) (D.told disk.new) }
        ensures fits { (size : _) → result ≡ Err (LoadLog.TooLarge size) → IfSome (D.bytes disk.old) (λ bytes. ⊥) }
        ensures later { D.faults disk.old ≤ D.faults disk.new }
        ensures cause { (fault : _) → result ≡ Err (LoadLog.Disk fault) → Rose (D.faults disk.old) (D.faults disk.new) }
    {
        let mut bytes = Vec::new(alloc);
        let mut size = size;
        let mut open = 0;
        let mut turns = 0;
        'reads: while turns < MOST_READS {
            match read_once(alloc, disk, &mut bytes, size, limit) {
                Ok(Turn::Whole(log)) => return Ok(log),
                Ok(Turn::Open(at, longer)) => {
                    open = at;
                    size = longer;
                }
                Err(fault) => return Err(fault),
            }
            turns += 1;
        }
        Err(LoadLog::Damaged(open))
    }

    // Gives a fresh file a closed gate.
    fn start<D: Disk>(alloc: Global, disk: &mut D, limit: u64) -> Result<Log, LoadLog>
        requires limits { (1 ≤ limit) × (limit ≤ 2 ^ 32) }
        requires fresh { IfSome (D.told disk.old) IsFresh }
        ensures log { IfOk result (λ log. (log.payloads ≡ []) × (log.gate ≡ 0) × (log.limit ≡ limit)) }
        ensures err { IfErr result (λ e. (e ≡ LoadLog.Memory) ⊎ ((fault : _) × (e ≡ LoadLog.Disk fault))) }
        ensures ok { IfOk result (λ log. Goes (IsStarted log) (D.told disk.old) (D.told disk.new)) }
        ensures fresh { Goes LeavesFresh (D.told disk.old) (D.told disk.new) }
        ensures moments { (payloads : List (List ℕ)) → Goes (KeepsPayloads limit payloads) (D.told disk.old) (D.told disk.new) }
        ensures calls { Goes (WithinCalls 2) (D.told disk.old) (D.told disk.new) }
        ensures later { D.faults disk.old ≤ D.faults disk.new }
        ensures cause { (fault : _) → result ≡ Err (LoadLog.Disk fault) → Rose (D.faults disk.old) (D.faults disk.new) }
    {
        let log = Log::fresh(alloc, limit)?;
        disk.write(0, &[0])?;
        disk.sync()?;
        Ok(log)
    }

    // The log of these bytes, which it takes; where they are none they stay.
    fn of_bytes(alloc: Global, bytes: &mut Vec<u8>, limit: u64) -> Result<Log, LoadLog>
        requires fits { length bytes.old.items ≤ limit }
        requires limit { (1 ≤ limit) × (limit ≤ 2 ^ 32) }
        ensures loads { Loads limit bytes.old.items result }
        ensures kept { OnErr result (bytes.new.items ≡ bytes.old.items) }
        ensures limit { IfOk result (λ log. log.limit ≡ limit) }
        ensures fits { (size : _) → result ≡ Err (LoadLog.TooLarge size) → ⊥ }
        ensures no_call { (fault : _) → result ≡ Err (LoadLog.Disk fault) → ⊥ }
    {
        if bytes.len() <= 1 {
            return Log::fresh(alloc, limit);
        }
        let found = find_gates(alloc, bytes)?;
        let mut bytes = replace(bytes, Vec::new(alloc));
        bytes.truncate(found.closed + 1);
        Ok(Log {
            bytes,
            gates: found.open_gates,
            limit,
        })
    }

    // The empty log.
    fn fresh(alloc: Global, limit: u64) -> Result<Log, LoadLog>
        requires { (1 ≤ limit) × (limit ≤ 2 ^ 32) }
        ensures log { IfOk result (λ log. (log.payloads ≡ []) × (log.gate ≡ 0) × (log.limit ≡ limit)) }
        ensures err { IfErr result (λ e. e ≡ LoadLog.Memory) }
    {
        let mut bytes = Vec::new(alloc);
        bytes.push(0)?;
        Ok(Log {
            bytes,
            gates: Vec::new(alloc),
            limit,
        })
    }

    /// The bytes up to and including the first closed gate.
    pub fn bytes<'a>(&'a self) -> &'a [u8]
        ensures bytes { result.now ≡ log_bytes self.now }
        ensures log { IsLogWithin self.now.limit self.now.payloads result.now }
        ensures size { length result.now ≡ log_length self.now.payloads }
        ensures places { StandBehind 0 self.now.payloads result.now }
    {
        &self.bytes
    }

    /// How many payloads there are.
    pub fn batch_count(&self) -> u32
        ensures { result ≡ length self.now.payloads }
    {
        self.gates.len() as u32
    }

    /// The payload at this place among the payloads.
    pub fn batch<'a>(&'a self, k: u32) -> &'a [u8]
        requires { k < length self.now.payloads }
        ensures { result.now ≡ slice_index_or self.now.payloads k [] }
    {
        payload_at(&self.bytes, self.gates[k as usize])
    }

    /// Takes the memory for a payload of so many bytes, so that a commit of at most so many wants none.
    pub fn reserve(&mut self, payload: u64) -> Result<(), ReserveFault>
        ensures { Reserves self.old payload self.new result }
    {
        if is_full(self.bytes.len(), self.limit, payload) {
            return Err(ReserveFault::Full);
        }
        make_room(&mut self.bytes, &mut self.gates, payload as usize)?;
        Ok(())
    }

    /// Puts a payload behind the others, and opens its gate once it is sure on the disk.
    ///
    /// The calls are a write behind the closed gate, a sync, a write of the gate, and a sync. At each moment a crash
    /// leaves the payloads from before or, from the gate's write on, those with the new one.
    pub fn commit<D: Disk>(self, disk: &mut D, payload: &[u8]) -> Committed
        requires { IfSome (D.told disk.old) (IsOnDisk self) }
        ensures answers { Answers self payload.now result }
        ensures moments { Goes (KeepsOldOrNew self payload.now) (D.told disk.old) (D.told disk.new) }
        ensures calls { Goes (WithinCalls 4) (D.told disk.old) (D.told disk.new) }
        ensures done { (log : _) (clock : _) → result ≡ Committed.Done log clock → Goes (HasNew log clock) (D.told disk.old) (D.told disk.new) }
        ensures place { (log : _) (clock : _) → result ≡ Committed.Done log clock → StandsFrom (length (log_bytes self) + 8) payload.now (log_bytes log) }
        ensures stopped { (fault : _) → result ≡ Committed.Disk fault → Goes (CommitsInPart self payload.now) (D.told disk.old) (D.told disk.new) }
        ensures full { (log : _) (limit : _) → result ≡ Committed.Full log limit → disk.new ≡ disk.old }
        ensures memory { (log : _) → result ≡ Committed.Memory log → disk.new ≡ disk.old }
        ensures later { D.faults disk.old ≤ D.faults disk.new }
        ensures cause { (fault : _) → result ≡ Committed.Disk fault → Rose (D.faults disk.old) (D.faults disk.new) }
    {
        let Log {
            mut bytes,
            mut gates,
            limit,
        } = self;
        let end = bytes.len();
        if is_full(end, limit, payload.len() as u64) {
            return Committed::Full(
                Log {
                    bytes,
                    gates,
                    limit,
                },
                limit,
            );
        }
        if let Err(AllocError) = stage(&mut bytes, &mut gates, payload) {
            return Committed::Memory(Log {
                bytes,
                gates,
                limit,
            });
        }
        if let Err(fault) = write_surely(disk, end as u64, &bytes[end..]) {
            return Committed::Disk(fault);
        }
        if let Err(last) = write_surely(disk, (end - 1) as u64, &[1]) {
            return Committed::Disk(last);
        }
        bytes[end - 1] = 1;
        Committed::Done(
            Log {
                bytes,
                gates,
                limit,
            },
            disk.clock(),
        )
    }
}

/// Bytes that are a log, and ten that never are. The gate of a file of one byte is closed anew, whatever the byte.
pub fn examples()
    ensures fresh { IsLog (127 ∷ []) [] }
    ensures closed { IsLog (127 ∷ 1 ∷ []) [] }
    ensures closed_anew { (limit : ℕ) (log : Held) → IsLogOf limit (127 ∷ []) log → log.gate ≡ 0 }
    ensures damaged { IsDamaged (1 ∷ 0 ∷ 0 ∷ 0 ∷ 0 ∷ 0 ∷ 0 ∷ 0 ∷ 5 ∷ 170 ∷ []) 0 }
{}

/// Bytes are the log of one list of payloads or are damaged at one place, and never both.
pub fn logs_are_exact()
    ensures decided { (bytes : List ℕ) → length bytes < 2 ^ 64 → AllByRecursion (λ b. b < 256) bytes
        → ((payloads : List (List ℕ)) × IsLog bytes payloads) ⊎ ((at : ℕ) × IsDamaged bytes at) }
    ensures one_list { (bytes : List ℕ) (ps qs : List (List ℕ)) → IsLog bytes ps → IsLog bytes qs → ps ≡ qs }
    ensures one_place { (bytes : List ℕ) (a b : ℕ) → IsDamaged bytes a → IsDamaged bytes b → a ≡ b }
    ensures never_both { (bytes : List ℕ) (payloads : List (List ℕ)) (at : ℕ) → IsLog bytes payloads → IsDamaged bytes at → ⊥ }
{}

/// Each payload stands nine places behind its gate, in a log of its length.
pub fn payloads_stand()
    ensures place { (payloads : List (List ℕ)) (gate k : ℕ) → k < length payloads
        → StandsFrom (slice_index (gates_of 0 payloads) k + 9) (slice_index_or payloads k []) (batches payloads ++ gate ∷ []) }
    ensures size { (payloads : List (List ℕ)) (gate : ℕ) → length (batches payloads ++ gate ∷ []) ≡ log_length payloads }
{}
