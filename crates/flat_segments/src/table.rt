//! The table of a log's master records.

ghost use Rattle.std.specs.Prelude.{◌≡◌, ◌≤◌, ◌<◌, ◌^◌, ◌+◌, ◌++◌, List, ℕ, [], true, length, take, filter, nat_lt, OnOk, OnErr, Err, IfOk};
ghost use Rattle.segment_codec.specs.Record.{Segment};
ghost use Rattle.flat_segments.specs.Maximal.{maximal, cut};
ghost use Rattle.segment_codec.specs.Turns.{StandInTurn, IsFirstBroken};
ghost use Rattle.flat_segments.specs.Placed.{PlacedSegment, placed_segments, segments_of, Stand, AreRecords, MasterMayStandAt};
ghost use Rattle.flat_segments.specs.Kept.{IsTableOf, MayExtend};
ghost use Rattle.flat_segments.specs.Runs.{do_rise};
ghost use Rattle.flat_segments.specs.Views.{view_flats, master_flats, master_count};
ghost use Rattle.flat_segments.specs.declared.fault.FlatFault.{FlatFault as Fault};

use crate::entry::{Entry, copied};
use crate::fault::FlatFault;
use crate::record::append;
use crate::run::{Run, are_countable};
use crate::view::FlatView;
use std::alloc::{AllocError, Global};
use std::marker::Model;

/// The maximal flat segments of the master group, 16 bytes for each. Contracts see what is kept; which records it is the
/// table of, `IsTableOf` says.
#[derive(Drop)]
pub struct FlatTable {
    pub(crate) entries: Vec<Entry>,
    pub(crate) count: u64,
}

impl Model for FlatTable {
    ghost use Rattle.flat_segments.specs.Kept.{KeptFlats};

    ghost Value = { KeptFlats };

    ghost view = { λ t. record { entries = t.entries.items; end = t.count } };
}

/// How many of the entries, which rise, begin below the id.
fn count_below(entries: &[Entry], below: u64) -> usize
    requires { (end : ℕ) × (do_rise end entries.now ≡ true) }
    ensures within { result ≤ length entries.now }
    ensures below { take result entries.now ≡ filter (λ e. nat_lt e.low below) entries.now }
{
    entries.partition_point(|entry| entry.low() < below)
}

impl FlatTable {
    /// The table without ids. It takes no memory yet, and keeps the allocator.
    pub fn empty(alloc: Global) -> FlatTable
        ensures { IsTableOf result [] }
    {
        FlatTable {
            entries: Vec::new(alloc),
            count: 0,
        }
    }

    /// How many master ids the table has.
    pub fn count(&self) -> u64
        ensures { result ≡ self.now.end }
    {
        self.count
    }

    /// Adds the records of one batch, which stand, or will stand, at the place `at` of the log's bytes. A record that
    /// goes on from the last segment lengthens it. `BadSegment` comes exactly where a record may not come where it
    /// stands; both faults leave the table as it was. The bytes before aren't read: what is kept of them serves.
    pub fn extend(&mut self, _bytes: &[u8], records: &[u8], at: u64) -> Result<(), FlatFault>
        requires records { MayExtend self.old records.now }
        requires place { at + length records.now < 2 ^ 63 }
        ensures table { OnOk result ((before : List PlacedSegment) (segments : List Segment) → IsTableOf self.old before → AreRecords segments records.now
            → IsTableOf self.new (before ++ placed_segments at segments)) }
        ensures lawful { OnOk result ((segments : List Segment) → AreRecords segments records.now → StandInTurn (MasterMayStandAt self.old.end) self.old.end segments) }
        ensures bad { (segments : List Segment) (k : ℕ) → AreRecords segments records.now → result ≡ Err (Fault.BadSegment k)
            → IsFirstBroken (MasterMayStandAt self.old.end) self.old.end segments k }
        ensures unchanged { OnErr result (self.new ≡ self.old) }
    {
        let len = self.entries.len();
        match append(&mut self.entries, self.count, records, at) {
            Ok(count) => {
                self.count = count;
                Ok(())
            }
            Err(fault) => {
                self.entries.truncate(len);
                Err(fault)
            }
        }
    }

    /// The same table once more.
    pub fn copy(&self, alloc: Global) -> Result<FlatTable, AllocError>
        ensures { IfOk result (λ copy. copy ≡ self.now) }
    {
        let entries = copied(alloc, &self.entries)?;
        Ok(FlatTable {
            entries,
            count: self.count,
        })
    }

    /// How many segments are kept.
    pub fn len(&self) -> usize
        ensures { result ≡ length self.now.entries }
    {
        self.entries.len()
    }

    /// Takes back what was added last: so many of the entries stay, up to this master count.
    pub fn cut_back(&mut self, len: usize, count: u64)
        ensures { self.new ≡ record { entries = take len self.old.entries; end = count } }
    {
        self.entries.truncate(len);
        self.count = count;
    }

    /// The segments below a master count, which is at most that of the table. The records that were added stand in the
    /// bytes at their places.
    pub fn view<'a>(&'a self, bytes: &'a [u8], below: u64) -> FlatView<'a>
        requires records { (records : List PlacedSegment) × IsTableOf self.now records × Stand bytes.now records }
        requires below { below ≤ self.now.end }
        ensures flats { (records : List PlacedSegment) → IsTableOf self.now records → Stand bytes.now records
            → view_flats result ≡ cut below (maximal self.now.end (segments_of records)) }
        ensures master { master_flats result ≡ view_flats result }
        ensures count { master_count result ≡ below }
    {
        are_countable(bytes);
        let count = count_below(&self.entries, below);
        FlatView {
            master: Run {
                entries: &self.entries[..count],
                bytes,
                end: below,
            },
            others: Run::none(),
            pending: Run::none(),
        }
    }
}
