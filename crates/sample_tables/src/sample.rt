//! A table of the master group with the bytes of its records.

ghost use Rattle.std.specs.Prelude.{◌≡◌, ◌+◌, ◌≤◌, ◌↔◌, ◌++◌, [], ◌∷◌, List, IsTrue, OnOk, OnErr};
ghost use Rattle.segment_codec.specs.Record.{Segment};
ghost use Rattle.flat_segments.specs.Maximal.{maximal, cut};
ghost use Rattle.flat_segments.specs.Views.{view_flats, master_flats, master_count};
ghost use Rattle.sample_tables.specs.Samples.{IsSampleOf, next_segment, MayPush};

use crate::parents::{are_below, are_distinct};
use flat_segments::{FlatFault, FlatTable, FlatView};
use id_groups::Id;
use segment_codec::write_segment;
use std::alloc::{AllocError, Global};
use std::marker::Model;

/// A sample has fewer ids.
const ID_LIMIT: u64 = 1 << 32;

/// As many parents as a commit may have.
const MOST_PARENTS: usize = 8;

/// Commits of the master group as a flat table, with the bytes of the records. Contracts see both; which segments they
/// are of, `IsSampleOf` says.
#[derive(Drop)]
pub struct Sample {
    bytes: Vec<u8>,
    table: FlatTable,
}

impl Model for Sample {
    ghost use Rattle.std.specs.Prelude.{List};
    ghost use Rattle.segment_codec.specs.Record.{Segment};
    ghost use Rattle.sample_tables.specs.Samples.{Written, IsSampleOf};

    ghost Value = { Written };

    ghost view = { λ s. record { bytes = s.bytes.items; table = s.table } };

    ghost invariant = { λ s. (segments : List Segment) × IsSampleOf (record { bytes = s.bytes.items; table = s.table }) segments };
}

impl Sample {
    /// No commits yet. It takes no memory yet, and keeps the allocator.
    pub fn empty(alloc: Global) -> Sample
        ensures { IsSampleOf result [] }
    {
        Sample {
            bytes: Vec::new(alloc),
            table: FlatTable::empty(alloc),
        }
    }

    /// How many commits there are: their ids are those below.
    pub fn count(&self) -> u64
        ensures { result ≡ self.now.table.end }
    {
        self.table.count()
    }

    /// The bytes of the records.
    pub fn bytes(&self) -> &[u8]
        ensures { result.now ≡ self.now.bytes }
    {
        &self.bytes
    }

    /// Whether so many commits more may come, of which the first has these parents and each other the one before it.
    pub fn may_push(&self, parents: &[Id], count: u64) -> bool
        ensures { IsTrue result ↔ MayPush self.now.table.end parents.now count }
    {
        let end = self.count();
        count > 0
            && end < ID_LIMIT
            && count < ID_LIMIT - end
            && parents.len() <= MOST_PARENTS
            && are_below(parents, end)
            && are_distinct(parents)
    }

    /// Adds so many commits, of which the first has these parents and each other the one before it. Want of memory
    /// leaves the sample as it was.
    pub fn push(&mut self, parents: &[Id], count: u64) -> Result<(), AllocError>
        requires { MayPush self.old.table.end parents.now count }
        ensures added { OnOk result ((segments : List Segment) → IsSampleOf self.old segments
            → IsSampleOf self.new (segments ++ next_segment self.old.table.end parents.now count ∷ [])) }
        ensures count { OnOk result (self.new.table.end ≡ self.old.table.end + count) }
        ensures unchanged { OnErr result (self.new ≡ self.old) }
    {
        let low = self.table.count();
        let at = self.bytes.len();
        let high = Id::master(low + (count - 1));
        write_segment(&mut self.bytes, Id::master(low), high, 0, parents)?;
        let (_, record) = self.bytes.split_at(at);
        match self.table.extend(&[], record, at as u64) {
            Ok(()) => Ok(()),
            Err(FlatFault::Memory) => {
                self.bytes.truncate(at);
                Err(AllocError)
            }
            Err(FlatFault::BadSegment(_)) => unreachable!(),
        }
    }

    /// The commits below a count, which is at most that of the sample.
    pub fn view<'a>(&'a self, below: u64) -> FlatView<'a>
        requires { below ≤ self.now.table.end }
        ensures flats { (segments : List Segment) → IsSampleOf self.now segments → view_flats result ≡ cut below (maximal self.now.table.end segments) }
        ensures master { master_flats result ≡ view_flats result }
        ensures count { master_count result ≡ below }
    {
        self.table.view(&self.bytes, below)
    }
}
