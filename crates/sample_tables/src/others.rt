//! Commits of the other group with the bytes of their records, and a sample that two such parts are joined to.

ghost use Rattle.std.specs.Prelude.{◌≡◌, ◌+◌, ◌<◌, ◌^◌, ◌↔◌, ◌++◌, [], ◌∷◌, List, IsTrue, OnOk, OnErr};
ghost use Rattle.segment_codec.specs.Record.{Segment};
ghost use Rattle.flat_segments.specs.Maximal.{maximal, cut};
ghost use Rattle.flat_segments.specs.Views.{master_flats, other_flats, master_count};
ghost use Rattle.sample_tables.specs.Samples.{IsSampleOf, next_segment};
ghost use Rattle.sample_tables.specs.Others.{IsOthersOf, AreNear, MayPushOther, MayJoinSample};

use crate::parents::{are_below, are_distinct};
use crate::sample::Sample;
use flat_segments::{FlatView, Section};
use id_groups::{FIRST_OTHER, Id};
use segment_codec::{read_segment, write_segment};
use std::alloc::{AllocError, Global};
use std::marker::Model;

/// The ids of a part, and those of all parts and master ids that are joined, are fewer.
const ID_LIMIT: u64 = 1 << 32;

/// As many parents as a commit may have.
const MOST_PARENTS: usize = 8;

/// Commits of the other group as a section, with the bytes of the records. Contracts see all of it; which segments it is
/// of, `IsOthersOf` says.
#[derive(Drop)]
pub struct OtherSample {
    bytes: Vec<u8>,
    section: Section,
    masters: u64,
    start: u64,
    end: u64,
}

impl Model for OtherSample {
    ghost use Rattle.std.specs.Prelude.{List};
    ghost use Rattle.segment_codec.specs.Record.{Segment};
    ghost use Rattle.sample_tables.specs.Others.{OthersWritten, IsOthersOf};

    ghost Value = { OthersWritten };

    ghost view = { λ s. record { bytes = s.bytes.items; section = s.section; masters = s.masters; start = s.start; end = s.end } };

    ghost invariant = { λ s. (segments : List Segment)
        × IsOthersOf (record { bytes = s.bytes.items; section = s.section; masters = s.masters; start = s.start; end = s.end }) segments };
}

/// Whether each id is one of so many master ids, or one of the other group.
fn are_near(ids: &[Id], masters: u64) -> bool
    ensures { IsTrue result ↔ AreNear masters ids.now }
{
    match ids {
        [] => true,
        [first, others @ ..] => {
            (first.number() < masters || first.number() >= FIRST_OTHER) && are_near(others, masters)
        }
    }
}

impl OtherSample {
    /// No commits yet, where the first is to have the id of this place in the other group, and so many master ids may be
    /// parents. It takes no memory yet, and keeps the allocator.
    pub fn empty(alloc: Global, masters: u64, place: u64) -> OtherSample
        requires { place < 2 ^ 32 }
        ensures of { IsOthersOf result [] }
        ensures masters { result.masters ≡ masters }
        ensures start { result.start ≡ 2 ^ 56 + place }
        ensures end { result.end ≡ 2 ^ 56 + place }
    {
        let start = FIRST_OTHER + place;
        OtherSample {
            bytes: Vec::new(alloc),
            section: Section::empty(alloc),
            masters,
            start,
            end: start,
        }
    }

    /// The id behind the last commit's.
    pub fn end(&self) -> Id
        ensures { result ≡ self.now.end }
    {
        Id::from_number(self.end)
    }

    /// Whether so many commits more may come, of which the first has these parents and each other the one before it.
    pub fn may_push(&self, parents: &[Id], count: u64) -> bool
        ensures { IsTrue result ↔ MayPushOther self.now.masters self.now.end parents.now count }
    {
        let room = FIRST_OTHER + ID_LIMIT - self.end;
        count > 0
            && count < room
            && parents.len() <= MOST_PARENTS
            && are_below(parents, self.end)
            && are_distinct(parents)
            && are_near(parents, self.masters)
    }

    /// Adds so many commits, of which the first has these parents and each other the one before it. Want of memory
    /// leaves the part as it was.
    pub fn push(&mut self, parents: &[Id], count: u64) -> Result<(), AllocError>
        requires { MayPushOther self.old.masters self.old.end parents.now count }
        ensures added { OnOk result ((segments : List Segment) → IsOthersOf self.old segments
            → IsOthersOf self.new (segments ++ next_segment self.old.end parents.now count ∷ [])) }
        ensures end { OnOk result (self.new.end ≡ self.old.end + count) }
        ensures start { self.new.start ≡ self.old.start }
        ensures masters { self.new.masters ≡ self.old.masters }
        ensures unchanged { OnErr result (self.new ≡ self.old) }
    {
        let at = self.bytes.len();
        let low = self.end;
        let high = low + (count - 1);
        write_segment(
            &mut self.bytes,
            Id::from_number(low),
            Id::from_number(high),
            0,
            parents,
        )?;
        let (_, record) = self.bytes.split_at(at);
        let Some((segment, _)) = read_segment(record) else {
            unreachable!()
        };
        match self.section.push(segment, at as u64) {
            Ok(()) => {
                self.end = high + 1;
                Ok(())
            }
            Err(fault) => {
                self.bytes.truncate(at);
                Err(fault)
            }
        }
    }
}

impl Sample {
    /// Whether the two parts may be joined to the commits below a count: those are had, the first part begins at the first
    /// other id and the second where the first ends, and their master parents lie below the count.
    pub fn may_join(&self, below: u64, others: &OtherSample, pending: &OtherSample) -> bool
        ensures { IsTrue result ↔ MayJoinSample self.now below others.now pending.now }
    {
        below <= self.count()
            && others.masters <= below
            && pending.masters <= below
            && others.start == FIRST_OTHER
            && pending.start == others.end
            && below < ID_LIMIT
            && pending.end - FIRST_OTHER < ID_LIMIT - below
    }

    /// The commits below a count, joined with the two parts.
    pub fn joined<'a>(
        &'a self,
        below: u64,
        others: &'a OtherSample,
        pending: &'a OtherSample,
    ) -> FlatView<'a>
        requires { MayJoinSample self.now below others.now pending.now }
        ensures master { (segments : List Segment) → IsSampleOf self.now segments → master_flats result ≡ cut below (maximal self.now.table.end segments) }
        ensures others { (first second : List Segment) → IsOthersOf others.now first → IsOthersOf pending.now second → other_flats result ≡ first ++ second }
        ensures count { master_count result ≡ below }
    {
        self.view(below).join(
            &others.section,
            &others.bytes,
            &pending.section,
            &pending.bytes,
        )
    }
}
