//! Segments that follow one another, whose parents are lent.

ghost use Rattle.std.specs.Prelude.{◌≡◌, ◌<◌, ◌≤◌, ◌+◌, ◌^◌, [], true, length, drop, slice_get, Some};
ghost use Rattle.segment_codec.specs.Record.{Segment};
ghost use Rattle.segment_codec.specs.Lent.{segment_of};
ghost use Rattle.segment_codec.specs.Table.{segment_at};
ghost use Rattle.flat_segments.specs.Maximal.{begin_of};
ghost use Rattle.flat_segments.specs.Runs.{is_run, flats_in, low_of};

use crate::entry::Entry;
use crate::search::count_up_to;
use id_groups::{FIRST_OTHER, Id};
use segment_codec::{SegmentRef, Steps};

/// The place of the last look-up takes the low bits of what `Steps` keeps; the others are left to the levels above.
const PLACES: usize = 0xffff_ffff;

/// Some segments in turn, up to the id before the end. A segment ends where the next begins.
#[derive(Clone, Copy)]
pub(crate) struct Run<'a> {
    pub(crate) entries: &'a [Entry],
    pub(crate) bytes: &'a [u8],
    pub(crate) end: u64,
    ghost read: { is_run bytes.now end entries.now ≡ true },
}

/// A slice has fewer bytes than a word can count: what stands in it has a place that an entry can keep. Nothing is done.
#[inline(always)]
pub(crate) fn are_countable(bytes: &[u8])
    ensures { length bytes.now < 2 ^ 64 }
{
    let _count = bytes.len();
}

impl<'a> Run<'a> {
    /// No segment, up to the first id of the other group.
    pub(crate) fn none() -> Run<'a>
        ensures entries { result.entries.now ≡ [] }
        ensures end { result.end ≡ 2 ^ 56 }
    {
        Run {
            entries: &[],
            bytes: &[],
            end: FIRST_OTHER,
        }
    }

    /// The id behind the segment at place `k`.
    #[inline(always)]
    fn end_of(&self, k: usize) -> u64
        requires { k < length self.now.entries.now }
        ensures { result ≡ low_of self.now.end (drop (k + 1) self.now.entries.now) }
    {
        match self.entries.get(k + 1) {
            Some(next) => next.low(),
            None => self.end,
        }
    }

    /// The segment at place `k`. No byte is read.
    #[inline(always)]
    pub(crate) fn at(&self, k: usize) -> SegmentRef<'a>
        requires { k < length self.now.entries.now }
        ensures { slice_get (flats_in self.now.bytes.now self.now.end self.now.entries.now) k ≡ Some (segment_of result) }
    {
        let entry = self.entries[k];
        let (_, behind) = self.bytes.split_at(entry.place() as usize);
        let (parents, _) = behind.split_at(entry.len());
        let high = self.end_of(k) - 1;
        SegmentRef::flat(Id::from_number(entry.low()), Id::from_number(high), parents)
    }

    /// The place of the segment that has the id, which is sought near a place at first.
    #[inline(always)]
    fn place_of(&self, id: u64, near: usize) -> usize
        requires above { begin_of self.now.end (flats_in self.now.bytes.now self.now.end self.now.entries.now) ≤ id }
        requires below { id < self.now.end }
        requires small { id < 2 ^ 57 }
        ensures within { result < length self.now.entries.now }
        ensures found { (s : Segment) → slice_get (flats_in self.now.bytes.now self.now.end self.now.entries.now) result ≡ Some s
            → segment_at (flats_in self.now.bytes.now self.now.end self.now.entries.now) id ≡ Some s }
    {
        count_up_to(self.entries, id, near) - 1
    }

    /// The segment that has the id. The search begins near the place where the last one ended.
    #[inline(always)]
    pub(crate) fn find(&self, id: u64, steps: &mut Steps) -> SegmentRef<'a>
        requires above { begin_of self.now.end (flats_in self.now.bytes.now self.now.end self.now.entries.now) ≤ id }
        requires below { id < self.now.end }
        requires small { id < 2 ^ 57 }
        ensures found { segment_at (flats_in self.now.bytes.now self.now.end self.now.entries.now) id ≡ Some (segment_of result) }
        ensures steps { steps.new.taken ≡ steps.old.taken }
    {
        let near = steps.near();
        let place = self.place_of(id, near & PLACES);
        steps.set_near(near & !PLACES | place);
        self.at(place)
    }
}
