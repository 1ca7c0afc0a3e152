//! What is kept of a segment.

ghost use Rattle.std.specs.Prelude.{◌≡◌, ◌<◌, ◌^◌, nat_lt, IfOk};
ghost use Rattle.segment_codec.specs.Lent.{segment_of};
ghost use Rattle.segment_codec.specs.Flat.{IsFlat};
ghost use Rattle.flat_segments.specs.Kept.{entry_of};

use segment_codec::SegmentRef;
use std::alloc::{AllocError, Global};
use std::marker::Model;

/// So many lengths share a word with the lowest id. The parents of a flat segment take at most 72 bytes.
const LENGTHS: u64 = 128;

/// Where the numbers of a segment's parents stand, how many bytes they take, and the segment's lowest id, in 16 bytes.
/// So neither a search nor a look-up reads a byte of the log. The highest id is that before the next segment: so a
/// segment grows, and a view is cut, without a change of any entry.
#[derive(Clone, Copy, Drop)]
pub struct Entry {
    place: u64,
    low_and_len: u64,
}

impl Model for Entry {
    ghost use Rattle.std.specs.Prelude.{◌+◌, ◌*◌, ◌/◌, ◌%◌, ℕ};
    ghost use Rattle.std.proofs.Common.{ap};
    ghost use Rattle.std.proofs.lemmas.Nat.{div-add-mod'};
    ghost use Rattle.flat_segments.specs.Entries.{PlainEntry};

    ghost Value = { PlainEntry };

    ghost view = { λ e. record { place = e.place; low = e.low_and_len / 128; len = e.low_and_len % 128 } };

    ghost inverse = { λ e. record { place = e.place; low_and_len = e.low * 128 + e.len } };

    ghost inverse_ok = { λ e valid. ap (λ (word : ℕ). record { place = e.place; low_and_len = word }) (div-add-mod' e.low_and_len 128) };
}

/// These entries, copied.
pub(crate) fn copied(alloc: Global, entries: &[Entry]) -> Result<Vec<Entry>, AllocError>
    ensures { IfOk result (λ copy. copy.items ≡ entries.now) }
{
    let mut copy = Vec::with_capacity(alloc, entries.len())?;
    copy.extend_from_slice(entries)?;
    Ok(copy)
}

impl Entry {
    /// That of a flat segment, whose record stands, or will stand, at the place `at`.
    #[inline]
    pub(crate) fn of(segment: &SegmentRef<'_>, at: u64) -> Entry
        requires { IsFlat (segment_of segment.now) }
        ensures { result ≡ entry_of (record { place = at; segment = segment_of segment.now }) }
    {
        let low = segment.low().number();
        Entry {
            place: at.saturating_add(segment.head_len() as u64),
            low_and_len: low * LENGTHS + segment.parents_len() as u64,
        }
    }

    /// Where the numbers of the parents stand.
    #[inline(always)]
    pub(crate) fn place(self) -> u64
        ensures { result ≡ self.place }
    {
        self.place
    }

    /// The segment's lowest id.
    #[inline(always)]
    pub(crate) fn low(self) -> u64
        ensures { result ≡ self.low }
    {
        self.low_and_len / LENGTHS
    }

    /// How many bytes the numbers of the parents take.
    #[inline(always)]
    pub(crate) fn len(self) -> usize
        ensures { result ≡ self.len }
    {
        (self.low_and_len % LENGTHS) as usize
    }

    /// Whether the segment begins above the id. The word is compared as it is: a lowest id that is at most the id makes
    /// none above that of the id with the greatest length.
    #[inline(always)]
    pub(crate) fn begins_above(self, id: u64) -> bool
        requires { id < 2 ^ 57 }
        ensures { result ≡ nat_lt id self.low }
    {
        id * LENGTHS + (LENGTHS - 1) < self.low_and_len
    }
}
