//! Flat segments whose fields are kept elsewhere than in their records, and where their parents stand.

ghost use Rattle.std.specs.Prelude.{◌≡◌, ◌≤◌, ◌<◌, length, List, ℕ, flat_map};
ghost use Rattle.std.specs.List.{AllByRecursion};
ghost use Rattle.segment_codec.specs.Number.{number_bytes};
ghost use Rattle.segment_codec.specs.Record.{head_bytes, parents_bytes};
ghost use Rattle.segment_codec.specs.Flat.{IsFlat};
ghost use Rattle.segment_codec.specs.Lent.{segment_of};

use crate::lent::SegmentRef;
use crate::number::number_len;
use id_groups::Id;

/// The bytes of a record before its span: its flags, its level and its highest id.
const BEFORE_SPAN: usize = 10;

/// The bytes of the number of a flat segment's parents, which are eight at most.
const FLAT_COUNT: usize = 1;

impl<'a> SegmentRef<'a> {
    /// The flat segment of these ids, the numbers of whose parents, each below the lowest id, are known to be the bytes.
    /// Nothing is read.
    pub fn flat(low: Id, high: Id, parents: &'a [u8]) -> SegmentRef<'a>
        requires order { low ≤ high }
        requires parents { (ns : List ℕ) × AllByRecursion (λ p. p < low) ns × (parents.now ≡ flat_map number_bytes ns) }
        ensures { (ns : List ℕ) → AllByRecursion (λ p. p < low) ns → parents.now ≡ flat_map number_bytes ns
            → segment_of result ≡ record { low = low; high = high; level = 0; parents = ns } }
    {
        SegmentRef {
            low: low.number(),
            high: high.number(),
            level: 0,
            parents,
        }
    }

    /// How many bytes of a flat segment's record stand before the numbers of its parents.
    pub fn head_len(&self) -> usize
        requires { IsFlat (segment_of self.now) }
        ensures { result ≡ length (head_bytes (segment_of self.now)) }
    {
        BEFORE_SPAN + number_len(self.high - self.low) + FLAT_COUNT
    }

    /// How many bytes the numbers of the parents take.
    pub fn parents_len(&self) -> usize
        ensures len { result ≡ length (parents_bytes (segment_of self.now)) }
        ensures short { IsFlat (segment_of self.now) → result ≤ 72 }
    {
        self.parents.len()
    }
}
