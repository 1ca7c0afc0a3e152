//! Segments of higher levels whose fields are kept elsewhere than in a record.

ghost use Rattle.std.specs.Prelude.{◌≡◌, ◌≤◌, ◌<◌, ◌++◌, List, ℕ, flat_map, OnOk, OnErr};
ghost use Rattle.std.specs.List.{AllByRecursion};
ghost use Rattle.segment_codec.specs.Number.{number_bytes};
ghost use Rattle.segment_codec.specs.Record.{HasFront, parents_bytes};
ghost use Rattle.segment_codec.specs.Lent.{segment_of};

use crate::lent::SegmentRef;
use crate::number::write_number;
use id_groups::Id;
use std::alloc::AllocError;

impl<'a> SegmentRef<'a> {
    /// The segment of a level with these ids, the numbers of whose parents, each below the lowest id, are known to be the
    /// bytes. Nothing is read.
    #[inline]
    pub fn of_level(level: u8, low: Id, high: Id, parents: &'a [u8]) -> SegmentRef<'a>
        requires order { low ≤ high }
        requires parents { (ns : List ℕ) × AllByRecursion (λ p. p < low) ns × (parents.now ≡ flat_map number_bytes ns) }
        ensures { (ns : List ℕ) → AllByRecursion (λ p. p < low) ns → parents.now ≡ flat_map number_bytes ns
            → segment_of result ≡ record { low = low; high = high; level = level; parents = ns } }
    {
        SegmentRef {
            low: low.number(),
            high: high.number(),
            level,
            parents,
        }
    }

    /// The same segment with the number of another level.
    #[inline]
    pub fn at_level(self, level: u8) -> SegmentRef<'a>
        ensures { segment_of result ≡ record (segment_of self.entry) { level = level } }
    {
        SegmentRef {
            low: self.low,
            high: self.high,
            level,
            parents: self.parents,
        }
    }

    /// The numbers of the parents, as they are spelled.
    #[inline]
    pub fn parents_bytes(&self) -> &'a [u8]
        ensures { result.now ≡ parents_bytes (segment_of self.now) }
    {
        self.parents
    }
}

/// Appends the numbers. A refusal may leave a part of them at the end.
pub fn write_numbers(out: &mut Vec<u8>, numbers: &[u64]) -> Result<(), AllocError>
    ensures ok { OnOk result (out.new.items ≡ out.old.items ++ flat_map number_bytes numbers.now) }
    ensures err { OnErr result (HasFront out.old.items out.new.items) }
{
    for number in numbers {
        write_number(out, *number)?;
    }
    Ok(())
}
