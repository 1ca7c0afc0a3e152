//! What is timed.

ghost use Rattle.std.specs.Prelude.{List};
ghost use Rattle.flat_segments.specs.Placed.{PlacedSegment, Stand};
ghost use Rattle.flat_segments.specs.Kept.{IsTableOf};

use crate::random::next_random;
use flat_segments::FlatTable;
use id_groups::Id;
use segment_codec::{SegmentTable, Steps};

/// Finds so many random ids, and sums the lowest ids of their segments.
pub fn sum_of_lows(table: &FlatTable, records: &[u8], count: u64) -> u64
    requires { (placed : List PlacedSegment) × IsTableOf table.now placed × Stand records.now placed }
{
    let view = table.view(records, table.count());
    let mut steps = Steps::new();
    let mut random = 7;
    let mut sum = 0u64;
    for _k in 0..count {
        random = next_random(random);
        if let Some(found) = view.flat(Id::master((random >> 30) % 1_000_000), &mut steps) {
            sum = sum.wrapping_add(found.low().number());
        }
    }
    sum
}

/// How many of so many random ids end a segment.
pub fn count_ends(table: &FlatTable, records: &[u8], count: u64) -> u64
    requires { (placed : List PlacedSegment) × IsTableOf table.now placed × Stand records.now placed }
{
    let view = table.view(records, table.count());
    let mut steps = Steps::new();
    let mut random = 7;
    let mut ends = 0u64;
    for _k in 0..count {
        random = next_random(random);
        if view
            .ending(0, Id::master((random >> 30) % 1_000_000), &mut steps)
            .is_some()
        {
            ends = ends.wrapping_add(1);
        }
    }
    ends
}
