//! What is timed.

ghost use Rattle.std.specs.Prelude.{◌≤◌, List};
ghost use Rattle.segment_codec.specs.Record.{Segment};
ghost use Rattle.flat_segments.specs.Placed.{placed_segments};
ghost use Rattle.segment_levels.specs.Flats.{flats_of};
ghost use Rattle.segment_levels.specs.Kept.{AreLevelsOf};
ghost use Rattle.bench.specs.Filled.{IsFilled};

use crate::random::next_random;
use ancestor_query::ancestors;
use flat_segments::FlatTable;
use high_segments::{Levels, View};
use id_groups::Id;
use sample_tables::held_ids;
use segment_codec::{Edges, SegmentTable, Steps};
use std::alloc::{AllocError, Global};

/// The view of the whole table with its levels.
pub fn make_view<'a>(records: &'a [u8], table: &'a FlatTable, levels: &'a Levels) -> View<'a>
    requires filled { (segments : List Segment) × IsFilled records.now table.now segments × AreLevelsOf levels.now (flats_of table.now (placed_segments 0 segments)) }
    requires small { table.now.end ≤ 16777216 }
{
    View::new(table.view(records, table.count()), levels, Edges::none())
}

/// One of so many ids, by a random number.
fn random_id(random: u64, ids: u64) -> Id {
    Id::master((random >> 30) % ids.max(1) % (1 << 32))
}

/// How many segments of higher levels end at so many random ids of a table with so many.
pub fn count_ends<T: SegmentTable>(table: &T, ids: u64, count: u64) -> u64 {
    let mut steps = Steps::new();
    let mut random = 7;
    let mut ends = 0u64;
    for _k in 0..count {
        random = next_random(random);
        let id = random_id(random, ids);
        for level in 1..8u8 {
            if table.ending(level, id, &mut steps).is_some() {
                ends = ends.wrapping_add(1);
            }
        }
    }
    ends
}

/// Finds so many random ids of a table with so many, and sums the lowest ids of their segments.
pub fn count_flat<T: SegmentTable>(table: &T, ids: u64, count: u64) -> u64 {
    let mut steps = Steps::new();
    let mut random = 7;
    let mut sum = 0u64;
    for _k in 0..count {
        random = next_random(random);
        if let Some(found) = table.flat(random_id(random, ids), &mut steps) {
            sum = sum.wrapping_add(found.low().number());
        }
    }
    sum
}

/// How many ids the last one reaches, and how many look-ups that took.
#[derive(Clone, Copy)]
pub struct Walked {
    pub count: u64,
    pub steps: u64,
}

/// The ancestors of the last of so many ids.
pub fn walk<T: SegmentTable>(alloc: Global, table: &T, ids: u64) -> Result<Walked, AllocError> {
    let last = Id::master(ids.saturating_sub(1) % (1 << 32));
    let set = held_ids(alloc, table, &[last])?;
    let mut steps = Steps::new();
    let found = ancestors(alloc, table, &set, &mut steps)?;
    Ok(Walked {
        count: found.count(),
        steps: steps.taken(),
    })
}
