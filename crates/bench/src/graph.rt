//! The records of large graphs of segments of four ids each, their tables and their levels.

ghost use Rattle.std.specs.Prelude.{◌≡◌, ◌+◌, ◌<◌, ◌≤◌, ◌^◌, ◌++◌, List, length, OnOk, IfOk};
ghost use Rattle.segment_codec.specs.Record.{Segment, IsSegment, segment_bytes};
ghost use Rattle.flat_segments.specs.Placed.{PlacedSegment, AreRecords, Stand};
ghost use Rattle.flat_segments.specs.Kept.{IsTableOf};
ghost use Rattle.segment_levels.specs.Flats.{flats_of};
ghost use Rattle.flat_segments.specs.Placed.{placed_segments};
ghost use Rattle.bench.specs.Filled.{IsFilled};
ghost use Rattle.segment_levels.specs.Kept.{AreLevelsOf};

use crate::random::next_random;
use flat_segments::{FlatFault, FlatTable};
use high_segments::Levels;
use id_groups::Id;
use segment_codec::write_segment;
use std::alloc::{AllocError, Global};

/// How the segments of a graph begin.
#[derive(Clone, Copy)]
pub enum Shape {
    /// On the id before and any earlier one.
    Far,
    /// On the id before and one of the 64 before that.
    Near,
    /// On one of the 64 before the id before.
    Branch,
    /// Without parents.
    Root,
}

/// An id below the one before.
fn earlier(low: u64, random: u64, reach: u64) -> u64
    requires some { 1 < low }
    requires reach { 0 < reach }
    ensures { result + 1 < low }
{
    let most = if low - 1 < reach { low - 1 } else { reach };
    low - 2 - random % most
}

fn push_pair(out: &mut Vec<u8>, low: u64, other: u64) -> Result<(), AllocError>
    requires other { other + 1 < low }
    requires small { low < 2 ^ 40 }
    ensures { OnOk result ((s : Segment) × IsSegment s × (out.new.items ≡ out.old.items ++ segment_bytes s)) }
{
    let parents = [Id::master(low - 1), Id::master(other)];
    write_segment(out, Id::master(low), Id::master(low + 3), 0, &parents)
}

fn push_one(out: &mut Vec<u8>, low: u64, other: u64) -> Result<(), AllocError>
    requires other { other + 1 < low }
    requires small { low < 2 ^ 40 }
    ensures { OnOk result ((s : Segment) × IsSegment s × (out.new.items ≡ out.old.items ++ segment_bytes s)) }
{
    write_segment(
        out,
        Id::master(low),
        Id::master(low + 3),
        0,
        &[Id::master(other)],
    )
}

fn push_root(out: &mut Vec<u8>, low: u64) -> Result<(), AllocError>
    requires small { low < 2 ^ 40 }
    ensures { OnOk result ((s : Segment) × IsSegment s × (out.new.items ≡ out.old.items ++ segment_bytes s)) }
{
    write_segment(out, Id::master(low), Id::master(low + 3), 0, &[])
}

/// The record of a segment of four ids.
fn push_record(out: &mut Vec<u8>, shape: Shape, low: u64, random: u64) -> Result<(), AllocError>
    requires some { 1 < low }
    requires small { low < 2 ^ 40 }
    ensures { OnOk result ((s : Segment) × IsSegment s × (out.new.items ≡ out.old.items ++ segment_bytes s)) }
{
    match shape {
        Shape::Far => push_pair(out, low, earlier(low, random, low)),
        Shape::Near => push_pair(out, low, earlier(low, random, 64)),
        Shape::Branch => push_one(out, low, earlier(low, random, 64)),
        Shape::Root => push_root(out, low),
    }
}

/// The record of the first four ids.
fn push_first(out: &mut Vec<u8>) -> Result<(), AllocError>
    ensures { OnOk result ((s : Segment) × IsSegment s × (out.new.items ≡ out.old.items ++ segment_bytes s)) }
{
    push_root(out, 0)
}

/// The records of so many segments, one at least.
pub fn written(alloc: Global, shape: Shape, count: u64) -> Result<Vec<u8>, AllocError>
    requires some { 1 ≤ count }
    requires most { count ≤ 2 ^ 30 }
    ensures { IfOk result (λ bytes. (segments : List Segment) × AreRecords segments bytes.items × (length segments ≤ 2 ^ 30)) }
{
    let mut records = Vec::new(alloc);
    push_first(&mut records)?;
    let mut random = 7;
    'records: for k in 1..count {
        random = next_random(random);
        push_record(&mut records, shape, 4 * k, random >> 20)?;
    }
    Ok(records)
}

/// The table of records, which stand at 0.
pub fn filled(alloc: Global, records: &[u8]) -> Result<FlatTable, FlatFault>
    requires { (segments : List Segment) × AreRecords segments records.now × (length segments ≤ 2 ^ 30) }
    ensures { IfOk result (λ table. (segments : List Segment) × IsFilled records.now table segments) }
{
    let mut table = FlatTable::empty(alloc);
    table.extend(&[], records, 0)?;
    Ok(table)
}

/// Its levels.
pub fn leveled(alloc: Global, records: &[u8], table: &FlatTable) -> Result<Levels, AllocError>
    requires table { (segments : List Segment) × IsFilled records.now table.now segments }
    requires small { table.now.end ≤ 16777216 }
    ensures { IfOk result (λ levels. (segments : List Segment) × IsFilled records.now table.now segments × AreLevelsOf levels (flats_of table.now (placed_segments 0 segments))) }
{
    let empty = FlatTable::empty(alloc);
    let mut levels = Levels::empty(alloc);
    levels.extend(&empty, &[], records)?;
    Ok(levels)
}
