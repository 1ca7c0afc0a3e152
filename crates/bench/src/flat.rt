//! A table of a million ids in 250,000 segments.

ghost use Rattle.std.specs.Prelude.{◌≤◌, ◌^◌, List, length};
ghost use Rattle.segment_codec.specs.Record.{Segment};
ghost use Rattle.flat_segments.specs.Placed.{PlacedSegment, AreRecords, Stand};
ghost use Rattle.flat_segments.specs.Kept.{IsTableOf};

mod lookups;

use crate::graph::{Shape, filled, written};
use crate::telling::told;
use flat_segments::FlatTable;
use lookups::{count_ends, sum_of_lows};
use std::io;
use std::time::Instant;

const SEGMENTS: u64 = 250_000;

const LOOK_UPS: u64 = 1_000_000;

pub fn run(rt: &HostRuntime) -> io::Result<()> {
    let start = Instant::now(rt)?;
    let records = written(rt.alloc(), Shape::Far, SEGMENTS)?;
    told(
        rt,
        "records of 250,000 segments, bytes",
        start,
        records.len() as u64,
    )?;
    time_table(rt, &records)
}

fn time_table(rt: &HostRuntime, records: &[u8]) -> io::Result<()>
    requires { (segments : List Segment) × AreRecords segments records.now × (length segments ≤ 2 ^ 30) }
{
    let start = Instant::now(rt)?;
    let Ok(table) = filled(rt.alloc(), records) else {
        return println!(rt; "no table");
    };
    told(rt, "a table of them, ids", start, table.count())?;
    time_look_ups(rt, &table, records)
}

fn time_look_ups(rt: &HostRuntime, table: &FlatTable, records: &[u8]) -> io::Result<()>
    requires { (placed : List PlacedSegment) × IsTableOf table.now placed × Stand records.now placed }
{
    let start = Instant::now(rt)?;
    let sum = sum_of_lows(table, records, LOOK_UPS);
    told(
        rt,
        "a million look-ups of an id, sum of the lowest ids",
        start,
        sum,
    )?;
    let start = Instant::now(rt)?;
    let ends = count_ends(table, records, LOOK_UPS);
    told(rt, "a million look-ups of an end, found", start, ends)
}
