//! Levels over flat segments of four ids each: how they are made, extended and asked, beside the flat view.

ghost use Rattle.std.specs.Prelude.{◌≤◌, ◌^◌, List, length};
ghost use Rattle.segment_codec.specs.Record.{Segment};
ghost use Rattle.flat_segments.specs.Placed.{AreRecords, placed_segments};
ghost use Rattle.segment_levels.specs.Flats.{flats_of};
ghost use Rattle.segment_levels.specs.Kept.{AreLevelsOf};
ghost use Rattle.bench.specs.Filled.{IsFilled};

mod batches;
mod lookups;
mod queries;

use crate::graph::{Shape, filled, leveled, written};
use crate::telling::{headed, headed_times, told};
use batches::{Growing, grow};
use flat_segments::FlatTable;
use high_segments::Levels;
use lookups::{count_ends, count_flat, make_view, walk};
use queries::{Question, ask_children, ask_pairs};
use sample_tables::LevelSample;
use segment_codec::SegmentTable;
use std::alloc::{AllocError, Global};
use std::io::{self, Print};
use std::time::Instant;

/// Fewer segments have hardly a level.
const LEAST_SEGMENTS: u64 = 10_000;

const LOOK_UPS: u64 = 100_000;

/// Pairs are near within so many ids.
const NEAR: u64 = 200;

/// How the segments of each graph begin.
const SHAPES: [(&str, Shape); 4] = [
    ("each on the one before and any earlier one", Shape::Far),
    ("each on the one before and a near one", Shape::Near),
    ("branches", Shape::Branch),
    ("roots", Shape::Root),
];

/// Times levels of a graph of each shape, of so many commits.
pub fn run(rt: &HostRuntime, size: u64) -> io::Result<()>
    requires { size ≤ 16000000 }
{
    for (name, shape) in &SHAPES {
        time_graph(rt, name, *shape, segments_of(size))?;
    }
    Ok(())
}

/// How many segments so many commits have.
fn segments_of(size: u64) -> u64
    requires { size ≤ 16000000 }
    ensures some { 1 ≤ result }
    ensures most { result ≤ 2 ^ 30 }
{
    (size / 4).max(LEAST_SEGMENTS)
}

/// Times levels of a graph of so many segments.
fn time_graph(rt: &HostRuntime, name: &str, shape: Shape, segments: u64) -> io::Result<()>
    requires some { 1 ≤ segments }
    requires most { segments ≤ 2 ^ 30 }
{
    headed_times(rt, name, "segments", segments)?;
    let records = written(rt.alloc(), shape, segments)?;
    time_table(rt, &records)?;
    time_batches(rt, &records, segments, 250)?;
    time_batches(rt, &records, segments, 1)
}

/// Times the table of records, and its levels.
fn time_table(rt: &HostRuntime, records: &[u8]) -> io::Result<()>
    requires { (segments : List Segment) × AreRecords segments records.now × (length segments ≤ 2 ^ 30) }
{
    let start = Instant::now(rt)?;
    let Ok(table) = filled(rt.alloc(), records) else {
        return println!(rt; "no table");
    };
    told(rt, "a flat table, ids", start, table.count())?;
    if table.count() > 1 << 24 {
        return println!(rt; "too many");
    }
    time_levels(rt, records, &table)
}

/// Times the levels of a table.
fn time_levels(rt: &HostRuntime, records: &[u8], table: &FlatTable) -> io::Result<()>
    requires table { (segments : List Segment) × IsFilled records.now table.now segments }
    requires small { table.now.end ≤ 16777216 }
{
    let start = Instant::now(rt)?;
    let levels = leveled(rt.alloc(), records, table)?;
    told(rt, "levels, bytes", start, levels.memory())?;
    tell_counts(rt, &levels)?;
    time_views(rt, records, table, &levels)
}

/// Tells how many segments each level has.
fn tell_counts(rt: &HostRuntime, levels: &Levels) -> io::Result<()> {
    let counts = levels.counts();
    print!(rt; "segments of each level:")?;
    for k in 0..8 {
        if k < counts.len() {
            print!(rt; " {}", counts.at(k))?;
        }
    }
    println!(rt; "")
}

/// Times what is asked of a view with levels, and of the flat one.
fn time_views(
    rt: &HostRuntime,
    records: &[u8],
    table: &FlatTable,
    levels: &Levels,
) -> io::Result<()>
    requires filled { (segments : List Segment) × IsFilled records.now table.now segments × AreLevelsOf levels.now (flats_of table.now (placed_segments 0 segments)) }
    requires small { table.now.end ≤ 16777216 }
{
    let ids = table.count();
    let view = make_view(records, table, levels);
    let flat = table.view(records, ids);
    time_look_ups(rt, &view, ids, "with levels")?;
    time_look_ups(rt, &flat, ids, "without levels")?;
    time_asked(rt, &view, ids, "with levels", 5, 1000)?;
    time_asked(rt, &flat, ids, "without levels", 2, 20)
}

/// Times look-ups in a table of so many ids.
fn time_look_ups<T: SegmentTable>(
    rt: &HostRuntime,
    table: &T,
    ids: u64,
    what: &str,
) -> io::Result<()> {
    headed_times(rt, "look-ups", what, LOOK_UPS)?;
    let start = Instant::now(rt)?;
    let found = count_ends(table, ids, LOOK_UPS);
    told(rt, "as many on each of seven levels", start, found)?;
    let start = Instant::now(rt)?;
    let found = count_flat(table, ids, LOOK_UPS);
    told(rt, "as many of an id", start, found)?;
    time_walk(rt, table, ids)
}

/// Times the ancestors of the last id.
fn time_walk<T: SegmentTable>(rt: &HostRuntime, table: &T, ids: u64) -> io::Result<()> {
    let start = Instant::now(rt)?;
    let walked = walk(rt.alloc(), table, ids)?;
    told(rt, "ancestors of the last id, ids", start, walked.count)?;
    println!(rt; "ancestors of the last id, look-ups: {}", walked.steps)
}

/// Times questions about so many pairs of commits, and about so many commits.
fn time_asked<T: SegmentTable>(
    rt: &HostRuntime,
    table: &T,
    ids: u64,
    what: &str,
    pairs: u64,
    commits: u64,
) -> io::Result<()> {
    time_pairs(rt, table, ids, what, pairs)?;
    time_children(rt, table, ids, what, commits)
}

/// What is asked of pairs of commits, which are near within so many ids, and how that is called.
#[derive(Clone, Copy)]
struct Asked<'a> {
    name: &'a str,
    question: Question,
    reach: u64,
}

/// Times a question about so many pairs of commits.
fn time_question<T: SegmentTable>(
    rt: &HostRuntime,
    table: &T,
    ids: u64,
    what: &str,
    asked: Asked<'_>,
    count: u64,
) -> io::Result<()> {
    headed_times(rt, asked.name, what, count)?;
    let start = Instant::now(rt)?;
    let sum = ask_pairs(rt.alloc(), table, asked.question, ids, asked.reach, count)?;
    told(rt, "together", start, sum)
}

/// A question about pairs of commits within so many ids.
fn pairs_of(name: &str, question: Question, reach: u64) -> Asked<'_> {
    Asked {
        name,
        question,
        reach,
    }
}

/// Times questions about so many pairs of commits, far and near.
fn time_pairs<T: SegmentTable>(
    rt: &HostRuntime,
    table: &T,
    ids: u64,
    what: &str,
    count: u64,
) -> io::Result<()> {
    time_question(
        rt,
        table,
        ids,
        what,
        pairs_of("ancestors", Question::Ancestors, ids),
        count,
    )?;
    time_question(
        rt,
        table,
        ids,
        what,
        pairs_of("only, far", Question::Only, ids),
        count,
    )?;
    time_question(
        rt,
        table,
        ids,
        what,
        pairs_of("gca, far", Question::Gca, ids),
        count,
    )?;
    time_question(
        rt,
        table,
        ids,
        what,
        pairs_of("only, near", Question::Only, NEAR),
        count,
    )?;
    time_question(
        rt,
        table,
        ids,
        what,
        pairs_of("gca, near", Question::Gca, NEAR),
        count,
    )
}

/// Within how many of the newest ids commits are asked for their children, and how that is called.
#[derive(Clone, Copy)]
struct Within<'a> {
    name: &'a str,
    reach: u64,
}

/// Times the children of so many commits, within so many of the newest ids.
fn time_children_within<T: SegmentTable>(
    rt: &HostRuntime,
    table: &T,
    ids: u64,
    what: &str,
    within: Within<'_>,
    count: u64,
) -> io::Result<()> {
    headed_times(rt, within.name, what, count)?;
    let start = Instant::now(rt)?;
    let sum = ask_children(rt.alloc(), table, ids, within.reach, count)?;
    told(rt, "together", start, sum)
}

/// Times the children of so many commits, all over the graph and in its newest hundredth.
fn time_children<T: SegmentTable>(
    rt: &HostRuntime,
    table: &T,
    ids: u64,
    what: &str,
    count: u64,
) -> io::Result<()> {
    let anywhere = Within {
        name: "children, anywhere",
        reach: ids,
    };
    time_children_within(rt, table, ids, what, anywhere, count)?;
    let newest = Within {
        name: "children, among the newest hundredth",
        reach: ids / 100,
    };
    time_children_within(rt, table, ids, what, newest, count)
}

/// The sample of a copy of the records, of which none was added yet.
fn start_growing(alloc: Global, records: &[u8]) -> Result<Growing, AllocError> {
    Ok(Growing {
        sample: LevelSample::over(alloc, Vec::from_slice(alloc, records)?, false),
        place: 0,
    })
}

/// Times so many batches of so many records.
fn time_some(
    rt: &HostRuntime,
    growing: Growing,
    records: &[u8],
    batch: u64,
    times: u64,
) -> io::Result<Growing> {
    headed_times(rt, "batches", "of so many", batch)?;
    timed(rt, growing, records, batch, times)
}

/// Times levels that grow by batches of so many records: the first hundred batches, all but the last hundred, and the last.
/// Where there are few batches they are thirds.
fn time_batches(rt: &HostRuntime, records: &[u8], segments: u64, batch: u64) -> io::Result<()> {
    let all = segments / batch.max(1);
    let few = (all / 3).min(100);
    let growing = start_growing(rt.alloc(), records)?;
    let growing = time_some(rt, growing, records, batch, few)?;
    let most = all.saturating_sub(few).saturating_sub(few);
    let growing = time_some(rt, growing, records, batch, most)?;
    let _last = time_some(rt, growing, records, batch, few)?;
    Ok(())
}

/// The sample after so many batches more. What can't be added counts as want of memory.
fn timed(
    rt: &HostRuntime,
    growing: Growing,
    records: &[u8],
    batch: u64,
    times: u64,
) -> io::Result<Growing> {
    let start = Instant::now(rt)?;
    let grown = grown_by(growing, records, batch, times)?;
    told(rt, "grown", start, grown.sample.count())?;
    Ok(grown)
}

/// The same, untimed.
fn grown_by(
    growing: Growing,
    records: &[u8],
    batch: u64,
    times: u64,
) -> Result<Growing, AllocError> {
    match grow(growing, records, batch, times) {
        Ok(grown) => Ok(grown),
        Err(_) => Err(AllocError),
    }
}
