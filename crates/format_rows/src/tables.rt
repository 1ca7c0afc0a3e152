//! Tables of small graphs against the parents of their ids.

ghost use Rattle.std.specs.Prelude.{◌≡◌, ◌≤◌, ◌^◌, ◌+◌, true, List, length, OnOk};
ghost use Rattle.segment_codec.specs.Record.{Segment};
ghost use Rattle.flat_segments.specs.Placed.{PlacedSegment, AreRecords, Stand};
ghost use Rattle.flat_segments.specs.Kept.{IsTableOf};

use flat_segments::{FlatFault, FlatTable, FlatView, Section};
use id_groups::{FIRST_OTHER, Id};
use segment_codec::{Parents as SegmentParents, SegmentRef, SegmentTable, Steps, read_segment};
use std::alloc::{AllocError, Global};
use std::test::Fail;

/// The parents of an id of the graph.
#[derive(Clone, Copy)]
enum Parents {
    None,
    Before,
    One(u8),
    Two(u8, u8),
}

/// A graph of 200 ids with two roots.
fn parents_of(id: u8) -> Parents {
    if id % 100 == 0 {
        Parents::None
    } else if id % 7 == 0 {
        Parents::Two(id - 1, id / 2)
    } else if id % 5 == 3 {
        Parents::One(id / 3)
    } else {
        Parents::Before
    }
}

fn push_number(out: &mut Vec<u8>, number: u8) -> Result<(), AllocError> {
    if number >= 128 {
        out.push(number)?;
        out.push(1)?;
    } else {
        out.push(number)?;
    }
    Ok(())
}

fn push_one(out: &mut Vec<u8>, parent: u8) -> Result<(), AllocError> {
    out.push(1)?;
    push_number(out, parent)
}

fn push_two(out: &mut Vec<u8>, first: u8, second: u8) -> Result<(), AllocError> {
    out.push(2)?;
    push_number(out, first)?;
    push_number(out, second)
}

/// How many parents the id has, and which.
fn push_parents(out: &mut Vec<u8>, id: u8) -> Result<(), AllocError> {
    match parents_of(id) {
        Parents::None => out.push(0)?,
        Parents::Before => push_one(out, id.saturating_sub(1))?,
        Parents::One(parent) => push_one(out, parent)?,
        Parents::Two(first, second) => push_two(out, first, second)?,
    }
    Ok(())
}

/// The record of the ids from `low` to `high`.
fn push_record(out: &mut Vec<u8>, low: u8, high: u8) -> Result<(), AllocError> {
    let is_root = matches!(parents_of(low), Parents::None);
    out.push(u8::from(is_root))?;
    out.extend_from_slice(&[0, 0, 0, 0, 0, 0, 0, 0, high])?;
    push_number(out, high.saturating_sub(low))?;
    push_parents(out, low)
}

/// The records of a batch with the ids from one to that before another.
fn push_batch(out: &mut Vec<u8>, from: u8, to: u8) -> Result<(), AllocError> {
    let mut low = from;
    for id in from..to {
        if !matches!(parents_of(id), Parents::Before) {
            low = id;
        }
        let next = id.saturating_add(1);
        if next == to || !matches!(parents_of(next), Parents::Before) {
            push_record(out, low, id)?;
        }
    }
    Ok(())
}

/// Whether the bytes are records, at most a thousand.
fn are_records(bytes: &[u8]) -> bool
    ensures { result ≡ true → (segments : List Segment) × AreRecords segments bytes.now × (length segments ≤ 1000) }
{
    let mut rest = bytes;
    let mut room = 1000u32;
    'records: while let Some((_, after)) = read_segment(rest) {
        if room == 0 {
            return false;
        }
        room -= 1;
        rest = after;
    }
    rest.is_empty()
}

/// Adds the records that stand in the log at a place, `len` bytes.
fn add(table: &mut FlatTable, log: &[u8], at: usize, len: usize, most: u32) -> Result<(), FlatFault>
    requires small { most ≤ 2 ^ 20 }
    requires table { (records : List PlacedSegment) × IsTableOf table.old records × Stand log.now records × (length records ≤ most) }
    ensures { OnOk result ((records : List PlacedSegment) × IsTableOf table.new records × Stand log.now records × (length records ≤ most + 1000)) }
{
    if at > log.len() || len > log.len() - at || log.len() > 1 << 30 {
        return Err(FlatFault::Memory);
    }
    let (_, behind) = log.split_at(at);
    let (records, _) = behind.split_at(len);
    if !are_records(records) {
        return Err(FlatFault::Memory);
    }
    table.extend(log, records, at as u64)
}

/// Whether the id goes on in the segment from the one before it, in the graph too.
fn goes_on(segment: SegmentRef<'_>, id: u8) -> bool {
    let number = u64::from(id);
    segment.low().number() < number
        && number <= segment.high().number()
        && matches!(parents_of(id), Parents::Before)
}

/// Whether these are the parents that the first id of a segment has in the graph.
fn are_parents(parents: SegmentParents<'_>, id: u8) -> bool {
    let mut given = parents;
    let first = given.next().map(|parent| parent.number());
    let second = given.next().map(|parent| parent.number());
    match parents_of(id) {
        Parents::None => first == None,
        Parents::Before => false,
        Parents::One(parent) => first == Some(u64::from(parent)) && second == None,
        Parents::Two(one, two) => {
            first == Some(u64::from(one)) && second == Some(u64::from(two)) && given.next() == None
        }
    }
}

/// Whether the segment gives the id the parents that it has in the graph.
fn has_parents(segment: SegmentRef<'_>, id: u8) -> bool {
    if segment.low().number() != u64::from(id) {
        return goes_on(segment, id);
    }
    are_parents(segment.parents(), id)
}

/// Whether the id is found with its parents in a segment below a count, by two look-ups.
fn is_held(view: &FlatView<'_>, id: u8, below: u8, steps: &mut Steps) -> bool {
    let number = u64::from(id);
    let Some(segment) = view.flat(Id::master(number), steps) else {
        return false;
    };
    let high = segment.high().number();
    let ends = view.ending(0, Id::master(number), steps).is_some();
    has_parents(segment, id) && high < u64::from(below) && ends == (high == number)
}

/// How many segments begin with an id below a count.
fn segments_below(below: u8) -> u32 {
    let mut begun = 0u32;
    for id in 0..below {
        if !matches!(parents_of(id), Parents::Before) {
            begun = begun.saturating_add(1);
        }
    }
    begun
}

/// Whether the view has the ids below a count, with their parents in the graph, in maximal segments.
fn is_cut(view: &FlatView<'_>, below: u8) -> bool {
    let mut steps = Steps::new();
    for id in 0..below {
        if !is_held(view, id, below, &mut steps) {
            return false;
        }
    }
    view.flat(Id::master(u64::from(below)), &mut steps)
        .is_none()
        && view.ending(1, Id::master(0), &mut steps).is_none()
        && view.flat_count() == segments_below(below)
        && view.bounds().master == u64::from(below)
        && steps.taken() == 2 * u64::from(below) + 2
}

/// Whether each id of the view of the whole graph is found, wherever a search begins.
fn is_found_from(view: &FlatView<'_>, near: usize) -> bool {
    let mut steps = Steps::new();
    for id in 0..200u8 {
        steps.set_near(near);
        let Some(segment) = view.flat(Id::master(u64::from(id)), &mut steps) else {
            return false;
        };
        if !has_parents(segment, id) {
            return false;
        }
    }
    true
}

/// Whether each id is found from each place, from one behind the last, and from the last number.
fn is_found_from_all(view: &FlatView<'_>) -> bool {
    for near in 0..=view.flat_count() as usize {
        if !is_found_from(view, near) {
            return false;
        }
    }
    is_found_from(view, usize::MAX)
}

/// Whether the table, whose records stand in the log, is that of the graph.
fn is_whole(table: &FlatTable, log: &[u8]) -> bool
    requires { (records : List PlacedSegment) × IsTableOf table.now records × Stand log.now records }
{
    if table.count() != 200 {
        return false;
    }
    for below in 0..=200u8 {
        let view = table.view(log, u64::from(below));
        if !is_cut(&view, below) {
            return false;
        }
    }
    is_found_from_all(&table.view(log, 200))
}

/// The graph in three batches behind a first byte, so that no record stands at 0, and where the second and the third begin.
/// The segment of the ids 84 to 87 is split over three records.
fn push_three(out: &mut Vec<u8>) -> Result<(usize, usize), AllocError> {
    out.push(0)?;
    push_batch(out, 0, 85)?;
    let second = out.len();
    push_batch(out, 85, 86)?;
    let third = out.len();
    push_batch(out, 86, 200)?;
    Ok((second, third))
}

/// Whether the three batches of the log, of which two begin at these places, make the table of the graph.
fn are_whole(alloc: Global, log: &[u8], second: usize, third: usize) -> Result<bool, FlatFault> {
    let mut table = FlatTable::empty(alloc);
    add(&mut table, log, 1, second.saturating_sub(1), 0)?;
    add(&mut table, log, second, third.saturating_sub(second), 1000)?;
    add(
        &mut table,
        log,
        third,
        log.len().saturating_sub(third),
        2000,
    )?;
    Ok(is_whole(&table, log))
}

#[test]
fn a_graph_in_three_batches(rt: HostRuntime) -> Result<(), Fail> {
    let mut log = Vec::new(rt.alloc());
    let (second, third) = push_three(&mut log)?;
    assert!(rt; are_whole(rt.alloc(), &log, second, third)?);
    Ok(())
}

/// Records that may not come first, and which of them is the wrong one.
const REFUSED: [(&[u8], u32); 5] = [
    // id 1 alone, where id 0 is next
    (&[1, 0, 0, 0, 0, 0, 0, 0, 0, 1, 0, 0], 0),
    // level 1
    (&[1, 1, 0, 0, 0, 0, 0, 0, 0, 0, 0, 0], 0),
    // an id of the other group
    (&[1, 0, 1, 0, 0, 0, 0, 0, 0, 0, 0, 0], 0),
    // id 0, and id 1 that goes on from it in the same batch
    (
        &[
            1, 0, 0, 0, 0, 0, 0, 0, 0, 0, 0, 0, 0, 0, 0, 0, 0, 0, 0, 0, 0, 1, 0, 1, 0,
        ],
        1,
    ),
    // ids 0 and 1, and then ids 1 to 2
    (
        &[
            1, 0, 0, 0, 0, 0, 0, 0, 0, 1, 1, 0, 1, 0, 0, 0, 0, 0, 0, 0, 0, 2, 1, 0,
        ],
        1,
    ),
];

/// Whether the table of no ids takes none of the records, for the one of this number.
fn are_refused(alloc: Global, bytes: &[u8], number: u32) -> bool {
    let mut table = FlatTable::empty(alloc);
    let result = add(&mut table, bytes, 0, bytes.len(), 0);
    result == Err(FlatFault::BadSegment(number)) && table.count() == 0
}

/// Whether all of them are refused.
fn are_all_refused(alloc: Global) -> bool {
    for (bytes, number) in &REFUSED {
        if !are_refused(alloc, bytes, *number) {
            return false;
        }
    }
    true
}

#[test]
fn records_that_may_not_come(rt: HostRuntime) {
    assert!(rt; are_all_refused(rt.alloc()));
}

/// The end of a section of the record, which stands at the last place.
fn end_at_last(alloc: Global, bytes: &[u8]) -> Result<u64, FlatFault> {
    let Some((segment, _)) = read_segment(bytes) else {
        return Err(FlatFault::Memory);
    };
    if segment.level() != 0 || segment.low().number() != FIRST_OTHER {
        return Err(FlatFault::Memory);
    }
    let mut section = Section::empty(alloc);
    section.push(segment, u64::MAX)?;
    Ok(section.end())
}

#[test]
fn a_place_beyond_all_bytes(rt: HostRuntime) -> Result<(), Fail> {
    let bytes: [u8; 12] = [1, 0, 1, 0, 0, 0, 0, 0, 0, 6, 6, 0];
    assert_eq!(rt; end_at_last(rt.alloc(), &bytes)?, FIRST_OTHER + 7);
    Ok(())
}
