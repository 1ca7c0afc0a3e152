//! How many look-ups the answer of an expression takes, which no reply tells.

use dag_run::{Limits, run_lines};
use dag_store::{Expr, Store};
use disk_memory::MemoryDisk;
use line_io::{MemorySink, MemorySource};
use mirror_set::Mirrors;
use remote_trait::FixedRemote;
use std::alloc::{AllocError, Global};

/// The name of 36 zeros and the four digits of this number.
fn put_name(text: &mut Vec<u8>, number: u16) -> Result<(), AllocError> {
    text.extend_from_slice(&[b'0'; 36])?;
    for power in [1000, 100, 10, 1] {
        text.push(b'0' + (number / power % 10) as u8)?;
    }
    Ok(())
}

fn put_parent(lines: &mut Vec<u8>, number: u16) -> Result<(), AllocError> {
    lines.push(b' ')?;
    put_name(lines, number)
}

/// The line that adds the commit of this number. Its parents are the two before it where it is odd, and else the one before it;
/// the first has none.
fn put_add(lines: &mut Vec<u8>, number: u16) -> Result<(), AllocError> {
    lines.extend_from_slice(b"0 add ")?;
    put_name(lines, number)?;
    if number > 1 && number % 2 == 1 {
        put_parent(lines, number - 2)?;
    }
    if number > 1 {
        put_parent(lines, number - 1)?;
    }
    lines.push(b'\n')?;
    Ok(())
}

/// Lines that add the commits from 1 to the last and flush them into master.
fn ladder(alloc: Global, last: u16) -> Result<Vec<u8>, AllocError> {
    let mut lines = Vec::new(alloc);
    for before in 0..last {
        put_add(&mut lines, before + 1)?;
    }
    lines.extend_from_slice(b"0 flush")?;
    put_parent(&mut lines, last)?;
    lines.push(b'\n')?;
    Ok(lines)
}

/// Runs the lines over the disk. Whether they were all answered.
fn run(alloc: Global, lines: &[u8], disk: &mut MemoryDisk) -> Result<bool, AllocError> {
    let mut input = MemorySource::new(alloc, lines, 65_536, &[])?;
    let mut output = MemorySink::new(alloc, &[])?;
    let mut none: Mirrors<FixedRemote> = Mirrors::new(Vec::new(alloc));
    let report = run_lines(
        alloc,
        Limits::standard(),
        1,
        disk,
        &mut none,
        &mut input,
        &mut output,
    );
    Ok(report.status == 0)
}

/// The call of this word of the commit of this number.
fn call_of(alloc: Global, word: &str, number: u16) -> Result<Vec<u8>, AllocError> {
    let mut text = Vec::new(alloc);
    text.extend_from_slice(word.as_bytes())?;
    text.push(b'(')?;
    put_name(&mut text, number)?;
    text.push(b')')?;
    Ok(text)
}

/// How many members the expression has in the first session's view, and how many look-ups they took; nothing where it isn't
/// answered.
fn counted(alloc: Global, store: &mut Store, text: &[u8]) -> Option<(u64, u64)> {
    let Ok(expr) = Expr::parse(alloc, text) else {
        return None;
    };
    let mut none: Mirrors<FixedRemote> = Mirrors::new(Vec::new(alloc));
    let Ok(answer) = store.count(0, &mut none, &expr) else {
        return None;
    };
    Some((answer.count(), answer.steps()))
}

/// A call, the commit of which it is asked, how many members it has, and how many look-ups it takes to find them.
type Counted = (&'static str, u16, u64, u64);

/// Of 35 commits the segment of the higher level has the first 32, the first flat one two; no other segment is without parents.
const ANCESTORS: [Counted; 4] = [
    ("ancestors", 2, 2, 8),
    ("ancestors", 32, 32, 8),
    ("ancestors", 35, 35, 24),
    ("ancestors", 31, 31, 128),
];

/// 4,200 commits have 2,100 flat segments, enough for an index of edges: without it those above a commit are gone over for its children.
const CHILDREN: [Counted; 4] = [
    ("children", 9, 2, 2),
    ("children", 10, 1, 2),
    ("children", 4_199, 1, 1),
    ("children", 4_200, 0, 1),
];

fn is_counted(alloc: Global, store: &mut Store, row: &Counted) -> Result<bool, AllocError> {
    let (word, number, members, look_ups) = row;
    let text = call_of(alloc, word, *number)?;
    Ok(counted(alloc, store, &text) == Some((*members, *look_ups)))
}

/// Whether the store finds the members by so many look-ups.
fn are_counted(alloc: Global, store: &mut Store, rows: &[Counted]) -> Result<bool, AllocError> {
    for row in rows {
        if !is_counted(alloc, store, row)? {
            return Ok(false);
        }
    }
    Ok(true)
}

/// Whether a store that is loaded from the disk has so many levels and does.
fn are_counted_behind_load(
    alloc: Global,
    disk: &mut MemoryDisk,
    levels: u32,
    rows: &[Counted],
) -> Result<bool, AllocError> {
    match Store::load(alloc, disk, Limits::standard(), 1) {
        Ok(store) => {
            let mut store = store;
            Ok(are_counted(alloc, &mut store, rows)? && store.levels().len() == levels)
        }
        Err(_) => Ok(false),
    }
}

/// What goes wrong where the log of a ladder of so many commits is written to a disk and loaded again, if anything does.
fn wrong(
    alloc: Global,
    last: u16,
    levels: u32,
    rows: &[Counted],
) -> Result<Option<&'static str>, AllocError> {
    let mut disk = MemoryDisk::new(alloc, &[], &[], None)?;
    if !run(alloc, &ladder(alloc, last)?, &mut disk)? {
        return Ok(Some("the lines"));
    }
    if !are_counted_behind_load(alloc, &mut disk, levels, rows)? {
        return Ok(Some("the look-ups"));
    }
    Ok(None)
}

#[test]
fn ancestors_take_few_look_ups(rt: HostRuntime) -> Result<(), AllocError> {
    assert_eq!(rt; wrong(rt.alloc(), 35, 2, &ANCESTORS)?, None);
    Ok(())
}

#[test]
fn children_take_few_look_ups(rt: HostRuntime) -> Result<(), AllocError> {
    assert_eq!(rt; wrong(rt.alloc(), 4_200, 3, &CHILDREN)?, None);
    Ok(())
}
