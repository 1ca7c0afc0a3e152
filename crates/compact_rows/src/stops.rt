//! A log that is written anew, stopped behind each call of the second disk or failing at one.

use crate::logs::{CLONED, CLONED_WHOLE};
use disk_memory::{Choice, Fill, MemoryDisk};
use disk_trait::Disk;
use log_compact::{Compacted, Shrunk, compact};
use std::alloc::{AllocError, Global};

/// How long a log may be.
const LIMIT: u64 = 1000;

/// What is answered where it is written.
const WRITTEN: Compacted = Compacted::Done(Shrunk {
    master: 11,
    others: 0,
    length_from: 216,
    length_to: 146,
});

/// What a second attempt answers to the disk as it is, and whether it has the whole then.
fn again(alloc: Global, to: &mut MemoryDisk) -> Result<Compacted, AllocError> {
    let mut from = MemoryDisk::new(alloc, &CLONED, &[], None)?;
    Ok(compact(alloc, &mut from, to, LIMIT))
}

/// Whether a crash now leaves no batch, so that a second attempt writes it, or the whole.
fn leaves_right(alloc: Global, to: &MemoryDisk, fill: Fill) -> Result<bool, AllocError> {
    let choice = Choice {
        moment: to.clock(),
        fill,
        size: LIMIT,
    };
    let mut later = to.crash(&choice)?;
    let answer = again(alloc, &mut later)?;
    let has_whole = later.bytes().starts_with(&CLONED_WHOLE);
    Ok(has_whole && (answer == WRITTEN || answer == Compacted::NotFresh))
}

/// What a crash may leave of the bytes that aren't sure.
const FILLS: [Fill; 4] = [Fill::Old, Fill::New, Fill::Byte(0), Fill::Byte(127)];

/// The same with each fill.
fn leaves_right_always(alloc: Global, to: &MemoryDisk) -> Result<bool, AllocError> {
    for fill in &FILLS {
        if !leaves_right(alloc, to, *fill)? {
            return Ok(false);
        }
    }
    Ok(true)
}

/// Whether it is so where all calls behind so many fail, the second disk is blamed, and no earlier one.
pub(crate) fn stops_right(alloc: Global, calls: u64) -> Result<bool, AllocError> {
    let mut to = MemoryDisk::new(alloc, &[], &[], Some(calls))?;
    let is_answered = match again(alloc, &mut to)? {
        Compacted::ToDisk(_) => calls < 8,
        answer => calls >= 8 && answer == WRITTEN,
    };
    Ok(is_answered && leaves_right_always(alloc, &to)?)
}

/// Whether it is so where this call alone fails, the first having the number 1.
pub(crate) fn fails_right(alloc: Global, call: u64) -> Result<bool, AllocError> {
    let mut to = MemoryDisk::new(alloc, &[], &[call], None)?;
    let is_answered = match again(alloc, &mut to)? {
        Compacted::ToDisk(_) => call <= 8,
        answer => call > 8 && answer == WRITTEN,
    };
    Ok(is_answered && leaves_right_always(alloc, &to)?)
}

/// Whether a call of the first disk that fails is blamed on it, and the second isn't touched.
pub(crate) fn blames_first(alloc: Global, call: u64) -> Result<bool, AllocError> {
    let mut from = MemoryDisk::new(alloc, &CLONED, &[call], None)?;
    let mut to = MemoryDisk::new(alloc, &[], &[], None)?;
    let answer = compact(alloc, &mut from, &mut to, LIMIT);
    let is_answered = match answer {
        Compacted::FromDisk(_) => call <= 3,
        answer => call > 3 && answer == WRITTEN,
    };
    Ok(is_answered && (to.clock() == 0) == (call <= 3))
}
