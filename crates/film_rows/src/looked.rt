//! A log to which one payload comes while it is read: how many payloads are seen, by the moment at which it comes and by how many bytes
//! of a read are seen before.

use crate::{FilmDisk, load, look};
use gated_log::LoadLog;
use std::alloc::{AllocError, Global};

/// The log of one payload, and the front of the next one behind its gate.
const ONE: [u8; 20] = [
    1, 0, 0, 0, 0, 0, 0, 0, 1, 170, 0, 0, 0, 0, 0, 0, 0, 0, 1, 187,
];

/// The log of both.
const TWO: [u8; 21] = [
    1, 0, 0, 0, 0, 0, 0, 0, 1, 170, 1, 0, 0, 0, 0, 0, 0, 0, 1, 187, 0,
];

/// The disk.
fn disk(alloc: Global, change: u64, split: usize) -> Result<FilmDisk, AllocError> {
    let first = Vec::from_slice(alloc, &ONE)?;
    let later = Vec::from_slice(alloc, &TWO)?;
    Ok(FilmDisk::new(first, later, change, split))
}

/// How many payloads are seen of the log by one who looks at it.
fn seen(alloc: Global, change: u64, split: usize) -> Result<Result<u32, LoadLog>, AllocError> {
    let mut disk = disk(alloc, change, split)?;
    Ok(look(alloc, &mut disk, 99).map(|log| log.batch_count()))
}

/// The same where it is loaded.
fn loaded(alloc: Global, change: u64, split: usize) -> Result<Result<u32, LoadLog>, AllocError> {
    let mut disk = disk(alloc, change, split)?;
    Ok(load(alloc, &mut disk, 99).map(|log| log.batch_count()))
}

/// Before the size is asked; between it and the read; within the read, before the gate is seen and behind it; and behind the read.
#[test]
fn what_comes_is_seen_whole_or_not_at_all(rt: HostRuntime) -> Result<(), AllocError> {
    assert!(rt; seen(rt.alloc(), 0, 0)? == Ok(2));
    assert!(rt; seen(rt.alloc(), 1, 0)? == Ok(2));
    assert!(rt; seen(rt.alloc(), 2, 10)? == Ok(2));
    assert!(rt; seen(rt.alloc(), 2, 11)? == Ok(1));
    assert!(rt; seen(rt.alloc(), 3, 0)? == Ok(1));
    Ok(())
}

/// The same a moment later, since a sync comes before the size.
#[test]
fn what_comes_is_loaded_whole_or_not_at_all(rt: HostRuntime) -> Result<(), AllocError> {
    assert!(rt; loaded(rt.alloc(), 2, 0)? == Ok(2));
    assert!(rt; loaded(rt.alloc(), 3, 10)? == Ok(2));
    assert!(rt; loaded(rt.alloc(), 3, 11)? == Ok(1));
    Ok(())
}
