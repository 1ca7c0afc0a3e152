//! What is answered, and left on the second disk, of two disks with these bytes.

use crate::logs::{Of, bytes_of};
use crate::stops::{blames_first, fails_right, stops_right};
use disk_memory::MemoryDisk;
use log_compact::{Compacted, Shrunk, compact};
use std::alloc::{AllocError, Global};
use std::test::Fail;

/// The bytes of the first disk and of the second, a limit, the answer, and what is on the second then.
type Row = (Of, Of, u64, Compacted, Of);

const ROWS: [Row; 11] = [
    // a log in one batch
    (
        Of::Flushes,
        Of::Nothing,
        1000,
        Compacted::Done(Shrunk {
            master: 2,
            others: 2,
            length_from: 269,
            length_to: 179,
        }),
        Of::FlushesWhole,
    ),
    (
        Of::Cloned,
        Of::Closed,
        1000,
        Compacted::Done(Shrunk {
            master: 11,
            others: 0,
            length_from: 216,
            length_to: 146,
        }),
        Of::ClonedWhole,
    ),
    (
        Of::ClonedWhole,
        Of::Closed,
        1000,
        Compacted::Done(Shrunk {
            master: 11,
            others: 0,
            length_from: 146,
            length_to: 146,
        }),
        Of::ClonedWhole,
    ),
    // an empty log writes no batch
    (
        Of::Nothing,
        Of::Nothing,
        1000,
        Compacted::Done(Shrunk {
            master: 0,
            others: 0,
            length_from: 1,
            length_to: 1,
        }),
        Of::Closed,
    ),
    (
        Of::ClosedMore,
        Of::ClosedMore,
        1000,
        Compacted::Done(Shrunk {
            master: 0,
            others: 0,
            length_from: 1,
            length_to: 1,
        }),
        Of::ClosedMore,
    ),
    // only a log without batches is written
    (
        Of::Flushes,
        Of::ClonedWhole,
        1000,
        Compacted::NotFresh,
        Of::ClonedWhole,
    ),
    (Of::Flushes, Of::Open, 1000, Compacted::NotFresh, Of::Open),
    (Of::Open, Of::Nothing, 1000, Compacted::FromBad, Of::Nothing),
    // a log of the first version grows
    (
        Of::First,
        Of::Nothing,
        109,
        Compacted::Full(109),
        Of::Closed,
    ),
    (
        Of::First,
        Of::Nothing,
        110,
        Compacted::Done(Shrunk {
            master: 0,
            others: 2,
            length_from: 98,
            length_to: 110,
        }),
        Of::FirstWhole,
    ),
    (Of::First, Of::Nothing, 97, Compacted::FromBad, Of::Nothing),
];

/// Whether the disks are answered so.
fn is_answered(alloc: Global, row: &Row) -> Result<bool, AllocError> {
    let (from, to, limit, answer, left) = *row;
    let mut from = MemoryDisk::new(alloc, bytes_of(from), &[], None)?;
    let mut to = MemoryDisk::new(alloc, bytes_of(to), &[], None)?;
    let given = compact(alloc, &mut from, &mut to, limit.clamp(1, 1000));
    Ok(given == answer && to.bytes() == bytes_of(left))
}

/// The place of the first row that isn't.
fn first_wrong(alloc: Global) -> Result<Option<usize>, AllocError> {
    for (place, row) in ROWS.iter().enumerate() {
        if !is_answered(alloc, row)? {
            return Ok(Some(place));
        }
    }
    Ok(None)
}

#[test]
fn logs_are_written_anew_or_not(rt: HostRuntime) -> Result<(), Fail> {
    assert_eq!(rt; first_wrong(rt.alloc())?, None);
    Ok(())
}

/// Whether a stop behind each call of the second disk leaves no batch or the whole.
fn all_stop_right(alloc: Global) -> Result<bool, AllocError> {
    for calls in 0..9 {
        if !stops_right(alloc, calls)? {
            return Ok(false);
        }
    }
    Ok(true)
}

/// Whether it is so where one call fails, and a call of the first disk that fails is told.
fn all_fail_right(alloc: Global) -> Result<bool, AllocError> {
    for call in 1..10 {
        if !fails_right(alloc, call)? || (call < 5 && !blames_first(alloc, call)?) {
            return Ok(false);
        }
    }
    Ok(true)
}

#[test]
fn a_stop_or_a_fault_leaves_no_batch_or_the_whole(rt: HostRuntime) -> Result<(), Fail> {
    assert!(rt; all_stop_right(rt.alloc())?);
    assert!(rt; all_fail_right(rt.alloc())?);
    Ok(())
}
