//! Bundles that the program puts, by its words: of a fork, of no commits, and where there is none.

use crate::modes::{ended, words_of};
use disk_memory::MemoryDisk;
use line_io::{MemorySink, MemorySource};
use std::alloc::{AllocError, Global};

/// The log of a fork of six commits in master: the ids 0 to 2, 3 and 4 from 1, and 5 from 2 and 4.
const LOG: [u8; 265] = [
    1, 0, 0, 0, 0, 0, 0, 0, 255, 2, 1, 0, 0, 0, 0, 0, 0, 0, 0, 0, 0, 0, 0, 0, 0, 0, 6, 0, 0, 0, 0,
    0, 0, 0, 0, 0, 0, 0, 3, 1, 0, 0, 0, 0, 0, 0, 0, 0, 2, 2, 0, 0, 0, 0, 0, 0, 0, 0, 0, 0, 4, 1, 1,
    1, 0, 0, 0, 0, 0, 0, 0, 0, 0, 5, 0, 2, 2, 4, 0, 0, 0, 0, 0, 0, 0, 6, 0, 0, 0, 0, 0, 0, 0, 0, 0,
    0, 0, 0, 0, 0, 0, 0, 0, 0, 0, 0, 0, 0, 0, 0, 0, 0, 0, 1, 0, 0, 0, 0, 0, 0, 0, 1, 0, 0, 0, 0, 0,
    0, 0, 0, 0, 0, 0, 0, 0, 0, 0, 0, 0, 0, 0, 2, 0, 0, 0, 0, 0, 0, 0, 2, 0, 0, 0, 0, 0, 0, 0, 0, 0,
    0, 0, 0, 0, 0, 0, 0, 0, 0, 0, 3, 0, 0, 0, 0, 0, 0, 0, 3, 0, 0, 0, 0, 0, 0, 0, 0, 0, 0, 0, 0, 0,
    0, 0, 0, 0, 0, 0, 4, 0, 0, 0, 0, 0, 0, 0, 4, 0, 0, 0, 0, 0, 0, 0, 0, 0, 0, 0, 0, 0, 0, 0, 0, 0,
    0, 0, 5, 0, 0, 0, 0, 0, 0, 0, 5, 0, 0, 0, 0, 0, 0, 0, 0, 0, 0, 0, 0, 0, 0, 0, 0, 0, 0, 0, 6, 0,
    0, 0, 0, 0, 0, 0, 0, 0, 0, 0,
];

/// Its bundle.
const FORK: [u8; 175] = [
    83, 69, 71, 66, 78, 68, 76, 49, 0, 0, 0, 6, 0, 0, 0, 3, 1, 0, 0, 0, 0, 0, 0, 0, 0, 2, 2, 0, 0,
    0, 0, 0, 0, 0, 0, 0, 0, 4, 1, 1, 1, 0, 0, 0, 0, 0, 0, 0, 0, 0, 5, 0, 2, 2, 4, 0, 0, 0, 0, 0, 0,
    0, 0, 0, 0, 0, 0, 0, 0, 0, 0, 0, 0, 0, 1, 0, 0, 0, 0, 0, 0, 0, 0, 0, 0, 0, 0, 0, 0, 0, 0, 0, 0,
    0, 2, 0, 0, 0, 0, 0, 0, 0, 0, 0, 0, 0, 0, 0, 0, 0, 0, 0, 0, 0, 3, 0, 0, 0, 0, 0, 0, 0, 0, 0, 0,
    0, 0, 0, 0, 0, 0, 0, 0, 0, 4, 0, 0, 0, 0, 0, 0, 0, 0, 0, 0, 0, 0, 0, 0, 0, 0, 0, 0, 0, 5, 0, 0,
    0, 0, 0, 0, 0, 0, 0, 0, 0, 0, 0, 0, 0, 0, 0, 0, 0, 6,
];

/// The bundle of no commits.
const NOTHING: [u8; 16] = [83, 69, 71, 66, 78, 68, 76, 49, 0, 0, 0, 0, 0, 0, 0, 0];

/// The log of a clone that has no names but those of its heads.
const CLONED: [u8; 146] = [
    1, 0, 0, 0, 0, 0, 0, 0, 136, 2, 3, 0, 0, 0, 0, 0, 0, 0, 0, 0, 0, 0, 0, 0, 0, 0, 11, 0, 0, 0, 0,
    0, 0, 0, 10, 0, 0, 0, 1, 1, 0, 0, 0, 0, 0, 0, 0, 0, 10, 10, 0, 0, 0, 0, 0, 0, 0, 0, 2, 0, 0, 0,
    0, 0, 0, 0, 9, 0, 0, 0, 0, 0, 0, 0, 0, 0, 0, 0, 0, 0, 0, 0, 0, 0, 0, 0, 25, 0, 0, 0, 0, 0, 0,
    0, 10, 0, 0, 0, 0, 0, 0, 0, 0, 0, 0, 0, 0, 0, 0, 0, 0, 0, 0, 0, 161, 0, 1, 0, 0, 0, 0, 0, 0, 0,
    0, 0, 0, 0, 0, 0, 0, 0, 0, 0, 0, 0, 25, 0, 0, 0, 0, 0, 0, 0, 0, 0,
];

/// Bytes that are no log.
const NO_LOG: [u8; 10] = [1, 0, 0, 0, 0, 0, 0, 0, 5, 170];

/// What a log is.
#[derive(Clone, Copy)]
enum Of {
    Fork,
    Nothing,
    Cloned,
    NoLog,
}

/// The log's bytes.
fn log_of(of: Of) -> &'static [u8] {
    match of {
        Of::Fork => &LOG,
        Of::Nothing => &[],
        Of::Cloned => &CLONED,
        Of::NoLog => &NO_LOG,
    }
}

/// Its bundle, where it has one.
fn bundle_of(of: Of) -> &'static [u8] {
    match of {
        Of::Fork => &FORK,
        Of::Nothing => &NOTHING,
        Of::Cloned | Of::NoLog => &[],
    }
}

/// A log, the call of its disk and that of the sink that fail, the status, and how many bytes of the bundle are put.
type Case = (Of, u64, u64, u8, usize);

/// The first call has the number 1; none has 0. The fourth call of the disk is none.
const CASES: [Case; 9] = [
    (Of::Fork, 0, 0, 0, 175),
    (Of::Nothing, 0, 0, 0, 16),
    (Of::Cloned, 0, 0, 10, 0),
    (Of::NoLog, 0, 0, 4, 0),
    (Of::Fork, 1, 0, 3, 0),
    (Of::Fork, 3, 0, 3, 0),
    (Of::Fork, 4, 0, 0, 175),
    (Of::Fork, 0, 1, 6, 87),
    (Of::Cloned, 0, 1, 10, 0),
];

/// The status of the program's run over the log, how many changes it stores, and how many bytes of its input are left.
fn bundled(
    alloc: Global,
    words: &[String],
    log: &mut MemoryDisk,
    output: &mut MemorySink,
) -> Result<(u8, usize, u64), AllocError> {
    let mut input = MemorySource::new(alloc, b"0 status\n", 1, &[])?;
    let (status, changes) = ended(alloc, words, log, &mut input, output)?;
    Ok((status, changes, input.left()))
}

/// The same for the log's bytes, where this call of its disk fails.
fn bundled_of(
    alloc: Global,
    bytes: &[u8],
    fails: u64,
    output: &mut MemorySink,
) -> Result<(u8, usize, u64), AllocError> {
    let words = words_of(alloc, "bundle")?;
    let mut log = MemoryDisk::new(alloc, bytes, &[fails], None)?;
    bundled(alloc, &words, &mut log, output)
}

/// Whether the bundle, or a front of it, is put so, with nothing read and nothing stored.
fn is_bundled(alloc: Global, case: &Case) -> Result<bool, AllocError> {
    let (of, fails, sink, status, size) = *case;
    let mut output = MemorySink::new(alloc, &[sink])?;
    let ended = bundled_of(alloc, log_of(of), fails, &mut output)?;
    let put = output.bytes();
    Ok(ended == (status, 0, 9) && put.len() == size && bundle_of(of).starts_with(put))
}

/// The place of the first case that isn't so.
fn first_wrong(alloc: Global) -> Result<Option<usize>, AllocError> {
    for (place, case) in CASES.iter().enumerate() {
        if !is_bundled(alloc, case)? {
            return Ok(Some(place));
        }
    }
    Ok(None)
}

#[test]
fn a_bundle_is_put_whole_or_not(rt: HostRuntime) -> Result<(), AllocError> {
    assert_eq!(rt; first_wrong(rt.alloc())?, None);
    Ok(())
}
