//! A log that the program writes anew, by its words, over disks and a sink that fail.

use crate::modes::words_of;
use dag_run::top;
use disk_memory::MemoryDisk;
use disk_trait::Disk;
use line_io::{MemorySink, MemorySource};
use mirror_set::Mirrors;
use remote_trait::FixedRemote;
use std::alloc::{AllocError, Global};

/// Two flushes: of two commits into master with one outside, and of one more.
const FLUSHES: [u8; 269] = [
    1, 0, 0, 0, 0, 0, 0, 0, 149, 2, 1, 0, 0, 0, 0, 0, 0, 0, 0, 0, 0, 0, 0, 0, 0, 0, 2, 0, 0, 0, 0,
    0, 0, 0, 0, 0, 0, 0, 1, 1, 0, 0, 0, 0, 0, 0, 0, 0, 1, 1, 0, 0, 0, 0, 0, 0, 0, 0, 2, 0, 0, 0, 0,
    0, 0, 0, 0, 0, 0, 0, 0, 0, 0, 0, 0, 0, 0, 0, 0, 0, 0, 0, 0, 0, 0, 0, 161, 0, 0, 0, 0, 0, 0, 0,
    1, 0, 0, 0, 0, 0, 0, 0, 0, 0, 0, 0, 0, 0, 0, 0, 0, 0, 0, 0, 193, 0, 0, 0, 0, 0, 1, 0, 0, 0, 1,
    0, 0, 1, 0, 0, 0, 0, 0, 0, 0, 0, 1, 0, 0, 0, 0, 0, 0, 0, 0, 0, 0, 0, 0, 0, 0, 0, 0, 0, 0, 0, 0,
    177, 1, 0, 0, 0, 0, 0, 0, 0, 101, 2, 1, 0, 0, 0, 0, 0, 0, 0, 2, 0, 0, 0, 0, 0, 0, 0, 2, 0, 0,
    0, 0, 0, 0, 0, 0, 0, 0, 0, 0, 0, 0, 0, 0, 0, 0, 0, 0, 0, 0, 0, 0, 0, 2, 0, 0, 0, 1, 0, 0, 1, 0,
    0, 0, 0, 0, 0, 1, 1, 1, 0, 0, 0, 0, 0, 0, 0, 0, 0, 0, 0, 0, 0, 0, 0, 0, 0, 0, 0, 0, 177, 0, 0,
    0, 0, 0, 0, 0, 0, 0, 0, 0, 0, 0, 0, 0, 0, 0, 0, 0, 209, 0,
];

/// The same in one batch.
const FLUSHES_WHOLE: [u8; 179] = [
    1, 0, 0, 0, 0, 0, 0, 0, 169, 2, 3, 0, 0, 0, 0, 0, 0, 0, 0, 0, 0, 0, 0, 0, 0, 0, 2, 0, 0, 0, 0,
    0, 0, 0, 0, 0, 0, 0, 1, 1, 0, 0, 0, 0, 0, 0, 0, 0, 1, 1, 0, 0, 0, 0, 0, 0, 0, 0, 2, 0, 0, 0, 0,
    0, 0, 0, 0, 0, 0, 0, 0, 0, 0, 0, 0, 0, 0, 0, 0, 0, 0, 0, 0, 0, 0, 0, 161, 0, 0, 0, 0, 0, 0, 0,
    1, 0, 0, 0, 0, 0, 0, 0, 0, 0, 0, 0, 0, 0, 0, 0, 0, 0, 0, 0, 193, 0, 0, 0, 0, 0, 2, 0, 0, 0, 1,
    0, 0, 1, 0, 0, 0, 0, 0, 0, 1, 1, 1, 0, 0, 0, 0, 0, 0, 0, 0, 0, 0, 0, 0, 0, 0, 0, 0, 0, 0, 0, 0,
    177, 0, 0, 0, 0, 0, 0, 0, 0, 0, 0, 0, 0, 0, 0, 0, 0, 0, 0, 0, 209, 0,
];

/// How the line begins that is put.
const LINE: &[u8] = b"ok compacted 2 2 269 179\n";

/// The call of the log's disk, of the spare disk and of the sink that fail, the status, and how many bytes of the line are put.
type Case = (u64, u64, u64, u8, usize);

/// The first call has the number 1; none has 0. The fourth call of the log is none, nor is the ninth of the spare.
const CASES: [Case; 9] = [
    (0, 0, 0, 0, 25),
    (1, 0, 0, 3, 0),
    (3, 0, 0, 3, 0),
    (4, 0, 0, 0, 25),
    (0, 1, 0, 13, 0),
    (0, 8, 0, 13, 0),
    (0, 9, 0, 0, 25),
    (0, 0, 1, 6, 12),
    (0, 5, 1, 13, 0),
];

/// Both disks and the sink.
#[derive(Drop)]
struct Places {
    log: MemoryDisk,
    spare: MemoryDisk,
    output: MemorySink,
}

/// Those of a log that is there and of no other, of which these calls fail.
fn places_of(alloc: Global, case: &Case) -> Result<Places, AllocError> {
    let (log, spare, sink, _, _) = *case;
    let log = MemoryDisk::new(alloc, &FLUSHES, &[log], None)?;
    let spare = MemoryDisk::new(alloc, &[], &[spare], None)?;
    let output = MemorySink::new(alloc, &[sink])?;
    Ok(Places { log, spare, output })
}

/// The status of the program's run over them, beside no mirrors, where no more of the input was read and nothing else was stored.
fn ended(alloc: Global, words: &[String], places: &mut Places) -> Result<Option<u8>, AllocError> {
    let mut input = MemorySource::new(alloc, b"0 status\n", 1, &[])?;
    let mut none: Mirrors<FixedRemote> = Mirrors::new(Vec::new(alloc));
    let report = top(
        alloc,
        words,
        &mut places.log,
        &mut places.spare,
        &mut none,
        &mut input,
        &mut places.output,
    );
    let is_aside = input.left() == 9 && report.changes.len() == 0;
    Ok(is_aside.then_some(report.status))
}

/// The same by the word of the mode.
fn ran(alloc: Global, places: &mut Places) -> Result<Option<u8>, AllocError> {
    let words = words_of(alloc, "compact")?;
    ended(alloc, &words, places)
}

/// Whether a front of so many bytes of the line was put, the log's bytes stay, and where a line was to be put the whole is written.
fn are_left(places: &Places, case: &Case) -> bool {
    let (_, _, _, status, size) = *case;
    let put = places.output.bytes();
    let is_put = put.len() == size && LINE.starts_with(put);
    let is_left = status == 13 || (places.spare.bytes() == FLUSHES_WHOLE.as_slice()) == (size > 0);
    let is_quiet = (places.spare.clock() == 0) == (status == 3);
    is_put && is_left && is_quiet && places.log.bytes() == FLUSHES.as_slice()
}

/// Whether a case ends so.
fn is_told(alloc: Global, case: &Case) -> Result<bool, AllocError> {
    let mut places = places_of(alloc, case)?;
    let status = ran(alloc, &mut places)?;
    Ok(status == Some(case.3) && are_left(&places, case))
}

/// The place of the first case that ends otherwise.
fn first_wrong(alloc: Global) -> Result<Option<usize>, AllocError> {
    for (place, case) in CASES.iter().enumerate() {
        if !is_told(alloc, case)? {
            return Ok(Some(place));
        }
    }
    Ok(None)
}

#[test]
fn faults_of_both_disks_are_told(rt: HostRuntime) -> Result<(), AllocError> {
    assert_eq!(rt; first_wrong(rt.alloc())?, None);
    Ok(())
}
