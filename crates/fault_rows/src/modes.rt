//! Runs of the program by its words, and a demonstration that ends at a sink that fails.

use dag_run::top;
use disk_memory::MemoryDisk;
use disk_trait::Disk;
use line_io::{MemorySink, MemorySource};
use mirror_set::Mirrors;
use remote_trait::FixedRemote;
use std::alloc::{AllocError, Global};

/// The words of a text.
pub(crate) fn words_of(alloc: Global, text: &str) -> Result<Vec<String>, AllocError> {
    let mut words = Vec::new(alloc);
    for word in text.split_whitespace() {
        words.push(String::from_str(alloc, word)?)?;
    }
    Ok(words)
}

/// The status of the program's run, and how many changes it stores.
pub(crate) fn ended(
    alloc: Global,
    words: &[String],
    log: &mut MemoryDisk,
    input: &mut MemorySource,
    output: &mut MemorySink,
) -> Result<(u8, usize), AllocError> {
    let mut spare = MemoryDisk::new(alloc, &[], &[], None)?;
    let mut none: Mirrors<FixedRemote> = Mirrors::new(Vec::new(alloc));
    let report = top(alloc, words, log, &mut spare, &mut none, input, output);
    Ok((report.status, report.changes.len()))
}

/// The status of a run, how many changes it stores, how many bytes of its line are left, and the log's clock.
type Ended = (u8, usize, u64, u64);

/// How the program's run over a fresh log ends. The log and the source fail at these calls.
fn ended_afresh(
    alloc: Global,
    words: &[String],
    fails: &[u64],
    output: &mut MemorySink,
) -> Result<Ended, AllocError> {
    let mut log = MemoryDisk::new(alloc, &[], fails, None)?;
    let mut input = MemorySource::new(alloc, b"0 status\n", 1, fails)?;
    let (status, changes) = ended(alloc, words, &mut log, &mut input, output)?;
    Ok((status, changes, input.left(), log.clock()))
}

/// The same for the words of a text.
fn ended_by(
    alloc: Global,
    text: &str,
    fails: &[u64],
    output: &mut MemorySink,
) -> Result<Ended, AllocError> {
    let words = words_of(alloc, text)?;
    ended_afresh(alloc, &words, fails, output)
}

/// Whether a sink that takes half of the 24 bytes of the replies ends a demonstration, which touches neither log nor source.
fn is_demo_ended_by_sink(alloc: Global) -> Result<bool, AllocError> {
    let mut output = MemorySink::new(alloc, &[1])?;
    let ended = ended_by(alloc, "demo --size 3", &[1], &mut output)?;
    Ok(ended == (6, 0, 9, 0) && output.bytes() == b"ok 3 0 0\nok ".as_slice())
}

#[test]
fn a_sink_that_fails_ends_a_demonstration(rt: HostRuntime) -> Result<(), AllocError> {
    assert!(rt; is_demo_ended_by_sink(rt.alloc())?);
    Ok(())
}
