//! Sources and sinks that fail at one of their calls.

use crate::chain::chain_mirror;
use crate::digits::bytes_of;
use line_io::{MemorySink, MemorySource};
use remote_serve::{Served, serve_remote};
use std::alloc::{AllocError, Global};

/// Two requests: for two names, and one that is none.
const INPUT: &str =
    "000000210300000000000000000000000000000000000000190000000000000003000000020000000107";

/// The answers to both.
const OUTPUT: &str =
    "0000002d830000000200000000000000000000000000000000000000160000000000000000000000000000000000000015\
00000002ff03";

/// How many bytes the first request's frame has, and the second's.
const FRAMES: [u64; 2] = [37, 5];

/// How many bytes the first answer's frame has.
const FIRST_ANSWER: usize = 49;

/// How serving the two requests in pieces of seven bytes ends, where the source fails at that call, and how many bytes were put.
fn with_source(alloc: Global, fails: u64) -> Result<(Served, usize), AllocError> {
    let input = bytes_of(alloc, INPUT)?;
    let mut remote = chain_mirror(alloc, &[])?;
    let mut source = MemorySource::new(alloc, &input, 7, &[fails])?;
    let mut sink = MemorySink::new(alloc, &[])?;
    let end = serve_remote(alloc, &mut remote, &mut source, &mut sink, 1000);
    Ok((end, sink.bytes().len()))
}

/// What `with_source` has to answer: the source fails at that of its calls, each of which gives seven bytes.
fn wanted_of_source(fails: u64) -> (Served, usize) {
    let calls = fails.clamp(1, 10);
    let given = 7 * (calls - 1);
    if given < FRAMES[0] {
        return (Served::SourceFault, 0);
    }
    if given < FRAMES[0] + FRAMES[1] {
        return (Served::SourceFault, FIRST_ANSWER);
    }
    (Served::SourceFault, OUTPUT.len() / 2)
}

/// Whether the two requests, whose sink fails at that call, end so, with a front of the answers put.
fn fails_in_sink(alloc: Global, fails: u64, end: Served) -> Result<bool, AllocError> {
    let input = bytes_of(alloc, INPUT)?;
    let wanted = bytes_of(alloc, OUTPUT)?;
    let mut remote = chain_mirror(alloc, &[])?;
    let mut source = MemorySource::new(alloc, &input, 100, &[])?;
    let mut sink = MemorySink::new(alloc, &[fails])?;
    let ended = serve_remote(alloc, &mut remote, &mut source, &mut sink, 1000);
    Ok(ended == end && wanted.starts_with(sink.bytes()))
}

/// The first call of the source at which it doesn't come out so, if there is one.
fn first_wrong(alloc: Global) -> Result<Option<u64>, AllocError> {
    for fails in 1..8 {
        if with_source(alloc, fails)? != wanted_of_source(fails) {
            return Ok(Some(fails));
        }
    }
    Ok(None)
}

#[test]
fn whole_frames_are_answered_where_the_source_fails(rt: HostRuntime) -> Result<(), AllocError> {
    assert_eq!(rt; first_wrong(rt.alloc())?, None);
    Ok(())
}

#[test]
fn a_front_is_put_where_the_sink_fails(rt: HostRuntime) -> Result<(), AllocError> {
    assert!(rt; fails_in_sink(rt.alloc(), 1, Served::SinkFault)?);
    assert!(rt; fails_in_sink(rt.alloc(), 2, Served::SinkFault)?);
    assert!(rt; fails_in_sink(rt.alloc(), 3, Served::End)?);
    Ok(())
}
