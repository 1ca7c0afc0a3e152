//! Requests in frames, and their answers, over a mirror of the chain.

use crate::chain::chain_mirror;
use crate::digits::bytes_of;
use line_io::{MemorySink, MemorySource};
use remote_serve::{Served, serve_remote};
use std::alloc::{AllocError, Global};
use std::test::Fail;

/// What a case is; the input and the output, in hexadecimal digits; the limit; the end; and the calls at which the mirror fails.
type Case = (
    &'static str,
    &'static str,
    &'static str,
    u64,
    Served,
    &'static [u64],
);

const CASES: [Case; 17] = [
    ("nothing", "", "", 1000, Served::End, &[]),
    ("three bytes", "000000", "", 1000, Served::BadFrame, &[]),
    (
        "names, a way, and no request",
        "000000210300000000000000000000000000000000000000190000000000000003000000020000002b040001000000000000000000000000000000000000001900000000000000000000000000000000000000140000000107",
        "0000002d8300000002000000000000000000000000000000000000001600000000000000000000000000000000000000150000001d840000000000000000000000000000000000000019000000000000000500000002ff03",
        1048576,
        Served::End,
        &[],
    ),
    (
        "a refresh and clone data",
        "00000001010000000102",
        "00000001810000004e820000000100000000000000000000000000000009000000000100000000000000090000000000000000000000000000000000000019000000010000000000000000000000000000000000000019",
        1000,
        Served::End,
        &[],
    ),
    (
        "no way",
        "000000170400000000000000000000000000000000000000000014",
        "0000000185",
        1000,
        Served::End,
        &[],
    ),
    (
        "no names",
        "00000021030000000000000000000000000000000000000019000000000000000a0000000100000021030000000000000000000000000000000000000099000000000000000000000005",
        "000000058300000000000000058300000000",
        1000,
        Served::End,
        &[],
    ),
    (
        "as many names as there are",
        "00000021030000000000000000000000000000000000000012000000000000000000010000",
        "000000418300000003000000000000000000000000000000000000001200000000000000000000000000000000000000110000000000000000000000000000000000000010",
        1000,
        Served::End,
        &[],
    ),
    (
        "too many names",
        "0000002103000000000000000000000000000000000000001200000000000000000001000100000021030000000000000000000000000000000000000012000000000000000000000000",
        "00000002ff0300000002ff03",
        1000,
        Served::End,
        &[],
    ),
    (
        "a length of 0",
        "000000010700000000",
        "00000002ff03",
        1000,
        Served::BadFrame,
        &[],
    ),
    (
        "a length above the longest",
        "0000000107002000010000000107",
        "00000002ff03",
        1000,
        Served::BadFrame,
        &[],
    ),
    (
        "the limit within a frame",
        "00000001070000000107",
        "00000002ff03",
        9,
        Served::Limit,
        &[],
    ),
    (
        "the limit behind a frame",
        "00000001070000000107",
        "00000002ff03",
        5,
        Served::Limit,
        &[],
    ),
    (
        "all the limit",
        "00000001070000000107",
        "00000002ff0300000002ff03",
        10,
        Served::End,
        &[],
    ),
    (
        "a bad length before the limit",
        "0000000107000000000000000107",
        "00000002ff03",
        9,
        Served::BadFrame,
        &[],
    ),
    (
        "an end within the limit",
        "000000010700000001",
        "00000002ff03",
        9,
        Served::BadFrame,
        &[],
    ),
    (
        "the mirror fails twice",
        "00000001010000002103000000000000000000000000000000000000001900000000000000030000000200000001070000000101",
        "00000002ff010000002d83000000020000000000000000000000000000000000000016000000000000000000000000000000000000001500000002ff0300000002ff01",
        1000,
        Served::End,
        &[1, 3],
    ),
    (
        "bytes behind requests",
        "0000000201000000000202000000000103000000010400000001ff",
        "00000002ff0300000002ff0300000002ff0300000002ff0300000002ff03",
        1000,
        Served::End,
        &[],
    ),
];

/// How serving this input in pieces of so many bytes ends, and whether the output is this one.
fn serve_case(alloc: Global, case: &Case, cut: u32) -> Result<bool, AllocError> {
    let (_, input, output, limit, end, fails) = case;
    let input = bytes_of(alloc, input)?;
    let wanted = bytes_of(alloc, output)?;
    let mut sink = MemorySink::new(alloc, &[])?;
    let served = serve_bytes(alloc, &input, cut, *limit, fails, &mut sink)?;
    Ok(served == *end && sink.bytes() == wanted.as_slice())
}

/// How serving this input ends.
fn serve_bytes(
    alloc: Global,
    input: &[u8],
    cut: u32,
    limit: u64,
    fails: &[u64],
    sink: &mut MemorySink,
) -> Result<Served, AllocError> {
    if cut == 0 {
        return Err(AllocError);
    }
    let mut remote = chain_mirror(alloc, fails)?;
    let mut source = MemorySource::new(alloc, input, cut, &[])?;
    Ok(serve_remote(alloc, &mut remote, &mut source, sink, limit))
}

/// The number of the first case that doesn't come out so; how many there are where each does.
fn first_wrong(alloc: Global, cut: u32) -> Result<usize, AllocError> {
    for i in 0..CASES.len() {
        if !serve_case(alloc, &CASES[i], cut)? {
            return Ok(i);
        }
    }
    Ok(CASES.len())
}

#[test]
fn requests_are_answered(rt: HostRuntime) -> Result<(), AllocError> {
    assert_eq!(rt; first_wrong(rt.alloc(), 100_000)?, CASES.len());
    Ok(())
}

#[test]
fn requests_in_pieces_are_answered(rt: HostRuntime) -> Result<(), AllocError> {
    assert!(rt; serve_case(rt.alloc(), &CASES[2], 1)?);
    assert!(rt; serve_case(rt.alloc(), &CASES[3], 3)?);
    Ok(())
}
