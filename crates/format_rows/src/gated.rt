//! Bytes as a log behind gates: how many payloads it has, or why there is none.

ghost use Rattle.std.specs.Prelude.{◌≤◌, ◌^◌};

use disk_memory::MemoryDisk;
use gated_log::{LoadLog, Log};
use std::alloc::{AllocError, Global};
use std::test::Fail;

/// How many payloads the log of these bytes has, where it is only looked at.
fn peeked(alloc: Global, bytes: &[u8], limit: u64) -> Result<Result<u32, LoadLog>, AllocError>
    requires { (1 ≤ limit) × (limit ≤ 2 ^ 32) }
{
    let mut disk = MemoryDisk::new(alloc, bytes, &[], None)?;
    Ok(Log::peek(alloc, &mut disk, limit).map(|log| log.batch_count()))
}

/// The same where it is loaded.
fn loaded(alloc: Global, bytes: &[u8], limit: u64) -> Result<Result<u32, LoadLog>, AllocError>
    requires { (1 ≤ limit) × (limit ≤ 2 ^ 32) }
{
    let mut disk = MemoryDisk::new(alloc, bytes, &[], None)?;
    Ok(Log::load(alloc, &mut disk, limit).map(|log| log.batch_count()))
}

/// Whether both give what is wanted.
fn gives(
    alloc: Global,
    bytes: &[u8],
    limit: u64,
    wanted: Result<u32, LoadLog>,
) -> Result<bool, AllocError>
    requires { (1 ≤ limit) × (limit ≤ 2 ^ 32) }
{
    Ok(peeked(alloc, bytes, limit)? == wanted && loaded(alloc, bytes, limit)? == wanted)
}

/// Bytes, a limit, and how many payloads the log of these bytes has, or why it isn't loaded.
type Reading = (&'static [u8], u64, Result<u32, LoadLog>);

const READINGS: [Reading; 8] = [
    (&[], 9, Ok(0)),
    (&[1], 9, Ok(0)),
    (&[127, 1], 9, Ok(0)),
    (&[0, 1, 1, 1], 9, Ok(0)),
    (&[1, 0, 0, 0, 0, 0, 0, 0, 0, 2], 99, Ok(1)),
    (&[1, 0, 0, 0, 0, 0, 0, 0, 1, 9, 127, 1], 99, Ok(1)),
    (
        &[1, 0, 0, 0, 0, 0, 0, 0, 5, 170],
        99,
        Err(LoadLog::Damaged(0)),
    ),
    (
        &[1, 0, 0, 0, 0, 0, 0, 0, 5, 170],
        9,
        Err(LoadLog::TooLarge(10)),
    ),
];

#[test]
fn bytes_are_a_log_or_damaged(rt: HostRuntime) -> Result<(), Fail> {
    for (bytes, limit, wanted) in &READINGS {
        assert!(rt; gives(rt.alloc(), bytes, *limit, *wanted)?, "{wanted:?}");
    }
    Ok(())
}
