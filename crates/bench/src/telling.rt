//! How a work is told.

use std::io::{self, Eprint, Print};
use std::time::Instant;

/// Tells what was done and what it gave on the output, and how long it took on the error output.
pub fn told(rt: &HostRuntime, what: &str, start: Instant, gave: u64) -> io::Result<()> {
    let time = start.elapsed(rt)?;
    eprintln!(rt; "{what}: {} us", time.as_micros())?;
    println!(rt; "{what}: {gave}")
}

/// Says on both outputs what comes.
pub fn headed(rt: &HostRuntime, name: &str) -> io::Result<()> {
    eprintln!(rt; "{name}:")?;
    println!(rt; "{name}:")
}

/// Says on both outputs what comes, of what, and how often.
pub fn headed_times(rt: &HostRuntime, name: &str, what: &str, times: u64) -> io::Result<()> {
    eprintln!(rt; "{name}, {what}, {times} times:")?;
    println!(rt; "{name}, {what}, {times} times:")
}
