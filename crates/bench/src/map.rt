//! A map of a million names in a thousand payloads.

mod payloads;

use crate::telling::told;
use name_map::NameMap;
use payloads::{NAMES, count_added, count_counted, count_ids, count_names, log_bytes};
use std::io;
use std::time::Instant;

/// How many payloads the log has.
const PAYLOADS: u64 = 1_000;

pub fn run(rt: &HostRuntime) -> io::Result<()> {
    let log = log_bytes(rt.alloc(), PAYLOADS)?;
    time_map(rt, &log)
}

fn time_map(rt: &HostRuntime, log: &[u8]) -> io::Result<()> {
    let mut map = NameMap::empty(rt.alloc());
    let start = Instant::now(rt)?;
    let added = count_added(&mut map, log);
    told(rt, "payloads of 1,000 names added", start, added)?;
    time_look_ups(rt, &map, log)
}

fn time_look_ups(rt: &HostRuntime, map: &NameMap, log: &[u8]) -> io::Result<()> {
    let start = Instant::now(rt)?;
    let named = count_names(map, log, PAYLOADS * NAMES);
    told(rt, "names of random ids", start, named)?;
    let start = Instant::now(rt)?;
    let found = count_ids(map, log, PAYLOADS * NAMES);
    told(rt, "ids of random names", start, found)?;
    let start = Instant::now(rt)?;
    let counted = count_counted(map, PAYLOADS * NAMES);
    told(rt, "counts below a bound", start, counted)
}
