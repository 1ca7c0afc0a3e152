//! An index of a million names, hashes and counters.

mod lookups;

use crate::telling::told;
use lookups::{count_added, count_found, counter_names, random_names};
use name_index::NameIndex;
use std::io;
use std::time::Instant;

/// What the works of an index are called: inserts, look-ups, look-ups of what it doesn't hold.
type Works = [&'static str; 3];

const HASHED: Works = [
    "1,000 inserts of 1,000 names",
    "look-ups of 1,000,000 names",
    "look-ups of 1,000,000 absent names",
];

const COUNTED: Works = [
    "1,000 inserts of 1,000 counters",
    "look-ups of 1,000,000 counters",
    "look-ups of 1,000,000 absent counters",
];

pub fn run(rt: &HostRuntime) -> io::Result<()> {
    time_hashed(rt)?;
    time_counted(rt)?;
    time_single(rt)
}

fn time_hashed(rt: &HostRuntime) -> io::Result<()> {
    let names = random_names(rt.alloc(), 1, 1_000_000)?;
    let others = random_names(rt.alloc(), 2, 1_000_000)?;
    time_index(rt, HASHED, &names, &others)
}

/// Names that are no hashes: they agree but for the last bytes.
fn time_counted(rt: &HostRuntime) -> io::Result<()> {
    let names = counter_names(rt.alloc(), 0, 1_000_000)?;
    let others = counter_names(rt.alloc(), 1_000_000, 1_000_000)?;
    time_index(rt, COUNTED, &names, &others)
}

fn time_index(rt: &HostRuntime, works: Works, names: &[u8], others: &[u8]) -> io::Result<()> {
    let [inserts, look_ups, absent] = works;
    let mut index = NameIndex::empty(rt.alloc());
    let start = Instant::now(rt)?;
    let added = count_added(rt.alloc(), &mut index, names, 20_000);
    told(rt, inserts, start, added)?;
    let start = Instant::now(rt)?;
    let found = count_found(&index, names, names);
    told(rt, look_ups, start, found)?;
    let start = Instant::now(rt)?;
    let none = count_found(&index, names, others);
    told(rt, absent, start, none)
}

fn time_single(rt: &HostRuntime) -> io::Result<()> {
    let names = random_names(rt.alloc(), 3, 100_000)?;
    let mut index = NameIndex::empty(rt.alloc());
    let start = Instant::now(rt)?;
    let added = count_added(rt.alloc(), &mut index, &names, 20);
    told(rt, "100,000 inserts of one name", start, added)
}
