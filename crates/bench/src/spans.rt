//! Sets of 100,000 spans of three ids.

mod sets;

use crate::telling::told;
use sets::{count_found, spans_anywhere, spans_down};
use span_set::IdSet;
use std::io;
use std::time::Instant;

const SPANS: u64 = 100_000;

pub fn run(rt: &HostRuntime) -> io::Result<()> {
    let start = Instant::now(rt)?;
    let some = spans_down(rt.alloc(), SPANS, 0)?;
    told(rt, "insert 100,000 spans below, ids", start, some.count())?;
    time_two(rt, &some)?;
    time_anywhere(rt)
}

fn time_two(rt: &HostRuntime, some: &IdSet) -> io::Result<()> {
    let others = spans_down(rt.alloc(), SPANS, 4)?;
    time_union(rt, some, &others)
}

fn time_union(rt: &HostRuntime, some: &IdSet, others: &IdSet) -> io::Result<()> {
    let start = Instant::now(rt)?;
    let all = some.union(rt.alloc(), others)?;
    told(rt, "union of 100,000 and 100,000, ids", start, all.count())?;
    time_all(rt, &all, others)
}

fn time_all(rt: &HostRuntime, all: &IdSet, others: &IdSet) -> io::Result<()> {
    time_inter(rt, all, others)?;
    time_minus(rt, all, others)?;
    time_upper(rt, all)?;
    time_members(rt, all)
}

fn time_inter(rt: &HostRuntime, all: &IdSet, others: &IdSet) -> io::Result<()> {
    let start = Instant::now(rt)?;
    let both = all.inter(rt.alloc(), others)?;
    told(rt, "inter of 200,000 and 100,000, ids", start, both.count())
}

fn time_minus(rt: &HostRuntime, all: &IdSet, others: &IdSet) -> io::Result<()> {
    let start = Instant::now(rt)?;
    let rest = all.minus(rt.alloc(), others)?;
    told(rt, "minus of 200,000 and 100,000, ids", start, rest.count())
}

fn time_upper(rt: &HostRuntime, all: &IdSet) -> io::Result<()> {
    let start = Instant::now(rt)?;
    let upper = all.take_greatest(rt.alloc(), 3 * SPANS)?;
    told(rt, "take the upper half, ids", start, upper.count())
}

fn time_members(rt: &HostRuntime, all: &IdSet) -> io::Result<()> {
    // the count of members bounds that of ids
    let _bound = all.count();
    let start = Instant::now(rt)?;
    let down = all.ids_down().count();
    told(rt, "ids down of 200,000 spans", start, down as u64)?;
    let start = Instant::now(rt)?;
    let found = count_found(all, SPANS);
    told(rt, "contains, 100,000 times, found", start, found)
}

fn time_anywhere(rt: &HostRuntime) -> io::Result<()> {
    let start = Instant::now(rt)?;
    let set = spans_anywhere(rt.alloc(), 5_000)?;
    told(rt, "insert 5,000 spans anywhere, ids", start, set.count())
}
