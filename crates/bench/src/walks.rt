//! The queries over flat tables of two drawn histories.

ghost use Rattle.std.specs.Prelude.{◌≤◌};

mod draws;
mod queries;

use crate::telling::{headed, told};
use draws::Apart;
use queries::{OfAll, Queries, Query};
use sample_tables::{Rule, draw_history};
use segment_codec::SegmentTable;
use std::io;
use std::time::Instant;

/// The demo's rule: of sixteen commits about one is a merge and one begins a branch.
const PLAIN: Rule = Rule {
    merges: 1,
    branches: 1,
};

/// Of sixteen commits about six are merges and one begins a branch.
const MERGES: Rule = Rule {
    merges: 6,
    branches: 1,
};

/// Times each query over the two histories of so many commits.
pub fn run(rt: &HostRuntime, size: u64) -> io::Result<()>
    requires { size ≤ 16000000 }
{
    time_history(rt, "plain history", PLAIN, size)?;
    time_history(rt, "history of merges", MERGES, size)
}

/// Times each query over the history that the rule gives.
fn time_history(rt: &HostRuntime, name: &str, rule: Rule, size: u64) -> io::Result<()>
    requires { size ≤ 16000000 }
{
    headed(rt, name)?;
    let start = Instant::now(rt)?;
    let sample = draw_history(rt.alloc(), rule, size, 0)?;
    told(
        rt,
        "commits drawn and put into a table",
        start,
        sample.count(),
    )?;
    let view = sample.view(sample.count());
    time_all(rt, &Queries::new(rt.alloc(), &view))
}

fn time_all<T: SegmentTable>(rt: &HostRuntime, table: &Queries<'_, T>) -> io::Result<()> {
    time_look_ups(rt, table)?;
    time_ancestors(rt, table)?;
    time_all_at_once(rt, table)?;
    time_upward(rt, table, "of a low id", 10)?;
    time_upward(rt, table, "of a middle id", table.count() / 2)?;
    time_pairs(rt, table, "1000 near pairs", Apart::Near, 1000)?;
    time_pairs(rt, table, "20 far pairs", Apart::Far, 20)?;
    time_ten(rt, table)
}

fn time_look_ups<T: SegmentTable>(rt: &HostRuntime, table: &Queries<'_, T>) -> io::Result<()> {
    time(rt, table, "flat_at, all segments", Query::SegmentsFrom(0))?;
    time(
        rt,
        table,
        "flat_at, all parents of segments",
        Query::ParentsFrom(0),
    )?;
    time(
        rt,
        table,
        "flat, a random id for each commit",
        Query::RandomIds,
    )
}

fn time_ancestors<T: SegmentTable>(rt: &HostRuntime, table: &Queries<'_, T>) -> io::Result<()> {
    let tenth = table.count() / 10;
    time(rt, table, "ancestors of the head", Query::Ancestors)?;
    time(
        rt,
        table,
        "first_ancestor of the head, a tenth down",
        Query::FirstAncestor(tenth),
    )?;
    time(
        rt,
        table,
        "is_ancestor, 100 random pairs",
        Query::IsAncestor(100),
    )?;
    time(
        rt,
        table,
        "inter(X,ancestors(Y)), 100 random pairs",
        Query::InterAncestors(100),
    )
}

fn time_all_at_once<T: SegmentTable>(rt: &HostRuntime, table: &Queries<'_, T>) -> io::Result<()> {
    time(rt, table, "parents(all)", Query::OfAll(OfAll::Parents))?;
    time(rt, table, "heads(all)", Query::OfAll(OfAll::Heads))?;
    time(rt, table, "roots(all)", Query::OfAll(OfAll::Roots))?;
    time(rt, table, "merges(all)", Query::OfAll(OfAll::Merges))
}

fn time_upward<T: SegmentTable>(
    rt: &HostRuntime,
    table: &Queries<'_, T>,
    whose: &str,
    place: u64,
) -> io::Result<()> {
    headed(rt, whose)?;
    time(
        rt,
        table,
        "flat_at, the segments above",
        Query::SegmentsFrom(place),
    )?;
    time(
        rt,
        table,
        "flat_at, the parents of these",
        Query::ParentsFrom(place),
    )?;
    time(rt, table, "children", Query::Children(place))?;
    time(rt, table, "descendants", Query::Descendants(place))?;
    time(rt, table, "range to the head", Query::RangeToHead(place))
}

fn time_pairs<T: SegmentTable>(
    rt: &HostRuntime,
    table: &Queries<'_, T>,
    which: &str,
    apart: Apart,
    times: u64,
) -> io::Result<()> {
    headed(rt, which)?;
    time(rt, table, "sets alone", Query::Sets(apart, times))?;
    time(rt, table, "only", Query::Only(apart, times))?;
    time(rt, table, "gca", Query::Gca(apart, times))
}

fn time_ten<T: SegmentTable>(rt: &HostRuntime, table: &Queries<'_, T>) -> io::Result<()> {
    time(rt, table, "common of ten random ids", Query::CommonOfTen)?;
    time(rt, table, "tips of ten random ids", Query::TipsOfTen)
}

fn time<T: SegmentTable>(
    rt: &HostRuntime,
    table: &Queries<'_, T>,
    what: &str,
    query: Query,
) -> io::Result<()> {
    let start = Instant::now(rt)?;
    let counted = table.counted(query)?;
    told(rt, what, start, counted)
}
