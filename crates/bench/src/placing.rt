//! Placing 65,536 commits.

ghost use Rattle.std.specs.Prelude.{◌≤◌};

mod history;

use crate::telling::told;
use assign_ids::{Node, place};
use history::{Drawn, are_older, chain, fan, heads_of, merges};
use std::io;
use std::time::Instant;

const ROWS: u32 = 65_536;

pub fn run(rt: &HostRuntime) -> io::Result<()> {
    time_chain(rt)?;
    time_fan(rt)?;
    time_merges(rt)
}

fn time_chain(rt: &HostRuntime) -> io::Result<()> {
    let rows = chain(rt.alloc(), ROWS)?;
    time_placed(rt, "a chain of 65,536 commits", &rows, &[ROWS - 1])
}

fn time_fan(rt: &HostRuntime) -> io::Result<()> {
    let rows = fan(rt.alloc(), ROWS)?;
    let heads = heads_of(rt.alloc(), ROWS)?;
    time_placed(rt, "a fan of 65,536 commits", &rows, &heads)
}

fn time_merges(rt: &HostRuntime) -> io::Result<()> {
    let rows = merges(rt.alloc(), ROWS)?;
    time_placed(rt, "65,536 merges of eight parents", &rows, &[ROWS - 1])
}

/// Places these heads, and tells how many commits that gave and how long it took.
fn time_placed<const WIDTH: usize>(
    rt: &HostRuntime,
    what: &str,
    rows: &[[Node; WIDTH]],
    heads: &[u32],
) -> io::Result<()>
    requires { WIDTH ≤ 8 }
{
    if !are_older(rows) {
        return println!(rt; "{what}: a parent isn't older");
    }
    let drawn = Drawn { rows };
    let start = Instant::now(rt)?;
    let order = place(rt.alloc(), &drawn, heads)?;
    told(rt, what, start, order.len() as u64)
}
