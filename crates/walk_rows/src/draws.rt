//! Drawn graphs.

use crate::asked::ids_of;
use crate::plain::{Graph, bit};
use sample_tables::Sample;
use std::alloc::{AllocError, Global};

fn next_random(x: u64) -> u64 {
    x.wrapping_mul(6364136223846793005)
        .wrapping_add(1442695040888963407)
}

/// Draws numbers.
#[derive(Drop)]
pub struct Draws {
    pub state: u64,
}

impl Draws {
    /// A number below the bound, which isn't 0.
    pub fn below(&mut self, bound: u64) -> u64 {
        self.state = next_random(self.state);
        (self.state >> 33) % bound.max(1)
    }

    /// Some of the places below a count.
    pub fn set_below(&mut self, count: u64) -> u64 {
        let mut set = 0;
        let rarity = self.below(12).saturating_add(1);
        for place in 0..count {
            if self.below(rarity) == 0 {
                set |= bit(place);
            }
        }
        set
    }
}

/// Adds the place, where it isn't there.
fn add_distinct(places: &mut Vec<u64>, place: u64) -> Result<(), AllocError> {
    if !places.contains(&place) {
        places.push(place)?;
    }
    Ok(())
}

/// Adds so many distinct places below one, or as many as are found.
fn add_drawn(
    parents: &mut Vec<u64>,
    draws: &mut Draws,
    place: u64,
    most: usize,
) -> Result<(), AllocError> {
    for _draw in 0..24 {
        if parents.len() < most {
            add_distinct(parents, draws.below(place))?;
        }
    }
    Ok(())
}

/// Adds these places in the other order.
fn add_reversed(parents: &mut Vec<u64>, places: &[u64]) -> Result<(), AllocError> {
    for place in places.iter().rev() {
        parents.push(*place)?;
    }
    Ok(())
}

/// Adds the parents of the commit at a place: none, the one before, an earlier one, some to eight, or those of the commit
/// before in the other order.
fn add_parents(
    parents: &mut Vec<u64>,
    draws: &mut Draws,
    place: u64,
    before: &[u64],
) -> Result<(), AllocError> {
    match draws.below(20) {
        0 => Ok(()),
        1..=9 => add_distinct(parents, place.saturating_sub(1)),
        10 | 11 => add_distinct(parents, draws.below(place)),
        12..=14 => add_reversed(parents, before),
        19 => add_drawn(parents, draws, place, 8),
        _ => add_drawn(parents, draws, place, 2),
    }
}

/// Adds a commit with drawn parents; the first has none.
fn draw_next(alloc: Global, draws: &mut Draws, rows: &mut Vec<Vec<u64>>) -> Result<(), AllocError> {
    let mut parents = Vec::new(alloc);
    let place = rows.len() as u64;
    if let Some(before) = rows.last() {
        add_parents(&mut parents, draws, place, before)?;
    }
    rows.push(parents)?;
    Ok(())
}

/// Adds so many commits.
pub fn draw_more(
    alloc: Global,
    draws: &mut Draws,
    rows: &mut Vec<Vec<u64>>,
    count: u64,
) -> Result<(), AllocError> {
    for _commit in 0..count {
        draw_next(alloc, draws, rows)?;
    }
    Ok(())
}

/// The parents of so many commits.
pub fn drawn(alloc: Global, draws: &mut Draws, count: u64) -> Result<Vec<Vec<u64>>, AllocError> {
    let mut rows = Vec::new(alloc);
    draw_more(alloc, draws, &mut rows, count)?;
    Ok(rows)
}

/// The plain graph of these parents.
pub fn graph_of(alloc: Global, rows: &[Vec<u64>]) -> Result<Graph, AllocError> {
    let mut graph = Graph::empty(alloc);
    for parents in rows {
        graph.push(parents)?;
    }
    Ok(graph)
}

/// Adds a commit with these parents to the table. Answers whether it may come there.
pub fn push_commit(
    alloc: Global,
    sample: &mut Sample,
    parents: &[u64],
) -> Result<bool, AllocError> {
    let ids = ids_of(alloc, 64, parents)?;
    if !sample.may_push(&ids, 1) {
        return Ok(false);
    }
    sample.push(&ids, 1)?;
    Ok(true)
}

/// The graph as a flat table; `None` where some parents aren't those of a commit.
pub fn sample_of(alloc: Global, rows: &[Vec<u64>]) -> Result<Option<Sample>, AllocError> {
    let mut sample = Sample::empty(alloc);
    for parents in rows {
        if !push_commit(alloc, &mut sample, parents)? {
            return Ok(None);
        }
    }
    Ok(Some(sample))
}
