//! The queries over a table against the plain graph.

use crate::asked::Asked;
use crate::draws::Draws;
use crate::plain::{Graph, PAIR_QUERIES, PairQuery, QUERIES, Query, bit, has};
use segment_codec::SegmentTable;
use std::alloc::AllocError;

/// A query that gives something else than the graph.
#[derive(Clone, Copy, Debug)]
pub enum Wrong {
    Made(Query, u64),
    MadeOfTwo(PairQuery, u64, u64),
    IsAncestor(u64, u64),
    FirstAncestor(u64, u64),
    /// The table has other ids than the graph.
    Ids,
}

pub type Found = Result<Option<Wrong>, AllocError>;

/// The first query of one set that goes wrong.
fn wrong_on<T: SegmentTable>(asked: &Asked<'_, T>, graph: &Graph, set: u64) -> Found {
    for query in &QUERIES {
        let query = *query;
        if asked.made(query, set)? != graph.made(query, set) {
            return Ok(Some(Wrong::Made(query, set)));
        }
    }
    Ok(None)
}

/// The first query of two sets that goes wrong.
fn wrong_on_two<T: SegmentTable>(
    asked: &Asked<'_, T>,
    graph: &Graph,
    first: u64,
    second: u64,
) -> Found {
    for query in &PAIR_QUERIES {
        let query = *query;
        if asked.made_of_two(query, first, second)? != graph.made_of_two(query, first, second) {
            return Ok(Some(Wrong::MadeOfTwo(query, first, second)));
        }
    }
    Ok(None)
}

/// What goes wrong with the walks from one place to another.
fn wrong_between<T: SegmentTable>(asked: &Asked<'_, T>, graph: &Graph, x: u64, y: u64) -> Found {
    if asked.is_ancestor(x, y)? != Some(has(graph.reach(y), x)) {
        return Ok(Some(Wrong::IsAncestor(x, y)));
    }
    if asked.first_ancestor(x, y) != graph.first_ancestor(x, y) {
        return Ok(Some(Wrong::FirstAncestor(x, y)));
    }
    Ok(None)
}

/// What goes wrong with a pair of places.
fn wrong_on_places<T: SegmentTable>(asked: &Asked<'_, T>, graph: &Graph, x: u64, y: u64) -> Found {
    if x <= y {
        if let Some(wrong) = wrong_on(asked, graph, bit(x) | bit(y))? {
            return Ok(Some(wrong));
        }
    }
    if let Some(wrong) = wrong_on_two(asked, graph, bit(x), bit(y))? {
        return Ok(Some(wrong));
    }
    wrong_between(asked, graph, x, y)
}

/// What goes wrong with so many pairs of drawn sets.
fn wrong_on_drawn<T: SegmentTable>(
    asked: &Asked<'_, T>,
    graph: &Graph,
    draws: &mut Draws,
    sets: u32,
) -> Found {
    for _set in 0..sets {
        let first = draws.set_below(graph.count());
        let second = draws.set_below(graph.count());
        if let Some(wrong) = wrong_on(asked, graph, first)? {
            return Ok(Some(wrong));
        }
        if let Some(wrong) = wrong_on_two(asked, graph, first, second)? {
            return Ok(Some(wrong));
        }
    }
    Ok(None)
}

/// What goes wrong with any two places, in either order, or with so many pairs of drawn sets.
pub fn wrong_in<T: SegmentTable>(
    asked: &Asked<'_, T>,
    graph: &Graph,
    draws: &mut Draws,
    sets: u32,
) -> Found {
    for x in 0..graph.count() {
        for y in 0..graph.count() {
            if let Some(wrong) = wrong_on_places(asked, graph, x, y)? {
                return Ok(Some(wrong));
            }
        }
    }
    wrong_on_drawn(asked, graph, draws, sets)
}
