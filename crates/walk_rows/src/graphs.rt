//! Flat tables of drawn graphs, and of graphs of a few commits with their answers.

use crate::asked::Asked;
use crate::compared::{Found, Wrong, wrong_in};
use crate::draws::{Draws, drawn, graph_of, push_commit, sample_of};
use crate::edged::Edged;
use crate::plain::{Graph, PairQuery, Query};
use edge_index::EdgeIndex;
use flat_segments::FlatView;
use sample_tables::Sample;
use segment_codec::SegmentTable;
use std::alloc::{AllocError, Global};
use std::test::Fail;

/// What goes wrong over the commits below a count.
fn wrong_below(
    alloc: Global,
    draws: &mut Draws,
    sample: &Sample,
    graph: &Graph,
    below: u64,
) -> Found {
    if below > sample.count() {
        return Ok(Some(Wrong::Ids));
    }
    let view = sample.view(below);
    let asked = Asked {
        alloc,
        table: &view,
        masters: below,
    };
    let cut = graph.cut(alloc, below as usize)?;
    if let Some(wrong) = wrong_by_edges(alloc, draws, view, &cut)? {
        return Ok(Some(wrong));
    }
    wrong_in(&asked, &cut, draws, 150)
}

/// What goes wrong over a view that has edges of two thirds of its segments.
fn wrong_by_edges(alloc: Global, draws: &mut Draws, view: FlatView<'_>, graph: &Graph) -> Found {
    let count = view.flat_count();
    let mut index = EdgeIndex::empty(alloc);
    index.grow(alloc, &view, count - count / 3)?;
    let table = Edged::over(view, &index);
    let asked = Asked {
        alloc,
        table: &table,
        masters: graph.count(),
    };
    wrong_in(&asked, graph, draws, 5)
}

/// What goes wrong over a drawn graph of 60 commits, and below which of them.
fn wrong_drawn(alloc: Global, draws: &mut Draws) -> Result<Option<(Wrong, u64)>, AllocError> {
    let rows = drawn(alloc, draws, 60)?;
    let Some(sample) = sample_of(alloc, &rows)? else {
        return Ok(Some((Wrong::Ids, 0)));
    };
    let graph = graph_of(alloc, &rows)?;
    wrong_in_cuts(alloc, draws, &sample, &graph)
}

/// How many of the 60 commits views have.
const CUTS: [u64; 5] = [60, 59, 41, 20, 1];

/// What goes wrong over the first of the 60 commits, and below which.
fn wrong_in_cuts(
    alloc: Global,
    draws: &mut Draws,
    sample: &Sample,
    graph: &Graph,
) -> Result<Option<(Wrong, u64)>, AllocError> {
    if sample.count() != 60 {
        return Ok(Some((Wrong::Ids, sample.count())));
    }
    for below in &CUTS {
        if let Some(wrong) = wrong_below(alloc, draws, sample, graph, *below)? {
            return Ok(Some((wrong, *below)));
        }
    }
    Ok(None)
}

/// What goes wrong over four drawn graphs, and below which commits.
fn wrong_in_four(alloc: Global) -> Result<Option<(Wrong, u64)>, AllocError> {
    let mut draws = Draws { state: 20 };
    for _graph in 0..4 {
        let wrong = wrong_drawn(alloc, &mut draws)?;
        if wrong.is_some() {
            return Ok(wrong);
        }
    }
    Ok(None)
}

#[test]
fn drawn_graphs_are_walked(rt: HostRuntime) -> Result<(), Fail> {
    let wrong = wrong_in_four(rt.alloc())?;
    assert!(rt; wrong.is_none(), "{wrong:?}");
    Ok(())
}

/// The commit 1 on 0, 2 and 3 on 1, 4 on 3, and 5 a merge of 2 and 4.
const DAY: [&[u64]; 6] = [&[], &[0], &[1], &[1], &[3], &[2, 4]];

const CHAIN: [&[u64]; 3] = [&[], &[0], &[1]];

/// Two merges of the same two commits, in both orders.
const CROSSED: [&[u64]; 5] = [&[], &[0], &[0], &[1, 2], &[2, 1]];

/// What is asked of a graph, with its answer; sets are the bits of a number.
#[derive(Clone, Copy)]
enum Case {
    Flats(u32),
    Made(Query, u64, u64),
    MadeOfTwo(PairQuery, u64, u64, u64),
    IsAncestor(u64, u64, bool),
    FirstAncestor(u64, u64, Option<u64>),
    /// A text, the place of its name, the members, and the most look-ups.
    Evaluated(&'static [u8], u64, u64, u64),
}

/// Whether the expression has these members, with look-ups where there may be some, and at most so many.
fn is_evaluated<T: SegmentTable>(
    asked: &Asked<'_, T>,
    text: &[u8],
    place: u64,
    members: u64,
    most: u64,
) -> Result<bool, AllocError> {
    match asked.evaluated(text, place)? {
        Some((found, steps)) => {
            Ok(found == members && steps <= most && (steps > 0) == (most > 0))
        }
        None => Ok(false),
    }
}

/// Whether it was the wanted answer that was found.
fn is_wanted<A: Copy + PartialEq>(
    found: Result<A, AllocError>,
    wanted: A,
) -> Result<bool, AllocError> {
    Ok(found? == wanted)
}

/// Whether the table gives the answer.
fn holds<T: SegmentTable>(asked: &Asked<'_, T>, case: &Case) -> Result<bool, AllocError> {
    match case {
        Case::Flats(count) => Ok(asked.table.flat_count() == *count),
        Case::Made(query, set, wanted) => is_wanted(asked.made(*query, *set), *wanted),
        Case::MadeOfTwo(query, first, second, wanted) => {
            is_wanted(asked.made_of_two(*query, *first, *second), *wanted)
        }
        Case::IsAncestor(x, y, wanted) => is_wanted(asked.is_ancestor(*x, *y), Some(*wanted)),
        Case::FirstAncestor(place, n, wanted) => Ok(asked.first_ancestor(*place, *n) == *wanted),
        Case::Evaluated(text, place, members, most) => {
            is_evaluated(asked, text, *place, *members, *most)
        }
    }
}

/// The graph's table; `None` where some parents aren't those of a commit.
fn table_of(alloc: Global, rows: &[&[u64]]) -> Result<Option<Sample>, AllocError> {
    let mut sample = Sample::empty(alloc);
    for parents in rows {
        if !push_commit(alloc, &mut sample, parents)? {
            return Ok(None);
        }
    }
    Ok(Some(sample))
}

/// The place of the first case that the table answers otherwise.
fn wrong_case(alloc: Global, sample: &Sample, cases: &[Case]) -> Result<Option<usize>, AllocError> {
    let view = sample.view(sample.count());
    let asked = Asked {
        alloc,
        table: &view,
        masters: sample.count(),
    };
    for (place, case) in cases.iter().enumerate() {
        if !holds(&asked, case)? {
            return Ok(Some(place));
        }
    }
    Ok(None)
}

/// The place of the first case that the graph's table answers otherwise.
fn wrong_of(alloc: Global, rows: &[&[u64]], cases: &[Case]) -> Result<Option<usize>, Fail> {
    let sample = table_of(alloc, rows)?.ok_or("the parents are those of commits")?;
    Ok(wrong_case(alloc, &sample, cases)?)
}

const DAY_CASES: [Case; 23] = [
    Case::Flats(3),
    Case::Made(Query::Merges, 0b111111, 0b100000),
    Case::Made(Query::Gca, 0b010100, 0b000010),
    Case::Made(Query::Roots, 0b011000, 0b001000),
    Case::Made(Query::Children, 0b000010, 0b001100),
    Case::Made(Query::Descendants, 0b000100, 0b100100),
    Case::Made(Query::Parents, 0b100000, 0b010100),
    Case::Made(Query::Ancestors, 0b000100, 0b000111),
    Case::Made(Query::Ancestors, 0b010000, 0b011011),
    Case::Made(Query::Common, 0b010100, 0b000011),
    Case::Made(Query::Common, 0, 0),
    Case::Made(Query::Gca, 0, 0),
    Case::MadeOfTwo(PairQuery::Only, 0b100000, 0b000100, 0b111000),
    Case::MadeOfTwo(PairQuery::Range, 0b000010, 0b010000, 0b011010),
    Case::IsAncestor(1, 4, true),
    Case::IsAncestor(1, 5, true),
    Case::IsAncestor(2, 4, false),
    Case::FirstAncestor(5, 2, Some(1)),
    Case::FirstAncestor(5, 4, None),
    Case::Evaluated(b"all", 0, 0b111111, 0),
    Case::Evaluated(b"00000000000000000000000000000000000000a1", 4, 0b010000, 0),
    Case::Evaluated(b"parents(all)", 0, 0b011111, 3),
    Case::Evaluated(
        b"ancestors(00000000000000000000000000000000000000a1)",
        4,
        0b011011,
        24,
    ),
];

const CHAIN_CASES: [Case; 2] = [
    Case::Made(Query::Heads, 0b101, 0b101),
    Case::Made(Query::Tips, 0b101, 0b100),
];

const CROSSED_CASES: [Case; 1] = [Case::Made(Query::Gca, 0b11000, 0b00110)];

#[test]
fn graphs_of_a_few_commits(rt: HostRuntime) -> Result<(), Fail> {
    let day = wrong_of(rt.alloc(), &DAY, &DAY_CASES)?;
    let chain = wrong_of(rt.alloc(), &CHAIN, &CHAIN_CASES)?;
    let crossed = wrong_of(rt.alloc(), &CROSSED, &CROSSED_CASES)?;
    assert_eq!(rt; (day, chain, crossed), (None, None, None));
    Ok(())
}
