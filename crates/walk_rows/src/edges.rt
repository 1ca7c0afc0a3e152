//! An index of edges, grown over a table in steps.

use crate::levels::{push, with_levels};
use edge_index::EdgeIndex;
use flat_segments::FlatFault;
use id_groups::Id;
use sample_tables::{LevelSample, Sample};
use segment_codec::SegmentTable;
use std::alloc::{AllocError, Global};
use std::test::Fail;

/// Two commits, one on the first, one on the second and the third, and one on the first again.
fn sample(alloc: Global) -> Result<LevelSample, FlatFault> {
    let mut sample = Sample::empty(alloc);
    push(&mut sample, &[], 2)?;
    push(&mut sample, &[Id::master(0)], 1)?;
    push(&mut sample, &[Id::master(1), Id::master(2)], 1)?;
    push(&mut sample, &[Id::master(0)], 1)?;
    with_levels(alloc, &sample)
}

/// The index of the table's first segments, grown up to each of these places in turn.
fn grown<T: SegmentTable>(
    alloc: Global,
    table: &T,
    places: &[u32],
) -> Result<EdgeIndex, AllocError> {
    let mut index = EdgeIndex::empty(alloc);
    for place in places {
        index.grow(alloc, table, (*place).min(table.flat_count()))?;
    }
    Ok(index)
}

/// The parents 0, 0, 1 and 2, each before the place of its segment.
const EDGES: [u64; 4] = [1, 3, 0x1_0000_0002, 0x2_0000_0002];

/// Whether the index that is grown up to these places has all edges in order, and no others.
fn has_all(alloc: Global, sample: &LevelSample, places: &[u32]) -> Result<bool, AllocError> {
    let index = grown(alloc, &sample.flat(sample.count()), places)?;
    let copy = index.copy(alloc)?;
    Ok(copy.lend().items == EDGES.as_slice() && copy.count() == 4)
}

#[test]
fn an_index_of_edges_grows(rt: HostRuntime) -> Result<(), Fail> {
    let sample = sample(rt.alloc())?;
    assert!(rt; has_all(rt.alloc(), &sample, &[9])?);
    assert!(rt; has_all(rt.alloc(), &sample, &[3, 2, 4])?);
    Ok(())
}
