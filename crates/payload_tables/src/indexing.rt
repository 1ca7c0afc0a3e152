//! The index of edges of the master segments, brought on.

ghost use Rattle.std.specs.Prelude.{List};
ghost use Rattle.flat_segments.specs.Kept.{IsTableOf};
ghost use Rattle.flat_segments.specs.Placed.{PlacedSegment, Stand};
ghost use Rattle.segment_levels.specs.Flats.{flats_of};
ghost use Rattle.edge_index.specs.Index.{IsEdgeIndexOf};

use edge_index::EdgeIndex;
use flat_segments::FlatTable;
use segment_codec::SegmentTable;
use std::alloc::Global;

/// Fewer segments than so many are gone over when they are asked for: what stands above the lowest of the new edges is written anew.
const MANY: usize = 2048;
/// And fewer than this share of those that are in it: where edges go far back, what is written anew stays a fixed share of what came.
const SHARE: usize = 128;

/// Takes the segments of the table that aren't in the index into it, where they are many. For want of memory it stays as it is.
pub(crate) fn index_table(alloc: Global, flat: &FlatTable, edges: &mut EdgeIndex, bytes: &[u8])
    requires { (records : List PlacedSegment) × IsTableOf flat.now records × Stand bytes.now records }
    ensures { (records : List PlacedSegment) → IsTableOf flat.now records → Stand bytes.now records → IsEdgeIndexOf edges.old (flats_of flat.now records)
        → IsEdgeIndexOf edges.new (flats_of flat.now records) }
{
    let indexed = edges.count() as usize;
    let late = flat.len().saturating_sub(indexed);
    if late < MANY.max(indexed / SHARE) {
        return;
    }
    let view = flat.view(bytes, flat.count());
    let _full = edges.grow(alloc, &view, view.flat_count());
}
