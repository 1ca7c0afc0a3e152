//! The edges of segments.

ghost use Rattle.std.specs.Prelude.{◌≡◌, ◌<◌, ◌≤◌, ◌^◌, ℕ, length, IsTrue, IfOk, OnOk};
ghost use Rattle.std.specs.List.Sorted.{IsNonDecreasing};
ghost use Rattle.id_groups.specs.Lists.{IsIn};
ghost use Rattle.segment_codec.specs.Edges.{edge_of};
ghost use Rattle.segment_codec.specs.Lent.{segment_of};
ghost use Rattle.edge_index.specs.Index.{HaveEdges};

use crate::order::sort_edges;
use segment_codec::{SegmentRef, SegmentTable, Steps};
use std::alloc::{AllocError, Global};

/// The numbers that a place may be.
const PLACES: u64 = 0x1_0000_0000;

/// An edge as a number.
#[inline]
fn edge(parent: u64, place: u32) -> u64
    requires { parent < 2 ^ 32 }
    ensures { result ≡ edge_of parent place }
{
    parent * PLACES + u64::from(place)
}

/// Appends the edges of the segment at a place. The answer is whether all are there: none behind a parent that takes more than 32 bits is.
fn add_edges(found: &mut Vec<u64>, segment: SegmentRef<'_>, place: u32) -> Result<bool, AllocError>
    ensures keeps { OnOk result ((e : ℕ) → IsIn e found.old.items → IsIn e found.new.items) }
    ensures edges { IfOk result (λ all. IsTrue all → (p : ℕ) → IsIn p (segment_of segment.entry).parents → IsIn (edge_of p place) found.new.items) }
{
    let mut rest = segment.parents();
    'parents: while let Some(parent) = rest.next() {
        if parent.number() >= PLACES {
            return Ok(false);
        }
        found.push(edge(parent.number(), place))?;
    }
    Ok(true)
}

/// The edges of the flat segments from one place up to another, as they come, and up to which place they are: where a parent takes more than 32
/// bits, no edge of its segment or of later ones is wanted.
fn found_edges<T: SegmentTable>(
    alloc: Global,
    table: &T,
    from: u32,
    upto: u32,
) -> Result<(Vec<u64>, u32), AllocError>
    requires { upto ≤ length (T.flats table.now) }
    ensures edges { IfOk result (λ found. HaveEdges found.0.items from found.1 (T.flats table.now)) }
    ensures few { from ≤ length (T.flats table.now) → IfOk result (λ found. found.1 ≤ length (T.flats table.now)) }
{
    let mut found = Vec::new(alloc);
    let mut steps = Steps::new();
    let mut count = from;
    'segments: while count < upto {
        let segment = table.flat_at(count, &mut steps);
        if !add_edges(&mut found, segment, count)? {
            return Ok((found, count));
        }
        count += 1;
    }
    Ok((found, count))
}

/// The edges of the flat segments from one place up to another, in order, and up to which place they are.
pub(crate) fn edges_between<T: SegmentTable>(
    alloc: Global,
    table: &T,
    from: u32,
    upto: u32,
) -> Result<(Vec<u64>, u32), AllocError>
    requires { upto ≤ length (T.flats table.now) }
    ensures order { IfOk result (λ found. IsNonDecreasing found.0.items) }
    ensures edges { IfOk result (λ found. HaveEdges found.0.items from found.1 (T.flats table.now)) }
    ensures few { from ≤ length (T.flats table.now) → IfOk result (λ found. found.1 ≤ length (T.flats table.now)) }
{
    let (mut found, count) = found_edges(alloc, table, from, upto)?;
    sort_edges(alloc, &mut found);
    Ok((found, count))
}
