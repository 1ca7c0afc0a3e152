//! An index of edges.

ghost use Rattle.std.specs.Prelude.{◌≡◌, ◌≤◌, List, length, IfOk, OnOk, OnErr};
ghost use Rattle.segment_codec.specs.Record.{Segment};
ghost use Rattle.edge_index.specs.Index.{IsEdgeIndexOf};

use crate::finding::edges_between;
use crate::merge::join;
use segment_codec::{Edges, SegmentTable};
use std::alloc::{AllocError, Global};
use std::marker::Model;

/// The edges of the first flat segments of a table, 8 bytes for each. Contracts see what is kept; of which segments, `IsEdgeIndexOf` says.
#[derive(Drop)]
pub struct EdgeIndex {
    items: Vec<u64>,
    count: u32,
}

impl Model for EdgeIndex {
    ghost use Rattle.edge_index.specs.Index.{PlainEdges};

    ghost Value = { PlainEdges };

    ghost view = { λ i. record { items = i.items.items; count = i.count } };
}

impl EdgeIndex {
    /// The index of no segment. It takes no memory yet.
    pub fn empty(alloc: Global) -> EdgeIndex
        ensures { (flats : List Segment) → IsEdgeIndexOf result flats }
    {
        EdgeIndex {
            items: Vec::new(alloc),
            count: 0,
        }
    }

    /// The same index once more.
    pub fn copy(&self, alloc: Global) -> Result<EdgeIndex, AllocError>
        ensures { IfOk result (λ copy. copy ≡ self.now) }
    {
        let mut items = Vec::with_capacity(alloc, self.items.len())?;
        items.extend_from_slice(&self.items)?;
        Ok(EdgeIndex {
            items,
            count: self.count,
        })
    }

    /// Of so many flat segments each edge is there.
    pub fn count(&self) -> u32
        ensures { result ≡ self.now.count }
    {
        self.count
    }

    /// Lends the edges.
    pub fn lend(&self) -> Edges<'_>
        ensures items { result.items.now ≡ self.now.items }
        ensures count { result.count ≡ self.now.count }
    {
        Edges {
            items: &self.items,
            count: self.count,
        }
    }

    /// Takes in the edges of the table's flat segments up to a place. A parent that takes more than 32 bits ends it: no edge of its segment or of later
    /// ones comes in. Where there are edges already those above the lowest new one are written anew, so it is for many segments at once. Want of memory
    /// changes nothing.
    pub fn grow<T: SegmentTable>(
        &mut self,
        alloc: Global,
        table: &T,
        upto: u32,
    ) -> Result<(), AllocError>
        requires { upto ≤ length (T.flats table.now) }
        ensures grown { IsEdgeIndexOf self.old (T.flats table.now) → OnOk result (IsEdgeIndexOf self.new (T.flats table.now)) }
        ensures unchanged { OnErr result (self.new ≡ self.old) }
    {
        let (fresh, count) = edges_between(alloc, table, self.count, upto)?;
        if count == self.count {
            return Ok(());
        }
        join(alloc, &mut self.items, fresh)?;
        self.count = count;
        Ok(())
    }
}
