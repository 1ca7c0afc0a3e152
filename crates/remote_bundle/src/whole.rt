//! A bundle that was read.

ghost use Rattle.std.specs.Prelude.{◌≡◌, ◌<◌, ◌^◌, Err, IfErr, IfOk, OnOk, None, length};
ghost use Rattle.commit_graph.specs.World.{names_of};
ghost use Rattle.flat_segments.specs.Kept.{IsTableOf};
ghost use Rattle.flat_segments.specs.Placed.{placed_segments};
ghost use Rattle.flat_segments.specs.Views.{view_flats};
ghost use Rattle.bundle_codec.specs.Bundle.{Contents, IsBundle, bundle_bytes, rows_of};
ghost use Rattle.bundle_codec.specs.Lent.{contents_of_lent};
ghost use Rattle.bundle_codec.specs.Places.{records_start};
ghost use Rattle.bundle_codec.specs.Reading.{bundle_at};
ghost use Rattle.bundle_codec.specs.declared.fault.BundleFault.{BundleFault as Fault};
ghost use Rattle.remote_answers.specs.Master.{IsMasterIn};
ghost use Rattle.remote_bundle.specs.Names.{ArePlaced};
ghost use Rattle.remote_bundle.specs.Held.{IsReadOf};
ghost use Rattle.remote_bundle.specs.Segments.{segments_in};

use crate::names::BundleNames;
use crate::segments::Segments;
use bundle_codec::{Bundle, BundleFault};
use edge_index::EdgeIndex;
use flat_segments::{FlatFault, FlatTable, FlatView};
use name_index::NameIndex;
use segment_codec::SegmentTable;
use std::alloc::Global;
use std::marker::Model;

/// A bundle that was read: its bytes, where its names stand, the table of its segments, the index of its names, and that of its edges,
/// of which contracts see nothing.
#[derive(Drop)]
pub(crate) struct ReadBundle {
    bytes: Vec<u8>,
    start: u64,
    table: FlatTable,
    index: NameIndex,
    edges: EdgeIndex,
}

impl Model for ReadBundle {
    ghost use Rattle.bundle_codec.specs.Bundle.{Contents};
    ghost use Rattle.edge_index.specs.Index.{IsEdgeIndexOf};
    ghost use Rattle.remote_bundle.specs.Held.{PlainRead, IsReadOf};

    ghost Value = { PlainRead };

    ghost view = { λ b. record { bytes = b.bytes.items; start = b.start; table = b.table; index = b.index } };

    ghost invariant = { λ b. (c : Contents) × IsReadOf (record { bytes = b.bytes.items; start = b.start; table = b.table; index = b.index }) c × IsEdgeIndexOf b.edges c.segments };
}

/// The table of a bundle's records.
fn table_of(alloc: Global, bytes: &[u8], bundle: &Bundle<'_>) -> Result<FlatTable, BundleFault>
    requires bundle { IsBundle (contents_of_lent bundle.now) }
    requires spelled { bytes.now ≡ bundle_bytes (contents_of_lent bundle.now) }
    requires fits { length bytes.now < 2 ^ 63 }
    ensures table { IfOk result (λ table. IsTableOf table (placed_segments records_start (contents_of_lent bundle.now).segments)) }
    ensures memory { IfErr result (λ fault. fault ≡ Fault.Memory) }
{
    let mut table = FlatTable::empty(alloc);
    match table.extend(bytes, bundle.records(), bundle.records_start()) {
        Ok(()) => Ok(table),
        Err(FlatFault::Memory) => Err(BundleFault::Memory),
        Err(FlatFault::BadSegment(_)) => unreachable!(),
    }
}

impl ReadBundle {
    /// The bundle that the bytes are. `Bad` comes exactly where they are none.
    pub(crate) fn read(alloc: Global, bytes: Vec<u8>) -> Result<ReadBundle, BundleFault>
        ensures bytes { IfOk result (λ b. b.bytes ≡ bytes.items) }
        ensures fit { OnOk result (bundle_at bytes.items ≡ None → ⊥) }
        ensures bad { result ≡ Err Fault.Bad → bundle_at bytes.items ≡ None }
    {
        let (bundle, index) = Bundle::read_indexed(alloc, &bytes)?;
        let table = table_of(alloc, &bytes, &bundle)?;
        let start = bundle.names_start();
        Ok(ReadBundle {
            bytes,
            start,
            table,
            index,
            edges: EdgeIndex::empty(alloc),
        })
    }

    /// The view of its segments without edges.
    fn view(&self) -> FlatView<'_>
        ensures { (c : Contents) → IsReadOf self.now c → (view_flats result ≡ c.segments) × IsMasterIn (view_flats result) (rows_of c) }
    {
        self.table.view(&self.bytes, self.table.count())
    }

    /// Its segments.
    pub(crate) fn segments(&self) -> Segments<'_>
        ensures { (c : Contents) → IsReadOf self.now c → (segments_in result ≡ c.segments) × IsMasterIn (segments_in result) (rows_of c) }
    {
        Segments::new(self.view(), self.edges.lend())
    }

    /// Takes its segments into the index of edges, once, so that paths go by it. For want of memory that stays as it is.
    pub(crate) fn index_edges(&mut self, alloc: Global)
        ensures { self.new ≡ self.old }
    {
        if self.edges.count() > 0 {
            return;
        }
        let view = self.table.view(&self.bytes, self.table.count());
        let _full = self.edges.grow(alloc, &view, view.flat_count());
    }

    /// The names of its rows.
    pub(crate) fn names(&self) -> BundleNames<'_>
        ensures { (c : Contents) → IsReadOf self.now c → ArePlaced result (names_of (rows_of c)) }
    {
        BundleNames {
            bytes: &self.bytes,
            start: self.start,
            index: &self.index,
        }
    }
}
