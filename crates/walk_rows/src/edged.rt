//! A flat view that lends edges.

ghost use Rattle.std.specs.Prelude.{◌≡◌, true};
ghost use Rattle.std.specs.List.Sorted.{IsNonDecreasing};
ghost use Rattle.flat_segments.specs.Views.{view_flats};
ghost use Rattle.high_segments.specs.Edged.{are_edged};
ghost use Rattle.edge_index.specs.Index.{IsEdgeIndexOf};

use edge_index::EdgeIndex;
use flat_segments::FlatView;
use id_groups::Id;
use segment_codec::{Bounds, Edges, SegmentRef, SegmentTable, Steps};

/// A flat view and edges of its segments.
#[derive(Clone, Copy)]
pub struct Edged<'a> {
    flat: FlatView<'a>,
    edges: Edges<'a>,
    ghost ordered: { IsNonDecreasing edges.items.now },
    ghost edged: { are_edged edges.items.now edges.count (view_flats flat) ≡ true },
}

impl<'a> Edged<'a> {
    /// The view with the edges of the index, which is one of its segments.
    pub fn over(flat: FlatView<'a>, index: &'a EdgeIndex) -> Edged<'a>
        requires { IsEdgeIndexOf index.now (view_flats flat) }
    {
        Edged {
            flat,
            edges: index.lend(),
        }
    }
}

impl<'a> SegmentTable for Edged<'a> {
    ghost use Rattle.segment_codec.proofs.Flats.{flat_ending-is, flat_ending-all};
    ghost use Rattle.flat_segments.specs.Views.{view_flats, view_ending};
    ghost use Rattle.flat_segments.proofs.Viewing.{view_lawful};

    ghost flats = { λ v. view_flats v.flat };

    ghost ending_at = { λ v level id. view_ending v.flat level id };

    ghost lawful = { λ v. view_lawful v.flat };

    ghost endings = { λ v level id s e. flat_ending-is (view_flats v.flat) level id s e };

    ghost flat_endings = { λ v s i. flat_ending-all (view_flats v.flat) (view_lawful v.flat) s i };

    fn bounds(&self) -> Bounds {
        self.flat.bounds()
    }

    fn flat_count(&self) -> u32 {
        self.flat.flat_count()
    }

    fn flat<'b>(&'b self, id: Id, steps: &mut Steps) -> Option<SegmentRef<'b>> {
        self.flat.flat(id, steps)
    }

    fn flat_at<'b>(&'b self, k: u32, steps: &mut Steps) -> SegmentRef<'b> {
        self.flat.flat_at(k, steps)
    }

    fn ending<'b>(&'b self, level: u8, id: Id, steps: &mut Steps) -> Option<SegmentRef<'b>> {
        self.flat.ending(level, id, steps)
    }

    fn edges(&self) -> Edges<'_> {
        self.edges
    }
}
