//! The making of segments with edges, and their look-ups. None takes memory.

ghost use Rattle.std.specs.Prelude.{◌≡◌};
ghost use Rattle.segment_codec.specs.Edges.{AreEdgesOf};
ghost use Rattle.flat_segments.specs.Views.{view_flats};
ghost use Rattle.remote_bundle.specs.Segments.{segments_in};

use crate::segments::Segments;
use flat_segments::FlatView;
use id_groups::Id;
use segment_codec::{Bounds, Edges, SegmentRef, SegmentTable, Steps};

impl<'a> Segments<'a> {
    /// The segments of the view with these edges of theirs.
    pub(crate) fn new(flat: FlatView<'a>, edges: Edges<'a>) -> Segments<'a>
        requires { AreEdgesOf edges.items.now edges.count (view_flats flat) }
        ensures { segments_in result ≡ view_flats flat.entry }
    {
        Segments { flat, edges }
    }
}

impl<'a> SegmentTable for Segments<'a> {
    ghost use Rattle.segment_codec.proofs.Flats.{flat_ending-is, flat_ending-all};
    ghost use Rattle.flat_segments.specs.Views.{view_flats, view_ending};
    ghost use Rattle.flat_segments.proofs.Viewing.{view_lawful};
    ghost use Rattle.remote_bundle.specs.Segments.{segments_in};

    ghost flats = { λ v. segments_in v };

    ghost ending_at = { λ v level id. view_ending v.flat level id };

    ghost lawful = { λ v. view_lawful v.flat };

    ghost endings = { λ v level id s e. flat_ending-is (view_flats v.flat) level id s e };

    ghost flat_endings = { λ v s i. flat_ending-all (view_flats v.flat) (view_lawful v.flat) s i };

    fn bounds(&self) -> Bounds {
        self.flat.bounds()
    }

    fn flat_count(&self) -> u32 {
        self.flat.flat_count()
    }

    #[inline(always)]
    fn flat<'b>(&'b self, id: Id, steps: &mut Steps) -> Option<SegmentRef<'b>> {
        self.flat.flat(id, steps)
    }

    #[inline(always)]
    fn flat_at<'b>(&'b self, k: u32, steps: &mut Steps) -> SegmentRef<'b> {
        self.flat.flat_at(k, steps)
    }

    #[inline(always)]
    fn ending<'b>(&'b self, level: u8, id: Id, steps: &mut Steps) -> Option<SegmentRef<'b>> {
        self.flat.ending(level, id, steps)
    }

    fn edges(&self) -> Edges<'_> {
        self.edges
    }
}
