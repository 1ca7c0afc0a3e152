//! The segments of a bundle with edges.

ghost use Rattle.std.specs.Prelude.{◌≡◌, true};
ghost use Rattle.std.specs.List.Sorted.{IsNonDecreasing};
ghost use Rattle.flat_segments.specs.Views.{view_flats};
ghost use Rattle.high_segments.specs.Edged.{are_edged};

use flat_segments::FlatView;
use segment_codec::Edges;

/// The flat segments of a bundle, and edges of the first so many of them.
#[derive(Clone, Copy)]
pub(crate) struct Segments<'a> {
    pub(crate) flat: FlatView<'a>,
    pub(crate) edges: Edges<'a>,
    ghost ordered: { IsNonDecreasing edges.items.now },
    ghost edged: { are_edged edges.items.now edges.count (view_flats flat) ≡ true },
}
