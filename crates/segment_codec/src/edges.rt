//! Edges that a table of segments lends.

ghost use Rattle.std.specs.Prelude.{List};
ghost use Rattle.segment_codec.specs.Edges.{AreEdgesOf};
ghost use Rattle.segment_codec.specs.Record.{Segment};

/// Edges in order, each a number: the parent, then in 32 bits the place of a flat segment that begins on it. Each edge of the first `count` flat
/// segments is among them; there may be others, so whoever finds one looks whether the segment has the parent.
#[derive(Clone, Copy)]
pub struct Edges<'a> {
    /// The numbers.
    pub items: &'a [u64],
    /// Of so many flat segments each edge is there.
    pub count: u32,
}

impl<'a> Edges<'a> {
    /// None, of no segment.
    pub fn none() -> Edges<'a>
        ensures { (flats : List Segment) → AreEdgesOf result.items.now result.count flats }
    {
        Edges {
            items: &[],
            count: 0,
        }
    }
}
