//! Tables that queries walk over.

ghost use Rattle.std.specs.Prelude.{◌≡◌, ◌<◌, ℕ, List, Option, Some, None, MatchOption, length, slice_get};
ghost use Rattle.id_groups.specs.Lists.{IsIn};
ghost use Rattle.segment_codec.specs.Record.{Segment};
ghost use Rattle.segment_codec.specs.Edges.{AreEdgesOf};
ghost use Rattle.segment_codec.specs.Lent.{segment_of};
ghost use Rattle.segment_codec.specs.Table.{ticked, segment_at, Cover, IsLawful, IsEnding};

use crate::edges::Edges;
use crate::lent::SegmentRef;
use crate::steps::Steps;
use id_groups::Id;

/// How many ids of each group a table has.
#[derive(Clone, Copy, PartialEq, Eq, Debug)]
pub struct Bounds {
    /// Master ids, from 0 on.
    pub master: u64,
    /// Ids of the other group, from 2^56 on.
    pub others: u64,
}

/// The commits of a graph as segments. No call takes memory; each look-up ticks `steps` once.
pub trait SegmentTable {
    /// The flat segments, ascending.
    ghost flats: { Self → List Segment };

    /// The segment of a level that ends at an id, where the table has one.
    ghost ending_at: { Self → ℕ → ℕ → Option Segment };

    /// How many ids the table has.
    fn bounds(&self) -> Bounds
        ensures { Cover (flats self.now) result.master result.others };

    /// How many flat segments the table has.
    fn flat_count(&self) -> u32
        ensures { result ≡ length (flats self.now) };

    /// The flat segment that has the id; `None` exactly where the id isn't in the bounds.
    fn flat<'a>(&'a self, id: Id, steps: &mut Steps) -> Option<SegmentRef<'a>>
        ensures found { MatchOption result (segment_at (flats self.now) id ≡ None) (λ r. segment_at (flats self.now) id ≡ Some (segment_of r)) }
        ensures tick { steps.new.taken ≡ ticked steps.old.taken };

    /// The flat segment at place `k`, which is below their count.
    fn flat_at<'a>(&'a self, k: u32, steps: &mut Steps) -> SegmentRef<'a>
        requires { k < length (flats self.now) }
        ensures found { slice_get (flats self.now) k ≡ Some (segment_of result) }
        ensures tick { steps.new.taken ≡ ticked steps.old.taken };

    /// The segment of the level that ends at the id. At level 0 it is `None` exactly where no flat segment ends there.
    fn ending<'a>(&'a self, level: u8, id: Id, steps: &mut Steps) -> Option<SegmentRef<'a>>
        ensures found { MatchOption result (ending_at self.now level id ≡ None) (λ r. ending_at self.now level id ≡ Some (segment_of r)) }
        ensures tick { steps.new.taken ≡ ticked steps.old.taken };

    /// The edges that it keeps, maybe none.
    fn edges(&self) -> Edges<'_>
        ensures { AreEdgesOf result.items.now result.count (flats self.now) };

    ghost lawful: { (t : Self) → IsLawful (flats t) };

    ghost endings: { (t : Self) (level id : ℕ) (s : Segment) → ending_at t level id ≡ Some s → IsEnding (flats t) level id s };

    ghost flat_endings: { (t : Self) (s : Segment) → IsIn s (flats t) → ending_at t 0 s.high ≡ Some s };
}
