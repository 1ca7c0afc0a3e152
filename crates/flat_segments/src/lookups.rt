//! The look-ups of a view. None takes memory.

ghost use Rattle.std.specs.Prelude.{◌≡◌, ◌<◌, ◌^◌, length, slice_get, Some, None, MatchOption};
ghost use Rattle.segment_codec.specs.Lent.{segment_of};
ghost use Rattle.segment_codec.specs.Table.{segment_at};
ghost use Rattle.flat_segments.specs.Views.{view_flats, master_flats, master_count};

use crate::view::FlatView;
use id_groups::{FIRST_OTHER, Id};
use segment_codec::{Bounds, Edges, SegmentRef, SegmentTable, Steps};

impl<'a> FlatView<'a> {
    /// How many master ids the view has.
    #[inline(always)]
    pub fn master_count(&self) -> u64
        ensures { result ≡ master_count self.now }
    {
        self.master.end
    }

    /// How many of the segments are of the master group. They stand before the others.
    #[inline(always)]
    pub fn master_flat_count(&self) -> u32
        ensures { result ≡ length (master_flats self.now) }
    {
        self.master.entries.len() as u32
    }

    /// The segment that has the id; `None` exactly where the id isn't in the bounds.
    #[inline(always)]
    fn find(&self, id: u64, steps: &mut Steps) -> Option<SegmentRef<'a>>
        requires { id < 2 ^ 57 }
        ensures found { MatchOption result (segment_at (view_flats self.now) id ≡ None) (λ r. segment_at (view_flats self.now) id ≡ Some (segment_of r)) }
        ensures steps { steps.new.taken ≡ steps.old.taken }
    {
        if id < self.master.end {
            return Some(self.master.find(id, steps));
        }
        if id < FIRST_OTHER {
            return None;
        }
        if id < self.others.end {
            return Some(self.others.find(id, steps));
        }
        if id < self.pending.end {
            return Some(self.pending.find(id, steps));
        }
        None
    }

    /// The segment at place `k`.
    fn at(&self, k: usize) -> SegmentRef<'a>
        requires { k < length (view_flats self.now) }
        ensures { slice_get (view_flats self.now) k ≡ Some (segment_of result) }
    {
        let master = self.master.entries.len();
        if k < master {
            return self.master.at(k);
        }
        let others = self.others.entries.len();
        if k - master < others {
            return self.others.at(k - master);
        }
        self.pending.at(k - master - others)
    }
}

impl<'a> SegmentTable for FlatView<'a> {
    ghost use Rattle.std.specs.Prelude.{◌^◌, ◌-◌};
    ghost use Rattle.segment_codec.proofs.Flats.{lawful-means, flat_ending-is, flat_ending-all};
    ghost use Rattle.flat_segments.specs.Views.{master_flats, other_flats, view_flats, view_ending};

    ghost flats = { λ v. view_flats v };

    ghost ending_at = { λ v level id. view_ending v level id };

    ghost lawful = { λ v. lawful-means v.master.end (v.pending.end - 2 ^ 56) (master_flats v) (other_flats v) v.lawful };

    ghost endings = { λ v level id s e. flat_ending-is (view_flats v) level id s e };

    ghost flat_endings = { λ v s i. flat_ending-all (view_flats v) (lawful-means v.master.end (v.pending.end - 2 ^ 56) (master_flats v) (other_flats v) v.lawful) s i };

    fn bounds(&self) -> Bounds {
        Bounds {
            master: self.master.end,
            others: self.pending.end - FIRST_OTHER,
        }
    }

    fn flat_count(&self) -> u32 {
        (self.master.entries.len() + self.others.entries.len() + self.pending.entries.len()) as u32
    }

    #[inline(always)]
    fn flat<'b>(&'b self, id: Id, steps: &mut Steps) -> Option<SegmentRef<'b>> {
        steps.tick();
        self.find(id.number(), steps)
    }

    #[inline(always)]
    fn flat_at<'b>(&'b self, k: u32, steps: &mut Steps) -> SegmentRef<'b> {
        steps.tick();
        self.at(k as usize)
    }

    #[inline(always)]
    fn ending<'b>(&'b self, level: u8, id: Id, steps: &mut Steps) -> Option<SegmentRef<'b>> {
        steps.tick();
        if level > 0 {
            return None;
        }
        let found = self.find(id.number(), steps)?;
        if found.high().number() == id.number() {
            Some(found)
        } else {
            None
        }
    }

    fn edges(&self) -> Edges<'_> {
        Edges::none()
    }
}
