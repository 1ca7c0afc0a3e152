//! What a lent record says.

ghost use Rattle.std.specs.Prelude.{◌≡◌, ◌≤◌, ◌<◌, ◌^◌, IsTrue};
ghost use Rattle.std.specs.List.{AllByRecursion};
ghost use Rattle.std.specs.Iterator.{YieldsFirst, item_count};
ghost use Rattle.id_groups.specs.Id.{is_master_id};
ghost use Rattle.segment_codec.specs.Record.{IsSegment};
ghost use Rattle.segment_codec.specs.Lent.{segment_of, parents_left};
ghost use Rattle.segment_codec.specs.Turns.{is_only, goes_on};

use crate::lent::{Parents, SegmentRef};
use crate::number::{read_long, read_short};
use id_groups::Id;

/// How many bytes an id of the others takes.
const OTHER_BYTES: usize = 9;

/// Whether there is one parent, and it has this number.
fn is_only_parent(parents: Parents<'_>, number: u64) -> bool
    ensures { result ≡ is_only number (parents_left parents.entry) }
{
    let mut rest = parents;
    let Some(parent) = rest.next() else {
        return false;
    };
    rest.next().is_none() && parent.number() == number
}

impl<'a> SegmentRef<'a> {
    /// The lowest id.
    pub fn low(&self) -> Id
        ensures { result ≡ (segment_of self.now).low }
    {
        Id::from_number(self.low)
    }

    /// The highest id.
    pub fn high(&self) -> Id
        ensures { result ≡ (segment_of self.now).high }
    {
        Id::from_number(self.high)
    }

    /// The level: 0 is a flat segment.
    pub fn level(&self) -> u8
        ensures { result ≡ (segment_of self.now).level }
    {
        self.level
    }

    /// The parents of the lowest id, in their order.
    pub fn parents(&self) -> Parents<'a>
        ensures { parents_left result ≡ (segment_of self.now).parents }
    {
        Parents { rest: self.parents }
    }

    /// Whether the segment goes on from the id before it, its only parent.
    pub fn goes_on(&self) -> bool
        ensures { result ≡ goes_on (segment_of self.now) }
    {
        is_only_parent(self.parents(), self.low.saturating_sub(1))
    }

    /// The same segment with this highest id, which is of its group and at least its lowest.
    pub fn ending_at(self, high: Id) -> SegmentRef<'a>
        requires group { is_master_id (segment_of self).low ≡ is_master_id high }
        requires above { (segment_of self).low ≤ high }
        ensures same { segment_of result ≡ record (segment_of self.entry) { high = high } }
        ensures segment { IsSegment (segment_of self.entry) → IsSegment (segment_of result) }
    {
        let SegmentRef {
            low,
            level,
            parents,
            ..
        } = self;
        SegmentRef {
            low,
            high: high.number(),
            level,
            parents,
        }
    }
}

impl<'a> Parents<'a> {
    /// Whether they take fewer bytes than an id of the others: then each of them is one of master. No number is read.
    #[inline(always)]
    pub fn are_masters(&self) -> bool
        ensures { IsTrue result → AllByRecursion (λ p. p < 2 ^ 56) (parents_left self.now) }
    {
        self.rest.len() < OTHER_BYTES
    }
}

impl<'a> Iterator for Parents<'a> {
    type Item = Id;

    ghost next_gives = { YieldsFirst parents_left };

    ghost remaining = { item_count parents_left };

    #[inline(always)]
    fn next(&mut self) -> Option<Id> {
        if self.rest.is_empty() {
            return None;
        }
        if let Some((number, rest)) = read_short(self.rest) {
            self.rest = rest;
            return Some(Id::from_number(number));
        }
        let (number, rest) = read_long(self.rest)?;
        self.rest = rest;
        Some(Id::from_number(number))
    }
}
