//! Ids that are gathered from the lowest up.

ghost use Rattle.std.specs.Prelude.{◌≡◌, ℕ, ◌+◌, ◌<◌, ◌≤◌, ◌^◌, ◌⊎◌, ◌↔◌, [], OnOk, IfOk, IsTrue};
ghost use Rattle.id_groups.specs.Span.{IsSpan, IsInSpan};
ghost use Rattle.segment_codec.specs.Lent.{segment_of};
ghost use Rattle.span_set.specs.Members.{IsMember, IsCanonical};
ghost use Rattle.range_query.specs.Parts.{HasParentIn, LacksParent, StandBelow};

use id_groups::{FIRST_OTHER, Id, IdSpan};
use segment_codec::SegmentRef;
use span_set::IdSet;
use std::alloc::{AllocError, Global};
use std::marker::Model;

/// A set of ids to which higher ones are added. Contracts see it as the list of its spans, the lowest first.
#[derive(Drop)]
pub(crate) struct Rising {
    spans: Vec<IdSpan>,
}

impl Model for Rising {
    ghost use Rattle.std.specs.Prelude.{List};
    ghost use Rattle.id_groups.specs.declared.span.IdSpan.{IdSpan};
    ghost use Rattle.range_query.specs.Rising.{IsRising};

    ghost Value = { List IdSpan };

    ghost view = { λ rising. rising.spans.items };

    ghost invariant = { λ rising. IsRising rising.spans.items };
}

/// Whether the span begins where the last one ends, in the same group.
fn joins(last: &IdSpan, span: &IdSpan) -> bool
    ensures { IsTrue result ↔ ((last.now.high + 1 ≡ span.now.low) × (span.now.low ≡ 2 ^ 56 → ⊥)) }
{
    let low = span.low.number();
    low == last.high.number() + 1 && low != FIRST_OTHER
}

impl Rising {
    /// No ids. It takes no memory yet, and keeps the allocator.
    pub(crate) fn empty(alloc: Global) -> Rising
        ensures { result ≡ [] }
    {
        Rising {
            spans: Vec::new(alloc),
        }
    }

    /// Adds the ids of the span, which lie above all that are held.
    pub(crate) fn push(&mut self, span: IdSpan) -> Result<(), AllocError>
        requires span { IsSpan span }
        requires over { StandBelow span.low self.old }
        ensures { OnOk result ((x : ℕ) → IsMember self.new x ↔ (IsMember self.old x ⊎ IsInSpan x span)) }
    {
        let n = self.spans.len();
        if n > 0 && joins(&self.spans[n - 1], &span) {
            let low = self.spans[n - 1].low;
            self.spans[n - 1] = IdSpan {
                low,
                high: span.high,
            };
            return Ok(());
        }
        self.spans.push(span)?;
        Ok(())
    }

    /// Adds the ids from `low` to before `end`, which are of one group and lie above all that are held; there may be none.
    pub(crate) fn push_between(&mut self, low: u64, end: u64) -> Result<(), AllocError>
        requires group { low < 2 ^ 56 → end ≤ 2 ^ 56 }
        requires bound { end ≤ 2 ^ 57 }
        requires over { StandBelow low self.old }
        ensures { OnOk result ((x : ℕ) → IsMember self.new x ↔ (IsMember self.old x ⊎ ((low ≤ x) × (x < end)))) }
    {
        if low < end {
            return self.push(IdSpan {
                low: Id::from_number(low),
                high: Id::from_number(end - 1),
            });
        }
        Ok(())
    }

    /// Whether all that are held lie below the bound.
    pub(crate) fn ends_below(&self, bound: u64) -> bool
        ensures { IsTrue result ↔ StandBelow bound self.now }
    {
        let n = self.spans.len();
        n == 0 || self.spans[n - 1].high.number() < bound
    }

    /// Whether the id is held, by a binary search.
    fn search(&self, id: Id) -> bool
        ensures { IsTrue result ↔ IsMember self.now id }
    {
        let number = id.number();
        let at = self
            .spans
            .partition_point(|held| held.high.number() < number);
        at < self.spans.len() && self.spans[at].low.number() <= number
    }

    /// Whether the id is held: the last span is looked at first, since most parents lie in it or above.
    fn contains(&self, id: Id) -> bool
        ensures { IsTrue result ↔ IsMember self.now id }
    {
        let n = self.spans.len();
        if n > 0 && self.spans[n - 1].low.number() <= id.number() {
            return id.number() <= self.spans[n - 1].high.number();
        }
        self.search(id)
    }

    /// Whether a parent of the segment's lowest id is held.
    pub(crate) fn has_parent_of(&self, segment: SegmentRef<'_>) -> bool
        ensures { IsTrue result ↔ HasParentIn self.now (segment_of segment.entry) }
    {
        let mut rest = segment.parents();
        'parents: while let Some(parent) = rest.next() {
            if self.contains(parent) {
                return true;
            }
        }
        false
    }

    /// Whether a parent of the segment's lowest id, no lower than `lowest`, isn't held.
    pub(crate) fn lacks_parent_of(&self, segment: SegmentRef<'_>, lowest: Id) -> bool
        ensures { IsTrue result ↔ LacksParent self.now lowest (segment_of segment.entry) }
    {
        let mut rest = segment.parents();
        'parents: while let Some(parent) = rest.next() {
            if lowest.number() <= parent.number() && !self.contains(parent) {
                return true;
            }
        }
        false
    }

    /// The ids as a set, into which the spans go from the greatest down.
    pub(crate) fn to_set(&self, alloc: Global) -> Result<IdSet, AllocError>
        ensures members { IfOk result (λ r. (x : ℕ) → IsMember r x ↔ IsMember self.now x) }
        ensures canonical { IfOk result IsCanonical }
    {
        let mut set = IdSet::empty(alloc);
        'down: for i in (0..self.spans.len()).rev() {
            set.insert_span(self.spans[i])?;
        }
        Ok(set)
    }
}
