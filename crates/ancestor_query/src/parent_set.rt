//! The parents of the members of a set.

ghost use Rattle.std.specs.Prelude.{◌≡◌, ℕ, ◌-◌, ◌<◌, ◌≤◌, ◌^◌, ◌⊎◌, ◌↔◌, [], IfOk, OnOk, max, min};
ghost use Rattle.id_groups.specs.Span.{IsSpan, IsInSpan};
ghost use Rattle.commit_graph.specs.Sets as sets;
ghost use Rattle.segment_codec.specs.Lent.{segment_of};
ghost use Rattle.segment_codec.specs.Table.{IsHeld};
ghost use Rattle.span_set.specs.Members.{IsMember, IsCanonical};
ghost use Rattle.ancestor_query.specs.Graph.{table_graph};
ghost use Rattle.ancestor_query.specs.Parts.{IsParentOfPart, IsFound, IsSettled};

use crate::work_list::WorkList;
use id_groups::{ID_END, Id, IdSpan};
use segment_codec::{SegmentRef, SegmentTable, Steps};
use span_set::IdSet;
use std::alloc::{AllocError, Global};

/// The parents that are found while a walk goes over their children from the greatest down: those in `ids`, and those that
/// wait. All that wait at or above `end` are in `ids` too, so that new ones go to the set's low end and few wait.
#[derive(Drop)]
struct Found {
    ids: IdSet,
    waiting: WorkList,
    end: u64,
}

impl Found {
    /// None yet.
    fn empty(alloc: Global) -> Found
        ensures ids { result.ids ≡ [] }
        ensures waiting { result.waiting ≡ [] }
    {
        Found {
            ids: IdSet::empty(alloc),
            waiting: WorkList::empty(alloc),
            end: ID_END,
        }
    }

    /// Puts what waits at or above `least` into the set, from the greatest down.
    fn take_from(&mut self, least: u64) -> Result<(), AllocError>
        requires settled { IsSettled self.old.ids self.old.waiting self.old.end }
        ensures same { OnOk result ((x : ℕ) → IsFound self.new.ids self.new.waiting x ↔ IsFound self.old.ids self.old.waiting x) }
        ensures settled { OnOk result (IsSettled self.new.ids self.new.waiting least) }
    {
        'take: while let Some(id) = self.waiting.next_below(self.end) {
            let number = id.number();
            if number < least {
                return Ok(());
            }
            self.ids.insert_span(IdSpan::single(id))?;
            self.end = number;
        }
        Ok(())
    }

    /// Adds the parents of the segment's ids from `low` to `high`: those of all but its lowest lie one below them and go
    /// into the set, those of its lowest wait. It answers which of these ids is the lowest.
    fn add_part(&mut self, segment: SegmentRef<'_>, low: u64, high: Id) -> Result<u64, AllocError>
        requires order { (segment_of segment).low ≤ high }
        requires some { low ≤ high }
        requires group { (segment_of segment).low < 2 ^ 56 → high < 2 ^ 56 }
        requires settled { IsSettled self.old.ids self.old.waiting self.old.end }
        ensures lowest { IfOk result (λ r. r ≡ max (segment_of segment.entry).low low) }
        ensures parents { OnOk result ((x : ℕ) → IsFound self.new.ids self.new.waiting x
            ↔ (IsFound self.old.ids self.old.waiting x ⊎ IsParentOfPart (segment_of segment.entry) low high x)) }
        ensures settled { OnOk result (IsSettled self.new.ids self.new.waiting self.new.end) }
    {
        self.take_from(high.number())?;
        let lowest = segment.low().number();
        if lowest < low {
            self.ids.insert_between(low - 1, high.number())?;
            self.end = low - 1;
            return Ok(low);
        }
        self.ids.insert_between(lowest, high.number())?;
        self.waiting.push_all(segment.parents())?;
        self.end = lowest;
        Ok(lowest)
    }

    /// Adds the parents of the span's ids, a segment at a time.
    fn add_span<T: SegmentTable>(
        &mut self,
        table: &T,
        span: IdSpan,
        steps: &mut Steps,
    ) -> Result<(), AllocError>
        requires span { IsSpan span }
        requires held { (x : ℕ) → IsInSpan x span → IsHeld (T.flats table.now) x }
        requires settled { IsSettled self.old.ids self.old.waiting self.old.end }
        ensures parents { OnOk result ((x : ℕ) → IsFound self.new.ids self.new.waiting x
            ↔ (IsFound self.old.ids self.old.waiting x ⊎ sets.parents (table_graph (T.flats table.now)) (λ c. IsInSpan c span) x)) }
        ensures settled { OnOk result (IsSettled self.new.ids self.new.waiting self.new.end) }
        ensures counted { min steps.old.taken (2 ^ 64 - 1) ≤ steps.new.taken }
    {
        let low = span.low.number();
        let mut end = span.high.number() + 1;
        'parts: while low < end {
            let high = Id::from_number(end - 1);
            let segment = table.flat(high, steps).unwrap();
            end = self.add_part(segment, low, high)?;
        }
        Ok(())
    }
}

/// The parents of the members of the set. Each member is an id of the table. It goes by spans and segments, and takes a
/// look-up for each part of a span in one flat segment. `AllocError` only for want of memory.
pub fn parents<T: SegmentTable>(
    alloc: Global,
    table: &T,
    set: &IdSet,
    steps: &mut Steps,
) -> Result<IdSet, AllocError>
    requires { (x : ℕ) → IsMember set.now x → IsHeld (T.flats table.now) x }
    ensures members { IfOk result (λ r. (x : ℕ) → IsMember r x ↔ sets.parents (table_graph (T.flats table.now)) (IsMember set.now) x) }
    ensures canonical { IfOk result IsCanonical }
    ensures counted { min steps.old.taken (2 ^ 64 - 1) ≤ steps.new.taken }
{
    let mut found = Found::empty(alloc);
    'spans: for span in set.spans() {
        found.add_span(table, *span, steps)?;
    }
    found.take_from(0)?;
    Ok(found.ids)
}
