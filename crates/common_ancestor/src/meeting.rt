//! What two sets both reach.

ghost use Rattle.std.specs.Prelude.{◌≡◌, ℕ, ◌-◌, ◌≤◌, ◌^◌, ◌↔◌, [], IfOk, OnOk, min};
ghost use Rattle.commit_graph.specs.Sets as sets;
ghost use Rattle.segment_codec.specs.Lent.{parents_left};
ghost use Rattle.segment_codec.specs.Table.{IsHeld};
ghost use Rattle.span_set.specs.Members.{IsMember, IsCanonical};
ghost use Rattle.ancestor_query.specs.Graph.{table_graph};
ghost use Rattle.common_ancestor.specs.Jumps.{IsFloor};
ghost use Rattle.common_ancestor.specs.Meets.{AreLast, greatest_of, shared_of, AddsShared};
ghost use Rattle.common_ancestor.specs.Waits.{FindsNext, Drops, PutsParents};

use crate::difference::greater_with;
use crate::jump::{floor_under, jump_above};
use ancestor_query::WorkList;
use id_groups::{ID_END, Id, IdSpan};
use segment_codec::{Parents, SegmentTable, Steps};
use span_set::IdSet;
use std::alloc::{AllocError, Global};

/// What waits in a visit of two sets: what the left one alone is known to reach, what the right one, and what both.
#[derive(Drop)]
pub(crate) struct Waiting {
    left: WorkList,
    right: WorkList,
    both: WorkList,
}

/// The greatest ids that wait below a frontier.
#[derive(Clone, Copy)]
pub(crate) struct Next {
    left: Id,
    right: Id,
    both: Option<Id>,
}

impl Next {
    /// The greatest of all: nothing is reached between it and the frontier.
    #[inline]
    fn greatest(&self) -> Id
        ensures { result ≡ greatest_of self.now.left self.now.right self.now.both }
    {
        let greater = if self.left < self.right {
            self.right
        } else {
            self.left
        };
        greater_with(greater, &self.both)
    }

    /// The greatest id that both sets can reach: they do where it is in the segment of the greatest.
    #[inline]
    fn shared(&self) -> Id
        ensures { result ≡ shared_of self.now.left self.now.right self.now.both }
    {
        let lesser = if self.left < self.right {
            self.left
        } else {
            self.right
        };
        greater_with(lesser, &self.both)
    }

    /// The lowest id that one jump from the greatest may pass: above what both can reach, unless that is the greatest itself.
    #[inline]
    fn floor(&self, greatest: Id) -> u64
        ensures { IsFloor greatest (shared_of self.now.left self.now.right self.now.both) result }
    {
        let greater = if self.left < self.right {
            self.right
        } else {
            self.left
        };
        floor_under(greatest, self.shared(), greater)
    }
}

impl Waiting {
    /// Nothing waits.
    fn empty(alloc: Global) -> Waiting
        ensures left { result.left ≡ [] }
        ensures right { result.right ≡ [] }
        ensures both { result.both ≡ [] }
    {
        Waiting {
            left: WorkList::empty(alloc),
            right: WorkList::empty(alloc),
            both: WorkList::empty(alloc),
        }
    }

    /// The greatest ids below the bound, those of the sets included; `None` exactly where nothing of one side is left.
    fn next(&mut self, left: &IdSet, right: &IdSet, below: u64) -> Option<Next>
        requires { below ≤ 2 ^ 57 }
        ensures drops { Drops below self.old self.new }
        ensures next { FindsNext (IsMember left.now) (IsMember right.now) below self.new result }
    {
        let of_left = self.left.next_id(left, below)?;
        let of_right = self.right.next_id(right, below)?;
        let of_both = self.both.next_below(below);
        Some(Next {
            left: of_left,
            right: of_right,
            both: of_both,
        })
    }

    /// Puts the parents of the segment that begins at `low` where they belong: to both if both reach its lowest id, else to
    /// the side that does.
    fn push_parents(&mut self, low: Id, next: &Next, parents: Parents<'_>) -> Result<(), AllocError>
        ensures { OnOk result (PutsParents low next.now (parents_left parents.entry) self.old self.new) }
    {
        if low <= next.shared() {
            return self.both.push_all(parents);
        }
        if next.left < next.right {
            return self.right.push_all(parents);
        }
        self.left.push_all(parents)
    }
}

/// Adds the shared id, if the segment that begins at `low` has it and no id above it that both sets reach has it as a parent.
fn add_shared(last: &mut IdSet, low: Id, next: &Next) -> Result<(), AllocError>
    ensures members { OnOk result (AddsShared low (shared_of next.now.left next.now.right next.now.both) next.now.both last.old last.new) }
    ensures canonical { IsCanonical last.old → IsCanonical last.new }
{
    let id = next.shared();
    let waited = match next.both {
        Some(waiting) => waiting == id,
        None => false,
    };
    if waited || id < low {
        return Ok(());
    }
    last.insert_span(IdSpan::single(id))
}

/// The last of what both sets reach: the ids that both reach are those that the answer reaches, and none of the answer is
/// a parent of such. Each member of either is an id of the table. It goes down a segment at a time, a flat one or where the
/// next that waits lies far below a longer one, until all that one of the sets reaches is reached from the answer.
/// `AllocError` only for want of memory.
pub(crate) fn meet<T: SegmentTable>(
    alloc: Global,
    table: &T,
    left: &IdSet,
    right: &IdSet,
    steps: &mut Steps,
) -> Result<IdSet, AllocError>
    requires left { (x : ℕ) → IsMember left.now x → IsHeld (T.flats table.now) x }
    requires right { (x : ℕ) → IsMember right.now x → IsHeld (T.flats table.now) x }
    ensures reached { IfOk result (λ r. (x : ℕ) → sets.ancestors (table_graph (T.flats table.now)) (IsMember r) x
        ↔ (sets.ancestors (table_graph (T.flats table.now)) (IsMember left.now) x × sets.ancestors (table_graph (T.flats table.now)) (IsMember right.now) x)) }
    ensures last { IfOk result (λ r. AreLast (table_graph (T.flats table.now)) (IsMember r)) }
    ensures canonical { IfOk result IsCanonical }
    ensures counted { min steps.old.taken (2 ^ 64 - 1) ≤ steps.new.taken }
{
    let mut last = IdSet::empty(alloc);
    let mut waiting = Waiting::empty(alloc);
    add_last(&mut last, &mut waiting, table, left, right, steps)?;
    Ok(last)
}

/// The walk: `last` gets the ids, and has none before. Nothing waits before.
fn add_last<T: SegmentTable>(
    last: &mut IdSet,
    waiting: &mut Waiting,
    table: &T,
    left: &IdSet,
    right: &IdSet,
    steps: &mut Steps,
) -> Result<(), AllocError>
    requires left { (x : ℕ) → IsMember left.now x → IsHeld (T.flats table.now) x }
    requires right { (x : ℕ) → IsMember right.now x → IsHeld (T.flats table.now) x }
    requires last { last.old ≡ [] }
    requires waiting { (waiting.old.left ≡ []) × (waiting.old.right ≡ []) × (waiting.old.both ≡ []) }
    ensures reached { OnOk result ((x : ℕ) → sets.ancestors (table_graph (T.flats table.now)) (IsMember last.new) x
        ↔ (sets.ancestors (table_graph (T.flats table.now)) (IsMember left.now) x × sets.ancestors (table_graph (T.flats table.now)) (IsMember right.now) x)) }
    ensures last { OnOk result (AreLast (table_graph (T.flats table.now)) (IsMember last.new)) }
    ensures canonical { OnOk result (IsCanonical last.new) }
    ensures counted { min steps.old.taken (2 ^ 64 - 1) ≤ steps.new.taken }
{
    let mut frontier = ID_END;
    'visit: while let Some(next) = waiting.next(left, right, frontier) {
        let id = next.greatest();
        let segment = jump_above(table, id, next.floor(id), steps);
        let low = segment.low();
        add_shared(last, low, &next)?;
        waiting.push_parents(low, &next, segment.parents())?;
        frontier = low.number();
    }
    Ok(())
}
