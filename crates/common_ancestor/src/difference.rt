//! What some ids reach and others don't.

ghost use Rattle.std.specs.Prelude.{◌≡◌, ℕ, [], ◌+◌, ◌-◌, ◌<◌, ◌≤◌, ◌^◌, ◌↔◌, IfOk, OnOk, MatchOption, ⊤, min};
ghost use Rattle.commit_graph.specs.Sets as sets;
ghost use Rattle.segment_codec.specs.Lent.{parents_left};
ghost use Rattle.segment_codec.specs.Table.{IsHeld};
ghost use Rattle.span_set.specs.Members.{IsMember, IsCanonical};
ghost use Rattle.ancestor_query.specs.Graph.{table_graph};
ghost use Rattle.common_ancestor.specs.Jumps.{IsFloor};
ghost use Rattle.common_ancestor.specs.Turns.{first_above, greater_with, PutsEither};

use crate::jump::{floor_under, jump_above};
use ancestor_query::WorkList;
use id_groups::{ID_END, Id, IdSpan};
use segment_codec::{Parents, SegmentTable, Steps};
use span_set::IdSet;
use std::alloc::{AllocError, Global};

/// The ids that wait to be visited: those that the first set reaches, and those that the second reaches.
#[derive(Drop)]
struct Unvisited {
    mine: WorkList,
    theirs: WorkList,
}

/// The greater of an id and another, where there is one.
#[inline]
pub(crate) fn greater_with(id: Id, other: &Option<Id>) -> Id
    ensures { result ≡ greater_with id other.now }
{
    match other {
        Some(y) => { if id < *y { *y } else { id } }
        None => id,
    }
}

/// The first number from `low` on that lies above the id, where there is one.
#[inline]
fn first_above(low: Id, id: &Option<Id>) -> u64
    ensures { result ≡ first_above low id.now }
{
    let from = low.number();
    match id {
        Some(y) => {
            let after = y.number() + 1;
            from.max(after)
        }
        None => from,
    }
}

/// The lowest id that one jump from `id`, the greatest that waits, may pass. `next` waits on the first list, `reached` on the
/// second.
#[inline]
fn floor_of(id: Id, next: Id, reached: &Option<Id>) -> u64
    ensures { MatchOption reached.now ⊤ (λ y. IsFloor id y result) }
{
    match reached {
        Some(y) => floor_under(id, *y, next),
        None => 0,
    }
}

/// Puts the parents on the second list where `start` lies above `low`, else on the first.
fn push_either(
    low: Id,
    start: u64,
    unvisited: &mut Unvisited,
    parents: Parents<'_>,
) -> Result<(), AllocError>
    ensures { OnOk result (PutsEither low start (parents_left parents.entry) unvisited.old.mine unvisited.old.theirs unvisited.new.mine unvisited.new.theirs) }
{
    if low.number() < start {
        return unvisited.theirs.push_all(parents);
    }
    unvisited.mine.push_all(parents)
}

/// The ids that some member of `from` reaches along parents and no member of `minus`. Each member of either is an id of
/// the table. It goes down a segment at a time, until all that `from` reaches is reached from `minus` too: a flat one by one
/// look-up, or where the next id that waits lies far below a longer one by at most eight. It takes back nothing that `steps`
/// counted. `AllocError` only for want of memory.
pub fn only<T: SegmentTable>(
    alloc: Global,
    table: &T,
    from: &IdSet,
    minus: &IdSet,
    steps: &mut Steps,
) -> Result<IdSet, AllocError>
    requires from { (x : ℕ) → IsMember from.now x → IsHeld (T.flats table.now) x }
    requires minus { (x : ℕ) → IsMember minus.now x → IsHeld (T.flats table.now) x }
    ensures members { IfOk result (λ r. (x : ℕ) → IsMember r x ↔ sets.only (table_graph (T.flats table.now)) (IsMember from.now) (IsMember minus.now) x) }
    ensures canonical { IfOk result IsCanonical }
    ensures counted { min steps.old.taken (2 ^ 64 - 1) ≤ steps.new.taken }
{
    let mut answer = IdSet::empty(alloc);
    let mut unvisited = Unvisited {
        mine: WorkList::empty(alloc),
        theirs: WorkList::empty(alloc),
    };
    add_only(&mut answer, &mut unvisited, table, from, minus, steps)?;
    Ok(answer)
}

/// The walk: the answer gets the ids, and has none before. What either set reaches waits; nothing does before.
fn add_only<T: SegmentTable>(
    answer: &mut IdSet,
    unvisited: &mut Unvisited,
    table: &T,
    from: &IdSet,
    minus: &IdSet,
    steps: &mut Steps,
) -> Result<(), AllocError>
    requires from { (x : ℕ) → IsMember from.now x → IsHeld (T.flats table.now) x }
    requires minus { (x : ℕ) → IsMember minus.now x → IsHeld (T.flats table.now) x }
    requires answer { answer.old ≡ [] }
    requires mine { unvisited.old.mine ≡ [] }
    requires theirs { unvisited.old.theirs ≡ [] }
    ensures members { OnOk result ((x : ℕ) → IsMember answer.new x ↔ sets.only (table_graph (T.flats table.now)) (IsMember from.now) (IsMember minus.now) x) }
    ensures canonical { OnOk result (IsCanonical answer.new) }
    ensures counted { min steps.old.taken (2 ^ 64 - 1) ≤ steps.new.taken }
{
    let mut frontier = ID_END;
    'visit: while let Some(next) = unvisited.mine.next_id(from, frontier) {
        let reached = unvisited.theirs.next_id(minus, frontier);
        let id = greater_with(next, &reached);
        let floor = floor_of(id, next, &reached);
        let segment = jump_above(table, id, floor, steps);
        let low = segment.low();
        let start = first_above(low, &reached);
        answer.insert_between(start, id.number() + 1)?;
        push_either(low, start, unvisited, segment.parents())?;
        frontier = low.number();
    }
    Ok(())
}
