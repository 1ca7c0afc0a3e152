//! What some ids reach along parents.

ghost use Rattle.std.specs.Prelude.{◌≡◌, ℕ, [], ◌+◌, ◌-◌, ◌*◌, ◌≤◌, ◌^◌, ◌↔◌, IfOk, IsTrue, min};
ghost use Rattle.commit_graph.specs.Graph.{Reaches, first_ancestor as after_steps};
ghost use Rattle.commit_graph.specs.Sets as sets;
ghost use Rattle.segment_codec.specs.Table.{IsHeld};
ghost use Rattle.span_set.specs.Members.{IsMember, IsCanonical};
ghost use Rattle.ancestor_query.specs.Graph.{table_graph};
ghost use Rattle.ancestor_query.specs.Counts.{count_met, IsOnly, EndsWhole};

use crate::floor::ancestors_above;
use crate::jump::best_jump;
use crate::work_list::WorkList;
use id_groups::{ID_END, Id};
use segment_codec::{SegmentTable, Steps};
use span_set::IdSet;
use std::alloc::{AllocError, Global};

/// The ids that some member of the set reaches along parents, the members among them. Each member is an id of the table.
/// It takes at most eight look-ups more than eight for each flat segment that has one of these ids, and at most eight
/// where a segment without parents, of any level, ends at the one member. No call takes back what `steps` counted.
/// `AllocError` only for want of memory.
pub fn ancestors<T: SegmentTable>(
    alloc: Global,
    table: &T,
    set: &IdSet,
    steps: &mut Steps,
) -> Result<IdSet, AllocError>
    requires { (x : ℕ) → IsMember set.now x → IsHeld (T.flats table.now) x }
    ensures members { IfOk result (λ r. (x : ℕ) → IsMember r x ↔ sets.ancestors (table_graph (T.flats table.now)) (IsMember set.now) x) }
    ensures canonical { IfOk result IsCanonical }
    ensures few { IfOk result (λ r. steps.new.taken ≤ steps.old.taken + 8 * (1 + count_met r (T.flats table.now))) }
    ensures one { IfOk result (λ r. (x : ℕ) → IsOnly x set.now → EndsWhole (T.ending_at table.now) x → steps.new.taken ≤ steps.old.taken + 8) }
    ensures looked { IfOk result (λ r. (x : ℕ) → IsMember r x → min (steps.old.taken + 8) (2 ^ 64 - 1) ≤ steps.new.taken) }
    ensures counted { min steps.old.taken (2 ^ 64 - 1) ≤ steps.new.taken }
{
    ancestors_above(alloc, table, set, Id::master(0), steps)
}

/// Whether a walk along parents leads from `y` to `x`, both ids of the table; from an id to itself one does.
/// `AllocError` only for want of memory.
pub fn is_ancestor<T: SegmentTable>(
    alloc: Global,
    table: &T,
    x: Id,
    y: Id,
    steps: &mut Steps,
) -> Result<bool, AllocError>
    requires x { IsHeld (T.flats table.now) x }
    requires y { IsHeld (T.flats table.now) y }
    ensures reached { IfOk result (λ r. IsTrue r ↔ Reaches (table_graph (T.flats table.now)) y x) }
    ensures counted { min steps.old.taken (2 ^ 64 - 1) ≤ steps.new.taken }
{
    let mut work = WorkList::empty(alloc);
    leads_to(&mut work, table, y, x, steps)
}

/// The walk from `y` down to `x`. What waits is on the list, which is empty before.
fn leads_to<T: SegmentTable>(
    work: &mut WorkList,
    table: &T,
    y: Id,
    x: Id,
    steps: &mut Steps,
) -> Result<bool, AllocError>
    requires x { IsHeld (T.flats table.now) x }
    requires y { IsHeld (T.flats table.now) y }
    requires work { work.old ≡ [] }
    ensures reached { IfOk result (λ r. IsTrue r ↔ Reaches (table_graph (T.flats table.now)) y x) }
    ensures counted { min steps.old.taken (2 ^ 64 - 1) ≤ steps.new.taken }
{
    let target = x.number();
    work.push(y)?;
    let mut frontier = ID_END;
    'visit: while let Some(id) = work.next_below(frontier) {
        if id.number() < target {
            return Ok(false);
        }
        let segment = best_jump(table, id, steps);
        let low = segment.low().number();
        if low <= target {
            return Ok(true);
        }
        work.push_all(segment.parents())?;
        frontier = low;
    }
    Ok(false)
}

/// The id that `n` steps, each to the first parent, lead to from `x`, which is an id of the table; `None` exactly where
/// an id on the way has no parent. It takes no memory.
pub fn first_ancestor<T: SegmentTable>(table: &T, x: Id, n: u64, steps: &mut Steps) -> Option<Id>
    requires { IsHeld (T.flats table.now) x }
    ensures ancestor { result ≡ after_steps (table_graph (T.flats table.now)) n x }
    ensures counted { min steps.old.taken (2 ^ 64 - 1) ≤ steps.new.taken }
{
    let mut id = x;
    let mut left = n;
    'jump: loop {
        let segment = table.flat(id, steps).unwrap();
        let number = id.number();
        let within = number - segment.low().number();
        if left <= within {
            return Some(Id::from_number(number - left));
        }
        let first = segment.parents().next()?;
        left -= within + 1;
        id = first;
    }
}
