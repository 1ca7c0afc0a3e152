//! What some ids reach along parents, from a lowest id on.

ghost use Rattle.std.specs.Prelude.{◌≡◌, ℕ, [], ◌+◌, ◌-◌, ◌*◌, ◌≤◌, ◌^◌, ◌↔◌, IfOk, OnOk, min};
ghost use Rattle.commit_graph.specs.Sets as sets;
ghost use Rattle.segment_codec.specs.Table.{IsHeld};
ghost use Rattle.span_set.specs.Members.{IsMember, IsCanonical};
ghost use Rattle.ancestor_query.specs.Graph.{table_graph};
ghost use Rattle.ancestor_query.specs.Counts.{count_met, IsOnly, EndsWhole};

use crate::jump::{Pace, paced_jump};
use crate::work_list::{WorkList, lower_end, members_end};
use id_groups::{ID_END, Id, IdSpan};
use segment_codec::{SegmentTable, Steps};
use span_set::IdSet;
use std::alloc::{AllocError, Global};

/// The ids from `floor` on that some member of the set reaches along parents, the members from `floor` on among them.
/// Each member is an id of the table. It visits no id below `floor`. It takes at most eight look-ups more than eight for
/// each flat segment that has one of these ids, and at most eight where a segment without parents, of any level, ends at
/// the one member. No call takes back what `steps` counted. `AllocError` only for want of memory.
pub fn ancestors_above<T: SegmentTable>(
    alloc: Global,
    table: &T,
    set: &IdSet,
    floor: Id,
    steps: &mut Steps,
) -> Result<IdSet, AllocError>
    requires { (x : ℕ) → IsMember set.now x → IsHeld (T.flats table.now) x }
    ensures members { IfOk result (λ r. (x : ℕ) → IsMember r x ↔ (sets.ancestors (table_graph (T.flats table.now)) (IsMember set.now) x × (floor ≤ x))) }
    ensures canonical { IfOk result IsCanonical }
    ensures few { IfOk result (λ r. steps.new.taken ≤ steps.old.taken + 8 * (1 + count_met r (T.flats table.now))) }
    ensures one { IfOk result (λ r. (x : ℕ) → IsOnly x set.now → EndsWhole (T.ending_at table.now) x → steps.new.taken ≤ steps.old.taken + 8) }
    ensures looked { IfOk result (λ r. (x : ℕ) → IsMember r x → min (steps.old.taken + 8) (2 ^ 64 - 1) ≤ steps.new.taken) }
    ensures counted { min steps.old.taken (2 ^ 64 - 1) ≤ steps.new.taken }
{
    let mut answer = IdSet::empty(alloc);
    let mut work = WorkList::empty(alloc);
    add_ancestors(&mut answer, &mut work, table, set, floor, steps)?;
    Ok(answer)
}

/// The walk: the answer gets the ids, and has none before. What waits is on the list, which is empty before.
fn add_ancestors<T: SegmentTable>(
    answer: &mut IdSet,
    work: &mut WorkList,
    table: &T,
    set: &IdSet,
    floor: Id,
    steps: &mut Steps,
) -> Result<(), AllocError>
    requires held { (x : ℕ) → IsMember set.now x → IsHeld (T.flats table.now) x }
    requires answer { answer.old ≡ [] }
    requires work { work.old ≡ [] }
    ensures members { OnOk result ((x : ℕ) → IsMember answer.new x ↔ (sets.ancestors (table_graph (T.flats table.now)) (IsMember set.now) x × (floor ≤ x))) }
    ensures canonical { OnOk result (IsCanonical answer.new) }
    ensures few { OnOk result (steps.new.taken ≤ steps.old.taken + 8 * (1 + count_met answer.new (T.flats table.now))) }
    ensures one { OnOk result ((x : ℕ) → IsOnly x set.now → EndsWhole (T.ending_at table.now) x → steps.new.taken ≤ steps.old.taken + 8) }
    ensures looked { OnOk result ((x : ℕ) → IsMember answer.new x → min (steps.old.taken + 8) (2 ^ 64 - 1) ≤ steps.new.taken) }
    ensures counted { min steps.old.taken (2 ^ 64 - 1) ≤ steps.new.taken }
{
    let least = floor.number();
    let mut frontier = ID_END;
    let mut end = members_end(set, frontier);
    let mut pace = Pace::new();
    'visit: while let Some(id) = work.next_of(end, frontier) {
        if id.number() < least {
            return Ok(());
        }
        let segment = paced_jump(table, id, &mut pace, steps);
        let low = segment.low().number();
        let from = Id::from_number(low.max(least));
        answer.insert_span(IdSpan {
            low: from,
            high: id,
        })?;
        work.slide(low);
        work.push_all(segment.parents())?;
        frontier = low;
        end = lower_end(set, end, low);
    }
    Ok(())
}
