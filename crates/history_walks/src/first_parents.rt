//! What some ids reach by first parents alone.

ghost use Rattle.std.specs.Prelude.{◌≡◌, ℕ, [], ◌-◌, ◌≤◌, ◌^◌, ◌⊎◌, ◌↔◌, IfOk, OnOk, min, take};
ghost use Rattle.id_groups.specs.Lists.{IsIn};
ghost use Rattle.segment_codec.specs.Lent.{parents_left};
ghost use Rattle.segment_codec.specs.Table.{IsHeld};
ghost use Rattle.span_set.specs.Members.{IsMember, IsCanonical};
ghost use Rattle.ancestor_query.specs.Graph.{table_graph};
ghost use Rattle.set_expr.specs.Line.{line as line_in};

use ancestor_query::WorkList;
use id_groups::{ID_END, IdSpan};
use segment_codec::{Parents, SegmentTable, Steps};
use span_set::IdSet;
use std::alloc::{AllocError, Global};

/// Puts the first of the parents on the list, if there is one.
fn push_first(work: &mut WorkList, parents: Parents<'_>) -> Result<(), AllocError>
    ensures { OnOk result ((x : ℕ) → IsIn x work.new ↔ (IsIn x work.old ⊎ IsIn x (take 1 (parents_left parents.entry)))) }
{
    let mut rest = parents;
    match rest.next() {
        Some(parent) => work.push(parent),
        None => Ok(()),
    }
}

/// The ids that some member of the set reaches by first parents alone, the members among them. Each member is an id of the
/// table. It takes one look-up for each flat segment that has one of these ids, and takes back nothing that `steps` counted.
/// `AllocError` only for want of memory.
pub fn line<T: SegmentTable>(
    alloc: Global,
    table: &T,
    set: &IdSet,
    steps: &mut Steps,
) -> Result<IdSet, AllocError>
    requires { (x : ℕ) → IsMember set.now x → IsHeld (T.flats table.now) x }
    ensures members { IfOk result (λ r. (x : ℕ) → IsMember r x ↔ line_in (table_graph (T.flats table.now)) (IsMember set.now) x) }
    ensures canonical { IfOk result IsCanonical }
    ensures counted { min steps.old.taken (2 ^ 64 - 1) ≤ steps.new.taken }
{
    let mut answer = IdSet::empty(alloc);
    let mut work = WorkList::empty(alloc);
    add_line(&mut answer, &mut work, table, set, steps)?;
    Ok(answer)
}

/// The walk: the answer gets the ids, and has none before. What waits is on the list, which is empty before.
fn add_line<T: SegmentTable>(
    answer: &mut IdSet,
    work: &mut WorkList,
    table: &T,
    set: &IdSet,
    steps: &mut Steps,
) -> Result<(), AllocError>
    requires held { (x : ℕ) → IsMember set.now x → IsHeld (T.flats table.now) x }
    requires answer { answer.old ≡ [] }
    requires work { work.old ≡ [] }
    ensures members { OnOk result ((x : ℕ) → IsMember answer.new x ↔ line_in (table_graph (T.flats table.now)) (IsMember set.now) x) }
    ensures canonical { OnOk result (IsCanonical answer.new) }
    ensures counted { min steps.old.taken (2 ^ 64 - 1) ≤ steps.new.taken }
{
    let mut frontier = ID_END;
    'visit: while let Some(id) = work.next_id(set, frontier) {
        let segment = table.flat(id, steps).unwrap();
        let low = segment.low();
        answer.insert_span(IdSpan { low, high: id })?;
        push_first(work, segment.parents())?;
        frontier = low.number();
    }
    Ok(())
}
