//! What all members of a set reach.

ghost use Rattle.std.specs.Prelude.{◌≡◌, ℕ, ◌-◌, ◌≤◌, ◌^◌, ◌↔◌, IfOk, min};
ghost use Rattle.id_groups.specs.Span.{IsSpan, IsInSpan};
ghost use Rattle.commit_graph.specs.Graph.{Reaches};
ghost use Rattle.commit_graph.specs.Sets as sets;
ghost use Rattle.segment_codec.specs.Table.{IsHeld};
ghost use Rattle.span_set.specs.Members.{IsMember, IsCanonical};
ghost use Rattle.ancestor_query.specs.Graph.{table_graph};
ghost use Rattle.common_ancestor.specs.Meets.{AreLast, AllReach};

use crate::meeting::meet;
use ancestor_query::ancestors;
use id_groups::{Id, IdSpan};
use segment_codec::{SegmentTable, Steps};
use span_set::IdSet;
use std::alloc::{AllocError, Global};

/// The set of the one id.
fn single(alloc: Global, id: Id) -> Result<IdSet, AllocError>
    ensures members { IfOk result (λ r. (x : ℕ) → IsMember r x ↔ (x ≡ id)) }
    ensures canonical { IfOk result IsCanonical }
{
    let mut set = IdSet::empty(alloc);
    set.insert_span(IdSpan::single(id))?;
    Ok(set)
}

/// The last of what the set and the id reach.
fn meet_one<T: SegmentTable>(
    alloc: Global,
    table: &T,
    id: Id,
    set: &IdSet,
    steps: &mut Steps,
) -> Result<IdSet, AllocError>
    requires id_held { IsHeld (T.flats table.now) id }
    requires held { (x : ℕ) → IsMember set.now x → IsHeld (T.flats table.now) x }
    ensures reached { IfOk result (λ r. (x : ℕ) → sets.ancestors (table_graph (T.flats table.now)) (IsMember r) x
        ↔ (sets.ancestors (table_graph (T.flats table.now)) (IsMember set.now) x × Reaches (table_graph (T.flats table.now)) id x)) }
    ensures last { IfOk result (λ r. AreLast (table_graph (T.flats table.now)) (IsMember r)) }
    ensures canonical { IfOk result IsCanonical }
    ensures counted { min steps.old.taken (2 ^ 64 - 1) ≤ steps.new.taken }
{
    let lowest = single(alloc, id)?;
    let last = meet(alloc, table, set, &lowest, steps)?;
    Ok(last)
}

/// The last of what the set and each id of the span reach. Of the span's ids in one segment only the lowest counts, since
/// the others reach it.
fn meet_span<T: SegmentTable>(
    alloc: Global,
    table: &T,
    span: IdSpan,
    set: IdSet,
    steps: &mut Steps,
) -> Result<IdSet, AllocError>
    requires span { IsSpan span }
    requires span_held { (x : ℕ) → IsInSpan x span → IsHeld (T.flats table.now) x }
    requires held { (x : ℕ) → IsMember set x → IsHeld (T.flats table.now) x }
    requires last { AreLast (table_graph (T.flats table.now)) (IsMember set) }
    requires canonical { IsCanonical set }
    ensures reached { IfOk result (λ r. (x : ℕ) → sets.ancestors (table_graph (T.flats table.now)) (IsMember r) x
        ↔ (sets.ancestors (table_graph (T.flats table.now)) (IsMember set) x × AllReach (table_graph (T.flats table.now)) (λ m. IsInSpan m span) x)) }
    ensures last { IfOk result (λ r. AreLast (table_graph (T.flats table.now)) (IsMember r)) }
    ensures canonical { IfOk result IsCanonical }
    ensures counted { min steps.old.taken (2 ^ 64 - 1) ≤ steps.new.taken }
{
    let low = span.low.number();
    let mut end = span.high.number() + 1;
    let mut last = set;
    'pieces: while low < end {
        if last.spans().is_empty() {
            return Ok(last);
        }
        let high = Id::from_number(end - 1);
        let segment = table.flat(high, steps).unwrap();
        end = segment.low().number().max(low);
        last = meet_one(alloc, table, Id::from_number(end), &last, steps)?;
    }
    Ok(last)
}

/// The last ids that every member of the set reaches along parents: what every member reaches is what these reach. Each
/// member is an id of the table. It meets what one member after another reaches, until nothing is left, and takes the
/// members of one segment at once. It takes back nothing that `steps` counted. `AllocError` only for want of memory.
pub fn gca<T: SegmentTable>(
    alloc: Global,
    table: &T,
    set: &IdSet,
    steps: &mut Steps,
) -> Result<IdSet, AllocError>
    requires { (x : ℕ) → IsMember set.now x → IsHeld (T.flats table.now) x }
    ensures members { IfOk result (λ r. (x : ℕ) → IsMember r x ↔ sets.gca (table_graph (T.flats table.now)) (IsMember set.now) x) }
    ensures reached { IfOk result (λ r. (x : ℕ) → sets.ancestors (table_graph (T.flats table.now)) (IsMember r) x ↔ sets.common (table_graph (T.flats table.now)) (IsMember set.now) x) }
    ensures canonical { IfOk result IsCanonical }
    ensures counted { min steps.old.taken (2 ^ 64 - 1) ≤ steps.new.taken }
{
    let Some(first) = set.greatest() else {
        return Ok(IdSet::empty(alloc));
    };
    let mut last = single(alloc, first)?;
    'spans: for span in set.spans() {
        last = meet_span(alloc, table, *span, last, steps)?;
    }
    Ok(last)
}

/// The ids that every member of the set reaches along parents; none where the set has no member. Each member is an id of
/// the table. It takes back nothing that `steps` counted. `AllocError` only for want of memory.
pub fn common<T: SegmentTable>(
    alloc: Global,
    table: &T,
    set: &IdSet,
    steps: &mut Steps,
) -> Result<IdSet, AllocError>
    requires { (x : ℕ) → IsMember set.now x → IsHeld (T.flats table.now) x }
    ensures members { IfOk result (λ r. (x : ℕ) → IsMember r x ↔ sets.common (table_graph (T.flats table.now)) (IsMember set.now) x) }
    ensures canonical { IfOk result IsCanonical }
    ensures counted { min steps.old.taken (2 ^ 64 - 1) ≤ steps.new.taken }
{
    let last = gca(alloc, table, set, steps)?;
    ancestors(alloc, table, &last, steps)
}
