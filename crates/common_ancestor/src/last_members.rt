//! The members of a set that no other member reaches.

ghost use Rattle.std.specs.Prelude.{ℕ, ◌≤◌, ◌↔◌, ◌-◌, ◌^◌, IfOk, min};
ghost use Rattle.commit_graph.specs.Sets as sets;
ghost use Rattle.segment_codec.specs.Table.{IsHeld};
ghost use Rattle.span_set.specs.Members.{IsMember, IsCanonical};
ghost use Rattle.ancestor_query.specs.Graph.{table_graph};
ghost use Rattle.common_ancestor.specs.Lowest.{IsLowest};

use ancestor_query::{ancestors_above, parents};
use id_groups::Id;
use segment_codec::{SegmentTable, Steps};
use span_set::IdSet;
use std::alloc::{AllocError, Global};

/// An id that no member lies below: the lowest member, where there is one.
fn lowest(set: &IdSet) -> Id
    ensures { IsLowest set.now result }
{
    match set.spans().last() {
        Some(span) => span.low,
        None => Id::master(0),
    }
}

/// The members that no other member reaches along parents. Each member is an id of the table. It goes down no further than
/// to the lowest member. It takes back nothing that `steps` counted. `AllocError` only for want of memory.
pub fn tips<T: SegmentTable>(
    alloc: Global,
    table: &T,
    set: &IdSet,
    steps: &mut Steps,
) -> Result<IdSet, AllocError>
    requires { (x : ℕ) → IsMember set.now x → IsHeld (T.flats table.now) x }
    ensures members { IfOk result (λ r. (x : ℕ) → IsMember r x ↔ sets.tips (table_graph (T.flats table.now)) (IsMember set.now) x) }
    ensures canonical { IfOk result IsCanonical }
    ensures counted { min steps.old.taken (2 ^ 64 - 1) ≤ steps.new.taken }
{
    let floor = lowest(set);
    let others = parents(alloc, table, set, steps)?;
    let reached = ancestors_above(alloc, table, &others, floor, steps)?;
    set.minus(alloc, &reached)
}
