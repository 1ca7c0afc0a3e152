//! How far some ids are ahead of another one and behind it.

ghost use Rattle.std.specs.Prelude.{◌≡◌, ◌↔◌, ◌≤◌, ◌-◌, ◌^◌, ℕ, IfOk, min};
ghost use Rattle.std.specs.List.{AllZip};
ghost use Rattle.commit_graph.specs.Sets as sets;
ghost use Rattle.segment_codec.specs.Table.{IsHeld};
ghost use Rattle.span_set.specs.Members.{IsMember, ids_of};
ghost use Rattle.ancestor_query.specs.Graph.{table_graph};
ghost use Rattle.history_walks.specs.Sides.{AreSidesOf, IsCountOf};

use common_ancestor::only;
use id_groups::{Id, IdSpan};
use segment_codec::{SegmentTable, Steps};
use span_set::IdSet;
use std::alloc::{AllocError, Global};

/// What is told of a tip: how many ids it reaches that the base doesn't, and the other way round.
#[derive(Clone, Copy)]
pub struct Distance {
    /// How many the tip alone reaches.
    pub ahead: u64,
    /// How many the base alone reaches.
    pub behind: u64,
}

/// The set of this id alone.
fn single(alloc: Global, id: Id) -> Result<IdSet, AllocError>
    ensures { IfOk result (λ r. (x : ℕ) → IsMember r x ↔ (x ≡ id)) }
{
    let mut set = IdSet::empty(alloc);
    set.insert_span(IdSpan::single(id))?;
    Ok(set)
}

/// How many ids the first set reaches that the second doesn't.
fn count_only<T: SegmentTable>(
    alloc: Global,
    table: &T,
    from: &IdSet,
    minus: &IdSet,
    steps: &mut Steps,
) -> Result<u64, AllocError>
    requires from { (x : ℕ) → IsMember from.now x → IsHeld (T.flats table.now) x }
    requires minus { (x : ℕ) → IsMember minus.now x → IsHeld (T.flats table.now) x }
    ensures count { IfOk result (IsCountOf (sets.only (table_graph (T.flats table.now)) (IsMember from.now) (IsMember minus.now))) }
    ensures counted { min steps.old.taken (2 ^ 64 - 1) ≤ steps.new.taken }
{
    let set = only(alloc, table, from, minus, steps)?;
    let _spans = set.spans();
    Ok(set.count())
}

/// How far a tip is ahead of the base, the one member of a set, and behind it.
fn sides_of<T: SegmentTable>(
    alloc: Global,
    table: &T,
    base: Id,
    only_base: &IdSet,
    tip: Id,
    steps: &mut Steps,
) -> Result<Distance, AllocError>
    requires base { IsHeld (T.flats table.now) base }
    requires one { (x : ℕ) → IsMember only_base.now x ↔ (x ≡ base) }
    requires tip { IsHeld (T.flats table.now) tip }
    ensures sides { IfOk result (AreSidesOf (table_graph (T.flats table.now)) base tip) }
    ensures counted { min steps.old.taken (2 ^ 64 - 1) ≤ steps.new.taken }
{
    let own = single(alloc, tip)?;
    let ahead = count_only(alloc, table, &own, only_base, steps)?;
    let behind = count_only(alloc, table, only_base, &own, steps)?;
    Ok(Distance { ahead, behind })
}

/// Of each tip, the greatest first, how far it is ahead of the base and behind it. Each is an id of the table. It takes back
/// nothing that `steps` counted. `AllocError` only for want of memory.
pub fn sides<T: SegmentTable>(
    alloc: Global,
    table: &T,
    base: Id,
    tips: &IdSet,
    steps: &mut Steps,
) -> Result<Vec<Distance>, AllocError>
    requires base { IsHeld (T.flats table.now) base }
    requires tips { (x : ℕ) → IsMember tips.now x → IsHeld (T.flats table.now) x }
    ensures sides { IfOk result (λ r. AllZip (AreSidesOf (table_graph (T.flats table.now)) base) (ids_of tips.now) r.items) }
    ensures counted { min steps.old.taken (2 ^ 64 - 1) ≤ steps.new.taken }
{
    let only_base = single(alloc, base)?;
    let mut all = Vec::new(alloc);
    let mut rest = tips.ids_down();
    'tips: while let Some(tip) = rest.next() {
        all.push(sides_of(alloc, table, base, &only_base, tip, steps)?)?;
    }
    Ok(all)
}
