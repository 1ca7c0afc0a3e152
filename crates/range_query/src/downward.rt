//! What a set reaches, with cuts of the ways down.

ghost use Rattle.std.specs.Prelude.{◌≡◌, ℕ, [], ◌++◌, ◌-◌, ◌<◌, ◌≤◌, ◌^◌, ◌⊎◌, ◌↔◌, length, drop, IfOk, OnOk, min};
ghost use Rattle.id_groups.specs.Lists.{IsIn};
ghost use Rattle.commit_graph.specs.Sets as sets;
ghost use Rattle.segment_codec.specs.Lent.{segment_of};
ghost use Rattle.segment_codec.specs.Table.{IsHeld};
ghost use Rattle.span_set.specs.Members.{IsMember};
ghost use Rattle.ancestor_query.specs.Graph.{table_graph};
ghost use Rattle.ancestor_query.specs.Visits.{Keeps, ToVisit};
ghost use Rattle.range_query.specs.Cuts.{IsCut};
ghost use Rattle.range_query.specs.Tails.{HasFallen};
ghost use Rattle.range_query.specs.Falls.{AreAbove, one_above, IsEndOf, IsOfBoth, IsRaised, IsLeastParent};
ghost use Rattle.range_query.specs.declared.cut.Cut.{Cut as PlainCut};

use crate::cut::{Cut, keep_cut};
use crate::place::count_below;
use crate::tail::Tail;
use ancestor_query::{Window, WorkList};
use id_groups::{ID_END, Id};
use segment_codec::{SegmentRef, SegmentTable, Steps};
use span_set::IdSet;
use std::alloc::{AllocError, Global};

/// What a walk down found, and cuts of its ways.
#[derive(Drop)]
pub(crate) struct Descent {
    pub(crate) ids: IdSet,
    pub(crate) cuts: Vec<Cut>,
}

/// What a walk down knows of its ways.
#[derive(Clone, Copy)]
struct Ways {
    /// The least parent of the segments visited, 0 where some have none.
    least: u64,
    /// One above the greatest id to visit that waits outside the window, 0 where there is none.
    end: u64,
}

/// How many flat segments there are up to the one that has the greatest member. The others begin above all members.
fn end_of<T: SegmentTable>(table: &T, set: &IdSet, steps: &mut Steps) -> u32
    requires { (x : ℕ) → IsMember set.now x → IsHeld (T.flats table.now) x }
    ensures within { result ≤ length (T.flats table.now) }
    ensures above { (x : ℕ) → IsMember set.now x → AreAbove x (drop result (T.flats table.now)) }
    ensures counted { min steps.old.taken (2 ^ 64 - 1) ≤ steps.new.taken }
{
    match set.greatest() {
        Some(greatest) => count_below(table, greatest, steps) + 1,
        None => 0,
    }
}

/// One above the id; 0 where there is none.
#[inline(always)]
fn after(id: Option<Id>) -> u64
    ensures { result ≡ one_above id }
{
    match id {
        Some(id) => id.number() + 1,
        None => 0,
    }
}

/// One above the greatest member or waiting id below the bound; 0 where there is none. Waiting ids at or above the bound
/// are dropped.
#[cold]
fn end_below(far: &mut WorkList, set: &IdSet, bound: u64) -> u64
    requires { bound ≤ 2 ^ 57 }
    ensures keeps { Keeps far.old far.new bound }
    ensures end { IsEndOf (ToVisit (IsMember set.now) far.new) bound result }
{
    after(far.next_id(set, bound))
}

/// The same, where `end` is one above the greatest below a higher bound: nothing is done if that is below this one.
#[inline(always)]
fn end_from(far: &mut WorkList, set: &IdSet, end: u64, bound: u64) -> u64
    requires { bound ≤ 2 ^ 57 }
    ensures keeps { Keeps far.old far.new bound }
    ensures end { (b : ℕ) → bound ≤ b → IsEndOf (ToVisit (IsMember set.now) far.old) b end → IsEndOf (ToVisit (IsMember set.now) far.new) bound result }
{
    if end <= bound {
        return end;
    }
    end_below(far, set, bound)
}

/// Puts an id on the list, and answers the end raised over it.
#[cold]
fn push_far(far: &mut WorkList, end: u64, id: Id) -> Result<u64, AllocError>
    ensures all { OnOk result ((x : ℕ) → IsIn x far.new ↔ (IsIn x far.old ⊎ (x ≡ id))) }
    ensures end { IfOk result (λ r. IsRaised far.old far.new (λ p. p ≡ id) end r) }
{
    far.push(id)?;
    Ok(end.max(id.number() + 1))
}

/// Lets a parent wait, in the window if it fits there.
#[inline(always)]
fn push_parent(
    near: &mut Window,
    far: &mut WorkList,
    ways: Ways,
    parent: Id,
) -> Result<Ways, AllocError>
    ensures least { IfOk result (λ r. r.least ≡ min ways.least parent) }
    ensures near { OnOk result ((x : ℕ) → IsIn x near.new → IsIn x near.old ⊎ (x ≡ parent)) }
    ensures all { OnOk result ((x : ℕ) → IsOfBoth near.new far.new x ↔ (IsOfBoth near.old far.old x ⊎ (x ≡ parent))) }
    ensures end { IfOk result (λ r. IsRaised far.old far.new (λ p. p ≡ parent) ways.end r.end) }
{
    let least = ways.least.min(parent.number());
    if near.put(parent) {
        return Ok(Ways {
            least,
            end: ways.end,
        });
    }
    let end = push_far(far, ways.end, parent)?;
    Ok(Ways { least, end })
}

/// Lets the parents of a segment wait.
#[inline(always)]
fn push_parents(
    near: &mut Window,
    far: &mut WorkList,
    ways: Ways,
    segment: SegmentRef<'_>,
) -> Result<Ways, AllocError>
    ensures least { IfOk result (λ r. IsLeastParent (segment_of segment.entry).parents ways.least r.least) }
    ensures near { OnOk result ((x : ℕ) → IsIn x near.new → IsIn x near.old ⊎ IsIn x (segment_of segment.entry).parents) }
    ensures all { OnOk result ((x : ℕ) → IsOfBoth near.new far.new x ↔ (IsOfBoth near.old far.old x ⊎ IsIn x (segment_of segment.entry).parents)) }
    ensures end { IfOk result (λ r. IsRaised far.old far.new (λ p. IsIn p (segment_of segment.entry).parents) ways.end r.end) }
{
    let mut more = Ways {
        least: if segment.parents_len() == 0 {
            0
        } else {
            ways.least
        },
        end: ways.end,
    };
    'push: for parent in segment.parents() {
        more = push_parent(near, far, more, parent)?;
    }
    Ok(more)
}

/// Lets go of what waits from the segment's lowest id on, and lets its parents wait.
#[inline(always)]
fn visit(
    near: &mut Window,
    far: &mut WorkList,
    to: &IdSet,
    ways: Ways,
    segment: SegmentRef<'_>,
) -> Result<Ways, AllocError>
    ensures keeps { OnOk result (Keeps ((near.old ++ far.old) ++ (segment_of segment.entry).parents) (near.new ++ far.new) (segment_of segment.entry).low) }
    ensures near { OnOk result ((x : ℕ) → IsIn x near.new → x < (segment_of segment.entry).low) }
    ensures end { IfOk result (λ r. (b : ℕ) → (segment_of segment.entry).low ≤ b → IsEndOf (ToVisit (IsMember to.now) far.old) b ways.end
        → IsEndOf (ToVisit (IsMember to.now) far.new) (segment_of segment.entry).low r.end) }
    ensures least { IfOk result (λ r. IsLeastParent (segment_of segment.entry).parents ways.least r.least) }
{
    let low = segment.low().number();
    near.slide(low);
    let left = Ways {
        least: ways.least,
        end: end_from(far, to, ways.end, low),
    };
    push_parents(near, far, left, segment)
}

/// The ids from `lowest` on that some member of `to` reaches along parents, the members from `lowest` on among them, and cuts
/// of the ways down to them. It looks at the flat segments from the one that has the greatest member of `to` down to the one
/// that has the lowest id found.
pub(crate) fn walk_down<T: SegmentTable>(
    alloc: Global,
    table: &T,
    to: &IdSet,
    lowest: Id,
    steps: &mut Steps,
) -> Result<Descent, AllocError>
    requires { (x : ℕ) → IsMember to.now x → IsHeld (T.flats table.now) x }
    ensures members { IfOk result (λ r. (x : ℕ) → IsMember r.ids x ↔ (sets.ancestors (table_graph (T.flats table.now)) (IsMember to.now) x × (lowest ≤ x))) }
    ensures cuts { IfOk result (λ r. (c : PlainCut) → IsIn c r.cuts.items → IsCut (table_graph (T.flats table.now)) (IsMember r.ids) c) }
    ensures counted { min steps.old.taken (2 ^ 64 - 1) ≤ steps.new.taken }
{
    let mut found = Descent {
        ids: IdSet::empty(alloc),
        cuts: Vec::new(alloc),
    };
    let mut far = WorkList::empty(alloc);
    let tail = go_down(&mut found, &mut far, table, to, lowest, steps)?;
    tail.put_into(&mut found.ids)?;
    Ok(found)
}

/// The walk: what it finds goes to the ids and the cuts, which are none before. At the lowest id of a segment whose place is one
/// that leaves a cut, it keeps a cut. The lowest of the ids are the tail that it answers.
/// What waits outside the window is on the list, which is empty before.
fn go_down<T: SegmentTable>(
    found: &mut Descent,
    far: &mut WorkList,
    table: &T,
    to: &IdSet,
    lowest: Id,
    steps: &mut Steps,
) -> Result<Tail, AllocError>
    requires held { (x : ℕ) → IsMember to.now x → IsHeld (T.flats table.now) x }
    requires ids { found.old.ids ≡ [] }
    requires cuts { found.old.cuts.items ≡ [] }
    requires far { far.old ≡ [] }
    ensures members { IfOk result (λ tail. (x : ℕ) → HasFallen found.new.ids tail.low tail.end x ↔ (sets.ancestors (table_graph (T.flats table.now)) (IsMember to.now) x × (lowest ≤ x))) }
    ensures cuts { IfOk result (λ tail. (c : PlainCut) → IsIn c found.new.cuts.items → IsCut (table_graph (T.flats table.now)) (HasFallen found.new.ids tail.low tail.end) c) }
    ensures counted { min steps.old.taken (2 ^ 64 - 1) ≤ steps.new.taken }
{
    let mut tail = Tail::empty();
    let mut near = Window::empty();
    let mut place = end_of(table, to, steps);
    let mut ways = Ways {
        least: ID_END,
        end: end_below(far, to, ID_END),
    };
    let mut reached = ways.end;
    'down: while lowest.number() < reached {
        place -= 1;
        let segment = table.flat_at(place, steps);
        let low = segment.low().number();
        if reached <= low {
            continue;
        }
        tail.add(&mut found.ids, low.max(lowest.number()), reached)?;
        ways = visit(&mut near, far, to, ways, segment)?;
        let cut = Cut {
            at: low,
            least: ways.least,
        };
        keep_cut(&mut found.cuts, place, cut)?;
        reached = after(near.greatest()).max(ways.end);
    }
    Ok(tail)
}
