//! The ids that wait to be visited.

ghost use Rattle.std.specs.Prelude.{◌≡◌, ◌≤◌, ◌^◌, ◌/◌, ◌⊎◌, ◌↔◌, ℕ, ◌<◌, List, [], OnOk, OnErr};
ghost use Rattle.std.specs.BinaryHeap.{heap_items, IsHeap};
ghost use Rattle.std.specs.Ordering.{nat_cmp};
ghost use Rattle.id_groups.specs.Lists.{IsIn};
ghost use Rattle.id_groups.specs.declared.span.IdSpan.{IdSpan};
ghost use Rattle.segment_codec.specs.Lent.{parents_left};
ghost use Rattle.span_set.specs.Members.{IsMember, IsGreatestBelow};
ghost use Rattle.ancestor_query.specs.Visits.{Keeps, Peeks, IsEnd, IsNext, greater_of};
ghost use Rattle.ancestor_query.specs.Window.{Takes, IsGreatestOf};

use id_groups::{ID_END, Id};
use segment_codec::Parents;
use span_set::IdSet;
use std::alloc::{AllocError, Global};
use std::collections::BinaryHeap;
use std::marker::Model;

/// How many ids a window reaches down from its end.
const REACH: u64 = 64;

/// Ids that lie at most 64 below an end, without memory of their own: bit j says that the id j + 1 below the end is among
/// them. Contracts see it as the list of its ids.
#[derive(Drop)]
pub struct Window {
    bits: u64,
    end: u64,
}

impl Model for Window {
    ghost use Rattle.std.specs.Prelude.{List, ℕ, ◌≤◌, ◌<◌, ◌^◌};
    ghost use Rattle.ancestor_query.specs.Window.{window_ids, AreNumbers};

    ghost Value = { List ℕ };

    ghost view = { λ window. window_ids window.end window.bits };

    ghost invariant = { λ window. AreNumbers window.end window.bits × (window.end ≤ 2 ^ 57) × (window.bits < 2 ^ 64) };
}

/// Ids that wait to be visited, the greatest first; an id may wait more than once. Contracts see it as the list of its
/// ids, in no order that tells anything.
///
/// A walk puts on the list mostly ids that lie close below the bound that it last looked at. Those wait in a window,
/// which takes no memory; the others in a heap.
#[derive(Drop)]
pub struct WorkList {
    near: Window,
    far: BinaryHeap<Id>,
}

impl Model for WorkList {
    ghost use Rattle.std.specs.Prelude.{List, ℕ, ◌++◌};
    ghost use Rattle.std.specs.BinaryHeap.{heap_items, IsHeap};
    ghost use Rattle.std.specs.Ordering.{nat_cmp};

    ghost Value = { List ℕ };

    ghost view = { λ work. work.near ++ heap_items work.far };

    ghost invariant = { λ work. IsHeap nat_cmp (heap_items work.far) };
}

/// The bits moved down by any number of steps; those that fall off at the end are lost.
#[inline]
fn shifted_down(bits: u64, steps: u64) -> u64
    ensures { result ≡ bits / 2 ^ steps }
{
    if steps < REACH { bits >> steps } else { 0 }
}

impl Window {
    /// No id, and none that would fit before a `slide`.
    pub fn empty() -> Window
        ensures { result ≡ [] }
    {
        Window { bits: 0, end: 0 }
    }

    /// Takes the id if it fits: whether it did.
    #[inline(always)]
    pub fn put(&mut self, id: Id) -> bool
        ensures { Takes self.old self.new id result }
    {
        let number = id.number();
        if number >= self.end {
            return false;
        }
        let place = self.end - 1 - number;
        if place >= REACH {
            return false;
        }
        self.bits |= 1 << place;
        true
    }

    /// Ends below the bound from now on, and drops the ids at or above it. A window without ids may move up.
    #[inline(always)]
    pub fn slide(&mut self, below: u64)
        ensures keeps { Keeps self.old self.new below }
        ensures under { (x : ℕ) → IsIn x self.new → x < below }
    {
        if self.bits == 0 {
            self.end = below.min(ID_END);
        } else if below < self.end {
            let steps = self.end - below;
            self.bits = shifted_down(self.bits, steps);
            self.end = below;
        }
    }

    /// The greatest id; `None` exactly where there is none.
    #[inline(always)]
    pub fn greatest(&self) -> Option<Id>
        ensures { IsGreatestOf self.now result }
    {
        if self.bits == 0 {
            return None;
        }
        let place = u64::from(self.bits.trailing_zeros());
        Some(Id::from_number(self.end - 1 - place))
    }
}

/// The greatest id of a heap below the bound; `None` exactly where there is none below it. Those at or above it are
/// dropped, the one that it gives stays.
#[inline]
fn top_below(heap: &mut BinaryHeap<Id>, below: u64) -> Option<Id>
    requires { IsHeap nat_cmp (heap_items heap.old) }
    ensures heap { IsHeap nat_cmp (heap_items heap.new) }
    ensures peeks { Peeks (heap_items heap.old) (heap_items heap.new) below result }
{
    'drop: while let Some(top) = heap.peek() {
        let id = *top;
        if id.number() < below {
            return Some(id);
        }
        heap.pop();
    }
    None
}

/// The greatest member below the bound.
#[inline]
fn greatest_member_below(set: &IdSet, below: u64) -> Option<Id>
    requires { below ≤ 2 ^ 57 }
    ensures { IsGreatestBelow set.now below result }
{
    if below == ID_END {
        let id = set.greatest()?;
        let _below = id.number();
        return Some(id);
    }
    set.greatest_below(Id::from_number(below))
}

/// One above the greatest member below the bound; 0 where there is none.
#[inline]
pub(crate) fn members_end(set: &IdSet, below: u64) -> u64
    requires { below ≤ 2 ^ 57 }
    ensures { IsEnd (IsMember set.now) below result }
{
    let Some(id) = greatest_member_below(set, below) else {
        return 0;
    };
    id.number() + 1
}

/// The same, where `end` is that below a bound that was no lower: the set is searched only where it isn't this one too.
#[inline(always)]
pub(crate) fn lower_end(set: &IdSet, end: u64, below: u64) -> u64
    requires { below ≤ 2 ^ 57 }
    ensures { (bound : ℕ) → below ≤ bound → IsEnd (IsMember set.now) bound end → IsEnd (IsMember set.now) below result }
{
    if end <= below {
        return end;
    }
    members_end(set, below)
}

/// The greater of the two, where there are two.
#[inline]
fn greater(a: Option<Id>, b: Option<Id>) -> Option<Id>
    ensures { result ≡ greater_of a b }
{
    let Some(x) = a else {
        return b;
    };
    let Some(y) = b else {
        return a;
    };
    Some(if x < y { y } else { x })
}

impl WorkList {
    /// No id waits. It takes no memory yet, and keeps the allocator.
    pub fn empty(alloc: Global) -> WorkList
        ensures { result ≡ [] }
    {
        WorkList {
            near: Window::empty(),
            far: BinaryHeap::new(alloc),
        }
    }

    /// Puts an id on the list. On want of memory the list stays as it was.
    #[inline]
    pub fn push(&mut self, id: Id) -> Result<(), AllocError>
        ensures all { OnOk result ((x : ℕ) → IsIn x self.new ↔ (IsIn x self.old ⊎ (x ≡ id))) }
        ensures unchanged { OnErr result (self.new ≡ self.old) }
    {
        if self.near.put(id) {
            return Ok(());
        }
        self.far.push(id)?;
        Ok(())
    }

    /// Puts the parents of a segment on the list. On want of memory some of them may wait, and no other id has come or
    /// gone.
    #[inline]
    pub fn push_all(&mut self, parents: Parents<'_>) -> Result<(), AllocError>
        ensures all { OnOk result ((x : ℕ) → IsIn x self.new ↔ (IsIn x self.old ⊎ IsIn x (parents_left parents.entry))) }
        ensures kept { (x : ℕ) → IsIn x self.old → IsIn x self.new }
        ensures sound { (x : ℕ) → IsIn x self.new → IsIn x self.old ⊎ IsIn x (parents_left parents.entry) }
    {
        'push: for id in parents {
            self.push(id)?;
        }
        Ok(())
    }

    /// The greatest id below the bound; `None` exactly where none waits below it. Those at or above it are dropped, the
    /// one that it gives stays.
    #[inline]
    pub fn next_below(&mut self, below: u64) -> Option<Id>
        ensures { Peeks self.old self.new below result }
    {
        self.near.slide(below);
        let far = top_below(&mut self.far, below);
        greater(self.near.greatest(), far)
    }

    /// Drops ids at or above the bound, so that those that are put on the list next, and lie close below it, wait in the window.
    #[inline(always)]
    pub(crate) fn slide(&mut self, below: u64)
        ensures { Keeps self.old self.new below }
    {
        self.near.slide(below);
    }

    /// The greatest id below the bound, of those that wait and of a set whose members below it end at `end`; `None` exactly where there is none.
    /// It drops what `next_below` does.
    #[inline]
    pub(crate) fn next_of(&mut self, end: u64, below: u64) -> Option<Id>
        requires { end ≤ 2 ^ 57 }
        ensures { (spans : List IdSpan) → IsEnd (IsMember spans) below end → IsNext (IsMember spans) self.old self.new below result }
    {
        let of_work = self.next_below(below);
        if end == 0 {
            return of_work;
        }
        let last = Id::from_number(end - 1);
        greater(Some(last), of_work)
    }

    /// The greatest id below the bound, of the set and of those that wait; `None` exactly where there is none. It drops
    /// what `next_below` does, and searches the set by halving.
    #[inline]
    pub fn next_id(&mut self, set: &IdSet, below: u64) -> Option<Id>
        requires { below ≤ 2 ^ 57 }
        ensures { IsNext (IsMember set.now) self.old self.new below result }
    {
        let of_set = greatest_member_below(set, below);
        let of_work = self.next_below(below);
        greater(of_set, of_work)
    }
}
