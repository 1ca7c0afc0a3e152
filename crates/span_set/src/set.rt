//! The set, and what reads it.

ghost use Rattle.std.specs.Prelude.{◌≡◌, ℕ, ◌<◌, ◌≤◌, ◌^◌, ◌⊎◌, ◌↔◌, [], length, OnOk, OnErr, IsTrue, min, max};
ghost use Rattle.id_groups.specs.Span.{IsSpan, IsInSpan};
ghost use Rattle.span_set.specs.Members.{IsMember, IsCanonical, IsGreatest, IsGreatestBelow, ids_of};
ghost use Rattle.span_set.specs.Down.{ids_left};

use crate::ids_down::IdsDown;
use crate::search::{are_all_above, count_above, count_begin_above, count_not_below, last_joins};
use id_groups::{Id, IdSpan};
use std::alloc::{AllocError, Global};
use std::marker::Model;

/// A set of ids. Contracts see it as the list of its spans, the greatest first.
#[derive(Drop)]
pub struct IdSet {
    pub(crate) spans: Vec<IdSpan>,
}

impl Model for IdSet {
    ghost use Rattle.std.specs.Prelude.{List};
    ghost use Rattle.id_groups.specs.declared.span.IdSpan.{IdSpan};
    ghost use Rattle.span_set.specs.Members.{IsCanonical};

    ghost Value = { List IdSpan };

    ghost view = { λ set. set.spans.items };

    ghost invariant = { λ set. IsCanonical set.spans.items };
}

/// The span from the lower low to the higher high.
#[inline]
fn join(span: &IdSpan, first: &IdSpan, last: &IdSpan) -> IdSpan
    ensures low { result.low ≡ min span.now.low last.now.low }
    ensures high { result.high ≡ max span.now.high first.now.high }
{
    let low = if span.low < last.low {
        span.low
    } else {
        last.low
    };
    let high = if span.high < first.high {
        first.high
    } else {
        span.high
    };
    IdSpan { low, high }
}

impl IdSet {
    /// The set without members. It takes no memory yet, and keeps the allocator.
    pub fn empty(alloc: Global) -> IdSet
        ensures { result ≡ [] }
    {
        IdSet {
            spans: Vec::new(alloc),
        }
    }

    /// Adds the ids of the span, which are of one group. On want of memory the set stays as it was.
    /// Below all that is held, or joined to the lowest span, it takes constant time, amortised; elsewhere a binary search and a move of the spans below.
    #[inline(never)]
    pub fn insert_span(&mut self, span: IdSpan) -> Result<(), AllocError>
        requires { IsSpan span }
        ensures members { OnOk result ((x : ℕ) → IsMember self.new x ↔ (IsMember self.old x ⊎ IsInSpan x span)) }
        ensures canonical { IsCanonical self.new }
        ensures unchanged { OnErr result (self.new ≡ self.old) }
    {
        self.put(span)
    }

    /// Adds the id, wherever it stands. On want of memory the set stays as it was. For loops that go down: below all that is
    /// held it takes no call, but where the set grows.
    #[inline(always)]
    pub fn push_below(&mut self, id: Id) -> Result<(), AllocError>
        ensures members { OnOk result ((x : ℕ) → IsMember self.new x ↔ (IsMember self.old x ⊎ (x ≡ id))) }
        ensures canonical { IsCanonical self.new }
        ensures unchanged { OnErr result (self.new ≡ self.old) }
    {
        self.put(IdSpan::single(id))
    }

    /// Adds the ids of the span: at the lowest span, below it, or elsewhere.
    #[inline(always)]
    fn put(&mut self, span: IdSpan) -> Result<(), AllocError>
        requires { IsSpan span }
        ensures members { OnOk result ((x : ℕ) → IsMember self.new x ↔ (IsMember self.old x ⊎ IsInSpan x span)) }
        ensures canonical { IsCanonical self.new }
        ensures unchanged { OnErr result (self.new ≡ self.old) }
    {
        if are_all_above(&self.spans, &span) {
            self.spans.push(span)?;
            return Ok(());
        }
        if last_joins(&self.spans, &span) {
            let last = self.spans.len() - 1;
            let high = self.spans[last].high;
            self.spans[last] = IdSpan {
                low: span.low,
                high,
            };
            return Ok(());
        }
        self.insert_within(span)
    }

    /// The same, wherever the span stands.
    #[inline(never)]
    fn insert_within(&mut self, span: IdSpan) -> Result<(), AllocError>
        requires { IsSpan span }
        ensures members { OnOk result ((x : ℕ) → IsMember self.new x ↔ (IsMember self.old x ⊎ IsInSpan x span)) }
        ensures canonical { IsCanonical self.new }
        ensures unchanged { OnErr result (self.new ≡ self.old) }
    {
        let to = count_not_below(&self.spans, &span);
        let from = count_above(&self.spans, &span, to);
        if from == to {
            self.spans.insert(from, span)?;
            return Ok(());
        }
        let joined = join(&span, &self.spans[from], &self.spans[to - 1]);
        self.spans[from] = joined;
        if to - from > 1 {
            self.spans.drain(from + 1..to);
        }
        Ok(())
    }

    /// Adds the ids from `low` to before `end`, which are of one group; there may be none. On want of memory the set stays
    /// as it was.
    #[inline]
    pub fn insert_between(&mut self, low: u64, end: u64) -> Result<(), AllocError>
        requires group { low < 2 ^ 56 → end ≤ 2 ^ 56 }
        requires bound { end ≤ 2 ^ 57 }
        ensures members { OnOk result ((x : ℕ) → IsMember self.new x ↔ (IsMember self.old x ⊎ ((low ≤ x) × (x < end)))) }
        ensures canonical { IsCanonical self.old → IsCanonical self.new }
        ensures unchanged { OnErr result (self.new ≡ self.old) }
    {
        if low < end {
            return self.insert_span(IdSpan {
                low: Id::from_number(low),
                high: Id::from_number(end - 1),
            });
        }
        Ok(())
    }

    /// Whether the id is a member: a binary search.
    pub fn contains(&self, id: Id) -> bool
        ensures { IsTrue result ↔ IsMember self.now id }
    {
        let at = count_begin_above(&self.spans, id);
        at < self.spans.len() && id.number() <= self.spans[at].high.number()
    }

    /// The greatest member; `None` exactly where the set is empty.
    pub fn greatest(&self) -> Option<Id>
        ensures { IsGreatest self.now result }
    {
        let span = self.spans.first()?;
        Some(span.high)
    }

    /// The greatest member below the bound, by a binary search; `None` exactly where no member lies below it.
    pub fn greatest_below(&self, below: Id) -> Option<Id>
        ensures { IsGreatestBelow self.now below result }
    {
        let number = below.number();
        if number == 0 {
            return None;
        }
        let last = Id::from_number(number - 1);
        let at = count_begin_above(&self.spans, last);
        if at == self.spans.len() {
            return None;
        }
        let high = self.spans[at].high.number();
        Some(Id::from_number(high.min(number - 1)))
    }

    /// The number of members.
    pub fn count(&self) -> u64
        ensures { result ≡ length (ids_of self.now) }
    {
        let mut total = 0;
        'sum: for span in &self.spans {
            total += span.high.number() - span.low.number() + 1;
        }
        total
    }

    /// Lends the spans: disjoint, descending, no two of one group adjacent.
    pub fn spans(&self) -> &[IdSpan]
        ensures same { result.now ≡ self.now }
        ensures canonical { IsCanonical self.now }
    {
        &self.spans
    }

    /// The members from the greatest down, each once.
    pub fn ids_down<'a>(&'a self) -> IdsDown<'a>
        ensures { ids_left result ≡ ids_of self.now }
    {
        IdsDown {
            rest: &self.spans,
            low: 0,
            end: 0,
        }
    }
}
