//! Unions, intersections, differences and upper parts of sets, each by one walk over their spans.

ghost use Rattle.std.specs.Prelude.{◌≡◌, ℕ, ◌+◌, ◌-◌, ◌<◌, ◌≤◌, ◌⊎◌, ◌↔◌, length, take, slice_index_or, IfOk, true, false, min, max};
ghost use Rattle.id_groups.specs.Span.{IsSpan};
ghost use Rattle.span_set.specs.Members.{IsMember, IsCanonical, ids_of};

use crate::set::IdSet;
use id_groups::{ID_END, Id, IdSpan};
use std::alloc::{AllocError, Global};

/// Whether a union goes on with the left list.
fn is_left_next(left: &[IdSpan], i: usize, right: &[IdSpan], j: usize) -> bool
    requires { length right.now ≤ j → i < length left.now }
    ensures left { result ≡ true → i < length left.now }
    ensures right { result ≡ false → j < length right.now }
{
    if j >= right.len() {
        return true;
    }
    if i >= left.len() {
        return false;
    }
    left[i].high.number() >= right[j].high.number()
}

/// The lowest number above the span at `j`, or 0 where there is none.
fn end_of(spans: &[IdSpan], j: usize) -> u64
    ensures inside { (d : _) → j < length spans.now → result ≡ (slice_index_or spans.now j d).high + 1 }
    ensures behind { length spans.now ≤ j → result ≡ 0 }
{
    match spans.get(j) {
        Some(span) => span.high.number() + 1,
        None => 0,
    }
}

/// The `n` greatest ids of the span, or all where it has fewer.
fn upper_part(span: &IdSpan, n: u64) -> IdSpan
    requires span { IsSpan span.now }
    requires some { 0 < n }
    ensures high { result.high ≡ span.now.high }
    ensures low { result.low ≡ max span.now.low (span.now.high + 1 - n) }
{
    let high = span.high.number();
    let low = if high - span.low.number() < n {
        span.low
    } else {
        Id::from_number(high - (n - 1))
    };
    IdSpan {
        low,
        high: span.high,
    }
}

impl IdSet {
    /// The ids that are members of either set. Linear in the spans of both.
    pub fn union(&self, alloc: Global, other: &IdSet) -> Result<IdSet, AllocError>
        ensures members { IfOk result (λ r. (x : ℕ) → IsMember r x ↔ (IsMember self.now x ⊎ IsMember other.now x)) }
        ensures canonical { IfOk result IsCanonical }
    {
        let mut both = IdSet::empty(alloc);
        let left = self.spans();
        let right = other.spans();
        let mut i = 0;
        let mut j = 0;
        'merge: while i < left.len() || j < right.len() {
            if is_left_next(left, i, right, j) {
                both.insert_span(left[i])?;
                i += 1;
            } else {
                both.insert_span(right[j])?;
                j += 1;
            }
        }
        Ok(both)
    }

    /// The ids that are members of both sets. Linear in the spans of both.
    pub fn inter(&self, alloc: Global, other: &IdSet) -> Result<IdSet, AllocError>
        ensures members { IfOk result (λ r. (x : ℕ) → IsMember r x ↔ (IsMember self.now x × IsMember other.now x)) }
        ensures canonical { IfOk result IsCanonical }
    {
        let mut both = IdSet::empty(alloc);
        let left = self.spans();
        let right = other.spans();
        let mut i = 0;
        let mut j = 0;
        'walk: while i < left.len() && j < right.len() {
            let a = &left[i];
            let b = &right[j];
            let low = a.low.number().max(b.low.number());
            let high = a.high.number().min(b.high.number());
            both.insert_between(low, high + 1)?;
            if a.low.number() >= b.low.number() {
                i += 1;
            } else {
                j += 1;
            }
        }
        Ok(both)
    }

    /// The members that the other set hasn't. Linear in the spans of both.
    pub fn minus(&self, alloc: Global, other: &IdSet) -> Result<IdSet, AllocError>
        ensures members { IfOk result (λ r. (x : ℕ) → IsMember r x ↔ (IsMember self.now x × ¬ (IsMember other.now x))) }
        ensures canonical { IfOk result IsCanonical }
    {
        let mut kept = IdSet::empty(alloc);
        let from = self.spans();
        let cut = other.spans();
        let mut i = 0;
        let mut j = 0;
        // The ids at `end` and above are done; the cut spans from `j` on lie below it.
        let mut end = ID_END;
        'walk: while i < from.len() {
            let gap = end_of(cut, j);
            let span = &from[i];
            let low = span.low.number().max(gap);
            let high = (span.high.number() + 1).min(end);
            kept.insert_between(low, high)?;
            if gap <= span.low.number() {
                i += 1;
            } else {
                end = cut[j].low.number();
                j += 1;
            }
        }
        Ok(kept)
    }

    /// The `n` greatest members, or all where there are fewer. Linear in the spans that it takes.
    pub fn take_greatest(&self, alloc: Global, n: u64) -> Result<IdSet, AllocError>
        ensures ids { IfOk result (λ r. ids_of r ≡ take n (ids_of self.now)) }
        ensures canonical { IfOk result IsCanonical }
    {
        let mut spans = Vec::new(alloc);
        let mut left = n;
        let mut i = 0;
        'take: while left > 0 && i < self.spans.len() {
            let part = upper_part(&self.spans[i], left);
            left -= part.high.number() - part.low.number() + 1;
            spans.push(part)?;
            i += 1;
        }
        Ok(IdSet { spans })
    }
}
