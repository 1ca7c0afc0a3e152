//! Places in a list of spans that descends.

ghost use Rattle.std.specs.Prelude.{◌<◌, ◌≤◌, ◌↔◌, length, take, drop, IsTrue};
ghost use Rattle.id_groups.specs.declared.span.IdSpan.{IdSpan as PlainSpan};
ghost use Rattle.id_groups.specs.Span.{IsSpan};
ghost use Rattle.span_set.specs.Members.{IsBelow, IsCanonical, AreBelow};
ghost use Rattle.span_set.specs.Places.{AreAbove, AreNotAbove, AreNotBelow, BeginAbove, BeginWithin, BeginsRightAbove};

use id_groups::{FIRST_OTHER, Id, IdSpan};

/// The number below which the spans end that lie below `span` and would not join it.
#[inline]
fn gap_below(span: &IdSpan) -> u64
    ensures { (t : PlainSpan) → t.high < result ↔ IsBelow t span.now }
{
    let low = span.low.number();
    if low == FIRST_OTHER || low == 0 {
        low
    } else {
        low - 1
    }
}

/// How many spans lie above `span` or join it.
#[inline]
pub(crate) fn count_not_below(spans: &[IdSpan], span: &IdSpan) -> usize
    requires { IsCanonical spans.now }
    ensures within { result ≤ length spans.now }
    ensures not_below { AreNotBelow span.now (take result spans.now) }
    ensures below { AreBelow span.now (drop result spans.now) }
{
    let gap = gap_below(span);
    let len = spans.len();
    if len == 0 || gap <= spans[len - 1].high.number() {
        return len;
    }
    spans.partition_point(|held| gap <= held.high.number())
}

/// Whether the lowest span begins right above `span`, in the same group.
#[inline(always)]
pub(crate) fn last_joins(spans: &[IdSpan], span: &IdSpan) -> bool
    ensures { IsTrue result → BeginsRightAbove span.now spans.now }
{
    let len = spans.len();
    if len == 0 {
        return false;
    }
    let low = spans[len - 1].low.number();
    low == span.high.number() + 1 && low != FIRST_OTHER
}

/// Whether all spans lie more than one above `span`, so that none joins it.
#[inline(always)]
pub(crate) fn are_all_above(spans: &[IdSpan], span: &IdSpan) -> bool
    requires { IsCanonical spans.now }
    ensures { IsTrue result → AreAbove span.now spans.now }
{
    let len = spans.len();
    len == 0 || span.high.number() + 1 < spans[len - 1].low.number()
}

/// How many spans lie above `span` without joining it, of which there are at most `to`.
/// It goes upwards from `to`, over spans that the insert then joins to one.
#[inline]
pub(crate) fn count_above(spans: &[IdSpan], span: &IdSpan, to: usize) -> usize
    requires canonical { IsCanonical spans.now }
    requires span { IsSpan span.now }
    requires within { to ≤ length spans.now }
    requires below { AreBelow span.now (drop to spans.now) }
    ensures within { result ≤ to }
    ensures above { AreAbove span.now (take result spans.now) }
    ensures not_above { AreNotAbove span.now (drop result spans.now) }
{
    let mut from = to;
    'joined: while from > 0 && gap_below(&spans[from - 1]) <= span.high.number() {
        from -= 1;
    }
    from
}

/// How many spans begin above the id. All of them is told at once.
#[inline]
pub(crate) fn count_begin_above(spans: &[IdSpan], id: Id) -> usize
    requires { IsCanonical spans.now }
    ensures within { result ≤ length spans.now }
    ensures above { BeginAbove id (take result spans.now) }
    ensures rest { BeginWithin id (drop result spans.now) }
{
    let number = id.number();
    let len = spans.len();
    if len == 0 || number < spans[len - 1].low.number() {
        return len;
    }
    spans.partition_point(|held| number < held.low.number())
}
