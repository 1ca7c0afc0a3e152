//! Spans of ids.

ghost use Rattle.std.specs.Prelude.{◌≡◌};
ghost use Rattle.id_groups.specs.Span.{IsSpan};

use crate::Id;

/// The ids from `low` to `high`, both included. A call that takes one wants both of one group, and `low` at most `high`.
#[derive(Clone, Copy, PartialEq, Eq, Debug)]
pub struct IdSpan {
    /// The lowest id.
    pub low: Id,
    /// The highest id.
    pub high: Id,
}

impl IdSpan {
    /// The span of the one id.
    pub fn single(id: Id) -> IdSpan
        ensures low { result.low ≡ id }
        ensures high { result.high ≡ id }
        ensures span { IsSpan result }
    {
        let _bound = id.number();
        IdSpan { low: id, high: id }
    }
}
