//! What is timed.

ghost use Rattle.std.specs.Prelude.{◌<◌, ◌^◌};

use crate::random::next_random;
use id_groups::{Id, IdSpan};
use span_set::IdSet;
use std::alloc::{AllocError, Global};

/// Spans of three ids, eight apart, from the greatest down.
pub fn spans_down(alloc: Global, count: u64, shift: u64) -> Result<IdSet, AllocError>
    requires count { count < 2 ^ 30 }
    requires shift { shift < 8 }
{
    let mut set = IdSet::empty(alloc);
    for k in 0..count {
        let low = 8 * (count - k) + shift;
        set.insert_span(IdSpan {
            low: Id::master(low),
            high: Id::master(low + 2),
        })?;
    }
    Ok(set)
}

/// Spans of three ids in no order.
pub fn spans_anywhere(alloc: Global, count: u64) -> Result<IdSet, AllocError> {
    let mut set = IdSet::empty(alloc);
    let mut random = 7;
    for _k in 0..count {
        random = next_random(random);
        let low = (random >> 30) % 100_000_000;
        set.insert_span(IdSpan {
            low: Id::master(low),
            high: Id::master(low + 2),
        })?;
    }
    Ok(set)
}

/// How many of so many random ids are members.
pub fn count_found(set: &IdSet, count: u64) -> u64 {
    let mut random = 7;
    let mut found = 0u64;
    for _k in 0..count {
        random = next_random(random);
        if set.contains(Id::master((random >> 30) % 800_000)) {
            found = found.saturating_add(1);
        }
    }
    found
}
