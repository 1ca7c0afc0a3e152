//! What stands before the parents of a record.

ghost use Rattle.std.specs.Prelude.{◌≡◌, ◌≤◌, ◌<◌, ◌^◌, Some, IfSome};
ghost use Rattle.segment_codec.specs.Reading.{Gives, fixed_at, is_head, head_at, most_parents};

use crate::number::read_number;
use id_groups::{FIRST_OTHER, ID_END};

/// The highest level of segments.
const TOP_LEVEL: u8 = 7;

/// The most parents of a flat segment.
const FLAT_PARENTS: u64 = 8;

/// The most parents of a segment of a higher level.
const MOST_PARENTS: u64 = 1 << 24;

/// What a record says before its parents.
#[derive(Clone, Copy)]
pub struct Head {
    pub low: u64,
    pub high: u64,
    pub level: u8,
    pub count: u64,
}

/// A number of eight bytes, and the rest.
#[inline(always)]
#[tactic(auto, unfolding(crate::specs::Reading::fixed_at))]
fn read_fixed(bytes: &[u8]) -> Option<(u64, &[u8])>
    ensures { Gives (λ r. (r.0, r.1.now)) result (fixed_at bytes.now) }
{
    if bytes.len() < 8 {
        return None;
    }
    let (front, rest) = bytes.split_at(8);
    let number = u64::from_be_bytes([
        front[0], front[1], front[2], front[3], front[4], front[5], front[6], front[7],
    ]);
    Some((number, rest))
}

#[inline(always)]
fn most_parents_of(level: u8) -> u64
    ensures { result ≡ most_parents level }
{
    if level == 0 {
        FLAT_PARENTS
    } else {
        MOST_PARENTS
    }
}

#[inline(always)]
fn is_valid_head(flags: u8, level: u8, high: u64, span: u64, count: u64) -> bool
    ensures { result ≡ is_head flags level high span count }
{
    level <= TOP_LEVEL
        && high < ID_END
        && span <= high
        && (high < FIRST_OTHER || FIRST_OTHER <= high - span)
        && count <= most_parents_of(level)
        && flags == if count == 0 { 1 } else { 0 }
}

/// What stands before the parents, and the rest, if the number of ids and that of parents take one byte each; `None` also where
/// one takes more.
#[inline(always)]
fn read_short_head(bytes: &[u8]) -> Option<(Head, &[u8])>
    ensures exact { IfSome result (λ r. head_at bytes.now ≡ Some (r.0, r.1.now)) }
    ensures order { IfSome result (λ r. (r.0.low ≤ r.0.high) × (r.0.high < 2 ^ 57)) }
{
    let [flags, level, a, b, c, d, e, f, g, h, span, count, rest @ ..] = bytes else {
        return None;
    };
    if *span >= 128 || *count >= 128 {
        return None;
    }
    let high = u64::from_be_bytes([*a, *b, *c, *d, *e, *f, *g, *h]);
    let (span, count) = (u64::from(*span), u64::from(*count));
    if !is_valid_head(*flags, *level, high, span, count) {
        return None;
    }
    let head = Head {
        low: high - span,
        high,
        level: *level,
        count,
    };
    Some((head, rest))
}

/// What stands before the parents, and the rest, read field by field.
#[inline(never)]
#[tactic(auto, unfolding(crate::specs::Reading::head_at))]
fn read_any_head(bytes: &[u8]) -> Option<(Head, &[u8])>
    ensures exact { Gives (λ r. (r.0, r.1.now)) result (head_at bytes.now) }
    ensures order { IfSome result (λ r. (r.0.low ≤ r.0.high) × (r.0.high < 2 ^ 57)) }
{
    let [flags, level, rest @ ..] = bytes else {
        return None;
    };
    let (high, rest) = read_fixed(rest)?;
    let (span, rest) = read_number(rest)?;
    let (count, rest) = read_number(rest)?;
    if !is_valid_head(*flags, *level, high, span, count) {
        return None;
    }
    let head = Head {
        low: high - span,
        high,
        level: *level,
        count,
    };
    Some((head, rest))
}

/// What stands before the parents, and the rest; `None` exactly where no record's head stands in front.
#[inline(always)]
pub fn read_head(bytes: &[u8]) -> Option<(Head, &[u8])>
    ensures exact { Gives (λ r. (r.0, r.1.now)) result (head_at bytes.now) }
    ensures order { IfSome result (λ r. (r.0.low ≤ r.0.high) × (r.0.high < 2 ^ 57)) }
{
    if let Some(short) = read_short_head(bytes) {
        return Some(short);
    }
    read_any_head(bytes)
}
