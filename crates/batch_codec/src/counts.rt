//! The version, the kind, the master counts and the cloned count of a payload.

ghost use Rattle.std.specs.Prelude.{◌≡◌, ◌≤◌, ◌+◌, ◌&&◌, ◌||◌, nat_eq, nat_le, IfSome, length};
ghost use Rattle.segment_codec.specs.Reading.{Gives};
ghost use Rattle.batch_codec.specs.Payload.{size_since_second};
ghost use Rattle.batch_codec.specs.Reading.{cloned_at, counts_at};

use crate::fixed::read_u64;

/// The version of payloads that is written.
pub const VERSION: u8 = 2;

/// The version that is read too. It has no cloned count and no levels.
pub const FIRST_VERSION: u8 = 1;

/// The kind of a flush.
pub const FLUSH: u8 = 1;

/// The kind of a clone.
pub const CLONE: u8 = 2;

/// The kind of a whole store.
pub const WHOLE: u8 = 3;

/// The most ids of the master group.
const MOST_MASTER: u64 = 1 << 24;

/// What a payload says first.
#[derive(Clone, Copy)]
pub struct Counts {
    pub version: u8,
    pub kind: u8,
    pub before: u64,
    pub after: u64,
    pub cloned: u64,
}

/// The cloned count, which the first version leaves out, and the rest.
#[tactic(auto, unfolding(crate::specs::Reading::cloned_at))]
fn read_cloned(bytes: &[u8], version: u8, kind: u8, after: u64) -> Option<(u64, &[u8])>
    ensures exact { Gives (λ r. (r.0, r.1.now)) result (cloned_at version kind after bytes.now) }
    ensures size { IfSome result (λ r. length bytes.now ≡ size_since_second version 8 + length r.1.now) }
{
    if version != FIRST_VERSION {
        return read_u64(bytes);
    }
    Some((if kind == CLONE { after } else { 0 }, bytes))
}

/// Whether the version is one that is read, and the counts are in order.
fn are_counts(version: u8, before: u64, after: u64) -> bool
    ensures { result ≡ ((nat_eq version 1 || nat_eq version 2) && nat_le before after && nat_le after 16777216) }
{
    (version == FIRST_VERSION || version == VERSION) && before <= after && after <= MOST_MASTER
}

/// The counts in front, and the rest.
#[tactic(auto, unfolding(crate::specs::Reading::counts_at))]
pub fn read_counts(bytes: &[u8]) -> Option<(Counts, &[u8])>
    ensures exact { Gives (λ r. (r.0, r.1.now)) result (counts_at bytes.now) }
    ensures master { IfSome result (λ r. (r.0.before ≤ r.0.after) × (r.0.after ≤ 16777216)) }
    ensures size { IfSome result (λ r. length bytes.now ≡ 18 + size_since_second r.0.version 8 + length r.1.now) }
{
    let [version, kind, rest @ ..] = bytes else {
        return None;
    };
    let (before, rest) = read_u64(rest)?;
    let (after, rest) = read_u64(rest)?;
    let (cloned, rest) = read_cloned(rest, *version, *kind, after)?;
    if !are_counts(*version, before, after) {
        return None;
    }
    let counts = Counts {
        version: *version,
        kind: *kind,
        before,
        after,
        cloned,
    };
    Some((counts, rest))
}
