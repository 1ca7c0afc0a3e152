//! A payload, read as a whole.

ghost use Rattle.std.specs.Prelude.{◌≡◌, ◌<◌, ◌≤◌, ◌+◌, ◌*◌, ◌^◌, [], Some, ℕ, slice_index, length, IfSome, MatchOption};
ghost use Rattle.segment_codec.specs.Reading.{Gives};
ghost use Rattle.batch_codec.specs.Payload.{Payload, payload_bytes, size_since_second};
ghost use Rattle.segment_codec.specs.Turns.{place_behind};
ghost use Rattle.batch_codec.specs.Grammar.{IsPayload};
ghost use Rattle.batch_codec.specs.Reading.{Others, others_at, masters_at, joined, parts_at, ends_fit, payload_at};
ghost use Rattle.batch_codec.specs.Lent.{segments_of, lent_names, masters_of, others_of, payload_of, payload_in, HasPlaces};

use crate::counts::{Counts, read_counts};
use crate::fixed::read_u32;
use crate::lent::{KnownSlice, NameSlice, Parts, SegmentSlice};
use crate::rules::has_kind;
use crate::section::{read_heads, read_known, read_levels, read_names, read_section};
use crate::whole::BatchRef;
use id_groups::FIRST_OTHER;

/// The most ids of the group of others.
const MOST_OTHERS: u32 = 1 << 16;

impl<'a> BatchRef<'a> {
    /// The payload; `None` exactly where the bytes are no payload in the grammar.
    pub fn read(payload: &'a [u8]) -> Option<BatchRef<'a>>
        ensures found { IfSome result (λ b. IsPayload (payload_of b) × (payload.now ≡ payload_bytes (payload_of b))) }
        ensures only { (p : Payload) → IsPayload p → payload.now ≡ payload_bytes p → MatchOption result ⊥ (λ b. payload_of b ≡ p) }
        ensures places { IfSome result (λ b. HasPlaces b.parts) }
    {
        let parts = read_payload(payload)?;
        Some(BatchRef { parts, payload })
    }

    /// The payload whose bytes these are known to be. It is read as [`BatchRef::read`] reads it, but of its other ids no record is.
    pub fn over(payload: &'a [u8]) -> BatchRef<'a>
        requires { (p : Payload) × IsPayload p × (payload.now ≡ payload_bytes p) }
        ensures payload { (p : Payload) → IsPayload p → payload.now ≡ payload_bytes p → payload_of result ≡ p }
        ensures places { HasPlaces result.parts }
    {
        let Some(parts) = cut_payload(payload) else {
            unreachable!()
        };
        BatchRef { parts, payload }
    }

    /// That it is a payload in the grammar, whose sections stand where they say, for proofs of what is done with it.
    pub fn is_payload(&self)
        ensures payload { IsPayload (payload_of self.now) }
        ensures places { HasPlaces self.now.parts }
    {
        are_bytes(self.payload);
    }
}

/// That these are bytes, for proofs of what is read of them. Nothing is done.
fn are_bytes(bytes: &[u8])
    ensures { (i : ℕ) → slice_index bytes.now i < 256 }
{
    let _count = bytes.len();
}

/// The sections of the other ids, the place behind their records, and the rest.
#[tactic(auto, unfolding(crate::specs::Reading::others_at))]
fn read_others<'a>(
    bytes: &'a [u8],
    after: u64,
    total: usize,
) -> Option<(SegmentSlice<'a>, NameSlice<'a>, u64, &'a [u8])>
    requires { length bytes.now ≤ total }
    ensures exact { Gives (λ r. (others_of r.0 r.1, r.3.now)) result (others_at after bytes.now) }
    ensures behind { IfSome result (λ r. r.2 ≡ place_behind (2 ^ 56) (segments_of r.0)) }
    ensures size { IfSome result (λ r. length bytes.now ≡ 8 + length r.0.bytes.now + 20 * r.1.count + length r.3.now) }
    ensures start { IfSome result (λ r. r.0.start + length r.0.bytes.now + 20 * r.1.count + length r.3.now ≡ total) }
    ensures names { IfSome result (λ r. r.1.start + 20 * r.1.count + length r.3.now ≡ total) }
{
    let (count, rest) = read_u32(bytes)?;
    let (segments, end, rest) = read_section(rest, after, FIRST_OTHER, total)?;
    let (names, rest) = read_names(rest, count, total)?;
    Some((segments, names, end, rest))
}

/// What a payload says of the ids of master, and the place behind their records.
#[derive(Clone, Copy)]
struct MasterSections<'a> {
    counts: Counts,
    segments: SegmentSlice<'a>,
    end: u64,
    levels: SegmentSlice<'a>,
    known: KnownSlice<'a>,
}

/// The counts, the records of the new master ids, those of the levels, the known ids, and the rest.
#[tactic(auto, unfolding(crate::specs::Reading::masters_at))]
fn read_masters<'a>(payload: &'a [u8]) -> Option<(MasterSections<'a>, &'a [u8])>
    ensures exact { Gives (λ r. (masters_of r.0, r.1.now)) result (masters_at payload.now) }
    ensures end { IfSome result (λ r. r.0.end ≡ place_behind r.0.counts.before (segments_of r.0.segments)) }
    ensures counts { IfSome result (λ r. r.0.counts.before ≤ r.0.counts.after) }
    ensures segments { IfSome result (λ r. r.0.segments.start ≡ 22 + size_since_second r.0.counts.version 8) }
    ensures levels { IfSome result (λ r. r.0.levels.start ≡ r.0.segments.start + length r.0.segments.bytes.now + size_since_second r.0.counts.version 4) }
    ensures known { IfSome result (λ r. r.0.known.start ≡ r.0.levels.start + length r.0.levels.bytes.now + 4) }
    ensures size { IfSome result (λ r. length payload.now ≡ r.0.known.start + 28 * r.0.known.count + length r.1.now) }
{
    let total = payload.len();
    let (counts, rest) = read_counts(payload)?;
    let (segments, end, rest) = read_section(rest, FIRST_OTHER, counts.before, total)?;
    let (levels, rest) = read_levels(rest, counts.version, counts.after, total)?;
    let (known, rest) = read_known(rest, counts.before, counts.after, total)?;
    let masters = MasterSections {
        counts,
        segments,
        end,
        levels,
        known,
    };
    Some((masters, rest))
}

/// These sections, which stand one behind the other, as those of one payload.
fn joined_parts<'a>(
    masters: MasterSections<'a>,
    heads: NameSlice<'a>,
    others: SegmentSlice<'a>,
    other_names: NameSlice<'a>,
) -> Parts<'a>
    requires segments { masters.segments.start ≡ 22 + size_since_second masters.counts.version 8 }
    requires levels { masters.levels.start ≡ masters.segments.start + length masters.segments.bytes.now + size_since_second masters.counts.version 4 }
    requires known { masters.known.start ≡ masters.levels.start + length masters.levels.bytes.now + 4 }
    requires heads { heads.start ≡ masters.known.start + 28 * masters.known.count + 2 }
    requires others { others.start ≡ heads.start + 20 * heads.count + 8 }
    requires names { other_names.start ≡ others.start + length others.bytes.now }
    ensures parts { payload_in result ≡ joined (masters_of masters.entry) (lent_names heads.entry) (others_of others.entry other_names.entry) }
    ensures places { HasPlaces result }
{
    Parts {
        version: masters.counts.version,
        kind: masters.counts.kind,
        before: masters.counts.before,
        after: masters.counts.after,
        cloned: masters.counts.cloned,
        master: masters.segments,
        levels: masters.levels,
        known: masters.known,
        heads,
        others,
        other_names,
    }
}

/// The payload, and the places behind its two sections of records.
#[tactic(auto, unfolding(crate::specs::Reading::parts_at))]
fn read_parts<'a>(payload: &'a [u8]) -> Option<(Parts<'a>, u64, u64)>
    ensures exact { Gives (λ r. payload_in r.0) result (parts_at payload.now) }
    ensures master { IfSome result (λ r. r.1 ≡ place_behind (payload_in r.0).before (payload_in r.0).master) }
    ensures others { IfSome result (λ r. r.2 ≡ place_behind (2 ^ 56) (payload_in r.0).others) }
    ensures counts { IfSome result (λ r. (payload_in r.0).before ≤ (payload_in r.0).after) }
    ensures places { IfSome result (λ r. HasPlaces r.0) }
{
    let total = payload.len();
    let (masters, rest) = read_masters(payload)?;
    let (heads, rest) = read_heads(rest, total)?;
    let (others, other_names, others_end, rest) = read_others(rest, masters.counts.after, total)?;
    if !rest.is_empty() {
        return None;
    }
    let batch = joined_parts(masters, heads, others, other_names);
    Some((batch, masters.end, others_end))
}

/// The sections of the other ids, where they and nothing else stand in the bytes. The records are what lies between the counts
/// and the names, and none is read.
fn cut_others<'a>(
    bytes: &'a [u8],
    after: u64,
    total: usize,
) -> Option<(SegmentSlice<'a>, NameSlice<'a>)>
    requires total { length bytes.now ≤ total }
    requires whole { (o : Others) × (others_at after bytes.now ≡ Some (o, [])) }
    ensures exact { (o : Others) → others_at after bytes.now ≡ Some (o, []) → MatchOption result ⊥ (λ r. others_of r.0 r.1 ≡ o) }
    ensures size { IfSome result (λ r. length bytes.now ≡ 8 + length r.0.bytes.now + 20 * r.1.count) }
    ensures start { IfSome result (λ r. r.0.start + length r.0.bytes.now + 20 * r.1.count ≡ total) }
    ensures names { IfSome result (λ r. r.1.start + 20 * r.1.count ≡ total) }
{
    let (count, rest) = read_u32(bytes)?;
    let (records_count, rest) = read_u32(rest)?;
    let size = 20 * count as usize;
    let (records, names) = rest.split_at(rest.len() - size);
    let others = SegmentSlice {
        count: records_count,
        bytes: records,
        start: (total - rest.len()) as u64,
    };
    let other_names = NameSlice {
        count,
        bytes: names,
        start: (total - size) as u64,
    };
    Some((others, other_names))
}

/// The sections of a payload whose bytes these are known to be. The records of its other ids aren't read.
fn cut_payload<'a>(payload: &'a [u8]) -> Option<Parts<'a>>
    requires { (p : Payload) × (payload_at payload.now ≡ Some p) }
    ensures exact { (p : Payload) → payload_at payload.now ≡ Some p → MatchOption result ⊥ (λ b. payload_in b ≡ p) }
    ensures places { IfSome result HasPlaces }
{
    let total = payload.len();
    let (masters, rest) = read_masters(payload)?;
    let (heads, rest) = read_heads(rest, total)?;
    let (others, other_names) = cut_others(rest, masters.counts.after, total)?;
    Some(joined_parts(masters, heads, others, other_names))
}

/// Whether the records end where the groups do.
fn ends_where_groups_do(batch: &Parts<'_>, master_end: u64, others_end: u64) -> bool
    requires master { master_end ≡ place_behind (payload_in batch.now).before (payload_in batch.now).master }
    requires others { others_end ≡ place_behind (2 ^ 56) (payload_in batch.now).others }
    ensures { result ≡ ends_fit (payload_in batch.now) }
{
    master_end == batch.after
        && batch.other_names.len() <= MOST_OTHERS
        && others_end == FIRST_OTHER + u64::from(batch.other_names.len())
}

#[tactic(auto, unfolding(crate::specs::Reading::payload_at))]
fn read_payload<'a>(payload: &'a [u8]) -> Option<Parts<'a>>
    ensures exact { Gives payload_in result (payload_at payload.now) }
    ensures places { IfSome result HasPlaces }
{
    let (batch, master_end, others_end) = read_parts(payload)?;
    if !ends_where_groups_do(&batch, master_end, others_end) || !has_kind(&batch) {
        return None;
    }
    Some(batch)
}
