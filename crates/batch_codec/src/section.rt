//! Sections of a payload, read from the bytes that begin with one.

ghost use Rattle.std.specs.Prelude.{◌≡◌, ◌≤◌, ◌<◌, ◌+◌, ◌*◌, ◌^◌, ◌||◌, ◌&&◌, ◌∷◌, [], ℕ, false, not, nat_lt, nat_le, IfSome, MatchOption, length};
ghost use Rattle.segment_codec.specs.Reading.{Gives};
ghost use Rattle.segment_codec.specs.Lent.{segment_of, parents_left};
ghost use Rattle.segment_codec.specs.Turns.{goes_on, is_only, place_behind};
ghost use Rattle.batch_codec.specs.Reading.{are_within, may_stand, may_rise, behind_segment, behind_level, records_at, section_at, level_section_at, levels_at, names_at, known_at, heads_at, ids_in, ids_ascend};
ghost use Rattle.batch_codec.specs.Payload.{size_since_second};
ghost use Rattle.batch_codec.specs.Lent.{segments_of, knowns_of, lent_names};

use crate::counts::FIRST_VERSION;
use crate::fixed::{front_u64, read_piece, read_u16, read_u32};
use crate::lent::{KnownSlice, NameSlice, SegmentSlice};
use id_groups::{FIRST_OTHER, Id};
use segment_codec::{Parents, SegmentRef, read_segment};

/// Whether the number is of a master id below the end, or of the other group.
fn is_within(number: u64, end: u64) -> bool
    ensures { result ≡ (nat_lt number end || nat_le (2 ^ 56) number) }
{
    number < end || FIRST_OTHER <= number
}

/// Whether each parent is a master id below the end, or of the other group. None is read where the end is behind all master ids.
fn parents_are_within(segment: SegmentRef<'_>, end: u64) -> bool
    ensures { result ≡ are_within end (segment_of segment.entry).parents }
{
    if FIRST_OTHER <= end {
        return true;
    }
    let mut parents = segment.parents();
    'parents: while let Some(parent) = parents.next() {
        if !is_within(parent.number(), end) {
            return false;
        }
    }
    true
}

/// The only one of these parents; `None` where there are none or several.
fn only_parent(parents: Parents<'_>) -> Option<Id>
    ensures { MatchOption result ((n : ℕ) → is_only n (parents_left parents.entry) ≡ false) (λ parent. parents_left parents.entry ≡ parent ∷ []) }
{
    let mut rest = parents;
    let parent = rest.next()?;
    if rest.next().is_some() {
        return None;
    }
    Some(parent)
}

/// Whether each parent is a master id below the end, or of the other group, and the segment goes on from none, unless it is the
/// first.
fn parents_fit(segment: SegmentRef<'_>, end: u64, is_first: bool) -> bool
    ensures { result ≡ ((is_first || not (goes_on (segment_of segment.entry))) && are_within end (segment_of segment.entry).parents) }
{
    let Some(parent) = only_parent(segment.parents()) else {
        return parents_are_within(segment, end);
    };
    (is_first || parent.number() != segment.low().number().saturating_sub(1))
        && is_within(parent.number(), end)
}

/// Whether the record may come at this place of a section that begins at `first` and whose master parents are below `end`.
fn fits(segment: SegmentRef<'_>, end: u64, first: u64, place: u64) -> bool
    ensures { result ≡ may_stand end first place (segment_of segment.entry) }
{
    segment.level() == 0
        && segment.low().number() == place
        && parents_fit(segment, end, place == first)
}

/// So many records, each of which may come at its place, the place behind them, and the rest.
fn read_segments<'a>(
    bytes: &'a [u8],
    count: u32,
    end: u64,
    first: u64,
    total: usize,
) -> Option<(SegmentSlice<'a>, u64, &'a [u8])>
    requires { length bytes.now ≤ total }
    ensures exact { Gives (λ r. (segments_of r.0, r.2.now)) result (records_at (may_stand end first) behind_segment first count bytes.now) }
    ensures behind { IfSome result (λ r. r.1 ≡ place_behind first (segments_of r.0)) }
    ensures size { IfSome result (λ r. length bytes.now ≡ length r.0.bytes.now + length r.2.now) }
    ensures start { IfSome result (λ r. r.0.start + length bytes.now ≡ total) }
{
    let mut rest = bytes;
    let mut place = first;
    'records: for _ in 0..count {
        let (segment, after) = read_segment(rest)?;
        if !fits(segment, end, first, place) {
            return None;
        }
        place = segment.high().number() + 1;
        rest = after;
    }
    let (records, rest) = bytes.split_at(bytes.len() - rest.len());
    let section = SegmentSlice {
        count,
        bytes: records,
        start: (total - bytes.len()) as u64,
    };
    Some((section, place, rest))
}

/// A section of records that stand one behind the other from id `first` on, below `end`, the place behind them, and the rest;
/// `None` exactly where no such section begins there. `total` is the length of the whole that the bytes are the end of.
#[tactic(auto, unfolding(crate::specs::Reading::section_at))]
pub fn read_section<'a>(
    bytes: &'a [u8],
    end: u64,
    first: u64,
    total: usize,
) -> Option<(SegmentSlice<'a>, u64, &'a [u8])>
    requires { length bytes.now ≤ total }
    ensures exact { Gives (λ r. (segments_of r.0, r.2.now)) result (section_at end first bytes.now) }
    ensures behind { IfSome result (λ r. r.1 ≡ place_behind first (segments_of r.0)) }
    ensures size { IfSome result (λ r. length bytes.now ≡ 4 + length r.0.bytes.now + length r.2.now) }
    ensures start { IfSome result (λ r. r.0.start + length r.0.bytes.now + length r.2.now ≡ total) }
{
    let (count, rest) = read_u32(bytes)?;
    read_segments(rest, count, end, first, total)
}

/// Whether the record may come among those of the levels, where the least that may has this level and this lowest id. Its ids
/// are below `end`.
fn may_come(segment: SegmentRef<'_>, end: u64, level: u8, low: u64) -> bool
    ensures { result ≡ may_rise end (level, low) (segment_of segment.entry) }
{
    let is_behind = level < segment.level()
        || (level == segment.level() && low <= segment.low().number());
    is_behind && segment.high().number() < end
}

/// So many records of levels, each of which may come behind the one before it, and the rest.
fn read_level_records<'a>(
    bytes: &'a [u8],
    count: u32,
    end: u64,
    total: usize,
) -> Option<(SegmentSlice<'a>, &'a [u8])>
    requires { length bytes.now ≤ total }
    ensures exact { Gives (λ r. (segments_of r.0, r.1.now)) result (records_at (may_rise end) behind_level (1, 0) count bytes.now) }
    ensures size { IfSome result (λ r. length bytes.now ≡ length r.0.bytes.now + length r.1.now) }
    ensures start { IfSome result (λ r. r.0.start + length bytes.now ≡ total) }
{
    let mut rest = bytes;
    let mut level = 1;
    let mut low = 0;
    'records: for _ in 0..count {
        let (segment, after) = read_segment(rest)?;
        if !may_come(segment, end, level, low) {
            return None;
        }
        level = segment.level();
        low = segment.low().number() + 1;
        rest = after;
    }
    let (records, rest) = bytes.split_at(bytes.len() - rest.len());
    let section = SegmentSlice {
        count,
        bytes: records,
        start: (total - bytes.len()) as u64,
    };
    Some((section, rest))
}

/// The count of records of levels, these, and the rest.
#[tactic(auto, unfolding(crate::specs::Reading::level_section_at))]
fn read_level_section<'a>(
    bytes: &'a [u8],
    end: u64,
    total: usize,
) -> Option<(SegmentSlice<'a>, &'a [u8])>
    requires { length bytes.now ≤ total }
    ensures exact { Gives (λ r. (segments_of r.0, r.1.now)) result (level_section_at end bytes.now) }
    ensures size { IfSome result (λ r. length bytes.now ≡ 4 + length r.0.bytes.now + length r.1.now) }
    ensures start { IfSome result (λ r. r.0.start + length r.0.bytes.now + length r.1.now ≡ total) }
{
    let (count, rest) = read_u32(bytes)?;
    read_level_records(rest, count, end, total)
}

/// The section of the levels, whose ids are below `end` and which the first version leaves out, and the rest.
#[tactic(auto, unfolding(crate::specs::Reading::levels_at))]
pub fn read_levels<'a>(
    bytes: &'a [u8],
    version: u8,
    end: u64,
    total: usize,
) -> Option<(SegmentSlice<'a>, &'a [u8])>
    requires { length bytes.now ≤ total }
    ensures exact { Gives (λ r. (segments_of r.0, r.1.now)) result (levels_at version end bytes.now) }
    ensures size { IfSome result (λ r. length bytes.now ≡ size_since_second version 4 + length r.0.bytes.now + length r.1.now) }
    ensures start { IfSome result (λ r. r.0.start + length r.0.bytes.now + length r.1.now ≡ total) }
{
    if version != FIRST_VERSION {
        return read_level_section(bytes, end, total);
    }
    let (records, rest) = bytes.split_at(0);
    let section = SegmentSlice {
        count: 0,
        bytes: records,
        start: (total - bytes.len()) as u64,
    };
    Some((section, rest))
}

/// So many names at the front, and the rest; `None` where there are fewer bytes. `total` is as for [`read_section`].
#[tactic(auto, unfolding(crate::specs::Reading::names_at))]
pub fn read_names<'a>(
    bytes: &'a [u8],
    count: u32,
    total: usize,
) -> Option<(NameSlice<'a>, &'a [u8])>
    requires { length bytes.now ≤ total }
    ensures exact { Gives (λ r. (lent_names r.0, r.1.now)) result (names_at count bytes.now) }
    ensures count { IfSome result (λ r. r.0.count ≡ count) }
    ensures size { IfSome result (λ r. length bytes.now ≡ 20 * count + length r.1.now) }
    ensures start { IfSome result (λ r. r.0.start + length bytes.now ≡ total) }
{
    let (names, rest) = read_piece(bytes, 20 * count as usize)?;
    let section = NameSlice {
        count,
        bytes: names,
        start: (total - bytes.len()) as u64,
    };
    Some((section, rest))
}

/// The section of heads, and the rest.
#[tactic(auto, unfolding(crate::specs::Reading::heads_at))]
pub fn read_heads<'a>(bytes: &'a [u8], total: usize) -> Option<(NameSlice<'a>, &'a [u8])>
    requires { length bytes.now ≤ total }
    ensures exact { Gives (λ r. (lent_names r.0, r.1.now)) result (heads_at bytes.now) }
    ensures size { IfSome result (λ r. length bytes.now ≡ 2 + 20 * r.0.count + length r.1.now) }
    ensures start { IfSome result (λ r. r.0.start + 20 * r.0.count + length r.1.now ≡ total) }
{
    let (count, rest) = read_u16(bytes)?;
    read_names(rest, u32::from(count), total)
}

/// Whether the ids ascend from `before` on, below `after`.
fn ascend(entries: &[u8], count: u32, before: u64, after: u64) -> bool
    requires { length entries.now ≡ 28 * count }
    ensures { result ≡ ids_ascend before after (ids_in count entries.now) }
{
    let mut rest = entries;
    let mut least = before;
    'entries: for _ in 0..count {
        let id = front_u64(rest);
        if id < least || after <= id {
            return false;
        }
        least = id + 1;
        let (_, behind) = rest.split_at(28);
        rest = behind;
    }
    true
}

/// The section of known ids, which ascend from `before` on, below `after`, and the rest.
#[tactic(auto, unfolding(crate::specs::Reading::known_at))]
pub fn read_known<'a>(
    bytes: &'a [u8],
    before: u64,
    after: u64,
    total: usize,
) -> Option<(KnownSlice<'a>, &'a [u8])>
    requires total { length bytes.now ≤ total }
    requires after { after ≤ 2 ^ 57 }
    ensures exact { Gives (λ r. (knowns_of r.0, r.1.now)) result (known_at before after bytes.now) }
    ensures size { IfSome result (λ r. length bytes.now ≡ 4 + 28 * r.0.count + length r.1.now) }
    ensures start { IfSome result (λ r. r.0.start + 28 * r.0.count + length r.1.now ≡ total) }
{
    let (count, rest) = read_u32(bytes)?;
    let (entries, after_entries) = read_piece(rest, 28 * count as usize)?;
    if !ascend(entries, count, before, after) {
        return None;
    }
    let section = KnownSlice {
        count,
        bytes: entries,
        start: (total - rest.len()) as u64,
    };
    Some((section, after_entries))
}
