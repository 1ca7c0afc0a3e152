//! Flat segments that a walk down to children goes past by their places.

ghost use Rattle.std.specs.Prelude.{◌≡◌, ℕ, ◌-◌, ◌<◌, ◌≤◌, ◌^◌, ◌↔◌, false, IfSome, IsTrue, min};
ghost use Rattle.id_groups.specs.Lists.{IsIn};
ghost use Rattle.segment_codec.specs.Number.{number_bytes};
ghost use Rattle.segment_codec.specs.Lent.{segment_of};
ghost use Rattle.segment_codec.specs.Table.{IsHeld};
ghost use Rattle.span_set.specs.Members.{IsMember};
ghost use Rattle.ancestor_query.specs.Graph.{table_graph};
ghost use Rattle.range_query.specs.Parts.{HasParentIn, LackChildren, AreSpelledWith};

use crate::child_walk::has_parent_in;
use crate::ladder::Ladder;
use crate::place::count_to;
use id_groups::{Id, IdSpan};
use segment_codec::{SegmentRef, SegmentTable, Steps};
use span_set::IdSet;

/// In the spelling of a number each byte but the last is at least this.
const MORE: u64 = 128;

/// The byte with which the spelling of the id begins.
fn first_byte(id: Id) -> u8
    ensures { IsIn result (number_bytes id) }
{
    let number = id.number();
    if number < MORE {
        return number as u8;
    }
    (number % MORE + MORE) as u8
}

/// A byte that stands in the spelling of each member, where there is only one member.
fn only_byte(spans: &[IdSpan]) -> Option<u8>
    ensures { AreSpelledWith spans.now result }
{
    if spans.len() != 1 {
        return None;
    }
    let span = spans[0];
    if span.low.number() != span.high.number() {
        return None;
    }
    Some(first_byte(span.low))
}

/// Whether the byte is one of these.
fn has_byte(bytes: &[u8], byte: u8) -> bool
    ensures { result ≡ false → IsIn byte bytes.now → ⊥ }
{
    let mut rest = bytes;
    'each: while let Some((first, others)) = rest.split_first() {
        if *first == byte {
            return true;
        }
        rest = others;
    }
    false
}

/// Whether the byte is one of three.
#[inline(always)]
fn is_one_of(byte: u8, a: u8, b: u8, c: u8) -> bool
    ensures a { result ≡ false → a ≡ byte → ⊥ }
    ensures b { result ≡ false → b ≡ byte → ⊥ }
    ensures c { result ≡ false → c ≡ byte → ⊥ }
{
    a == byte || b == byte || c == byte
}

/// Whether the byte is one of these: of three or six, which one or two of most ids take, without a loop.
#[inline(always)]
fn has_byte_of_few(bytes: &[u8], byte: u8) -> bool
    ensures { result ≡ false → IsIn byte bytes.now → ⊥ }
{
    match bytes {
        [a, b, c] => is_one_of(byte, *a, *b, *c),
        [a, b, c, d, e, f] => is_one_of(byte, *a, *b, *c) || is_one_of(byte, *d, *e, *f),
        _ => has_byte(bytes, byte),
    }
}

/// Whether a parent of the segment's lowest id is a member. The byte stands in the spelling of each member, so that the
/// parents are only read if it is one of their bytes.
#[inline(always)]
fn has_parent_spelled(set: &IdSet, byte: u8, segment: SegmentRef<'_>) -> bool
    requires { (x : ℕ) → IsMember set.now x → IsIn byte (number_bytes x) }
    ensures { HasParentIn set.now (segment_of segment.entry) → IsTrue result }
{
    if !has_byte_of_few(segment.parents_bytes(), byte) {
        return false;
    }
    has_parent_in(set, segment)
}

/// Whether a parent of the segment's lowest id is a member, whose spelling has the byte, if there is one.
#[inline(always)]
fn has_parent(set: &IdSet, byte: Option<u8>, segment: SegmentRef<'_>) -> bool
    requires { AreSpelledWith set.now byte }
    ensures { HasParentIn set.now (segment_of segment.entry) → IsTrue result }
{
    match byte {
        Some(byte) => has_parent_spelled(set, byte, segment),
        None => has_parent_in(set, segment),
    }
}

/// Whether the segment begins at the id `from` or above it, and none of its parents is a member.
#[inline(always)]
fn is_apart_from(set: &IdSet, byte: Option<u8>, from: u64, segment: SegmentRef<'_>) -> bool
    requires { AreSpelledWith set.now byte }
    ensures from { IsTrue result → from ≤ (segment_of segment.entry).low }
    ensures none { IsTrue result → HasParentIn set.now (segment_of segment.entry) → ⊥ }
{
    if segment.low().number() < from {
        return false;
    }
    !has_parent(set, byte, segment)
}

/// Goes down from the id over flat segments, as many as the ladder pauses for, while none of their ids has a parent in the
/// set. It answers the lowest id that it went past, and one above the id where it went past none. No member lies from the id
/// `from` to before this one.
pub(crate) fn pass_flats<T: SegmentTable>(
    table: &T,
    set: &IdSet,
    from: u64,
    id: Id,
    ladder: &mut Ladder,
    steps: &mut Steps,
) -> u64
    requires held { IsHeld (T.flats table.now) id }
    requires clear { (x : ℕ) → IsMember set.now x → from ≤ x → id ≤ x }
    ensures none { LackChildren (table_graph (T.flats table.now)) set.now result id }
    ensures counted { min steps.old.taken (2 ^ 64 - 1) ≤ steps.new.taken }
{
    let byte = only_byte(set.spans());
    let top = id.number();
    let mut low = top + 1;
    let mut end = count_to(table, id, ladder.place(), steps);
    let last = end.saturating_sub(ladder.pause());
    'down: while last < end {
        let segment = table.flat_at(end - 1, steps);
        if !is_apart_from(set, byte, from, segment) {
            ladder.go_on_at(end - 1, end - 1 - last);
            return low;
        }
        let lowest = segment.low().number();
        low = lowest;
        end -= 1;
    }
    ladder.go_on_at(end.saturating_sub(1), 0);
    low
}
