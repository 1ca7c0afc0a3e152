//! Records that are known to be ones.

ghost use Rattle.std.specs.Prelude.{◌≡◌, ◌≤◌, ◌++◌, List, ℕ, Some, IfSome, length, flat_map};
ghost use Rattle.std.specs.List.{AllByRecursion};
ghost use Rattle.segment_codec.specs.Number.{HasNumber, number_bytes};
ghost use Rattle.segment_codec.specs.Reading.{head_at};
ghost use Rattle.segment_codec.specs.Record.{Segment, IsSegment, segment_bytes};
ghost use Rattle.segment_codec.specs.Lent.{segment_of};

use crate::head::{Head, read_head};
use crate::lent::SegmentRef;

/// What stands before the parents of a record that is known to be one, and the rest, where the number of ids and that of
/// parents take one byte each; `None` also where one takes more. Nothing is judged again.
#[inline(always)]
fn read_known(bytes: &[u8]) -> Option<(Head, &[u8])>
    requires { (s : Segment) × (rest : List ℕ) × IsSegment s × (bytes.now ≡ segment_bytes s ++ rest) }
    ensures { IfSome result (λ r. head_at bytes.now ≡ Some (r.0, r.1.now)) }
{
    let [_, level, a, b, c, d, e, f, g, h, span, count, rest @ ..] = bytes else {
        return None;
    };
    if *span >= 128 || *count >= 128 {
        return None;
    }
    let high = u64::from_be_bytes([*a, *b, *c, *d, *e, *f, *g, *h]);
    let head = Head {
        low: high - u64::from(*span),
        high,
        level: *level,
        count: u64::from(*count),
    };
    Some((head, rest))
}

/// The bytes behind the number in front, if it takes at most four bytes; `None` also where it takes more.
#[inline(always)]
fn behind_short(bytes: &[u8]) -> Option<&[u8]>
    ensures rest { IfSome result (λ r. (n : ℕ) (rest : List ℕ) → HasNumber n → bytes.now ≡ number_bytes n ++ rest → r.now ≡ rest) }
    ensures len { IfSome result (λ r. length r.now ≤ length bytes.now) }
{
    match bytes {
        [one, rest @ ..] if *one < 128 => Some(rest),
        [_, two, rest @ ..] if *two < 128 => Some(rest),
        [_, _, three, rest @ ..] if *three < 128 => Some(rest),
        [_, _, _, four, rest @ ..] if *four < 128 => Some(rest),
        _ => None,
    }
}

/// The bytes behind so many numbers, if each takes at most four bytes; `None` also where one takes more.
#[inline(always)]
fn behind_shorts(bytes: &[u8], count: u64) -> Option<&[u8]>
    ensures rest { IfSome result (λ r. (ns : List ℕ) (rest : List ℕ) → AllByRecursion HasNumber ns → length ns ≡ count → bytes.now ≡ flat_map number_bytes ns ++ rest → r.now ≡ rest) }
    ensures len { IfSome result (λ r. length r.now ≤ length bytes.now) }
{
    let mut rest = bytes;
    'numbers: for _ in 0..count {
        rest = behind_short(rest)?;
    }
    Some(rest)
}

/// The record in front, which is known to be one, and the rest, if its numbers are short; `None` also where they are longer.
/// It makes no call, so that nothing has to be saved around one.
#[inline(always)]
fn pass_short<'a>(bytes: &'a [u8]) -> Option<(SegmentRef<'a>, &'a [u8])>
    requires { (s : Segment) × (rest : List ℕ) × IsSegment s × (bytes.now ≡ segment_bytes s ++ rest) }
    ensures { IfSome result (λ r. (s : Segment) (rest : List ℕ) → IsSegment s → bytes.now ≡ segment_bytes s ++ rest → (segment_of r.0 ≡ s) × (r.1.now ≡ rest)) }
{
    let (head, behind) = read_known(bytes)?;
    let rest = behind_shorts(behind, head.count)?;
    let (parents, _) = behind.split_at(behind.len() - rest.len());
    let segment = SegmentRef {
        low: head.low,
        high: head.high,
        level: head.level,
        parents,
    };
    Some((segment, rest))
}

/// The bytes behind the number in front: it ends with the first byte below 128.
#[inline(always)]
fn behind_number(bytes: &[u8]) -> &[u8]
    ensures rest { (n : ℕ) (rest : List ℕ) → HasNumber n → bytes.now ≡ number_bytes n ++ rest → result.now ≡ rest }
    ensures len { length result.now ≤ length bytes.now }
{
    let mut rest = bytes;
    'groups: while let Some((first, others)) = rest.split_first() {
        rest = others;
        if *first < 128 {
            return rest;
        }
    }
    rest
}

/// The bytes behind so many numbers.
#[inline(always)]
fn behind_numbers(bytes: &[u8], count: u64) -> &[u8]
    ensures rest { (ns : List ℕ) (rest : List ℕ) → AllByRecursion HasNumber ns → length ns ≡ count → bytes.now ≡ flat_map number_bytes ns ++ rest → result.now ≡ rest }
    ensures len { length result.now ≤ length bytes.now }
{
    let mut rest = bytes;
    'numbers: for _ in 0..count {
        rest = behind_number(rest);
    }
    rest
}

/// The record in front, which is known to be one, and the rest, whatever its numbers take.
#[inline(never)]
fn pass_long<'a>(bytes: &'a [u8]) -> (SegmentRef<'a>, &'a [u8])
    requires { (s : Segment) × (rest : List ℕ) × IsSegment s × (bytes.now ≡ segment_bytes s ++ rest) }
    ensures { (s : Segment) (rest : List ℕ) → IsSegment s → bytes.now ≡ segment_bytes s ++ rest → (segment_of result.0 ≡ s) × (result.1.now ≡ rest) }
{
    let Some((head, behind)) = read_head(bytes) else {
        unreachable!();
    };
    let rest = behind_numbers(behind, head.count);
    let (parents, _) = behind.split_at(behind.len() - rest.len());
    let segment = SegmentRef {
        low: head.low,
        high: head.high,
        level: head.level,
        parents,
    };
    (segment, rest)
}

/// The record in front, which is known to be one, and the rest. Its parents are passed over: whether they stand in order isn't
/// looked at again.
pub fn pass_segment<'a>(bytes: &'a [u8]) -> (SegmentRef<'a>, &'a [u8])
    requires { (s : Segment) × (rest : List ℕ) × IsSegment s × (bytes.now ≡ segment_bytes s ++ rest) }
    ensures { (s : Segment) (rest : List ℕ) → IsSegment s → bytes.now ≡ segment_bytes s ++ rest → (segment_of result.0 ≡ s) × (result.1.now ≡ rest) }
{
    if let Some(short) = pass_short(bytes) {
        return short;
    }
    pass_long(bytes)
}
