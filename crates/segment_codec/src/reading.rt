//! Records, read from bytes that begin with one.

ghost use Rattle.std.specs.Prelude.{◌≡◌, ◌<◌, ◌^◌, ◌++◌, List, ℕ, length, IfSome, MatchOption};
ghost use Rattle.std.specs.List.{AllByRecursion};
ghost use Rattle.id_groups.specs.Lists.{is_in};
ghost use Rattle.segment_codec.specs.Record.{Segment, IsSegment, segment_bytes};
ghost use Rattle.segment_codec.specs.Reading.{Gives, numbers_at, are_distinct, ascend_from, are_in_order, record_at};
ghost use Rattle.segment_codec.specs.Lent.{segment_of, parents_left};
ghost use Rattle.std.specs.Prelude.{nat_eq};

use crate::head::read_head;
use crate::lent::{Parents, SegmentRef};
use crate::number::read_number;
use id_groups::Id;

/// So many numbers, each below the end, and the rest.
fn read_parents<'a>(bytes: &'a [u8], count: u64, end: u64) -> Option<(Parents<'a>, &'a [u8])>
    requires { end < 2 ^ 57 }
    ensures exact { Gives (λ r. (parents_left r.0, r.1.now)) result (numbers_at end count bytes.now) }
    ensures below { IfSome result (λ r. AllByRecursion (λ p. p < end) (parents_left r.0)) }
    ensures count { IfSome result (λ r. length (parents_left r.0) ≡ count) }
{
    let mut rest = bytes;
    'numbers: for _ in 0..count {
        let (number, after) = read_number(rest)?;
        if number >= end {
            return None;
        }
        rest = after;
    }
    let (parents, rest) = bytes.split_at(bytes.len() - rest.len());
    Some((Parents { rest: parents }, rest))
}

fn contain(parents: Parents<'_>, id: Id) -> bool
    ensures { result ≡ is_in nat_eq id (parents_left parents.entry) }
{
    let mut rest = parents;
    'parents: while let Some(parent) = rest.next() {
        if parent.number() == id.number() {
            return true;
        }
    }
    false
}

fn are_all_distinct(parents: Parents<'_>) -> bool
    ensures { result ≡ are_distinct (parents_left parents.entry) }
{
    let mut rest = parents;
    'parents: while let Some(parent) = rest.next() {
        if contain(rest, parent) {
            return false;
        }
    }
    true
}

fn ascend(parents: Parents<'_>) -> bool
    ensures { result ≡ ascend_from 0 (parents_left parents.entry) }
{
    let mut rest = parents;
    let mut least = 0;
    'parents: while let Some(parent) = rest.next() {
        if parent.number() < least {
            return false;
        }
        least = parent.number() + 1;
    }
    true
}

/// Whether two parents stand as those of this level do.
fn are_two_in_order(level: u8, parents: Parents<'_>) -> bool
    requires { length (parents_left parents) ≡ 2 }
    ensures { result ≡ are_in_order level (parents_left parents.entry) }
{
    let mut rest = parents;
    let Some(first) = rest.next() else {
        return true;
    };
    let Some(second) = rest.next() else {
        return true;
    };
    if level == 0 {
        return first.number() != second.number();
    }
    first.number() < second.number()
}

/// Whether these parents, of which there are so many, stand as those of this level do. Of one alone nothing is read.
fn have_levels_order(level: u8, count: u64, parents: Parents<'_>) -> bool
    requires { length (parents_left parents) ≡ count }
    ensures { result ≡ are_in_order level (parents_left parents.entry) }
{
    if count <= 1 {
        return true;
    }
    if count == 2 {
        return are_two_in_order(level, parents);
    }
    if level == 0 {
        are_all_distinct(parents)
    } else {
        ascend(parents)
    }
}

/// The record in front and the rest; `None` exactly where no record's spelling stands in front.
pub fn read_segment<'a>(bytes: &'a [u8]) -> Option<(SegmentRef<'a>, &'a [u8])>
    ensures found { IfSome result (λ r. IsSegment (segment_of r.0) × (bytes.now ≡ segment_bytes (segment_of r.0) ++ r.1.now)) }
    ensures only { (s : Segment) (rest : List ℕ) → IsSegment s → bytes.now ≡ segment_bytes s ++ rest
        → MatchOption result ⊥ (λ r. (segment_of r.0 ≡ s) × (r.1.now ≡ rest)) }
    ensures exact { Gives (λ r. (segment_of r.0, r.1.now)) result (record_at bytes.now) }
{
    read_record(bytes)
}

#[tactic(auto, unfolding(crate::specs::Reading::record_at))]
fn read_record<'a>(bytes: &'a [u8]) -> Option<(SegmentRef<'a>, &'a [u8])>
    ensures { Gives (λ r. (segment_of r.0, r.1.now)) result (record_at bytes.now) }
{
    let (head, rest) = read_head(bytes)?;
    let (parents, rest) = read_parents(rest, head.count, head.low)?;
    if !have_levels_order(head.level, head.count, parents) {
        return None;
    }
    let segment = SegmentRef {
        low: head.low,
        high: head.high,
        level: head.level,
        parents: parents.rest,
    };
    Some((segment, rest))
}
