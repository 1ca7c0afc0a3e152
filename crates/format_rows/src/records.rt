//! The bytes of numbers and records, both ways, and what is none.

ghost use Rattle.std.specs.Prelude.{◌≡◌, ◌++◌, List, ℕ};
ghost use Rattle.segment_codec.specs.Record.{segment_bytes};
ghost use Rattle.segment_codec.specs.Flat.{IsFlat};
ghost use Rattle.segment_codec.specs.Lent.{segment_of};

use id_groups::Id;
use segment_codec::{Parents, SegmentRef, Steps, read_segment, write_numbers, write_segment};
use std::alloc::{AllocError, Global};
use std::test::Fail;

/// Numbers and their bytes.
const NUMBERS: [(u64, &[u8]); 15] = [
    (0, &[0]),
    (127, &[127]),
    (128, &[0x80, 1]),
    (300, &[0xac, 2]),
    ((1 << 14) - 1, &[0xff, 0x7f]),
    (1 << 14, &[0x80, 0x80, 1]),
    (70_000, &[0xf0, 0xa2, 4]),
    ((1 << 21) - 1, &[0xff, 0xff, 0x7f]),
    (1 << 21, &[0x80, 0x80, 0x80, 1]),
    (12_345_678, &[0xce, 0xc2, 0xf1, 5]),
    ((1 << 28) - 1, &[0xff, 0xff, 0xff, 0x7f]),
    (1 << 28, &[0x80, 0x80, 0x80, 0x80, 1]),
    (
        1 << 56,
        &[0x80, 0x80, 0x80, 0x80, 0x80, 0x80, 0x80, 0x80, 1],
    ),
    (
        1 << 63,
        &[0x80, 0x80, 0x80, 0x80, 0x80, 0x80, 0x80, 0x80, 0x80, 1],
    ),
    (u64::MAX, &[255, 255, 255, 255, 255, 255, 255, 255, 255, 1]),
];

/// Whether the number is written as these bytes.
fn is_written(alloc: Global, number: u64, bytes: &[u8]) -> Result<bool, AllocError> {
    let mut out = Vec::new(alloc);
    write_numbers(&mut out, &[number])?;
    Ok(out.as_slice() == bytes)
}

#[test]
fn numbers_are_written(rt: HostRuntime) -> Result<(), AllocError> {
    for (number, bytes) in &NUMBERS {
        assert!(rt; is_written(rt.alloc(), *number, bytes)?, "{number}");
    }
    Ok(())
}

/// A merge of the first two other commits, the third.
const MERGE: [u8; 30] = [
    0, 0, 1, 0, 0, 0, 0, 0, 0, 2, 0, 2, 0x80, 0x80, 0x80, 0x80, 0x80, 0x80, 0x80, 0x80, 1, 0x81,
    0x80, 0x80, 0x80, 0x80, 0x80, 0x80, 0x80, 1,
];

/// Whether these are the parents, in order.
fn are_parents(parents: Parents<'_>, wanted: &[Id]) -> bool {
    let mut left = parents;
    for id in wanted {
        if left.next() != Some(*id) {
            return false;
        }
    }
    left.next() == None
}

/// Whether it is a segment of level 0 with these ids and parents.
fn is_segment(segment: SegmentRef<'_>, low: Id, high: Id, parents: &[Id]) -> bool {
    segment.low() == low
        && segment.high() == high
        && segment.level() == 0
        && are_parents(segment.parents(), parents)
}

/// Whether a segment from the third other commit on may end at the tenth.
fn ends_later(segment: SegmentRef<'_>) -> bool {
    if segment.low() != Id::other(2) {
        return false;
    }
    segment.ending_at(Id::other(9)).high() == Id::other(9)
}

/// Whether the bytes are the merge's record.
fn is_merge(bytes: &[u8]) -> bool {
    let parents = [Id::other(0), Id::other(1)];
    match read_segment(bytes) {
        Some((segment, rest)) => {
            rest.is_empty()
                && is_segment(segment, Id::other(2), Id::other(2), &parents)
                && ends_later(segment)
        }
        None => false,
    }
}

/// Whether the merge is written as its bytes, and read from them.
fn is_merge_both_ways(alloc: Global) -> Result<bool, AllocError> {
    let mut out = Vec::new(alloc);
    let parents = [Id::other(0), Id::other(1)];
    write_segment(&mut out, Id::other(2), Id::other(2), 0, &parents)?;
    Ok(out.as_slice() == MERGE.as_slice() && is_merge(&out))
}

/// The first length of a front of the merge's bytes that is a record.
fn shorter_record() -> Option<usize> {
    for len in 0..30usize {
        if read_segment(&MERGE[..len]).is_some() {
            return Some(len);
        }
    }
    None
}

#[test]
fn a_record_both_ways(rt: HostRuntime) -> Result<(), AllocError> {
    assert!(rt; is_merge_both_ways(rt.alloc())?);
    assert_eq!(rt; shorter_record(), None);
    Ok(())
}

/// A flat segment, made once more of its ids and of the bytes of its parents, cut out of its record in front of bytes.
fn made_again<'a>(bytes: &'a [u8], segment: SegmentRef<'_>) -> SegmentRef<'a>
    requires flat { IsFlat (segment_of segment) }
    requires stands { (rest : List ℕ) × (bytes.now ≡ segment_bytes (segment_of segment) ++ rest) }
    ensures { segment_of result ≡ segment_of segment.entry }
{
    let (_, behind) = bytes.split_at(segment.head_len());
    let (parents, _) = behind.split_at(segment.parents_len());
    SegmentRef::flat(segment.low(), segment.high(), parents)
}

/// Whether the segment, whose record stands in front of the bytes, has a head of 13 bytes and parents of 6, and is the same made
/// of its parts.
fn is_made_again(bytes: &[u8], segment: SegmentRef<'_>, low: Id, high: Id, parents: &[Id]) -> bool
    requires flat { IsFlat (segment_of segment) }
    requires stands { (rest : List ℕ) × (bytes.now ≡ segment_bytes (segment_of segment) ++ rest) }
{
    let again = made_again(bytes, segment);
    segment.head_len() == 13
        && segment.parents_len() == 6
        && is_segment(segment, low, high, parents)
        && is_segment(again, low, high, parents)
}

/// Whether a segment that is written and read is the same made of its parts.
fn is_made_of_parts(alloc: Global) -> Result<bool, AllocError> {
    let (low, high) = (Id::master(70_000), Id::master(70_300));
    let parents = [Id::master(69_999), Id::master(300), Id::master(3)];
    let mut out = Vec::new(alloc);
    write_segment(&mut out, low, high, 0, &parents)?;
    let Some((segment, _)) = read_segment(&out) else {
        return Ok(false);
    };
    if segment.level() != 0 {
        return Ok(false);
    }
    Ok(is_made_again(&out, segment, low, high, &parents))
}

#[test]
fn a_flat_segment_of_its_parts(rt: HostRuntime) -> Result<(), AllocError> {
    assert!(rt; is_made_of_parts(rt.alloc())?);
    Ok(())
}

/// Bytes that begin with no record.
const NO_RECORDS: [&[u8]; 18] = [
    // flags with another bit, or that don't fit the count of parents
    &[2, 0, 0, 0, 0, 0, 0, 0, 0, 9, 9, 0],
    &[3, 0, 0, 0, 0, 0, 0, 0, 0, 9, 9, 0],
    &[0, 0, 0, 0, 0, 0, 0, 0, 0, 9, 9, 0],
    &[1, 0, 0, 0, 0, 0, 0, 0, 0, 9, 0, 1, 3],
    // level 8
    &[1, 8, 0, 0, 0, 0, 0, 0, 0, 9, 9, 0],
    // a highest id outside the groups, a low id below 0, and one of the other group
    &[1, 0, 2, 0, 0, 0, 0, 0, 0, 0, 0, 0],
    &[1, 0, 0, 0, 0, 0, 0, 0, 0, 9, 10, 0],
    &[1, 0, 1, 0, 0, 0, 0, 0, 0, 0, 1, 0],
    // longer numbers, and ones that end early or don't fit
    &[1, 0, 0, 0, 0, 0, 0, 0, 0, 9, 0x89, 0, 0],
    &[1, 0, 0, 0, 0, 0, 0, 0, 0, 9, 0x80, 0x80, 0, 0],
    &[1, 0, 0, 0, 0, 0, 0, 0, 0, 9, 0x81, 0x82, 0x83],
    &[1, 0, 0, 0, 0, 0, 0, 0, 0, 9, 0x80, 0x80, 0x80, 0, 0],
    &[
        1, 0, 0, 0, 0, 0, 0, 0, 0, 9, 0x80, 0x80, 0x80, 0x80, 0x80, 0x80, 0x80, 0x80, 0x80, 2, 0,
    ],
    &[
        1, 0, 0, 0, 0, 0, 0, 0, 0, 9, 0x80, 0x80, 0x80, 0x80, 0x80, 0x80, 0x80, 0x80, 0x80, 0x80,
        1, 0,
    ],
    // a parent twice, one at the low, nine parents
    &[0, 0, 0, 0, 0, 0, 0, 0, 0, 9, 0, 2, 3, 3],
    &[0, 0, 0, 0, 0, 0, 0, 0, 0, 9, 0, 1, 9],
    &[
        0, 0, 0, 0, 0, 0, 0, 0, 0, 99, 0, 9, 1, 2, 3, 4, 5, 6, 7, 8, 9,
    ],
    // parents of a higher level that don't ascend
    &[0, 1, 0, 0, 0, 0, 0, 0, 0, 9, 0, 2, 4, 3],
];

/// Nine parents of a higher level, and those of a flat segment in any order.
const RECORDS: [&[u8]; 2] = [
    &[
        0, 1, 0, 0, 0, 0, 0, 0, 0, 99, 0, 9, 1, 2, 3, 4, 5, 6, 7, 8, 9,
    ],
    &[0, 0, 0, 0, 0, 0, 0, 0, 0, 9, 0, 2, 4, 3],
];

#[test]
fn records_and_none(rt: HostRuntime) {
    for bytes in &NO_RECORDS {
        assert!(rt; read_segment(bytes).is_none());
    }
    for bytes in &RECORDS {
        assert!(rt; read_segment(bytes).is_some());
    }
}

/// The look-ups taken and the hint kept, at first, behind two look-ups of which one hints at 7, and behind a hint at 3.
fn counted() -> [(u64, usize); 3] {
    let mut steps = Steps::new();
    let fresh = (steps.taken(), steps.near());
    steps.tick();
    steps.set_near(7);
    steps.tick();
    let twice = (steps.taken(), steps.near());
    steps.set_near(3);
    [fresh, twice, (steps.taken(), steps.near())]
}

#[test]
fn look_ups_are_counted(rt: HostRuntime) -> Result<(), Fail> {
    assert_eq!(rt; counted(), [(0, 0), (2, 7), (2, 3)]);
    Ok(())
}
