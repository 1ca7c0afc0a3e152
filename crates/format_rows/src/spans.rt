//! Sets against lists of ids, and spans that meet.

use id_groups::{Id, IdSpan};
use span_set::IdSet;
use std::alloc::{AllocError, Global};
use std::test::Fail;

/// Of small numbers 0 to 9 stand for master ids, and 10 to 13 for N0 to N3.
fn id(k: u8) -> Id {
    if k < 10 {
        Id::master(u64::from(k))
    } else {
        Id::other(u64::from(k - 10))
    }
}

/// The numbers up to 13.
const NUMBERS: [u8; 14] = [0, 1, 2, 3, 4, 5, 6, 7, 8, 9, 10, 11, 12, 13];

/// Whether the bits have that of a number.
fn has(bits: u16, k: u8) -> bool {
    bits >> u32::from(k).min(15) & 1 == 1
}

/// The set of these bits' ids, put in upwards or downwards.
fn set_of(alloc: Global, bits: u16, downwards: bool) -> Result<IdSet, AllocError> {
    let mut set = IdSet::empty(alloc);
    for step in &NUMBERS {
        let k = if downwards {
            13 - (*step).min(13)
        } else {
            *step
        };
        if has(bits, k) {
            set.insert_span(IdSpan::single(id(k)))?;
        }
    }
    Ok(set)
}

/// Whether the set has the ids of these bits, from the greatest down, and no others.
fn has_only(set: &IdSet, bits: u16) -> bool {
    let mut down = set.ids_down();
    for step in &NUMBERS {
        let k = 13 - (*step).min(13);
        if has(bits, k) && down.next() != Some(id(k)) {
            return false;
        }
    }
    down.next().is_none()
}

/// Two sets, and what is in either, in both, and in the first alone: a bit each for the numbers 0 to 13, the lowest for 0.
type Pair = [u16; 5];

const PAIRS: [Pair; 7] = [
    [
        0b00000000000000,
        0b00000000000000,
        0b00000000000000,
        0b00000000000000,
        0b00000000000000,
    ],
    [
        0b00000000000001,
        0b00000000000000,
        0b00000000000001,
        0b00000000000000,
        0b00000000000001,
    ],
    [
        0b00001000000000,
        0b00010000000000,
        0b00011000000000,
        0b00000000000000,
        0b00001000000000,
    ],
    [
        0b00000000011110,
        0b00000000000111,
        0b00000000011111,
        0b00000000000110,
        0b00000000011000,
    ],
    [
        0b01010101010101,
        0b10101010101010,
        0b11111111111111,
        0b00000000000000,
        0b01010101010101,
    ],
    [
        0b11111111111111,
        0b00111101100000,
        0b11111111111111,
        0b00111101100000,
        0b11000010011111,
    ],
    [
        0b10000000000001,
        0b10000000000001,
        0b10000000000001,
        0b10000000000001,
        0b00000000000000,
    ],
];

/// Whether the sets have the pair's answers.
fn agree(alloc: Global, left: &IdSet, right: &IdSet, pair: &Pair) -> Result<bool, AllocError> {
    let [_, _, either, both, rest] = *pair;
    let are_either = has_only(&left.union(alloc, right)?, either);
    let are_both = has_only(&left.inter(alloc, right)?, both);
    let are_rest = has_only(&left.minus(alloc, right)?, rest);
    Ok(are_either && are_both && are_rest)
}

/// The same of the pair's sets, of which one is made upwards and one downwards.
fn has_answers(alloc: Global, pair: &Pair, downwards: bool) -> Result<bool, AllocError> {
    let [a, b, _, _, _] = *pair;
    let left = set_of(alloc, a, downwards)?;
    let right = set_of(alloc, b, !downwards)?;
    agree(alloc, &left, &right, pair)
}

/// Whether each pair has its answers.
fn all_agree(alloc: Global) -> Result<bool, AllocError> {
    for pair in &PAIRS {
        if !has_answers(alloc, pair, true)? || !has_answers(alloc, pair, false)? {
            return Ok(false);
        }
    }
    Ok(true)
}

#[test]
fn algebra_agrees_with_lists(rt: HostRuntime) -> Result<(), Fail> {
    assert!(rt; all_agree(rt.alloc())?);
    Ok(())
}

/// How many are taken of the ids 1, 2, 3, 7, N0 and N1, and which come then.
const GREATEST: [(u64, u16); 5] = [
    (0, 0),
    (1, 0b100000000000),
    (4, 0b110010001000),
    (6, 0b110010001110),
    (u64::MAX, 0b110010001110),
];

/// Whether those are the so many greatest ids of the set.
fn has_greatest(alloc: Global, set: &IdSet, n: u64, taken: u16) -> Result<bool, AllocError> {
    Ok(has_only(&set.take_greatest(alloc, n)?, taken))
}

/// Whether the greatest of those ids come for each number.
fn have_greatest(alloc: Global) -> Result<bool, AllocError> {
    let set = set_of(alloc, 0b110010001110, false)?;
    for (n, taken) in &GREATEST {
        if !has_greatest(alloc, &set, *n, *taken)? {
            return Ok(false);
        }
    }
    Ok(true)
}

#[test]
fn the_greatest_come_first(rt: HostRuntime) -> Result<(), Fail> {
    assert!(rt; have_greatest(rt.alloc())?);
    Ok(())
}

/// The last id of the master group, and all of the other group.
fn put_both_groups(set: &mut IdSet) -> Result<(), AllocError> {
    set.insert_span(IdSpan::single(Id::master((1 << 56) - 1)))?;
    set.insert_span(IdSpan {
        low: Id::other(0),
        high: Id::other((1 << 56) - 1),
    })
}

#[test]
fn spans_meet_within_their_group(rt: HostRuntime) -> Result<(), Fail> {
    let last = Id::master((1 << 56) - 1);
    let first = Id::other(0);
    let end = Id::other((1 << 56) - 1);
    let mut set = IdSet::empty(rt.alloc());
    put_both_groups(&mut set)?;
    assert_eq!(rt;
        set.spans(),
        [
            IdSpan {
                low: first,
                high: end
            },
            IdSpan::single(last)
        ]
        .as_slice()
    );
    Ok(())
}

/// The lowest and the highest ids of spans of which the last meets those before it.
const MEETING: [(u8, u8); 8] = [
    (20, 29),
    (10, 15),
    (16, 17),
    (40, 49),
    (45, 60),
    (12, 13),
    (31, 38),
    (18, 39),
];

/// Puts these spans.
fn put_meeting(low: &mut IdSet) -> Result<(), AllocError> {
    for (from, to) in &MEETING {
        low.insert_span(IdSpan {
            low: Id::master(u64::from(*from)),
            high: Id::master(u64::from(*to)),
        })?;
    }
    Ok(())
}

#[test]
fn a_span_joins_those_that_it_meets(rt: HostRuntime) -> Result<(), Fail> {
    let mut low = IdSet::empty(rt.alloc());
    put_meeting(&mut low)?;
    assert_eq!(rt;
        low.spans(),
        [IdSpan {
            low: Id::master(10),
            high: Id::master(60)
        }]
        .as_slice()
    );
    Ok(())
}
