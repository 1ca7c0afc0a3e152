//! The bytes of payloads of version 1, which are read, and each rule broken alone.

use batch_codec::BatchRef;
use std::alloc::{AllocError, Global};
use std::test::Fail;

/// A flush of two other ids in a chain, with the names a1 and b1.
pub(crate) const CHAIN: [u8; 88] = [
    1, 1, 0, 0, 0, 0, 0, 0, 0, 0, 0, 0, 0, 0, 0, 0, 0, 0, 0, 0, 0, 0, 0, 0, 0, 0, 0, 0, 0, 0, 0, 2,
    0, 0, 0, 1, 1, 0, 1, 0, 0, 0, 0, 0, 0, 1, 1, 0, 0, 0, 0, 0, 0, 0, 0, 0, 0, 0, 0, 0, 0, 0, 0, 0,
    0, 0, 0, 0xa1, 0, 0, 0, 0, 0, 0, 0, 0, 0, 0, 0, 0, 0, 0, 0, 0, 0, 0, 0, 0xb1,
];

/// A flush of the master ids 0 and 1, named a1 and c1, and of one other id above 0, named b1.
pub(crate) const FORK: [u8; 137] = [
    1, 1, 0, 0, 0, 0, 0, 0, 0, 0, 0, 0, 0, 0, 0, 0, 0, 2, 0, 0, 0, 1, 1, 0, 0, 0, 0, 0, 0, 0, 0, 1,
    1, 0, 0, 0, 0, 2, 0, 0, 0, 0, 0, 0, 0, 0, 0, 0, 0, 0, 0, 0, 0, 0, 0, 0, 0, 0, 0, 0, 0, 0, 0, 0,
    0, 0xa1, 0, 0, 0, 0, 0, 0, 0, 1, 0, 0, 0, 0, 0, 0, 0, 0, 0, 0, 0, 0, 0, 0, 0, 0, 0, 0, 0, 0xc1,
    0, 0, 0, 0, 0, 1, 0, 0, 0, 1, 0, 0, 1, 0, 0, 0, 0, 0, 0, 0, 0, 1, 0, 0, 0, 0, 0, 0, 0, 0, 0, 0,
    0, 0, 0, 0, 0, 0, 0, 0, 0, 0, 0xb1,
];

/// A clone of ten ids in a chain, of which the last is known by the name 19.
pub(crate) const CLONE: [u8; 96] = [
    1, 2, 0, 0, 0, 0, 0, 0, 0, 0, 0, 0, 0, 0, 0, 0, 0, 10, 0, 0, 0, 1, 1, 0, 0, 0, 0, 0, 0, 0, 0,
    9, 9, 0, 0, 0, 0, 1, 0, 0, 0, 0, 0, 0, 0, 9, 0, 0, 0, 0, 0, 0, 0, 0, 0, 0, 0, 0, 0, 0, 0, 0, 0,
    0, 0, 0x19, 0, 1, 0, 0, 0, 0, 0, 0, 0, 0, 0, 0, 0, 0, 0, 0, 0, 0, 0, 0, 0, 0x19, 0, 0, 0, 0, 0,
    0, 0, 0,
];

/// A flush of the master ids 0 to 2, of which 2 is a second child of 0.
const SIDE: [u8; 145] = [
    1, 1, 0, 0, 0, 0, 0, 0, 0, 0, 0, 0, 0, 0, 0, 0, 0, 3, 0, 0, 0, 2, 1, 0, 0, 0, 0, 0, 0, 0, 0, 1,
    1, 0, 0, 0, 0, 0, 0, 0, 0, 0, 0, 2, 0, 1, 0, 0, 0, 0, 3, 0, 0, 0, 0, 0, 0, 0, 0, 0, 0, 0, 0, 0,
    0, 0, 0, 0, 0, 0, 0, 0, 0, 0, 0, 0, 0, 0, 0xa1, 0, 0, 0, 0, 0, 0, 0, 1, 0, 0, 0, 0, 0, 0, 0, 0,
    0, 0, 0, 0, 0, 0, 0, 0, 0, 0, 0, 0xb1, 0, 0, 0, 0, 0, 0, 0, 2, 0, 0, 0, 0, 0, 0, 0, 0, 0, 0, 0,
    0, 0, 0, 0, 0, 0, 0, 0, 0xc1, 0, 0, 0, 0, 0, 0, 0, 0, 0, 0,
];

/// A clone of the master ids 0 to 3, of which 3 merges 1 and 2; the names of 1 to 3 are known.
pub(crate) const MERGE: [u8; 178] = [
    1, 2, 0, 0, 0, 0, 0, 0, 0, 0, 0, 0, 0, 0, 0, 0, 0, 4, 0, 0, 0, 3, 1, 0, 0, 0, 0, 0, 0, 0, 0, 1,
    1, 0, 1, 0, 0, 0, 0, 0, 0, 0, 0, 2, 0, 0, 0, 0, 0, 0, 0, 0, 0, 0, 0, 3, 0, 2, 1, 2, 0, 0, 0, 3,
    0, 0, 0, 0, 0, 0, 0, 1, 0, 0, 0, 0, 0, 0, 0, 0, 0, 0, 0, 0, 0, 0, 0, 0, 0, 0, 0, 0xb1, 0, 0, 0,
    0, 0, 0, 0, 2, 0, 0, 0, 0, 0, 0, 0, 0, 0, 0, 0, 0, 0, 0, 0, 0, 0, 0, 0, 0xc1, 0, 0, 0, 0, 0, 0,
    0, 3, 0, 0, 0, 0, 0, 0, 0, 0, 0, 0, 0, 0, 0, 0, 0, 0, 0, 0, 0, 0xd1, 0, 1, 0, 0, 0, 0, 0, 0, 0,
    0, 0, 0, 0, 0, 0, 0, 0, 0, 0, 0, 0, 0xd1, 0, 0, 0, 0, 0, 0, 0, 0,
];

/// `CHAIN` with a byte behind it.
const BEHIND: [u8; 89] = [
    1, 1, 0, 0, 0, 0, 0, 0, 0, 0, 0, 0, 0, 0, 0, 0, 0, 0, 0, 0, 0, 0, 0, 0, 0, 0, 0, 0, 0, 0, 0, 2,
    0, 0, 0, 1, 1, 0, 1, 0, 0, 0, 0, 0, 0, 1, 1, 0, 0, 0, 0, 0, 0, 0, 0, 0, 0, 0, 0, 0, 0, 0, 0, 0,
    0, 0, 0, 161, 0, 0, 0, 0, 0, 0, 0, 0, 0, 0, 0, 0, 0, 0, 0, 0, 0, 0, 0, 177, 0,
];

/// `CHAIN` with the number 1 of its record, of the ids below the highest, in two bytes.
const LONGER: [u8; 89] = [
    1, 1, 0, 0, 0, 0, 0, 0, 0, 0, 0, 0, 0, 0, 0, 0, 0, 0, 0, 0, 0, 0, 0, 0, 0, 0, 0, 0, 0, 0, 0, 2,
    0, 0, 0, 1, 1, 0, 1, 0, 0, 0, 0, 0, 0, 1, 129, 0, 0, 0, 0, 0, 0, 0, 0, 0, 0, 0, 0, 0, 0, 0, 0,
    0, 0, 0, 0, 0, 161, 0, 0, 0, 0, 0, 0, 0, 0, 0, 0, 0, 0, 0, 0, 0, 0, 0, 0, 0, 177,
];

/// A payload.
#[derive(Clone, Copy)]
enum Of {
    Chain,
    Fork,
    Clone,
    Side,
    Merge,
    Behind,
    Longer,
}

/// Its bytes.
fn bytes_of(of: Of) -> &'static [u8] {
    match of {
        Of::Chain => &CHAIN,
        Of::Fork => &FORK,
        Of::Clone => &CLONE,
        Of::Side => &SIDE,
        Of::Merge => &MERGE,
        Of::Behind => &BEHIND,
        Of::Longer => &LONGER,
    }
}

/// Whether the payload is one, with another byte at a place.
pub(crate) fn is_read(
    alloc: Global,
    payload: &[u8],
    place: u8,
    value: u8,
) -> Result<bool, AllocError> {
    let mut bytes = Vec::from_slice(alloc, payload)?;
    if let Some(byte) = bytes.get_mut(usize::from(place)) {
        *byte = value;
    }
    Ok(BatchRef::read(&bytes).is_some())
}

/// A payload, another byte at a place of it, and whether it is a payload then.
const CHANGED: [(Of, u8, u8, bool); 26] = [
    // as they are
    (Of::Chain, 0, 1, true),
    (Of::Fork, 0, 1, true),
    (Of::Clone, 0, 1, true),
    (Of::Side, 0, 1, true),
    (Of::Merge, 0, 1, true),
    // the version, the kind, the counts
    (Of::Fork, 0, 0, false),
    (Of::Fork, 0, 2, false),
    (Of::Fork, 0, 3, false),
    (Of::Fork, 1, 3, false),
    (Of::Fork, 1, 2, false),
    (Of::Fork, 9, 3, false),
    (Of::Fork, 17, 3, false),
    (Of::Fork, 17, 1, false),
    // a level, a gap, a parent above the master group
    (Of::Fork, 23, 1, false),
    (Of::Fork, 113, 1, false),
    (Of::Fork, 116, 2, false),
    // known ids that repeat or are not new
    (Of::Fork, 73, 0, false),
    (Of::Fork, 73, 2, false),
    // a clone that isn't the first, is empty, or doesn't know the highest id of its segment
    (Of::Clone, 1, 1, false),
    (Of::Clone, 9, 1, false),
    (Of::Clone, 17, 0, false),
    (Of::Clone, 45, 8, false),
    // a record that goes on from the one before it
    (Of::Side, 46, 1, false),
    // a parent of a merge that the clone doesn't know
    (Of::Merge, 58, 0, false),
    // more bytes
    (Of::Behind, 0, 1, false),
    (Of::Longer, 0, 1, false),
];

/// The place of the first row by which something else becomes of a payload than it is wanted.
fn first_wrong(alloc: Global) -> Result<Option<usize>, AllocError> {
    for (row, changed) in CHANGED.iter().enumerate() {
        let (of, place, value, is_payload) = *changed;
        if is_read(alloc, bytes_of(of), place, value)? != is_payload {
            return Ok(Some(row));
        }
    }
    Ok(None)
}

#[test]
fn each_rule_is_tested(rt: HostRuntime) -> Result<(), Fail> {
    assert_eq!(rt; first_wrong(rt.alloc())?, None);
    Ok(())
}

/// Whether no front of a payload is one.
fn are_fronts_none(payload: &[u8]) -> bool {
    for len in 0..payload.len() {
        let (front, _) = payload.split_at(len);
        if BatchRef::read(front).is_some() {
            return false;
        }
    }
    true
}

#[test]
fn fronts_are_none(rt: HostRuntime) {
    assert!(rt; are_fronts_none(&CHAIN));
}
