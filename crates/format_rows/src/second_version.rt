//! The bytes of payloads of version 2, both ways, and each of its rules broken alone.

use crate::payloads::{self, is_read};
use batch_codec::BatchRef;
use std::alloc::{AllocError, Global};
use std::test::Fail;

/// A flush of two other ids in a chain, with the names a1 and b1.
const CHAIN: [u8; 100] = [
    2, 1, 0, 0, 0, 0, 0, 0, 0, 0, 0, 0, 0, 0, 0, 0, 0, 0, 0, 0, 0, 0, 0, 0, 0, 0, 0, 0, 0, 0, 0, 0,
    0, 0, 0, 0, 0, 0, 0, 0, 0, 0, 0, 2, 0, 0, 0, 1, 1, 0, 1, 0, 0, 0, 0, 0, 0, 1, 1, 0, 0, 0, 0, 0,
    0, 0, 0, 0, 0, 0, 0, 0, 0, 0, 0, 0, 0, 0, 0, 0xa1, 0, 0, 0, 0, 0, 0, 0, 0, 0, 0, 0, 0, 0, 0, 0,
    0, 0, 0, 0, 0xb1,
];

/// A flush of the master ids 0 and 1, named a1 and c1, and of one other id above 0, named b1.
const FORK: [u8; 149] = [
    2, 1, 0, 0, 0, 0, 0, 0, 0, 0, 0, 0, 0, 0, 0, 0, 0, 2, 0, 0, 0, 0, 0, 0, 0, 0, 0, 0, 0, 1, 1, 0,
    0, 0, 0, 0, 0, 0, 0, 1, 1, 0, 0, 0, 0, 0, 0, 0, 0, 2, 0, 0, 0, 0, 0, 0, 0, 0, 0, 0, 0, 0, 0, 0,
    0, 0, 0, 0, 0, 0, 0, 0, 0, 0, 0, 0, 0, 0xa1, 0, 0, 0, 0, 0, 0, 0, 1, 0, 0, 0, 0, 0, 0, 0, 0, 0,
    0, 0, 0, 0, 0, 0, 0, 0, 0, 0, 0xc1, 0, 0, 0, 0, 0, 1, 0, 0, 0, 1, 0, 0, 1, 0, 0, 0, 0, 0, 0, 0,
    0, 1, 0, 0, 0, 0, 0, 0, 0, 0, 0, 0, 0, 0, 0, 0, 0, 0, 0, 0, 0, 0, 0xb1,
];

/// A clone of ten ids in a chain, of which the last is known by the name 19.
const CLONE: [u8; 108] = [
    2, 2, 0, 0, 0, 0, 0, 0, 0, 0, 0, 0, 0, 0, 0, 0, 0, 10, 0, 0, 0, 0, 0, 0, 0, 10, 0, 0, 0, 1, 1,
    0, 0, 0, 0, 0, 0, 0, 0, 9, 9, 0, 0, 0, 0, 0, 0, 0, 0, 1, 0, 0, 0, 0, 0, 0, 0, 9, 0, 0, 0, 0, 0,
    0, 0, 0, 0, 0, 0, 0, 0, 0, 0, 0, 0, 0, 0, 0x19, 0, 1, 0, 0, 0, 0, 0, 0, 0, 0, 0, 0, 0, 0, 0, 0,
    0, 0, 0, 0, 0, 0x19, 0, 0, 0, 0, 0, 0, 0, 0,
];

/// A flush behind two master ids of another two ids in a chain above 0, with the names b1 and d1.
const MORE: [u8; 101] = [
    2, 1, 0, 0, 0, 0, 0, 0, 0, 2, 0, 0, 0, 0, 0, 0, 0, 2, 0, 0, 0, 0, 0, 0, 0, 0, 0, 0, 0, 0, 0, 0,
    0, 0, 0, 0, 0, 0, 0, 0, 0, 0, 0, 2, 0, 0, 0, 1, 0, 0, 1, 0, 0, 0, 0, 0, 0, 1, 1, 1, 0, 0, 0, 0,
    0, 0, 0, 0, 0, 0, 0, 0, 0, 0, 0, 0, 0, 0, 0, 0, 0xb1, 0, 0, 0, 0, 0, 0, 0, 0, 0, 0, 0, 0, 0, 0,
    0, 0, 0, 0, 0, 0xd1,
];

/// A whole store of the master ids 0 to 5, of which 3 is a second child of 1, and 0 to 4 were cloned. It has three segments of
/// levels; known are 2 and 4, the highest cloned ids of the two flat segments, and 5.
const STORE: [u8; 234] = [
    2, 3, 0, 0, 0, 0, 0, 0, 0, 0, 0, 0, 0, 0, 0, 0, 0, 6, 0, 0, 0, 0, 0, 0, 0, 5, 0, 0, 0, 2, 1, 0,
    0, 0, 0, 0, 0, 0, 0, 2, 2, 0, 0, 0, 0, 0, 0, 0, 0, 0, 0, 5, 2, 1, 1, 0, 0, 0, 3, 1, 1, 0, 0, 0,
    0, 0, 0, 0, 2, 2, 0, 0, 1, 0, 0, 0, 0, 0, 0, 0, 5, 2, 1, 1, 1, 2, 0, 0, 0, 0, 0, 0, 0, 5, 5, 0,
    0, 0, 0, 3, 0, 0, 0, 0, 0, 0, 0, 2, 0, 0, 0, 0, 0, 0, 0, 0, 0, 0, 0, 0, 0, 0, 0, 0, 0, 0, 0,
    0xc1, 0, 0, 0, 0, 0, 0, 0, 4, 0, 0, 0, 0, 0, 0, 0, 0, 0, 0, 0, 0, 0, 0, 0, 0, 0, 0, 0, 0xe1, 0,
    0, 0, 0, 0, 0, 0, 5, 0, 0, 0, 0, 0, 0, 0, 0, 0, 0, 0, 0, 0, 0, 0, 0, 0, 0, 0, 0xf1, 0, 2, 0, 0,
    0, 0, 0, 0, 0, 0, 0, 0, 0, 0, 0, 0, 0, 0, 0, 0, 0, 0xc1, 0, 0, 0, 0, 0, 0, 0, 0, 0, 0, 0, 0, 0,
    0, 0, 0, 0, 0, 0, 0xe1, 0, 0, 0, 0, 0, 0, 0, 0,
];

/// A whole store of the master ids 0 and 1, named a1 and c1, of which 0 was cloned, with a segment of level 1 of both.
const RUNG: [u8; 148] = [
    2, 3, 0, 0, 0, 0, 0, 0, 0, 0, 0, 0, 0, 0, 0, 0, 0, 2, 0, 0, 0, 0, 0, 0, 0, 1, 0, 0, 0, 1, 1, 0,
    0, 0, 0, 0, 0, 0, 0, 1, 1, 0, 0, 0, 0, 1, 1, 1, 0, 0, 0, 0, 0, 0, 0, 1, 1, 0, 0, 0, 0, 2, 0, 0,
    0, 0, 0, 0, 0, 0, 0, 0, 0, 0, 0, 0, 0, 0, 0, 0, 0, 0, 0, 0, 0, 0, 0, 0, 0, 0xa1, 0, 0, 0, 0, 0,
    0, 0, 1, 0, 0, 0, 0, 0, 0, 0, 0, 0, 0, 0, 0, 0, 0, 0, 0, 0, 0, 0, 0xc1, 0, 1, 0, 0, 0, 0, 0, 0,
    0, 0, 0, 0, 0, 0, 0, 0, 0, 0, 0, 0, 0, 0xa1, 0, 0, 0, 0, 0, 0, 0, 0,
];

/// A payload.
#[derive(Clone, Copy)]
enum Of {
    Chain,
    Fork,
    Clone,
    More,
    Store,
    Rung,
}

/// Its bytes.
fn bytes_of(of: Of) -> &'static [u8] {
    match of {
        Of::Chain => &CHAIN,
        Of::Fork => &FORK,
        Of::Clone => &CLONE,
        Of::More => &MORE,
        Of::Store => &STORE,
        Of::Rung => &RUNG,
    }
}

/// A payload, another byte at a place of it, and whether it is a payload then.
const CHANGED: [(Of, u8, u8, bool); 38] = [
    // as they are
    (Of::Chain, 0, 2, true),
    (Of::Fork, 0, 2, true),
    (Of::Clone, 0, 2, true),
    (Of::More, 0, 2, true),
    (Of::Store, 0, 2, true),
    (Of::Rung, 0, 2, true),
    // the version: of version 1 these bytes are none
    (Of::Fork, 0, 1, false),
    (Of::Fork, 0, 3, false),
    (Of::Clone, 0, 1, false),
    (Of::Store, 0, 1, false),
    // the kind: what cloned nothing and knows all, and what cloned all, is a whole store too, if it is the first
    (Of::Chain, 1, 3, true),
    (Of::Fork, 1, 3, true),
    (Of::Clone, 1, 3, true),
    (Of::More, 1, 3, false),
    (Of::Store, 1, 1, false),
    (Of::Store, 1, 2, false),
    (Of::Store, 1, 4, false),
    // the cloned count of a flush, of a clone and of a whole store; one that isn't known or lies above the master count
    (Of::Fork, 25, 1, false),
    (Of::Clone, 25, 9, false),
    (Of::Clone, 25, 0, false),
    (Of::Store, 25, 3, false),
    (Of::Store, 25, 4, false),
    (Of::Store, 25, 6, true),
    (Of::Store, 25, 7, false),
    // a whole store that isn't the first
    (Of::Store, 9, 1, false),
    // levels out of order, level 0, a level too many, and the highest one
    (Of::Store, 60, 2, false),
    (Of::Store, 72, 2, false),
    (Of::Store, 85, 1, false),
    (Of::Store, 60, 0, false),
    (Of::Store, 85, 8, false),
    (Of::Store, 85, 7, true),
    // a segment of a level above the master group, another parent of one, and one that isn't below it
    (Of::Store, 93, 6, false),
    (Of::Store, 83, 2, true),
    (Of::Store, 83, 3, false),
    // one record of the levels fewer
    (Of::Store, 58, 2, false),
    // the highest cloned ids of the segments, and one behind the cloned ids, aren't known
    (Of::Store, 107, 1, false),
    (Of::Store, 135, 3, false),
    (Of::Rung, 25, 0, true),
];

/// The place of the first row by which something else becomes of a payload than it is wanted.
fn first_wrong(alloc: Global) -> Result<Option<usize>, AllocError> {
    for (row, changed) in CHANGED.iter().enumerate() {
        let (of, place, value, is_payload) = *changed;
        if is_read(alloc, bytes_of(of), place, value)? != is_payload {
            return Ok(Some(row));
        }
    }
    Ok(None)
}

#[test]
fn each_rule_is_tested(rt: HostRuntime) -> Result<(), Fail> {
    assert_eq!(rt; first_wrong(rt.alloc())?, None);
    Ok(())
}

/// A version, a kind, and the counts before, after and cloned.
type Counts = (u8, u8, u64, u64, u64);

/// What a payload says of itself.
fn counts_of(bytes: &[u8]) -> Option<Counts> {
    let batch = BatchRef::read(bytes)?;
    Some((
        batch.version(),
        batch.kind(),
        batch.before(),
        batch.after(),
        batch.cloned(),
    ))
}

/// Where the sections begin: master records, levels, known ids, heads, records of others, and their names.
fn starts_in(batch: &BatchRef<'_>) -> [u64; 6] {
    [
        batch.master_segments().start(),
        batch.level_segments().start(),
        batch.known().start(),
        batch.heads().start(),
        batch.other_segments().start(),
        batch.other_names().start(),
    ]
}

/// Where they begin in a payload that is read.
fn starts_of(bytes: &[u8]) -> Option<[u64; 6]> {
    let batch = BatchRef::read(bytes)?;
    Some(starts_in(&batch))
}

/// Where they begin once it is known to be one.
fn known_starts_of(bytes: &[u8]) -> Option<[u64; 6]> {
    BatchRef::read(bytes)?;
    let batch = BatchRef::over(bytes);
    Some(starts_in(&batch))
}

/// Payloads of both versions, and what they say of themselves.
const COUNTS: [(&[u8], Counts); 6] = [
    (&payloads::CHAIN, (1, 1, 0, 0, 0)),
    (&CHAIN, (2, 1, 0, 0, 0)),
    (&payloads::CLONE, (1, 2, 0, 10, 10)),
    (&CLONE, (2, 2, 0, 10, 10)),
    (&MORE, (2, 1, 2, 2, 0)),
    (&STORE, (2, 3, 0, 6, 5)),
];

/// Whether they do.
fn are_counts() -> bool {
    for (bytes, counts) in &COUNTS {
        if counts_of(bytes) != Some(*counts) {
            return false;
        }
    }
    true
}

/// Payloads, and where their sections begin.
const STARTS: [(&[u8], [u64; 6]); 3] = [
    (&payloads::FORK, [22, 34, 38, 96, 104, 117]),
    (&FORK, [30, 46, 50, 108, 116, 129]),
    (&STORE, [30, 59, 100, 186, 234, 234]),
];

/// Whether they do, where they are read and where they are known.
fn are_starts() -> bool {
    for (bytes, starts) in &STARTS {
        if starts_of(bytes) != Some(*starts) || known_starts_of(bytes) != Some(*starts) {
            return false;
        }
    }
    true
}

#[test]
fn payloads_say_what_they_are(rt: HostRuntime) {
    assert!(rt; are_counts());
    assert!(rt; are_starts());
}
