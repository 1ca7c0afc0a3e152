//! What is timed: a log of payloads without frames.

use crate::random::{mixed, next_random};
use batch_codec::BatchRef;
use id_groups::{Id, NameRef};
use name_map::{MapFault, NameMap};
use std::alloc::{AllocError, Global};

/// How many names a payload has.
pub const NAMES: u64 = 1_000;

/// How many bytes a payload has.
const PAYLOAD: usize = 28_049;

/// How many bytes of a payload stand before its first known id.
const FRONT: usize = 39;

/// The name of an id: no two that are alike were met.
fn append_name(out: &mut Vec<u8>, id: u64) -> Result<(), AllocError> {
    let first = mixed(next_random(id));
    out.extend_from_slice(&first.to_be_bytes())?;
    out.extend_from_slice(&mixed(first).to_be_bytes())?;
    out.extend_from_slice(&id.to_be_bytes()[4..])
}

/// What stands before the first known id of a flush of the next thousand master ids, which have no parents.
fn append_front(out: &mut Vec<u8>, before: u64, after: u64) -> Result<(), AllocError> {
    out.extend_from_slice(&[1, 1])?;
    out.extend_from_slice(&before.to_be_bytes())?;
    out.extend_from_slice(&after.to_be_bytes())?;
    out.extend_from_slice(&[0, 0, 0, 1, 1, 0])?;
    out.extend_from_slice(&after.wrapping_sub(1).to_be_bytes())?;
    out.extend_from_slice(&[0xe7, 7, 0, 0, 0, 3, 0xe8])
}

/// A flush of the next thousand master ids.
fn append_payload(out: &mut Vec<u8>, before: u64) -> Result<(), AllocError> {
    append_front(out, before, before.wrapping_add(NAMES))?;
    for place in 0..NAMES {
        let id = before.wrapping_add(place);
        out.extend_from_slice(&id.to_be_bytes())?;
        append_name(out, id)?;
    }
    out.extend_from_slice(&[0; 10])
}

/// So many payloads, one behind the other.
pub fn log_bytes(alloc: Global, payloads: u64) -> Result<Vec<u8>, AllocError> {
    let mut log = Vec::new(alloc);
    let mut before = 0u64;
    for _payload in 0..payloads {
        append_payload(&mut log, before)?;
        before = before.wrapping_add(NAMES);
    }
    Ok(log)
}

/// Adds a payload of the log; `None` where it may not come there.
fn add(map: &mut NameMap, log: &[u8], payload: &[u8], at: u64) -> Option<Result<(), MapFault>> {
    let batch = BatchRef::read(payload)?;
    if batch.before() != map.master_count() || at >= 1 << 40 || payload.len() >= 1 << 40 {
        return None;
    }
    Some(map.add_batch(log, &batch, at))
}

/// Adds all payloads of the log, and counts them.
pub fn count_added(map: &mut NameMap, log: &[u8]) -> u64 {
    let mut added = 0u64;
    let mut at = 0u64;
    for payload in log.chunks_exact(PAYLOAD) {
        if let Some(Ok(())) = add(map, log, payload, at) {
            added = added.wrapping_add(1);
        }
        at = at.wrapping_add(PAYLOAD as u64);
    }
    added
}

/// How many of so many random ids have a name that ends with the id.
pub fn count_names(map: &NameMap, log: &[u8], ids: u64) -> u64 {
    let mut named = 0u64;
    for k in 0..ids {
        let id = mixed(next_random(k)) % 1_000_000;
        if let Some(name) = map.name(log, Id::master(id)) {
            if name.bytes.ends_with(&id.to_be_bytes()[4..]) {
                named = named.wrapping_add(1);
            }
        }
    }
    named
}

/// How many of the log's names, which are in no order, are found.
pub fn count_ids(map: &NameMap, log: &[u8], below: u64) -> u64 {
    let mut found = 0u64;
    for payload in log.chunks_exact(PAYLOAD) {
        let entries = payload.get(FRONT..).unwrap_or(payload);
        for entry in entries.chunks_exact(28) {
            if map.id(log, NameRef::over(&entry[8..]), below).is_some() {
                found = found.wrapping_add(1);
            }
        }
    }
    found
}

/// How many counts below random bounds are the bounds.
pub fn count_counted(map: &NameMap, ids: u64) -> u64 {
    let mut counted = 0u64;
    for k in 0..ids {
        let below = mixed(next_random(k)) % 1_000_000;
        if map.known_below(below) == below {
            counted = counted.wrapping_add(1);
        }
    }
    counted
}
