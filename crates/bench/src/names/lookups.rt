//! What is timed.

ghost use Rattle.std.specs.Prelude.{◌<◌};

use crate::random::{mixed, next_random};
use id_groups::NameRef;
use name_index::{IndexFault, NameIndex};
use std::alloc::{AllocError, Global};

/// How many bytes a name has.
const NAME_BYTES: usize = 20;

/// So many random names, one behind the other.
pub fn random_names(alloc: Global, seed: u64, count: u64) -> Result<Vec<u8>, AllocError> {
    let mut bytes = Vec::new(alloc);
    let mut random = seed;
    for _k in 0..count {
        random = next_random(random);
        bytes.extend_from_slice(&mixed(random).to_le_bytes())?;
        random = next_random(random);
        bytes.extend_from_slice(&mixed(random).to_le_bytes())?;
        random = next_random(random);
        bytes.extend_from_slice(&(random >> 32).to_le_bytes()[..4])?;
    }
    Ok(bytes)
}

/// So many names of twelve zero bytes and a number, one behind the other.
pub fn counter_names(alloc: Global, first: u64, count: u64) -> Result<Vec<u8>, AllocError> {
    let mut bytes = Vec::new(alloc);
    for number in first..first.saturating_add(count) {
        bytes.extend_from_slice(&[0; 12])?;
        bytes.extend_from_slice(&number.to_be_bytes())?;
    }
    Ok(bytes)
}

/// Inserts so many names behind those that are held already.
fn insert_next(
    alloc: Global,
    index: &mut NameIndex,
    held: &[u8],
    added: &[u8],
) -> Result<(), IndexFault> {
    let mut places = Vec::with_capacity(alloc, added.len() / NAME_BYTES)?;
    let mut place = held.len() as u64;
    for _name in added.chunks_exact(NAME_BYTES) {
        places.push(place)?;
        place = place.wrapping_add(20);
    }
    index.insert(held, held.len() as u64, added, places)
}

/// Inserts all names, so many bytes of them at once, and counts the inserts.
pub fn count_added(alloc: Global, index: &mut NameIndex, bytes: &[u8], batch: usize) -> u64
    requires { 0 < batch }
{
    let mut done = 0u64;
    let mut at = 0usize;
    for added in bytes.chunks_exact(batch) {
        let held = bytes.get(..at).unwrap_or(bytes);
        if insert_next(alloc, index, held, added).is_ok() {
            done = done.saturating_add(1);
        }
        at = at.saturating_add(added.len());
    }
    done
}

/// How many of the names are found.
pub fn count_found(index: &NameIndex, bytes: &[u8], names: &[u8]) -> u64 {
    let mut found = 0u64;
    let mut rest = names;
    'names: while let Some((name, others)) = rest.split_first_chunk::<20>() {
        if index.find(bytes, NameRef::over(name)).is_some() {
            found = found.saturating_add(1);
        }
        rest = others;
    }
    found
}
