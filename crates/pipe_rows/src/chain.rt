//! A mirror in memory of a chain of ten commits.

use commit_graph::{Row, World};
use id_groups::Name;
use remote_memory::MemoryRemote;
use std::alloc::{AllocError, Global};

/// The name of 19 zero bytes and this one.
pub fn name(last: u8) -> Name {
    let mut bytes = [0; 20];
    bytes[19] = last;
    Name::from_bytes(bytes)
}

/// The last bytes of the chain's names, in the order of their ids.
const LASTS: [u8; 10] = [0x10, 0x11, 0x12, 0x13, 0x14, 0x15, 0x16, 0x17, 0x18, 0x19];

/// The rows of the chain.
fn chain_rows(alloc: Global) -> Result<Vec<Row>, AllocError> {
    let mut rows = Vec::new(alloc);
    let mut before: Option<Name> = None;
    for last in &LASTS {
        let own = name(*last);
        rows.push(match before {
            None => Row::new(own, &[]),
            Some(parent) => Row::new(own, &[parent]),
        })?;
        before = Some(own);
    }
    Ok(rows)
}

/// The world with these rows, of which there are few; `AllocError` also where there is none.
fn world_of(alloc: Global, rows: Vec<Row>) -> Result<World, AllocError> {
    if rows.len() > 16 {
        return Err(AllocError);
    }
    World::of_master(alloc, rows)?.ok_or(AllocError)
}

/// A mirror of the chain, which fails at these calls.
pub fn chain_mirror(alloc: Global, fails: &[u64]) -> Result<MemoryRemote, AllocError> {
    let rows = chain_rows(alloc)?;
    let world = world_of(alloc, rows)?;
    if world.master_count() > 16 {
        return Err(AllocError);
    }
    MemoryRemote::new(alloc, world, fails)
}
