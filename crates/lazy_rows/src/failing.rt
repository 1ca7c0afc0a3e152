//! A log as a mirror over a disk that fails: the call fails, and the next one reads again.

use disk_memory::MemoryDisk;
use id_groups::Name;
use remote_store::{Limits, StoreRemote};
use remote_trait::{Remote, RemoteFault};
use std::alloc::{AllocError, Global};

/// How a mirror is asked.
#[derive(Clone, Copy)]
enum Way {
    Refresh,
    Clone,
    Names,
    Path,
}

const WAYS: [Way; 4] = [Way::Refresh, Way::Clone, Way::Names, Way::Path];

/// The log of one commit in master, whose name is 19 zero bytes and a1.
const LOG: [u8; 98] = [
    1, 0, 0, 0, 0, 0, 0, 0, 88, 2, 1, 0, 0, 0, 0, 0, 0, 0, 0, 0, 0, 0, 0, 0, 0, 0, 1, 0, 0, 0, 0,
    0, 0, 0, 0, 0, 0, 0, 1, 1, 0, 0, 0, 0, 0, 0, 0, 0, 0, 0, 0, 0, 0, 0, 0, 0, 0, 0, 1, 0, 0, 0, 0,
    0, 0, 0, 0, 0, 0, 0, 0, 0, 0, 0, 0, 0, 0, 0, 0, 0, 0, 0, 0, 0, 0, 0, 161, 0, 0, 0, 0, 0, 0, 0,
    0, 0, 0, 0,
];

/// The commit's name.
fn name() -> Name {
    let mut bytes = [0; 20];
    bytes[19] = 0xa1;
    Name::from_bytes(bytes)
}

/// The fault that a call answers; nothing where it answers.
fn fault<R: Remote>(alloc: Global, remote: &mut R, way: Way) -> Option<RemoteFault> {
    match way {
        Way::Refresh => remote.refresh(alloc).err(),
        Way::Clone => remote.clone_data(alloc).err(),
        Way::Names => {
            let mut out = [name(); 1];
            remote.names_of(alloc, &name(), 0, &mut out).err()
        }
        Way::Path => remote.path_of(alloc, &[name()], &name()).err(),
    }
}

/// The mirror of the log, whose disk fails at these calls.
fn remote_of(alloc: Global, fails: &[u64]) -> Result<StoreRemote<MemoryDisk>, AllocError> {
    let disk = MemoryDisk::new(alloc, &LOG, fails, None)?;
    Ok(StoreRemote::new(disk, Limits::standard()))
}

/// How a mirror is asked behind the call that fails, and whether that fails: none calls the disk again but a refresh, which does.
const LATER: [(Way, bool); 4] = [
    (Way::Names, false),
    (Way::Path, false),
    (Way::Clone, false),
    (Way::Refresh, true),
];

/// Whether a call in this way fails, and the later ones go as they should.
fn reads_again<R: Remote>(alloc: Global, remote: &mut R, way: Way) -> bool {
    if fault(alloc, remote, way) != Some(RemoteFault::Failed) {
        return false;
    }
    for (later, fails) in &LATER {
        if fault(alloc, remote, *later).is_some() != *fails {
            return false;
        }
    }
    true
}

/// Whether it is so where the disk fails at this call, and at the third one behind it.
fn fails_once(alloc: Global, call: u64, way: Way) -> Result<bool, AllocError> {
    let mut remote = remote_of(alloc, &[call, call.saturating_add(3)])?;
    Ok(reads_again(alloc, &mut remote, way))
}

/// Whether each way of asking fails once where this call fails.
fn all_fail_once(alloc: Global, call: u64) -> Result<bool, AllocError> {
    for way in &WAYS {
        if !fails_once(alloc, call, *way)? {
            return Ok(false);
        }
    }
    Ok(true)
}

#[test]
fn a_disk_that_fails_is_read_again(rt: HostRuntime) -> Result<(), AllocError> {
    // The first call is for the size, the second reads.
    assert!(rt; all_fail_once(rt.alloc(), 1)?);
    assert!(rt; all_fail_once(rt.alloc(), 2)?);
    Ok(())
}
