//! What a bundle on a disk in memory answers, beside a mirror in memory of the same commits.

use crate::bundles::{FORK, NONE, name};
use crate::digits::bytes_of;
use commit_graph::{Row, World};
use disk_memory::MemoryDisk;
use id_groups::Name;
use remote_bundle::BundleRemote;
use remote_memory::MemoryRemote;
use remote_trait::{CloneData, Remote, RemoteFault};
use std::alloc::{AllocError, Global};
use std::test::Fail;

/// The commits of the fork by their last bytes, with their parents.
const ROWS: [(u8, &[u8]); 6] = [
    (1, &[]),
    (2, &[1]),
    (3, &[2]),
    (4, &[2]),
    (5, &[4]),
    (6, &[3, 5]),
];

/// The row of a merge of two commits, and of a commit on the one, if they are the same.
fn merge(own: Name, first: Name, second: Name) -> Row {
    if first.is(&second) {
        Row::new(own, &[first])
    } else {
        Row::new(own, &[first, second])
    }
}

/// A row.
fn row_of(last: u8, parents: &[u8]) -> Row {
    match parents {
        [] => Row::new(name(last), &[]),
        [one] => Row::new(name(last), &[name(*one)]),
        [one, two, ..] => merge(name(last), name(*one), name(*two)),
    }
}

/// The fork's rows.
fn rows(alloc: Global) -> Result<Vec<Row>, AllocError> {
    let mut rows = Vec::new(alloc);
    for (last, parents) in &ROWS {
        rows.push(row_of(*last, parents))?;
    }
    Ok(rows)
}

/// A mirror of the fork.
fn plain(alloc: Global) -> Result<MemoryRemote, AllocError> {
    let rows = rows(alloc)?;
    if rows.len() > 6 {
        return Err(AllocError);
    }
    let world = World::of_master(alloc, rows)?.ok_or(AllocError)?;
    if world.master_count() > 6 {
        return Err(AllocError);
    }
    MemoryRemote::new(alloc, world, &[])
}

/// A disk with these bytes, whose calls with these numbers fail.
fn disk_of(alloc: Global, digits: &str, fails: &[u64]) -> Result<MemoryDisk, AllocError> {
    let bytes = bytes_of(alloc, digits)?;
    MemoryDisk::new(alloc, &bytes, fails, None)
}

/// The remote of a disk with these bytes, whose calls with these numbers fail.
fn remote_of(
    alloc: Global,
    digits: &str,
    fails: &[u64],
    limit: u64,
) -> Result<BundleRemote<MemoryDisk>, AllocError> {
    let disk = disk_of(alloc, digits, fails)?;
    Ok(BundleRemote::new(disk, limit))
}

/// Whether both give the same names from there on, up to five.
fn same_line(
    alloc: Global,
    bundle: &mut BundleRemote<MemoryDisk>,
    memory: &mut MemoryRemote,
    last: u8,
    back: u64,
) -> bool {
    let mut a = [name(0); 5];
    let mut b = [name(0); 5];
    let n = bundle.names_of(alloc, &name(last), back, &mut a);
    let m = memory.names_of(alloc, &name(last), back, &mut b);
    if n != m || n.is_err() {
        return false;
    }
    let count = n.unwrap_or(0) as usize;
    a.get(..count) == b.get(..count)
}

/// The last byte of a name.
fn last_byte(name: &Name) -> u8 {
    match name.lend().bytes {
        [.., last] => *last,
        [] => 0,
    }
}

/// The first pair of a name and a distance at which they give other names.
fn first_unlike(
    alloc: Global,
    bundle: &mut BundleRemote<MemoryDisk>,
    memory: &mut MemoryRemote,
) -> Option<(u8, u64)> {
    for last in 0..8 {
        for back in 0..6 {
            if !same_line(alloc, bundle, memory, last, back) {
                return Some((last, back));
            }
        }
    }
    None
}

/// The last name of the way's start, and how long it is; zeros where there is no way.
fn way<R: Remote>(
    alloc: Global,
    remote: &mut R,
    heads: &[Name],
    last: u8,
) -> Result<(u8, u64), RemoteFault> {
    match remote.path_of(alloc, heads, &name(last))? {
        Some(path) => Ok((last_byte(&path.x), path.n)),
        None => Ok((0, 0)),
    }
}

/// Ways of the fork: heads, a name, and what is answered.
type Way = (&'static [u8], u8, (u8, u64));

const WAYS: [Way; 12] = [
    (&[6], 6, (6, 0)),
    (&[6], 3, (3, 0)),
    (&[6], 2, (3, 1)),
    (&[6], 1, (3, 2)),
    (&[6], 4, (5, 1)),
    (&[5], 1, (5, 3)),
    (&[5], 3, (0, 0)),
    (&[4], 2, (4, 1)),
    (&[2], 1, (2, 1)),
    (&[], 1, (0, 0)),
    (&[9], 1, (0, 0)),
    (&[3, 9, 5], 1, (3, 2)),
];

/// The names with these last bytes.
fn names_of(alloc: Global, lasts: &[u8]) -> Result<Vec<Name>, AllocError> {
    let mut names = Vec::new(alloc);
    for last in lasts {
        names.push(name(*last))?;
    }
    Ok(names)
}

/// The number of the first way that isn't answered so.
fn first_lost<R: Remote>(alloc: Global, remote: &mut R) -> Result<usize, RemoteFault> {
    for i in 0..WAYS.len() {
        let (heads, last, wanted) = &WAYS[i];
        let heads = names_of(alloc, heads)?;
        if way(alloc, remote, &heads, *last)? != *wanted {
            return Ok(i);
        }
    }
    Ok(WAYS.len())
}

/// Whether the clone data are those of the fork.
fn is_clone(told: &CloneData) -> bool {
    told.segments.len() == 3
        && told.segments.at(1).low == 3
        && told.segments.at(1).high == 4
        && told.segments.at(2).parents.numbers() == [2, 4].as_slice()
        && told.names.len() == 3
        && told.names.at(0).id == 2
        && told.names.at(1).id == 4
        && told.names.at(2).id == 5
        && told.heads.len() == 1
        && told.heads.at(0).is(&name(6))
}

/// The same of a bundle and a mirror of the fork.
fn unlike_plain(
    alloc: Global,
    bundle: &mut BundleRemote<MemoryDisk>,
) -> Result<Option<(u8, u64)>, AllocError> {
    let mut plain = plain(alloc)?;
    Ok(first_unlike(alloc, bundle, &mut plain))
}

/// The same of the fork's bundle.
fn unlike(alloc: Global) -> Result<Option<(u8, u64)>, AllocError> {
    let mut bundle = remote_of(alloc, FORK, &[], 175)?;
    unlike_plain(alloc, &mut bundle)
}

#[test]
fn a_bundle_answers_as_its_world(rt: HostRuntime) -> Result<(), AllocError> {
    assert_eq!(rt; unlike(rt.alloc())?, None);
    Ok(())
}

/// The same of the fork's bundle.
fn lost(alloc: Global) -> Result<Result<usize, RemoteFault>, AllocError> {
    let mut bundle = remote_of(alloc, FORK, &[], 175)?;
    Ok(first_lost(alloc, &mut bundle))
}

#[test]
fn a_bundle_leads_to_its_commits(rt: HostRuntime) -> Result<(), AllocError> {
    assert_eq!(rt; lost(rt.alloc())?, Ok(WAYS.len()));
    Ok(())
}

/// Whether the remote gives the fork's clone data.
fn gives_clone<R: Remote>(alloc: Global, remote: &mut R) -> bool {
    match remote.clone_data(alloc) {
        Ok(told) => is_clone(&told),
        Err(_) => false,
    }
}

/// Whether the fork's bundle does.
fn is_cloned(alloc: Global) -> Result<bool, AllocError> {
    let mut bundle = remote_of(alloc, FORK, &[], 175)?;
    Ok(gives_clone(alloc, &mut bundle))
}

#[test]
fn a_bundle_is_cloned(rt: HostRuntime) -> Result<(), AllocError> {
    assert!(rt; is_cloned(rt.alloc())?);
    Ok(())
}

/// How the first four refreshes end: whether each is fine.
fn refreshes<R: Remote>(alloc: Global, remote: &mut R) -> [bool; 4] {
    [
        remote.refresh(alloc).is_ok(),
        remote.refresh(alloc).is_ok(),
        remote.refresh(alloc).is_ok(),
        remote.refresh(alloc).is_ok(),
    ]
}

/// The same of the fork's bundle on a disk whose calls with these numbers fail.
fn refreshed(alloc: Global, fails: &[u64], limit: u64) -> Result<[bool; 4], AllocError> {
    let mut bundle = remote_of(alloc, FORK, fails, limit)?;
    Ok(refreshes(alloc, &mut bundle))
}

#[test]
fn a_file_is_read_until_it_was(rt: HostRuntime) -> Result<(), AllocError> {
    assert_eq!(rt;
        refreshed(rt.alloc(), &[1, 3], 175)?,
        [false, false, true, true]
    );
    Ok(())
}

#[test]
fn a_file_above_the_limit_is_none(rt: HostRuntime) -> Result<(), AllocError> {
    assert_eq!(rt;
        refreshed(rt.alloc(), &[], 174)?,
        [false, false, false, false]
    );
    Ok(())
}

/// Whether the remote fails when it is asked for clone data.
fn is_failing(alloc: Global, remote: &mut BundleRemote<MemoryDisk>) -> bool {
    remote.clone_data(alloc).err() == Some(RemoteFault::Failed)
}

/// Whether a file with these bytes does.
fn fails(alloc: Global, digits: &str) -> Result<bool, AllocError> {
    let mut remote = remote_of(alloc, digits, &[], 1 << 30)?;
    Ok(is_failing(alloc, &mut remote))
}

/// The number of the first file that is answered of, though it is no bundle.
fn first_answered(alloc: Global) -> Result<usize, AllocError> {
    for i in 0..NONE.len() {
        let (_, digits) = &NONE[i];
        if !fails(alloc, digits)? {
            return Ok(i);
        }
    }
    Ok(NONE.len())
}

#[test]
fn files_that_are_no_bundles_fail(rt: HostRuntime) -> Result<(), AllocError> {
    assert_eq!(rt; first_answered(rt.alloc())?, NONE.len());
    Ok(())
}
