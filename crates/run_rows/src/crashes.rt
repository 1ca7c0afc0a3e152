//! What each crash of a disk leaves, moment by moment: `b` where each leaves the world from before a change, `a` where each leaves the one
//! after it, `e` where some leave either, and `x` where one leaves another world or none.

use crate::setting::Setting;
use dag_run::{Limits, run_lines};
use disk_memory::{Choice, Fill, MemoryDisk};
use disk_trait::Disk;
use line_io::{MemorySink, MemorySource};
use mirror_set::Mirrors;
use remote_trait::FixedRemote;
use std::alloc::{AllocError, Global};

/// What asks for a whole world.
const ALL: &[u8] = b"0 query all\n0 status\n";

/// What it is answered over a disk, beside no mirrors.
fn world_of(alloc: Global, disk: &mut MemoryDisk) -> Result<MemorySink, AllocError> {
    let mut input = MemorySource::new(alloc, ALL, 65_536, &[])?;
    let mut told = MemorySink::new(alloc, &[])?;
    let mut none: Mirrors<FixedRemote> = Mirrors::new(Vec::new(alloc));
    let limits = Limits::standard();
    let _report = run_lines(alloc, limits, 1, disk, &mut none, &mut input, &mut told);
    Ok(told)
}

/// What is answered over these bytes.
fn world_in(alloc: Global, log: &[u8]) -> Result<MemorySink, AllocError> {
    let mut disk = MemoryDisk::new(alloc, log, &[], None)?;
    world_of(alloc, &mut disk)
}

/// What the worlds before and after a change answer.
#[derive(Drop)]
pub struct Worlds {
    before: MemorySink,
    after: MemorySink,
}

impl Worlds {
    /// Those of the logs before and after it.
    pub fn of(alloc: Global, before: &[u8], after: &[u8]) -> Result<Worlds, AllocError> {
        let before = world_in(alloc, before)?;
        Ok(Worlds {
            before,
            after: world_in(alloc, after)?,
        })
    }
}

/// Which worlds are left.
#[derive(Clone, Copy)]
struct Left {
    before: bool,
    after: bool,
    other: bool,
}

impl Left {
    /// None yet.
    const NONE: Left = Left {
        before: false,
        after: false,
        other: false,
    };

    /// These and those.
    fn and(self, more: Left) -> Left {
        Left {
            before: self.before || more.before,
            after: self.after || more.after,
            other: self.other || more.other,
        }
    }

    /// Their letter.
    fn letter(self) -> u8 {
        if self.other {
            b'x'
        } else if self.before && self.after {
            b'e'
        } else if self.before {
            b'b'
        } else {
            b'a'
        }
    }
}

/// Which of the worlds answers so.
fn which(worlds: &Worlds, told: &[u8]) -> Left {
    let before = told == worlds.before.bytes();
    let after = told == worlds.after.bytes();
    Left {
        before,
        after,
        other: !before && !after,
    }
}

/// The world that a crash leaves.
fn left_by(
    alloc: Global,
    worlds: &Worlds,
    disk: &MemoryDisk,
    choice: &Choice,
) -> Result<Left, AllocError> {
    if disk.clock() < choice.moment {
        return Ok(Left::NONE);
    }
    let mut later = disk.crash(choice)?;
    let told = world_of(alloc, &mut later)?;
    Ok(which(worlds, told.bytes()))
}

/// What a crash may leave of the bytes that aren't sure.
const FILLS: [Fill; 5] = [
    Fill::Old,
    Fill::New,
    Fill::Byte(0),
    Fill::Byte(127),
    Fill::Byte(1),
];

/// The worlds that crashes at the moment leave, with so many bytes.
fn left_with(
    alloc: Global,
    worlds: &Worlds,
    disk: &MemoryDisk,
    moment: u64,
    size: u64,
) -> Result<Left, AllocError> {
    let mut left = Left::NONE;
    for fill in &FILLS {
        let fill = *fill;
        left = left.and(left_by(alloc, worlds, disk, &Choice { moment, fill, size })?);
    }
    Ok(left)
}

/// The worlds that crashes at the moment leave.
fn left_at(
    alloc: Global,
    worlds: &Worlds,
    disk: &MemoryDisk,
    moment: u64,
    sizes: &[u64],
) -> Result<Left, AllocError> {
    let mut left = Left::NONE;
    for size in sizes {
        left = left.and(left_with(alloc, worlds, disk, moment, *size)?);
    }
    Ok(left)
}

/// Their letters from this moment on to that of the disk's clock.
pub fn letters(
    alloc: Global,
    worlds: &Worlds,
    disk: &MemoryDisk,
    first: u64,
    sizes: &[u64],
) -> Result<Vec<u8>, AllocError> {
    let mut letters = Vec::new(alloc);
    for moment in first..disk.clock().saturating_add(1) {
        letters.push(left_at(alloc, worlds, disk, moment, sizes)?.letter())?;
    }
    Ok(letters)
}

/// How many bytes crashes are to leave: those before the change, some more, all but the last, and all.
pub fn sizes_of(before: usize, setting: &Setting) -> [u64; 5] {
    let before = before as u64;
    let all = setting.crashes;
    [
        before,
        before.saturating_add(1),
        before.saturating_add(50),
        all.saturating_sub(1),
        all,
    ]
}
