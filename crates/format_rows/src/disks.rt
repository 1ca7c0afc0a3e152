//! A disk in memory: what a crash leaves, and which calls fail.

use disk_memory::{Choice, Fill, MemoryDisk};
use disk_trait::{Disk, DiskFault};
use std::alloc::{AllocError, Global};

/// The bytes after a crash that is chosen so, or none before the disk has reached the moment.
fn crashed(
    disk: &MemoryDisk,
    moment: u64,
    fill: Fill,
    size: u64,
) -> Result<Option<MemoryDisk>, AllocError> {
    if disk.clock() < moment {
        return Ok(None);
    }
    let choice = Choice { moment, fill, size };
    Ok(Some(disk.crash(&choice)?))
}

/// Moments, what is left of the bytes that aren't sure, how many bytes there are, and the image.
const IMAGES: [(u64, Fill, u64, &[u8]); 9] = [
    (0, Fill::New, 9, &[1, 2, 3]),
    (1, Fill::New, 9, &[1, 9, 9, 9]),
    (2, Fill::Byte(7), 4, &[1, 7, 7, 7]),
    (2, Fill::Old, 4, &[1, 2, 3, 0]),
    (2, Fill::Old, 0, &[1, 2, 3]),
    (3, Fill::Byte(7), 3, &[1, 7, 7]),
    (3, Fill::Old, 0, &[1, 2, 3]),
    (4, Fill::Old, 0, &[1, 9, 9, 9]),
    (8, Fill::Byte(7), 1, &[1, 9, 9, 9]),
];

/// Whether a crash that is chosen so leaves the image.
fn leaves(
    disk: &MemoryDisk,
    moment: u64,
    fill: Fill,
    size: u64,
    image: &[u8],
) -> Result<bool, AllocError> {
    match crashed(disk, moment, fill, size)? {
        Some(later) => Ok(later.bytes() == image),
        None => Ok(false),
    }
}

/// The place of the first image that a crash doesn't leave.
fn wrong_image(disk: &MemoryDisk) -> Result<Option<usize>, AllocError> {
    for (place, (moment, fill, size, image)) in IMAGES.iter().enumerate() {
        if !leaves(disk, *moment, *fill, *size, image)? {
            return Ok(Some(place));
        }
    }
    Ok(None)
}

/// What is answered to a write, a sync, a question for the size and a read, with what was read, and the clock behind them.
type Used = (
    Result<(), DiskFault>,
    Result<(), DiskFault>,
    Result<u64, DiskFault>,
    Result<usize, DiskFault>,
    [u8; 2],
    u64,
);

/// The same over a disk of three bytes, and the first wrong image of it.
fn use_and_crash(alloc: Global) -> Result<(Used, Option<usize>), AllocError> {
    let mut disk = MemoryDisk::new(alloc, &[1, 2, 3], &[], None)?;
    let written = disk.write(1, &[9, 9, 9]);
    let synced = disk.sync();
    let size = disk.size();
    let mut front = [0, 0];
    let read = disk.read(3, &mut front);
    let used = (written, synced, size, read, front, disk.clock());
    Ok((used, wrong_image(&disk)?))
}

#[test]
fn a_crash_leaves_the_chosen_image(rt: HostRuntime) -> Result<(), AllocError> {
    let seen = use_and_crash(rt.alloc())?;
    assert_eq!(rt; seen, ((Ok(()), Ok(()), Ok(4), Ok(1), [9, 0], 8), None));
    Ok(())
}

/// Whether a write of one byte in front fails, and whether it leaves that byte alone.
fn put_alone(disk: &mut MemoryDisk, byte: u8) -> (bool, bool) {
    let written = disk.write(0, &[byte]);
    (written.is_err(), disk.bytes() == [byte].as_slice())
}

/// Which of two syncs and two questions for the size fail, what two writes come to, and the clock.
fn failing(alloc: Global) -> Result<([bool; 4], [(bool, bool); 2], u64), AllocError> {
    let mut disk = MemoryDisk::new(alloc, &[1], &[2], Some(3))?;
    let first = disk.sync().is_err();
    let five = put_alone(&mut disk, 5);
    let size = disk.size() != Ok(1);
    let none = disk.size().is_err();
    let six = put_alone(&mut disk, 6);
    let last = disk.sync().is_err();
    Ok(([first, size, none, last], [five, six], disk.clock()))
}

#[test]
fn calls_fail_by_their_numbers(rt: HostRuntime) -> Result<(), AllocError> {
    let seen = failing(rt.alloc())?;
    let failed = [false, false, true, true];
    assert_eq!(rt; seen, (failed, [(true, true); 2], 12));
    Ok(())
}
