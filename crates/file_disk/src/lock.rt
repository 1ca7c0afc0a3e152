//! The file at a path, with its lock where it is to be kept.

use crate::access::Access;
use crate::file;
use std::alloc::Alloc;
use std::fs::{File, Files};
use std::io::ErrorKind;
use std::os::unix::fs::MetadataExt;
use std::{fs, io};

/// How many times the file at a path may be another one once its lock is had.
const TRIES: u32 = 100;

/// The file at this path, opened as the access says. The error is `WouldBlock` where another one has its lock. Once this
/// returns, the folder has the entry of a file that may be written for sure.
pub fn open<R: Files<File = File> + Alloc>(rt: &R, path: &str, access: Access) -> io::Result<File> {
    let file = match access {
        Access::Read => return file::open_to_read(rt, path),
        Access::Write => file::open_to_write(rt, path)?,
        Access::Fill => open_filled(rt, path)?,
        Access::Own => open_locked(rt, path, false)?,
        Access::Await => open_locked(rt, path, true)?,
    };
    file::keep_entry(rt, &file, path)?;
    Ok(file)
}

/// The file at this path, and with its lock where it has at most a byte.
fn open_filled<R: Files<File = File>>(rt: &R, path: &str) -> io::Result<File> {
    let file = file::open_to_write(rt, path)?;
    if file::size_of(&file)? > 1 {
        return Ok(file);
    }
    open_locked(rt, path, false)
}

/// The file at this path with its lock. Where another file was moved to the path meanwhile, that one is opened in its place:
/// who has the lock has the file that others find there.
fn open_locked<R: Files<File = File>>(rt: &R, path: &str, waits: bool) -> io::Result<File> {
    for _try in 0..TRIES {
        let file = file::open_to_write(rt, path)?;
        take_lock(&file, waits)?;
        if is_at(rt, &file, path)? {
            return Ok(file);
        }
    }
    Err(ErrorKind::WouldBlock.into())
}

/// Takes the file's lock. Where another one has it, this waits or is refused.
fn take_lock(file: &File, waits: bool) -> io::Result<()> {
    if waits {
        return file.lock();
    }
    file.try_lock()?;
    Ok(())
}

/// Refuses a file that isn't the one that stands at the path.
pub fn check_place<R: Files>(rt: &R, file: &File, path: &str) -> io::Result<()> {
    if is_at(rt, file, path)? {
        return Ok(());
    }
    Err(ErrorKind::NotFound.into())
}

/// Whether the file is the one that stands at the path.
fn is_at<R: Files>(rt: &R, file: &File, path: &str) -> io::Result<bool> {
    match fs::metadata(rt, path) {
        Ok(there) => {
            let own = file.metadata()?;
            Ok(own.ino() == there.ino() && own.dev() == there.dev())
        }
        Err(error) if error.kind() == ErrorKind::NotFound => Ok(false),
        Err(error) => Err(error),
    }
}
