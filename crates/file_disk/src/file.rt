//! Files by place: short and interrupted calls are gone on with.

ghost use Rattle.std.specs.Prelude.{◌≤◌, length, IfOk};

use std::alloc::Alloc;
use std::fs::{Files, OpenFile, OpenOptions};
use std::io::{ErrorKind, Read, Seek, SeekFrom, Write};
use std::{fs, io};

/// Opens the regular file at this path for reading alone.
pub fn open_to_read<R: Files>(rt: &R, path: &str) -> io::Result<R::File> {
    refuse_special(rt, path)?;
    fs::open(rt, path)
}

/// Opens the regular file at this path for reading and writing. It is made where there is none.
pub fn open_to_write<R: Files>(rt: &R, path: &str) -> io::Result<R::File> {
    refuse_special(rt, path)?;
    OpenOptions::new()
        .read(true)
        .write(true)
        .create(true)
        .open(rt, path)
}

/// Makes sure of the entry of a file that is new: in the folder in which it lies, wherever a link at the path leads. Where the whole
/// path of that folder is no UTF-8, which no call can be given, it is the folder of the path.
pub fn keep_entry<R: Files + Alloc, F: OpenFile>(rt: &R, file: &F, path: &str) -> io::Result<()> {
    if is_empty(file)? {
        match fs::canonicalize(rt, path) {
            Ok(own) => sync_folder(rt, folder_of(own.as_os_str()))?,
            Err(error) if error.kind() == ErrorKind::InvalidFilename => {
                sync_folder(rt, folder_of(path))?
            }
            Err(error) => return Err(error),
        }
    }
    Ok(())
}

/// Refuses what is there and isn't a regular file: to open a pipe may wait for ever, and a device keeps nothing.
fn refuse_special<R: Files>(rt: &R, path: &str) -> io::Result<()> {
    match fs::metadata(rt, path) {
        Ok(metadata) if metadata.is_file() => Ok(()),
        Ok(_) => Err(ErrorKind::InvalidInput.into()),
        Err(error) if error.kind() == ErrorKind::NotFound => Ok(()),
        Err(error) => Err(error),
    }
}

/// Whether the file has no bytes. One that has some was written by a run that made sure of its entry before.
fn is_empty<F: OpenFile>(file: &F) -> io::Result<bool> {
    Ok(file.metadata()?.len() == 0)
}

/// The folder in which the last name of the path stands.
fn folder_of<'a>(path: &'a str) -> &'a str {
    match path.rsplit_once('/') {
        None => ".",
        Some(("", _)) => "/",
        Some((folder, _)) => folder,
    }
}

/// Makes sure of the entries of a folder, where its file system can and its rights allow it.
fn sync_folder<R: Files>(rt: &R, folder: &str) -> io::Result<()> {
    match try_sync_folder(rt, folder) {
        Err(error) if is_beyond(error.kind()) => Ok(()),
        done => done,
    }
}

fn try_sync_folder<R: Files>(rt: &R, folder: &str) -> io::Result<()> {
    fs::open(rt, folder)?.sync_all()
}

/// Whether the error says that folders can't be synced here at all.
fn is_beyond(kind: ErrorKind) -> bool {
    matches!(
        kind,
        ErrorKind::PermissionDenied | ErrorKind::InvalidInput | ErrorKind::Unsupported
    )
}

/// How many bytes the file has.
pub fn size_of<F: OpenFile>(file: &F) -> io::Result<u64> {
    Ok(file.metadata()?.len())
}

/// Fills the front of `out` with the bytes from a place on, all that there are, and answers how many.
pub fn read_at<F: Read + Seek>(file: &mut F, at: u64, out: &mut [u8]) -> io::Result<usize>
    ensures { IfOk result (λ count. count ≤ length out.old) }
{
    file.seek(SeekFrom::Start(at))?;
    let mut count = 0;
    'reads: while count < out.len() {
        let more = read_uninterrupted(file, &mut out[count..])?;
        if more == 0 {
            break;
        }
        count += more;
    }
    Ok(count)
}

/// One read, tried again where a signal interrupted it.
fn read_uninterrupted<F: Read>(file: &mut F, out: &mut [u8]) -> io::Result<usize>
    ensures { IfOk result (λ count. count ≤ length out.old) }
{
    for _try in 0..u64::MAX {
        match file.read(out) {
            Err(error) if error.kind() == ErrorKind::Interrupted => {}
            done => return done,
        }
    }
    Err(ErrorKind::Interrupted.into())
}

/// Writes the whole piece from a place on.
pub fn write_at<F: Write + Seek>(file: &mut F, at: u64, piece: &[u8]) -> io::Result<()> {
    file.seek(SeekFrom::Start(at))?;
    let mut done = 0;
    'writes: while done < piece.len() {
        let more = write_uninterrupted(file, &piece[done..])?;
        if more == 0 {
            return Err(ErrorKind::WriteZero.into());
        }
        done += more;
    }
    Ok(())
}

/// One write, tried again where a signal interrupted it.
fn write_uninterrupted<F: Write>(file: &mut F, piece: &[u8]) -> io::Result<usize>
    ensures { IfOk result (λ count. count ≤ length piece.now) }
{
    for _try in 0..u64::MAX {
        match file.write(piece) {
            Err(error) if error.kind() == ErrorKind::Interrupted => {}
            done => return done,
        }
    }
    Err(ErrorKind::Interrupted.into())
}
