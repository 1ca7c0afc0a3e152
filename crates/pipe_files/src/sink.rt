//! The end that is written.

ghost use Rattle.std.specs.Prelude.{◌≡◌, ◌≤◌, length, IfOk, OnOk};
ghost use Rattle.outside.specs.Counts.{HasCause};

use line_io::{Sink, SinkFault};
use std::fs::{File, OpenOptions};
use std::io::{ErrorKind, Write};
use std::{fs, io};

/// What is at a path, written from there on. It is opened when something is first put, and each error is a counted fault.
#[derive(Drop)]
pub struct PipeSink {
    rt: HostRuntime,
    path: String,
    file: Option<File>,
    faults: u64,
}

/// Opens what is at the path for writing. A regular file is refused: what it has would be written over.
fn open(rt: &HostRuntime, path: &str) -> io::Result<File> {
    if fs::metadata(rt, path)?.is_file() {
        return Err(ErrorKind::InvalidInput.into());
    }
    OpenOptions::new().write(true).open(rt, path)
}

/// One write, tried again where a signal interrupted it.
fn write_uninterrupted<F: Write>(file: &mut F, piece: &[u8]) -> io::Result<usize>
    ensures { IfOk result (λ count. count ≤ length piece.now) }
{
    for _try in 0..u64::MAX {
        match file.write(piece) {
            Err(error) if error.kind() == ErrorKind::Interrupted => {}
            done => return done,
        }
    }
    Err(ErrorKind::Interrupted.into())
}

/// Writes the whole piece.
fn write_all<F: Write>(file: &mut F, piece: &[u8]) -> io::Result<()> {
    let mut done = 0;
    'writes: while done < piece.len() {
        let more = write_uninterrupted(file, &piece[done..])?;
        if more == 0 {
            return Err(ErrorKind::WriteZero.into());
        }
        done += more;
    }
    Ok(())
}

impl PipeSink {
    /// What is at this path, not opened yet.
    pub fn new(rt: HostRuntime, path: String) -> PipeSink
        ensures path { result.path ≡ path }
        ensures faults { result.faults ≡ 0 }
    {
        PipeSink {
            rt,
            path,
            file: None,
            faults: 0,
        }
    }

    /// Opens it, where that wasn't done yet.
    fn begin(&mut self) -> io::Result<()>
        ensures { self.new.faults ≡ self.old.faults }
    {
        if self.file.is_none() {
            self.file = Some(open(&self.rt, self.path.as_str())?);
        }
        Ok(())
    }

    fn try_put(&mut self, piece: &[u8]) -> io::Result<()>
        ensures { self.new.faults ≡ self.old.faults }
    {
        self.begin()?;
        match &mut self.file {
            Some(file) => write_all(file, piece),
            None => Err(ErrorKind::NotFound.into()),
        }
    }
}

impl Sink for PipeSink {
    ghost use Rattle.std.specs.Prelude.{None};

    ghost taken = { λ s. None };

    ghost faults = { λ s. s.faults };

    fn put(&mut self, piece: &[u8]) -> Result<(), SinkFault> {
        match self.try_put(piece) {
            Ok(()) => Ok(()),
            Err(_) => {
                self.faults = self.faults.saturating_add(1);
                Err(SinkFault)
            }
        }
    }
}
