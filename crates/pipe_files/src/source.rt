//! The end that is read.

ghost use Rattle.std.specs.Prelude.{◌≡◌, ◌≤◌, length, IfOk};
ghost use Rattle.outside.specs.Counts.{HasCause};

use line_io::{Source, SourceFault};
use std::fs::{File, OpenOptions};
use std::io;
use std::io::{BufReader, ErrorKind, Read};

/// What is at a path, read from there on. It is opened when bytes are first wanted, and each error is a counted fault. What has come is
/// read by one call of the system, up to 8,192 bytes, and kept until it is wanted: a frame's length and its body cost one call.
#[derive(Drop)]
pub struct PipeSource {
    rt: HostRuntime,
    path: String,
    file: Option<BufReader<File>>,
    faults: u64,
}

/// Opens what is at the path for reading.
fn open(rt: &HostRuntime, path: &str) -> io::Result<BufReader<File>> {
    let file = OpenOptions::new().read(true).open(rt, path)?;
    BufReader::new(rt.alloc(), file)
}

/// One read, tried again where a signal interrupted it.
fn read_uninterrupted<F: Read>(file: &mut F, out: &mut [u8]) -> io::Result<usize>
    ensures { IfOk result (λ count. count ≤ length out.old) }
{
    for _try in 0..u64::MAX {
        match file.read(out) {
            Err(error) if error.kind() == ErrorKind::Interrupted => {}
            done => return done,
        }
    }
    Err(ErrorKind::Interrupted.into())
}

impl PipeSource {
    /// What is at this path, not opened yet.
    pub fn new(rt: HostRuntime, path: String) -> PipeSource
        ensures path { result.path ≡ path }
        ensures faults { result.faults ≡ 0 }
    {
        PipeSource {
            rt,
            path,
            file: None,
            faults: 0,
        }
    }

    /// Opens it, where that wasn't done yet.
    fn begin(&mut self) -> io::Result<()>
        ensures { self.new.faults ≡ self.old.faults }
    {
        if self.file.is_none() {
            self.file = Some(open(&self.rt, self.path.as_str())?);
        }
        Ok(())
    }

    fn try_fill(&mut self, out: &mut [u8]) -> io::Result<usize>
        ensures bound { IfOk result (λ count. count ≤ length out.old) }
        ensures faults { self.new.faults ≡ self.old.faults }
    {
        self.begin()?;
        match &mut self.file {
            Some(file) => read_uninterrupted(file, out),
            None => Err(ErrorKind::NotFound.into()),
        }
    }
}

impl Source for PipeSource {
    ghost use Rattle.std.specs.Prelude.{None};

    ghost left = { λ s. None };

    ghost faults = { λ s. s.faults };

    fn fill(&mut self, out: &mut [u8]) -> Result<usize, SourceFault> {
        match self.try_fill(out) {
            Ok(count) => Ok(count),
            Err(_) => {
                self.faults = self.faults.saturating_add(1);
                Err(SourceFault)
            }
        }
    }
}
