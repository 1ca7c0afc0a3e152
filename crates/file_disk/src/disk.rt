//! The disk over a file.

ghost use Rattle.std.specs.Prelude.{◌≡◌, ◌≤◌, ◌+◌, ◌*◌, ◌^◌, ◌%◌, min, length, is_some, None, IfOk};
ghost use Rattle.outside.specs.Counts.{HasCause};
ghost use Rattle.disk_trait.specs.Images.{last_moment};

use crate::access::Access;
use crate::{file, lock};
use disk_trait::{Disk, DiskFault};
use std::alloc::Alloc;
use std::fs::{File, Files, OpenFile};
use std::io;
use std::io::ErrorKind;

/// How many calls may be made: as many as fit the clock, on which each counts twice.
const CALL_LIMIT: u64 = 1 << 61;

/// A file as a disk. It is opened at the first call; each error is a counted fault. A write is refused where another file, or none, stands
/// at the path by now: what it wrote would be lost with a file that nobody finds.
#[derive(Drop)]
pub struct FileDisk<R: Files<File = File> + Alloc + Drop> {
    rt: R,
    path: String,
    access: Access,
    file: Option<File>,
    lacks_lock: bool,
    calls: u64,
    faults: u64,
    ghost few: { calls ≤ 2 ^ 61 },
}

impl<R: Files<File = File> + Alloc + Drop> FileDisk<R> {
    /// The file at this path, not opened yet. One that may be written is made where there is none, and its folder's entry
    /// made sure of.
    pub fn new(rt: R, path: String, access: Access) -> FileDisk<R>
        ensures path { result.path ≡ path }
        ensures access { result.access ≡ access }
        ensures faults { result.faults ≡ 0 }
    {
        FileDisk {
            rt,
            path,
            access,
            file: None,
            lacks_lock: false,
            calls: 0,
            faults: 0,
        }
    }

    /// Whether the file was opened.
    pub fn opened(&self) -> bool
        ensures { result ≡ is_some self.now.file }
    {
        self.file.is_some()
    }

    /// Whether another disk has the lock of a file that this one is to keep for itself. The file is opened for that, or
    /// waited for, where it wasn't yet; no other file is, and a file that can't be opened is told by the first call.
    pub fn is_anothers(&mut self) -> bool
        ensures asked { result ≡ self.new.lacks_lock }
        ensures calls { self.new.calls ≡ self.old.calls }
        ensures faults { self.new.faults ≡ self.old.faults }
    {
        if self.file.is_none()
            && matches!(self.access, Access::Fill | Access::Own | Access::Await)
        {
            self.open().ok();
        }
        self.lacks_lock
    }

    /// Opens the file, and notes where another one has its lock.
    fn open(&mut self) -> io::Result<()>
        ensures calls { self.new.calls ≡ self.old.calls }
        ensures faults { self.new.faults ≡ self.old.faults }
    {
        match lock::open(&self.rt, self.path.as_str(), self.access) {
            Ok(file) => {
                self.file = Some(file);
                Ok(())
            }
            Err(error) => {
                self.lacks_lock = error.kind() == ErrorKind::WouldBlock;
                Err(error)
            }
        }
    }

    /// Begins a call: counts it, and opens the file where that wasn't done yet.
    fn begin(&mut self) -> io::Result<()>
        ensures calls { self.new.calls ≡ min (self.old.calls + 1) (2 ^ 61) }
        ensures faults { self.new.faults ≡ self.old.faults }
    {
        if self.calls >= CALL_LIMIT {
            return Err(ErrorKind::Other.into());
        }
        self.calls += 1;
        if self.file.is_none() {
            self.open()?;
        }
        Ok(())
    }

    fn try_size(&mut self) -> io::Result<u64>
        ensures calls { self.new.calls ≡ min (self.old.calls + 1) (2 ^ 61) }
        ensures faults { self.new.faults ≡ self.old.faults }
    {
        self.begin()?;
        match &self.file {
            Some(file) => file::size_of(file),
            None => Err(ErrorKind::NotFound.into()),
        }
    }

    fn try_read(&mut self, at: u64, out: &mut [u8]) -> io::Result<usize>
        ensures bound { IfOk result (λ count. count ≤ length out.old) }
        ensures calls { self.new.calls ≡ min (self.old.calls + 1) (2 ^ 61) }
        ensures faults { self.new.faults ≡ self.old.faults }
    {
        self.begin()?;
        match &mut self.file {
            Some(file) => file::read_at(file, at, out),
            None => Err(ErrorKind::NotFound.into()),
        }
    }

    /// Refuses a file that doesn't stand at the path any more.
    fn check_place(&self) -> io::Result<()> {
        match &self.file {
            Some(file) => lock::check_place(&self.rt, file, self.path.as_str()),
            None => Ok(()),
        }
    }

    fn try_write(&mut self, at: u64, piece: &[u8]) -> io::Result<()>
        ensures calls { self.new.calls ≡ min (self.old.calls + 1) (2 ^ 61) }
        ensures faults { self.new.faults ≡ self.old.faults }
    {
        self.begin()?;
        self.check_place()?;
        match &mut self.file {
            Some(file) => file::write_at(file, at, piece),
            None => Err(ErrorKind::NotFound.into()),
        }
    }

    fn try_sync(&mut self) -> io::Result<()>
        ensures calls { self.new.calls ≡ min (self.old.calls + 1) (2 ^ 61) }
        ensures faults { self.new.faults ≡ self.old.faults }
    {
        self.begin()?;
        match &self.file {
            Some(file) => file.sync_all(),
            None => Err(ErrorKind::NotFound.into()),
        }
    }

    /// Ends a call, and counts a fault where it failed.
    fn end<T: Drop>(&mut self, answer: io::Result<T>) -> Result<T, DiskFault>
        ensures cause { HasCause self.old.faults self.new.faults result }
        ensures value { IfOk result (λ value. answer ≡ Ok value) }
        ensures calls { self.new.calls ≡ self.old.calls }
    {
        match answer {
            Ok(value) => Ok(value),
            Err(_) => {
                self.faults = self.faults.saturating_add(1);
                Err(DiskFault)
            }
        }
    }
}

impl<R: Files<File = File> + Alloc + Drop> FileDisk<R> {
    /// How many calls were begun and have returned, together.
    fn moment(&self) -> u64
        ensures { result ≡ 2 * self.now.calls }
    {
        2 * self.calls
    }
}

impl<R: Files<File = File> + Alloc + Drop> Disk for FileDisk<R> {
    ghost use Rattle.std.specs.Prelude.{None, ⊤};

    ghost bytes = { λ d. None };

    ghost told = { λ d. None };

    ghost meanwhile = { λ d. None };

    ghost faults = { λ d. d.faults };

    ghost tells = { λ d. tt };

    ghost sound = { λ d. tt };

    fn size(&mut self) -> Result<u64, DiskFault> {
        let answer = self.try_size();
        self.end(answer)
    }

    fn read(&mut self, at: u64, out: &mut [u8]) -> Result<usize, DiskFault> {
        let answer = self.try_read(at, out);
        self.end(answer)
    }

    fn write(&mut self, at: u64, piece: &[u8]) -> Result<(), DiskFault> {
        let answer = self.try_write(at, piece);
        self.end(answer)
    }

    fn sync(&mut self) -> Result<(), DiskFault> {
        let answer = self.try_sync();
        self.end(answer)
    }

    fn clock(&self) -> u64 {
        self.moment()
    }
}
