//! The disk whose calls are noted.

ghost use Rattle.std.specs.Prelude.{◌≡◌, Option};
ghost use Rattle.call_disk.specs.Awaited.{tape_of};
ghost use Rattle.call_disk.specs.Performed.{HonestDisk};
ghost use Rattle.call_disk.specs.Tape.{IsCounted};
ghost use Rattle.call_disk.specs.Telling.{FitOver, fit_prop};

use crate::noted::NotedCalls;
use disk_trait::{Disk, DiskFault};
use std::alloc::Global;
use std::marker::{Brand, PhantomData};

/// The disk over which calls are to be performed that were noted. No code has it: it is spoken of alone.
pub trait Beneath {
    /// What it has at first, where one is spoken of.
    ghost disk: { Option HonestDisk };
}

impl Beneath for Brand {
    ghost use Rattle.std.specs.Prelude.{None};

    ghost disk = { None };
}

/// A disk that notes its writes and syncs in order, for who performs them. It can't be read. It tells what performing them makes of
/// the disk beneath.
#[derive(Drop)]
pub struct NotedDisk<B: Beneath> {
    noted: NotedCalls,
    beneath: PhantomData<B>,
    ghost counted: { IsCounted (tape_of noted) },
    ghost fit: { FitOver B.disk (tape_of noted).steps } by { fit_prop B.disk (tape_of noted).steps },
}

impl<B: Beneath> NotedDisk<B> {
    ghost use Rattle.std.specs.Prelude.{[]};

    /// One with nothing noted.
    pub fn new(alloc: Global) -> NotedDisk<B>
        ensures { tape_of result.noted ≡ record { steps = []; idle = 0; calls = 0 } }
    {
        NotedDisk {
            noted: NotedCalls::new(alloc),
            beneath: PhantomData,
        }
    }

    /// What was noted.
    pub fn into_noted(self) -> NotedCalls
        ensures noted { result ≡ self.noted }
        ensures fit { FitOver B.disk (tape_of result).steps }
    {
        self.noted
    }
}

impl<B: Beneath> Disk for NotedDisk<B> {
    ghost use Rattle.std.specs.Prelude.{None};
    ghost use Rattle.call_disk.specs.Telling.{bytes_over, tells_over, told_over};
    ghost use Rattle.call_disk.specs.Sound.{sound_over};

    ghost bytes = { λ d. bytes_over B.disk (tape_of d.noted) };

    ghost told = { λ d. told_over B.disk (tape_of d.noted) };

    ghost meanwhile = { λ d. None };

    ghost faults = { λ d. d.noted.faults };

    ghost tells = { λ d. tells_over B.disk (tape_of d.noted) };

    ghost sound = { λ d. sound_over B.disk (tape_of d.noted) d.counted d.noted.few d.fit };

    fn size(&mut self) -> Result<u64, DiskFault> {
        Err(self.noted.fail())
    }

    fn read(&mut self, _at: u64, _out: &mut [u8]) -> Result<usize, DiskFault> {
        Err(self.noted.fail())
    }

    fn write(&mut self, at: u64, piece: &[u8]) -> Result<(), DiskFault> {
        self.noted.add_write(at, piece)
    }

    fn sync(&mut self) -> Result<(), DiskFault> {
        self.noted.add_sync()
    }

    fn clock(&self) -> u64 {
        self.noted.moment()
    }
}
