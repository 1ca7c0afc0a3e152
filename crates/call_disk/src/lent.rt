//! The disk whose bytes are lent, while a log is loaded.

ghost use Rattle.std.specs.Prelude.{◌≡◌};
ghost use Rattle.call_disk.specs.Awaited.{tape_of};
ghost use Rattle.call_disk.specs.Lent.{has_prop, has_write, HasBytes};
ghost use Rattle.call_disk.specs.Tape.{IsCounted};
ghost use Rattle.call_disk.specs.Telling.{FitOver, fit_prop};

use crate::copied::copy_out;
use crate::disk::Beneath;
use crate::noted::NotedCalls;
use disk_trait::{Disk, DiskFault};
use std::alloc::Global;
use std::marker::PhantomData;

/// A disk with these bytes, whose writes and syncs are noted. A read gives the bytes that were lent, and fails once a write was noted. It
/// tells what performing the calls makes of the disk beneath that has the bytes.
#[derive(Drop)]
pub struct LentDisk<'a, B: Beneath> {
    bytes: &'a [u8],
    noted: NotedCalls,
    is_written: bool,
    beneath: PhantomData<B>,
    ghost counted: { IsCounted (tape_of noted) },
    ghost fit: { FitOver B.disk (tape_of noted).steps } by { fit_prop B.disk (tape_of noted).steps },
    ghost written: { is_written ≡ has_write (tape_of noted).steps },
    ghost lends: { HasBytes B.disk bytes.now } by { has_prop B.disk bytes.now },
}

impl<'a, B: Beneath> LentDisk<'a, B> {
    ghost use Rattle.std.specs.Prelude.{[]};

    /// One with nothing noted.
    pub fn new(alloc: Global, bytes: &'a [u8]) -> LentDisk<'a, B>
        requires { HasBytes B.disk bytes.now }
        ensures bytes { result.bytes.now ≡ bytes.now }
        ensures noted { tape_of result.noted ≡ record { steps = []; idle = 0; calls = 0 } }
    {
        LentDisk {
            bytes,
            noted: NotedCalls::new(alloc),
            is_written: false,
            beneath: PhantomData,
        }
    }

    /// What was noted, without the bytes.
    pub fn into_noted(self) -> NotedCalls
        ensures noted { result ≡ self.entry.noted }
        ensures fit { FitOver B.disk (tape_of result).steps }
    {
        self.noted
    }
}

impl<'a, B: Beneath> Disk for LentDisk<'a, B> {
    ghost use Rattle.std.specs.Prelude.{None, Some};
    ghost use Rattle.call_disk.specs.Lent.{lent_over, tells_lent};
    ghost use Rattle.call_disk.specs.Sound.{sound_over};
    ghost use Rattle.call_disk.specs.Telling.{told_over};

    ghost bytes = { λ d. Some (lent_over B.disk d.bytes.now (tape_of d.noted)) };

    ghost told = { λ d. told_over B.disk (tape_of d.noted) };

    ghost meanwhile = { λ d. None };

    ghost faults = { λ d. d.noted.faults };

    ghost tells = { λ d. tells_lent B.disk d.bytes.now (tape_of d.noted) };

    ghost sound = { λ d. sound_over B.disk (tape_of d.noted) d.counted d.noted.few d.fit };

    fn size(&mut self) -> Result<u64, DiskFault> {
        if self.is_written {
            return Err(self.noted.fail());
        }
        match self.noted.pass() {
            Some(()) => Ok(self.bytes.len() as u64),
            None => Err(self.noted.fault()),
        }
    }

    fn read(&mut self, at: u64, out: &mut [u8]) -> Result<usize, DiskFault> {
        if self.is_written {
            return Err(self.noted.fail());
        }
        match self.noted.pass() {
            Some(()) => Ok(copy_out(self.bytes, at, out)),
            None => Err(self.noted.fault()),
        }
    }

    fn write(&mut self, at: u64, piece: &[u8]) -> Result<(), DiskFault> {
        match self.noted.add_write(at, piece) {
            Ok(()) => {
                self.is_written = true;
                Ok(())
            }
            Err(fault) => Err(fault),
        }
    }

    fn sync(&mut self) -> Result<(), DiskFault> {
        self.noted.add_sync()
    }

    fn clock(&self) -> u64 {
        self.noted.moment()
    }
}
