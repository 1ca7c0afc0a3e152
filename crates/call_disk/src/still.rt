//! The calls of the disk that has bytes of its own, which is only read.

ghost use Rattle.std.specs.Prelude.{◌≡◌, ◌≤◌, None, Some, IfOk, IfSome};
ghost use Rattle.outside.specs.Counts.{Rose};
ghost use Rattle.disk_trait.specs.Images.{fresh_disk};
ghost use Rattle.disk_trait.specs.Calls.{Passes, Succeeds, OrRefuses, Goes};
ghost use Rattle.call_disk.specs.Tells.{tells};

use crate::copied::copy_out;
use crate::owned::OwnedDisk;
use disk_trait::{Disk, DiskFault};
use std::alloc::{AllocError, Global};

/// How many calls may be made: as many as fit the clock, on which each counts twice.
const CALL_LIMIT: u64 = 1 << 61;

impl OwnedDisk {
    /// One that has a copy of these bytes.
    pub fn of(alloc: Global, bytes: &[u8]) -> Result<OwnedDisk, AllocError>
        ensures { IfOk result (λ disk. tells disk ≡ Some (fresh_disk bytes.now)) }
    {
        let bytes = Vec::from_slice(alloc, bytes)?;
        Ok(OwnedDisk {
            bytes,
            is_there: true,
            calls: 0,
            faults: 0,
        })
    }

    /// One that isn't there.
    pub fn missing(alloc: Global) -> OwnedDisk
        ensures { tells result ≡ None }
    {
        OwnedDisk {
            bytes: Vec::new(alloc),
            is_there: false,
            calls: 0,
            faults: 0,
        }
    }

    /// Makes a call that changes nothing. `None` where there were as many as may be, or where it isn't there.
    fn pass(&mut self) -> Option<()>
        ensures passes { IfSome result (λ _. Goes (Succeeds Passes) (tells self.old) (tells self.new)) }
        ensures refuses { Goes (OrRefuses Passes) (tells self.old) (tells self.new) }
        ensures bytes { self.new.bytes ≡ self.old.bytes }
        ensures there { self.new.is_there ≡ self.old.is_there }
        ensures faults { self.new.faults ≡ self.old.faults }
    {
        if !self.is_there {
            return None;
        }
        if self.calls >= CALL_LIMIT {
            return None;
        }
        self.calls += 1;
        Some(())
    }

    /// Counts a fault.
    fn fault(&mut self) -> DiskFault
        ensures rose { Rose self.old.faults self.new.faults }
        ensures later { self.old.faults ≤ self.new.faults }
        ensures tells { tells self.new ≡ tells self.old }
    {
        self.faults = self.faults.saturating_add(1);
        DiskFault
    }
}

impl Disk for OwnedDisk {
    ghost use Rattle.std.specs.Prelude.{None};
    ghost use Rattle.call_disk.specs.Owned.{bytes_where, tells_bytes, sound_where};
    ghost use Rattle.call_disk.specs.Tells.{tells};

    ghost bytes = { λ d. bytes_where d.is_there d.bytes.items };

    ghost told = { λ d. tells d };

    ghost meanwhile = { λ d. None };

    ghost faults = { λ d. d.faults };

    ghost tells = { λ d. tells_bytes d.is_there d.bytes.items d.calls };

    ghost sound = { λ d. sound_where d.is_there d.bytes.items d.calls d.sound };

    fn size(&mut self) -> Result<u64, DiskFault> {
        match self.pass() {
            Some(()) => Ok(self.bytes.len() as u64),
            None => Err(self.fault()),
        }
    }

    fn read(&mut self, at: u64, out: &mut [u8]) -> Result<usize, DiskFault> {
        match self.pass() {
            Some(()) => Ok(copy_out(&self.bytes, at, out)),
            None => Err(self.fault()),
        }
    }

    fn write(&mut self, _at: u64, _piece: &[u8]) -> Result<(), DiskFault> {
        self.pass();
        Err(self.fault())
    }

    fn sync(&mut self) -> Result<(), DiskFault> {
        self.pass();
        Err(self.fault())
    }

    fn clock(&self) -> u64 {
        2 * self.calls
    }
}
