// The calls of a disk.
ghost use Rattle.std.specs.Prelude.{◌≡◌, ◌≤◌, ◌<◌, ◌+◌, ◌-◌, ◌/◌, ◌%◌, ◌↔◌, ◌++◌, length, min, take, drop, refl, Some, None, IfOk, OnOk, OnErr, IsErr, IsTrue};
ghost use Rattle.outside.specs.Counts.{HasCause};
ghost use Rattle.disk_trait.specs.Images.{moment_of, last_moment};
ghost use Rattle.disk_trait.specs.Calls.{Passes, Writes, FailsToWrite, Syncs, Succeeds, OrRefuses};
ghost use Rattle.disk_memory.specs.Named.{IsNamed};
ghost use Rattle.disk_memory.specs.Scenes.{Keeps};
ghost use Rattle.disk_memory.specs.Tells.{history, tells, next_number, MustFail, WritesAllOrNone};

use crate::disk::MemoryDisk;
use disk_trait::{Disk, DiskFault};
use std::alloc::AllocError;

// At this moment each call is refused.
const LAST_MOMENT: u64 = 1 << 62;

// Fills the front with the bytes from that place on.
fn copy_out(bytes: &[u8], at: u64, out: &mut [u8]) -> usize
    ensures count { result ≡ min (length out.old) (length bytes.now - at) }
    ensures bytes { out.new ≡ take result (drop at bytes.now) ++ drop result out.old }
{
    if at >= bytes.len() as u64 {
        return 0;
    }
    let from = at as usize;
    let count = out.len().min(bytes.len() - from);
    out[..count].copy_from_slice(&bytes[from..from + count]);
    count
}

impl MemoryDisk {
    // Whether the next call is to fail.
    fn is_named(&self) -> bool
        ensures { IsTrue result ↔ IsNamed self.now.failing (next_number self.now) }
    {
        self.failing.names(self.clock / 2 + 1)
    }
}

impl Disk for MemoryDisk {
    ghost bytes = { λ d. Some (tells d).bytes };

    ghost told = { λ d. Some (tells d) };

    ghost meanwhile = { λ d. None };

    ghost faults = { λ d. d.faults };

    ghost tells = { λ d. refl };

    ghost sound = { λ d. d.sound };

    fn size(&mut self) -> Result<u64, DiskFault>
        ensures size { IfOk result (λ n. n ≡ length (tells self.old).bytes) }
        ensures still { Some (tells self.new).bytes ≡ Some (tells self.old).bytes }
        ensures ok { OnOk result (Succeeds Passes (tells self.old) (tells self.new)) }
        ensures err { OnErr result (OrRefuses Passes (tells self.old) (tells self.new)) }
        ensures cause { HasCause self.old.faults self.new.faults result }
        ensures exact { IsErr result ↔ MustFail self.old }
        ensures counted { OnOk result (self.new.faults ≡ self.old.faults) }
        ensures kept { Keeps (history self.old) (history self.new) }
        ensures failing { self.new.failing ≡ self.old.failing }
    {
        if self.clock >= LAST_MOMENT {
            return Err(self.fault());
        }
        let fails = self.is_named();
        self.pass();
        if fails {
            return Err(self.fault());
        }
        Ok(self.bytes.len() as u64)
    }

    fn read(&mut self, at: u64, out: &mut [u8]) -> Result<usize, DiskFault>
        ensures bound { IfOk result (λ n. n ≤ length out.old) }
        ensures count { IfOk result (λ n. n ≡ min (length out.old) (length (tells self.old).bytes - at)) }
        ensures bytes { IfOk result (λ n. out.new ≡ take n (drop at (tells self.old).bytes) ++ drop n out.old) }
        ensures still { Some (tells self.new).bytes ≡ Some (tells self.old).bytes }
        ensures ok { OnOk result (Succeeds Passes (tells self.old) (tells self.new)) }
        ensures err { OnErr result (OrRefuses Passes (tells self.old) (tells self.new)) }
        ensures cause { HasCause self.old.faults self.new.faults result }
        ensures exact { IsErr result ↔ MustFail self.old }
        ensures counted { OnOk result (self.new.faults ≡ self.old.faults) }
        ensures kept { Keeps (history self.old) (history self.new) }
        ensures failing { self.new.failing ≡ self.old.failing }
    {
        if self.clock >= LAST_MOMENT {
            return Err(self.fault());
        }
        let fails = self.is_named();
        self.pass();
        if fails {
            return Err(self.fault());
        }
        Ok(copy_out(&self.bytes, at, out))
    }

    fn write(&mut self, at: u64, piece: &[u8]) -> Result<(), DiskFault>
        requires { at ≤ length (tells self.old).bytes }
        ensures ok { OnOk result (Succeeds (Writes at piece.now) (tells self.old) (tells self.new)) }
        ensures err { OnErr result (OrRefuses (FailsToWrite at piece.now) (tells self.old) (tells self.new)) }
        ensures cause { HasCause self.old.faults self.new.faults result }
        ensures exact { MustFail self.old → IsErr result }
        // one that is to fail counts as a write of its whole range, and one that wants memory as none
        ensures counts { OnErr result (OrRefuses (WritesAllOrNone at piece.now) (tells self.old) (tells self.new)) }
        ensures refused { OnErr result (¬ (IsNamed self.old.failing (next_number self.old)) → OrRefuses Passes (tells self.old) (tells self.new)) }
        ensures counted { OnOk result (self.new.faults ≡ self.old.faults) }
        ensures kept { Keeps (history self.old) (history self.new) }
        ensures failing { self.new.failing ≡ self.old.failing }
    {
        if self.clock >= LAST_MOMENT {
            return Err(self.fault());
        }
        let fails = self.is_named();
        if let Err(AllocError) = self.keep_write(at, piece) {
            self.pass();
            return Err(self.fault());
        }
        if fails {
            return Err(self.fault());
        }
        Ok(())
    }

    fn sync(&mut self) -> Result<(), DiskFault>
        ensures still { Some (tells self.new).bytes ≡ Some (tells self.old).bytes }
        ensures ok { OnOk result (Succeeds Syncs (tells self.old) (tells self.new)) }
        ensures err { OnErr result (OrRefuses Passes (tells self.old) (tells self.new)) }
        ensures cause { HasCause self.old.faults self.new.faults result }
        ensures exact { MustFail self.old → IsErr result }
        ensures counted { OnOk result (self.new.faults ≡ self.old.faults) }
        ensures kept { Keeps (history self.old) (history self.new) }
        ensures failing { self.new.failing ≡ self.old.failing }
    {
        if self.clock >= LAST_MOMENT {
            return Err(self.fault());
        }
        if self.is_named() {
            self.pass();
            return Err(self.fault());
        }
        if let Err(AllocError) = self.keep_sync() {
            self.pass();
            return Err(self.fault());
        }
        Ok(())
    }

    fn clock(&self) -> u64
        ensures moment { result ≡ moment_of (tells self.now) }
        ensures even { result % 2 ≡ 0 }
        ensures bound { result ≤ last_moment }
    {
        self.clock
    }
}
