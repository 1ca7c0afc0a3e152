// How the record grows.
ghost use Rattle.std.specs.Prelude.{◌≡◌, ◌≤◌, ◌<◌, ◌+◌, ◌^◌, length, ◌-◌, IfOk, OnOk, OnErr};
ghost use Rattle.outside.specs.Counts.{Rose};
ghost use Rattle.disk_trait.specs.Images.{fresh_disk};
ghost use Rattle.disk_trait.specs.Calls.{overwritten, Passes, Writes, Syncs};
ghost use Rattle.disk_memory.specs.Scenes.{Keeps};
ghost use Rattle.disk_memory.specs.Tells.{history, tells};

use crate::call::{Call, Kind};
use crate::disk::MemoryDisk;
use crate::failing::Failing;
use disk_trait::DiskFault;
use std::alloc::{AllocError, Global};

// The bytes with the piece at that place.
pub(crate) fn with_piece(
    alloc: Global,
    bytes: &[u8],
    at: usize,
    piece: &[u8],
) -> Result<Vec<u8>, AllocError>
    requires { at ≤ length bytes.now }
    ensures { IfOk result (λ next. next.items ≡ overwritten bytes.now at piece.now) }
{
    let mut next = Vec::from_slice(alloc, &bytes[..at])?;
    next.extend_from_slice(piece)?;
    if piece.len() < bytes.len() - at {
        next.extend_from_slice(&bytes[at + piece.len()..])?;
    }
    Ok(next)
}

impl MemoryDisk {
    /// A disk with these bytes, all of them sure. Its calls with these numbers, counted from 1, are to fail, and so
    /// are all behind the one of the number `stop_after`.
    pub fn new(
        alloc: Global,
        bytes: &[u8],
        fails: &[u64],
        stop_after: Option<u64>,
    ) -> Result<MemoryDisk, AllocError>
        ensures tells { IfOk result (λ disk. tells disk ≡ fresh_disk bytes.now) }
        ensures fails { IfOk result (λ disk. disk.failing.fails.items ≡ fails.now) }
        ensures stop_after { IfOk result (λ disk. disk.failing.stop_after ≡ stop_after) }
        ensures faults { IfOk result (λ disk. disk.faults ≡ 0) }
    {
        Ok(MemoryDisk {
            alloc,
            start: Vec::from_slice(alloc, bytes)?,
            bytes: Vec::from_slice(alloc, bytes)?,
            calls: Vec::new(alloc),
            idle: 0,
            clock: 0,
            failing: Failing {
                fails: Vec::from_slice(alloc, fails)?,
                stop_after,
            },
            faults: 0,
        })
    }

    /// The bytes that a read gives.
    pub fn bytes(&self) -> &[u8]
        ensures { result.now ≡ (tells self.now).bytes }
    {
        &self.bytes
    }

    // One fault more.
    #[tactic(auto, using(crate::proofs::Recording::keeps_same))]
    pub(crate) fn fault(&mut self) -> DiskFault
        ensures told { tells self.new ≡ tells self.old }
        ensures history { history self.new ≡ history self.old }
        ensures kept { Keeps (history self.old) (history self.new) }
        ensures failing { self.new.failing ≡ self.old.failing }
        ensures later { self.old.faults ≤ self.new.faults }
        ensures rose { Rose self.old.faults self.new.faults }
    {
        self.faults = self.faults.saturating_add(1);
        DiskFault
    }

    // A call that changes nothing.
    pub(crate) fn pass(&mut self)
        requires { self.old.clock < 2 ^ 62 }
        ensures told { Passes (tells self.old) (tells self.new) }
        ensures kept { Keeps (history self.old) (history self.new) }
        ensures bytes { self.new.bytes ≡ self.old.bytes }
        ensures failing { self.new.failing ≡ self.old.failing }
        ensures faults { self.new.faults ≡ self.old.faults }
    {
        self.idle += 1;
        self.clock += 2;
    }

    // Makes and records a write, or does nothing for want of memory.
    pub(crate) fn keep_write(&mut self, at: u64, piece: &[u8]) -> Result<(), AllocError>
        requires time { self.old.clock < 2 ^ 62 }
        requires at { at ≤ length (tells self.old).bytes }
        ensures ok { OnOk result (Writes at piece.now (tells self.old) (tells self.new)) }
        ensures err { OnErr result (tells self.new ≡ tells self.old) }
        ensures kept { OnOk result (Keeps (history self.old) (history self.new)) }
        ensures history { OnErr result (history self.new ≡ history self.old) }
        ensures clock { OnErr result (self.new.clock ≡ self.old.clock) }
        ensures failing { self.new.failing ≡ self.old.failing }
        ensures faults { self.new.faults ≡ self.old.faults }
    {
        let next = with_piece(self.alloc, &self.bytes, at as usize, piece)?;
        let kept = Vec::from_slice(self.alloc, piece)?;
        let call = Call {
            idle: self.idle,
            kind: Kind::Write(at, kept),
        };
        self.calls.push(call)?;
        self.bytes = next;
        self.idle = 0;
        self.clock += 2;
        Ok(())
    }

    // Makes and records a sync, or does nothing for want of memory.
    pub(crate) fn keep_sync(&mut self) -> Result<(), AllocError>
        requires { self.old.clock < 2 ^ 62 }
        ensures ok { OnOk result (Syncs (tells self.old) (tells self.new)) }
        ensures err { OnErr result (tells self.new ≡ tells self.old) }
        ensures kept { OnOk result (Keeps (history self.old) (history self.new)) }
        ensures history { OnErr result (history self.new ≡ history self.old) }
        ensures clock { OnErr result (self.new.clock ≡ self.old.clock) }
        ensures failing { self.new.failing ≡ self.old.failing }
        ensures faults { self.new.faults ≡ self.old.faults }
    {
        let call = Call {
            idle: self.idle,
            kind: Kind::Sync,
        };
        self.calls.push(call)?;
        self.idle = 0;
        self.clock += 2;
        Ok(())
    }
}
