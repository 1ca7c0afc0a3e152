//! The calls that are noted.

ghost use Rattle.std.specs.Prelude.{◌≡◌, ◌≤◌, ◌<◌, ◌+◌, ◌*◌, ◌^◌, ◌%◌, [], ◌++◌, None, IfOk, IfSome, OnOk, OnErr, option_copied};
ghost use Rattle.call_disk.specs.Noted.{Write as ToWrite, Sync as ToSync, call_of, calls_of, said_of, first_call, behind_first, steps_of};
ghost use Rattle.call_disk.specs.Tape.{IsIdle, IsNoted, IsPassed};
ghost use Rattle.outside.specs.Counts.{HasCause, Rose};
ghost use Rattle.disk_trait.specs.Images.{last_moment};

use disk_trait::DiskFault;
use std::alloc::{AllocError, Global};

/// How many calls may be made: as many as fit the clock, on which each counts twice.
const CALL_LIMIT: u64 = 1 << 61;

/// A call that is to be performed.
#[derive(Drop)]
pub enum NotedCall {
    /// These bytes are to be written from this place on.
    Write(u64, Vec<u8>),
    /// What was written is to be made sure of.
    Sync,
}

/// A call that was noted, behind so many that changed nothing.
#[derive(Drop)]
pub(crate) struct Noted {
    pub(crate) idle: u64,
    pub(crate) call: NotedCall,
}

/// Writes and syncs of a disk, in order, for who performs them.
#[derive(Drop)]
pub struct NotedCalls {
    alloc: Global,
    noted: Vec<Noted>,
    idle: u64,
    calls: u64,
    faults: u64,
    ghost few: { calls ≤ 2 ^ 61 },
    ghost fewer: { idle ≤ calls },
}

impl NotedCalls {
    ghost use Rattle.call_disk.specs.Awaited.{awaited, tape_of};

    /// None.
    pub fn new(alloc: Global) -> NotedCalls
        ensures noted { awaited result ≡ [] }
        ensures tape { tape_of result ≡ record { steps = []; idle = 0; calls = 0 } }
        ensures faults { result.faults ≡ 0 }
    {
        NotedCalls {
            alloc,
            noted: Vec::new(alloc),
            idle: 0,
            calls: 0,
            faults: 0,
        }
    }

    /// The call that is to be performed next.
    pub fn next(&self) -> Option<&NotedCall>
        ensures { said_of (option_copied result) ≡ first_call (awaited self.now) }
    {
        match self.noted.first() {
            Some(noted) => Some(&noted.call),
            None => None,
        }
    }

    /// Lets the next call go, which was performed.
    pub fn performed(&mut self)
        ensures { awaited self.new ≡ behind_first (awaited self.old) }
    {
        if !self.noted.is_empty() {
            self.noted.remove(0);
        }
    }

    /// Puts others behind these, or leaves these as they are.
    pub fn append(&mut self, others: NotedCalls) -> Result<(), AllocError>
        ensures ok { OnOk result (awaited self.new ≡ awaited self.old ++ awaited others) }
        ensures err { OnErr result (awaited self.new ≡ awaited self.old) }
    {
        let mut others = others;
        self.noted.append(&mut others.noted)
    }

    /// Makes a call that changes nothing. `None` where there were as many as may be.
    pub(crate) fn pass(&mut self) -> Option<()>
        ensures idle { IsIdle (tape_of self.old) (tape_of self.new) }
        ensures some { IfSome result (λ _. IsPassed (tape_of self.old) (tape_of self.new)) }
        ensures faults { self.new.faults ≡ self.old.faults }
    {
        if self.calls >= CALL_LIMIT {
            return None;
        }
        self.calls += 1;
        self.idle += 1;
        Some(())
    }

    /// Notes a call behind the others. `None` for want of memory too.
    fn note(&mut self, call: NotedCall) -> Option<()>
        ensures noted { IfSome result (λ _. IsNoted (call_of call) (tape_of self.old) (tape_of self.new)) }
        ensures none { result ≡ None → IsIdle (tape_of self.old) (tape_of self.new) }
        ensures faults { self.new.faults ≡ self.old.faults }
    {
        if self.calls >= CALL_LIMIT {
            return None;
        }
        let idle = self.idle;
        match self.noted.push(Noted { idle, call }) {
            Ok(()) => {
                self.calls += 1;
                self.idle = 0;
                Some(())
            }
            Err(_) => {
                self.calls += 1;
                self.idle += 1;
                None
            }
        }
    }

    /// A write of these bytes, where there is memory for them.
    fn write_of(&self, at: u64, piece: &[u8]) -> Option<NotedCall>
        ensures { IfSome result (λ call. call_of call ≡ ToWrite at piece.now) }
    {
        let piece = Vec::from_slice(self.alloc, piece).ok()?;
        Some(NotedCall::Write(at, piece))
    }

    /// Counts a fault.
    pub(crate) fn fault(&mut self) -> DiskFault
        ensures cause { Rose self.old.faults self.new.faults }
        ensures later { self.old.faults ≤ self.new.faults }
        ensures tape { tape_of self.new ≡ tape_of self.old }
    {
        self.faults = self.faults.saturating_add(1);
        DiskFault
    }

    /// Makes a call that fails, and changes nothing.
    pub(crate) fn fail(&mut self) -> DiskFault
        ensures cause { Rose self.old.faults self.new.faults }
        ensures later { self.old.faults ≤ self.new.faults }
        ensures idle { IsIdle (tape_of self.old) (tape_of self.new) }
    {
        self.pass();
        self.fault()
    }

    /// Notes a write behind the calls that are noted, or fails and notes nothing.
    pub fn add_write(&mut self, at: u64, piece: &[u8]) -> Result<(), DiskFault>
        ensures noted { OnOk result (IsNoted (ToWrite at piece.now) (tape_of self.old) (tape_of self.new)) }
        ensures idle { OnErr result (IsIdle (tape_of self.old) (tape_of self.new)) }
        ensures cause { HasCause self.old.faults self.new.faults result }
    {
        let Some(call) = self.write_of(at, piece) else {
            return Err(self.fail());
        };
        match self.note(call) {
            Some(()) => Ok(()),
            None => Err(self.fault()),
        }
    }

    /// Notes a sync behind the calls that are noted, or fails and notes nothing.
    pub fn add_sync(&mut self) -> Result<(), DiskFault>
        ensures noted { OnOk result (IsNoted ToSync (tape_of self.old) (tape_of self.new)) }
        ensures idle { OnErr result (IsIdle (tape_of self.old) (tape_of self.new)) }
        ensures cause { HasCause self.old.faults self.new.faults result }
    {
        match self.note(NotedCall::Sync) {
            Some(()) => Ok(()),
            None => Err(self.fault()),
        }
    }

    /// How many calls were begun and have returned, together.
    pub(crate) fn moment(&self) -> u64
        ensures moment { result ≡ 2 * self.now.calls }
        ensures even { result % 2 ≡ 0 }
        ensures bound { result ≤ last_moment }
    {
        2 * self.calls
    }
}
