//! A sink that keeps its bytes in memory, for tests.

ghost use Rattle.std.specs.Prelude.{◌≡◌, [], IfOk, OnOk, OnErr, ◌≤◌, ◌⊎◌, true, false, length, take, ◌/◌};
ghost use Rattle.outside.specs.Counts.{HasCause};
ghost use Rattle.outside.specs.Told.{Puts};
ghost use Rattle.line_io.specs.Memory.{is_to_fail, next_count, taken_all, sink_failed};

use crate::{Sink, SinkFault};
use std::alloc::{AllocError, Global};
use std::marker::Model;

/// Takes bytes into memory, and fails at the calls that are named, where it takes half of the piece.
#[derive(Drop)]
pub struct MemorySink {
    bytes: Vec<u8>,
    calls: u64,
    fails: Vec<u64>,
    faults: u64,
}

impl Model for MemorySink {
    ghost use Rattle.line_io.specs.Memory.{MemoryOutput};

    ghost Value = { MemoryOutput };

    ghost view = { λ s. record { taken = s.bytes.items; calls = s.calls; fails = s.fails.items; faults = s.faults } };
}

impl MemorySink {
    /// Calls are counted from 1, and those whose numbers are in `fails` fail.
    pub fn new(alloc: Global, fails: &[u64]) -> Result<MemorySink, AllocError>
        ensures { IfOk result (λ sink. sink ≡ record { taken = []; calls = 0; fails = fails.now; faults = 0 }) }
    {
        Ok(MemorySink {
            bytes: Vec::new(alloc),
            calls: 0,
            fails: Vec::from_slice(alloc, fails)?,
            faults: 0,
        })
    }

    /// The bytes that were taken.
    pub fn bytes(&self) -> &[u8]
        ensures { result.now ≡ self.now.taken }
    {
        self.bytes.as_slice()
    }

    /// Counts a fault.
    fn fault(&mut self) -> SinkFault
        ensures counted { self.new ≡ record self.old { faults = next_count self.old.faults } }
        ensures later { self.old.faults ≤ self.new.faults }
    {
        self.faults = self.faults.saturating_add(1);
        SinkFault
    }
}

impl Sink for MemorySink {
    ghost use Rattle.std.specs.Prelude.{Some};

    ghost taken = { λ s. Some s.taken };

    ghost faults = { λ s. s.faults };

    /// Fails exactly at the calls that are named, where it takes the first half of the piece, rounded down, and for
    /// want of memory, where it takes nothing.
    fn put(&mut self, piece: &[u8]) -> Result<(), SinkFault>
        ensures bytes { Puts (Some self.old.taken) (Some self.new.taken) result piece.now }
        ensures cause { HasCause self.old.faults self.new.faults result }
        ensures ok { OnOk result (self.new ≡ taken_all self.old piece.now) }
        ensures fails { OnOk result (is_to_fail self.old.calls self.old.fails ≡ false) }
        ensures err { OnErr result ((self.new ≡ sink_failed self.old [])
            ⊎ ((is_to_fail self.old.calls self.old.fails ≡ true) × (self.new ≡ sink_failed self.old (take (length piece.now / 2) piece.now)))) }
    {
        self.calls = self.calls.saturating_add(1);
        if self.fails.contains(&self.calls) {
            self.bytes.extend_from_slice(&piece[..piece.len() / 2]).ok();
            return Err(self.fault());
        }
        if self.bytes.extend_from_slice(piece).is_err() {
            return Err(self.fault());
        }
        Ok(())
    }
}
