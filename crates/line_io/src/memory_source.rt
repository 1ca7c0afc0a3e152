//! A source over bytes in memory, for tests.

ghost use Rattle.std.specs.Prelude.{◌≡◌, ◌<◌, IfOk, OnErr, is_err, length, min};
ghost use Rattle.std.specs.Io.{ReadsAtMost};
ghost use Rattle.std.specs.Io.KnownBytes.{ReadConsumes};
ghost use Rattle.outside.specs.Counts.{HasCause};
ghost use Rattle.line_io.specs.Memory.{is_to_fail, given, source_failed};

use crate::{Source, SourceFault};
use std::alloc::{AllocError, Global};
use std::marker::Model;

/// Gives its bytes in pieces of at most `cut`, and fails at the calls that are named.
#[derive(Drop)]
pub struct MemorySource {
    bytes: Vec<u8>,
    at: usize,
    cut: u32,
    calls: u64,
    fails: Vec<u64>,
    faults: u64,
}

impl Model for MemorySource {
    ghost use Rattle.std.specs.Prelude.{drop, ◌≤◌, ◌<◌, length};
    ghost use Rattle.line_io.specs.Memory.{MemoryInput};

    ghost Value = { MemoryInput };

    ghost view = { λ s. record {
      left = drop s.at s.bytes.items;
      cut = s.cut;
      calls = s.calls;
      fails = s.fails.items;
      faults = s.faults;
    } };

    ghost invariant = { λ s. (s.at ≤ length s.bytes.items) × (0 < s.cut) };
}

impl MemorySource {
    /// Calls are counted from 1, and those whose numbers are in `fails` fail. `cut` is above 0.
    pub fn new(
        alloc: Global,
        bytes: &[u8],
        cut: u32,
        fails: &[u64],
    ) -> Result<MemorySource, AllocError>
        requires { 0 < cut }
        ensures { IfOk result (λ source. source
            ≡ record { left = bytes.now; cut = cut; calls = 0; fails = fails.now; faults = 0 }) }
    {
        Ok(MemorySource {
            bytes: Vec::from_slice(alloc, bytes)?,
            at: 0,
            cut,
            calls: 0,
            fails: Vec::from_slice(alloc, fails)?,
            faults: 0,
        })
    }

    /// How many bytes are left.
    pub fn left(&self) -> u64
        ensures { result ≡ length self.now.left }
    {
        (self.bytes.len() - self.at) as u64
    }
}

impl Source for MemorySource {
    ghost use Rattle.std.specs.Prelude.{Some};

    ghost left = { λ s. Some s.left };

    ghost faults = { λ s. s.faults };

    /// Gives the least of `cut`, the length of `out` and the bytes left, and fails exactly at the calls that are named.
    fn fill(&mut self, out: &mut [u8]) -> Result<usize, SourceFault>
        requires room { 0 < length out.old }
        ensures bound { ReadsAtMost result out.new }
        ensures bytes { ReadConsumes (Some self.old.left) (Some self.new.left) result out.new }
        ensures cause { HasCause self.old.faults self.new.faults result }
        ensures count { IfOk result (λ n. n ≡ min (min (length self.old.left) (length out.old)) self.old.cut) }
        ensures ok { IfOk result (λ n. self.new ≡ given self.old n) }
        ensures err { OnErr result (self.new ≡ source_failed self.old) }
        ensures fails { is_err result ≡ is_to_fail self.old.calls self.old.fails }
    {
        self.calls = self.calls.saturating_add(1);
        if self.fails.contains(&self.calls) {
            self.faults = self.faults.saturating_add(1);
            return Err(SourceFault);
        }
        let left = self.bytes.len() - self.at;
        let count = left.min(out.len()).min(self.cut as usize);
        out[..count].copy_from_slice(&self.bytes[self.at..self.at + count]);
        self.at += count;
        Ok(count)
    }
}
