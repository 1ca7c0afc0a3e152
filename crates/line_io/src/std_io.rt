//! The source and the sink over a reader and a writer of std.

ghost use Rattle.std.specs.Prelude.{◌≡◌, ◌<◌, length, OnOk};
ghost use Rattle.std.specs.Io.{ReadsAtMost, WritesAtMost};
ghost use Rattle.std.specs.Io.KnownBytes.{ReadConsumes, WriteAppends};
ghost use Rattle.outside.specs.Counts.{HasCause};
ghost use Rattle.outside.specs.Told.{Puts};

use crate::{Sink, SinkFault, Source, SourceFault};
use std::io::{ErrorKind, Read, Write};

/// One read, tried again where a signal interrupted it.
fn read_uninterrupted<R: Read>(inner: &mut R, out: &mut [u8]) -> Result<usize, SourceFault>
    ensures bound { ReadsAtMost result out.new }
    ensures bytes { ReadConsumes (R.remaining inner.old) (R.remaining inner.new) result out.new }
{
    'tries: for _try in 0..u64::MAX {
        match inner.read(out) {
            Ok(count) => return Ok(count),
            Err(error) if error.kind() == ErrorKind::Interrupted => {}
            Err(_) => return Err(SourceFault),
        }
    }
    Err(SourceFault)
}

/// One write, tried again where a signal interrupted it.
fn write_uninterrupted<W: Write>(inner: &mut W, piece: &[u8]) -> Result<usize, SinkFault>
    ensures bound { WritesAtMost result piece.now }
    ensures bytes { WriteAppends (W.contents inner.old) (W.contents inner.new) result piece.now }
{
    'tries: for _try in 0..u64::MAX {
        match inner.write(piece) {
            Ok(count) => return Ok(count),
            Err(error) if error.kind() == ErrorKind::Interrupted => {}
            Err(_) => return Err(SinkFault),
        }
    }
    Err(SinkFault)
}

/// The bytes of a reader; a read that fails is a fault.
#[derive(Drop)]
pub struct StdSource<R: Drop> {
    inner: R,
    faults: u64,
}

impl<R: Drop> StdSource<R> {
    /// No fault was counted yet.
    pub fn new(inner: R) -> StdSource<R>
        ensures inner { result.inner ≡ inner }
        ensures faults { result.faults ≡ 0 }
    {
        StdSource { inner, faults: 0 }
    }

    /// Counts a fault exactly where the reader failed. Its end, a count of 0, is none.
    fn note(&mut self, given: Result<usize, SourceFault>)
        ensures inner { self.new.inner ≡ self.old.inner }
        ensures given { OnOk given (self.new.faults ≡ self.old.faults) }
        ensures failed { HasCause self.old.faults self.new.faults given }
    {
        if given.is_err() {
            self.faults = self.faults.saturating_add(1);
        }
    }
}

impl<R: Read + Drop> Source for StdSource<R> {
    ghost left = { λ s. R.remaining s.inner };

    ghost faults = { λ s. s.faults };

    /// What the reader gives is the answer, 0 at its end; no fault is counted where it gives anything.
    fn fill(&mut self, out: &mut [u8]) -> Result<usize, SourceFault>
        requires room { 0 < length out.old }
        ensures bound { ReadsAtMost result out.new }
        ensures bytes { ReadConsumes (R.remaining self.old.inner) (R.remaining self.new.inner) result out.new }
        ensures cause { HasCause self.old.faults self.new.faults result }
        ensures counted { OnOk result (self.new.faults ≡ self.old.faults) }
    {
        let given = read_uninterrupted(&mut self.inner, out);
        self.note(given);
        given
    }
}

/// A writer that takes the bytes; a write that fails, or takes none of some bytes, is a fault.
#[derive(Drop)]
pub struct StdSink<W: Drop> {
    inner: W,
    faults: u64,
}

impl<W: Drop> StdSink<W> {
    /// No fault was counted yet.
    pub fn new(inner: W) -> StdSink<W>
        ensures inner { result.inner ≡ inner }
        ensures faults { result.faults ≡ 0 }
    {
        StdSink { inner, faults: 0 }
    }
}

impl<W: Write + Drop> Sink for StdSink<W> {
    ghost taken = { λ s. W.contents s.inner };

    ghost faults = { λ s. s.faults };

    fn put(&mut self, piece: &[u8]) -> Result<(), SinkFault>
        ensures bytes { Puts (W.contents self.old.inner) (W.contents self.new.inner) result piece.now }
        ensures cause { HasCause self.old.faults self.new.faults result }
        ensures counted { OnOk result (self.new.faults ≡ self.old.faults) }
    {
        let mut at = 0;
        'writes: while at < piece.len() {
            match write_uninterrupted(&mut self.inner, &piece[at..]) {
                Ok(count) if count > 0 => at += count,
                _ => {
                    self.faults = self.faults.saturating_add(1);
                    return Err(SinkFault);
                }
            }
        }
        Ok(())
    }
}
