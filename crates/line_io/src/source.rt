//! A source of bytes.

ghost use Rattle.std.specs.Prelude.{◌<◌, ℕ, List, length};
ghost use Rattle.std.specs.declared.option.Option.{Option};
ghost use Rattle.std.specs.Io.{ReadsAtMost};
ghost use Rattle.std.specs.Io.KnownBytes.{ReadConsumes};
ghost use Rattle.outside.specs.Counts.{HasCause};

/// The source failed.
#[derive(Clone, Copy, PartialEq, Eq, Debug)]
pub struct SourceFault;

/// Bytes that come one piece after another.
pub trait Source {
    /// The bytes that are left, if the source tells them.
    ghost left: { Self → Option (List ℕ) };

    /// How often the source has failed.
    ghost faults: { Self → ℕ };

    /// Puts bytes at the front of `out`, and answers how many; 0 comes exactly at the end of the input.
    fn fill(&mut self, out: &mut [u8]) -> Result<usize, SourceFault>
        requires room { 0 < length out.old }
        ensures bound { ReadsAtMost result out.new }
        ensures bytes { ReadConsumes (left self.old) (left self.new) result out.new }
        ensures cause { HasCause (faults self.old) (faults self.new) result };
}
