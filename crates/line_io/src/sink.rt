//! A sink of bytes.

ghost use Rattle.std.specs.Prelude.{ℕ, List};
ghost use Rattle.std.specs.declared.option.Option.{Option};
ghost use Rattle.outside.specs.Counts.{HasCause};
ghost use Rattle.outside.specs.Told.{Puts};

/// The sink failed.
#[derive(Clone, Copy, PartialEq, Eq, Debug)]
pub struct SinkFault;

/// A place where bytes go, one piece after another.
pub trait Sink {
    /// The bytes that were taken, if the sink tells them.
    ghost taken: { Self → Option (List ℕ) };

    /// How often the sink has failed.
    ghost faults: { Self → ℕ };

    /// Takes the whole piece; at a fault a front of it was taken.
    fn put(&mut self, piece: &[u8]) -> Result<(), SinkFault>
        ensures bytes { Puts (taken self.old) (taken self.new) result piece.now }
        ensures cause { HasCause (faults self.old) (faults self.new) result };
}
