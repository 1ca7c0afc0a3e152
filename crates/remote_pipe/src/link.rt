//! What bytes go over, to who serves a mirror and back.

ghost use Rattle.std.specs.Prelude.{◌≡◌, ◌≤◌, ◌<◌, ℕ, length, is_some};
ghost use Rattle.std.specs.declared.option.Option.{Option};
ghost use Rattle.std.specs.Io.{ReadsAtMost};
ghost use Rattle.outside.specs.Counts.{HasCause};
ghost use Rattle.outside.specs.Told.{WhereTold};
ghost use Rattle.remote_pipe.specs.Peer.{Peer, PutsTo, TakesFrom};
ghost use Rattle.remote_pipe.specs.Line.{served_by};

use crate::fault::LinkFault;

/// Two ways for bytes, to the other end and from there.
pub trait Link {
    /// Who is at the other end, if the link tells that.
    ghost peer: { Self → Option Peer };

    /// How often bytes couldn't be put.
    ghost put_faults: { Self → ℕ };

    /// How often none could be taken.
    ghost take_faults: { Self → ℕ };

    /// Puts the whole piece; at a fault a front of it was put.
    fn put(&mut self, piece: &[u8]) -> Result<(), LinkFault>
        ensures puts { WhereTold (peer self.old) (peer self.new) (PutsTo piece.now result) }
        ensures served { is_some (served_by (peer self.new)) ≡ is_some (served_by (peer self.old)) }
        ensures cause { HasCause (put_faults self.old) (put_faults self.new) result }
        ensures others { take_faults self.old ≤ take_faults self.new };

    /// Takes bytes that came to the front of `out`, and answers how many; 0 comes exactly where they ended.
    fn take(&mut self, out: &mut [u8]) -> Result<usize, LinkFault>
        requires room { 0 < length out.old }
        ensures bound { ReadsAtMost result out.new }
        ensures takes { WhereTold (peer self.old) (peer self.new) (TakesFrom result out.new) }
        ensures served { is_some (served_by (peer self.new)) ≡ is_some (served_by (peer self.old)) }
        ensures cause { HasCause (take_faults self.old) (take_faults self.new) result }
        ensures others { put_faults self.old ≤ put_faults self.new };
}
