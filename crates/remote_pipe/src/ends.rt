//! A source and a sink as a link.

ghost use Rattle.std.specs.Prelude.{◌≡◌, ◌≤◌, ◌<◌, length, is_some};
ghost use Rattle.std.specs.Io.{ReadsAtMost};
ghost use Rattle.outside.specs.Counts.{HasCause};
ghost use Rattle.outside.specs.Told.{WhereTold};
ghost use Rattle.remote_pipe.specs.Peer.{PutsTo, TakesFrom, peer_of};
ghost use Rattle.remote_pipe.specs.Line.{served_by};

use crate::fault::LinkFault;
use crate::link::Link;
use line_io::{Sink, Source};

/// A sink, where bytes are put, and a source, from which others come. Nobody is known to serve behind them.
#[derive(Drop)]
pub struct Ends<I: Source + Drop, O: Sink + Drop> {
    input: I,
    output: O,
}

impl<I: Source + Drop, O: Sink + Drop> Ends<I, O> {
    /// A link that puts to the one and takes from the other.
    pub fn new(input: I, output: O) -> Ends<I, O>
        ensures input { result.input ≡ input }
        ensures output { result.output ≡ output }
    {
        Ends { input, output }
    }
}

impl<I: Source + Drop, O: Sink + Drop> Link for Ends<I, O> {
    ghost use Rattle.remote_pipe.specs.Peer.{peer_of};

    ghost peer = { λ e. peer_of (I.left e.input) (O.taken e.output) };

    ghost put_faults = { λ e. O.faults e.output };

    ghost take_faults = { λ e. I.faults e.input };

    fn put(&mut self, piece: &[u8]) -> Result<(), LinkFault>
        ensures puts { WhereTold (peer_of (I.left self.old.input) (O.taken self.old.output)) (peer_of (I.left self.new.input) (O.taken self.new.output)) (PutsTo piece.now result) }
        ensures served { is_some (served_by (peer_of (I.left self.new.input) (O.taken self.new.output))) ≡ is_some (served_by (peer_of (I.left self.old.input) (O.taken self.old.output))) }
        ensures cause { HasCause (O.faults self.old.output) (O.faults self.new.output) result }
        ensures others { I.faults self.old.input ≤ I.faults self.new.input }
        ensures input { self.new.input ≡ self.old.input }
    {
        match self.output.put(piece) {
            Ok(()) => Ok(()),
            Err(_fault) => Err(LinkFault),
        }
    }

    fn take(&mut self, out: &mut [u8]) -> Result<usize, LinkFault>
        requires room { 0 < length out.old }
        ensures bound { ReadsAtMost result out.new }
        ensures takes { WhereTold (peer_of (I.left self.old.input) (O.taken self.old.output)) (peer_of (I.left self.new.input) (O.taken self.new.output)) (TakesFrom result out.new) }
        ensures served { is_some (served_by (peer_of (I.left self.new.input) (O.taken self.new.output))) ≡ is_some (served_by (peer_of (I.left self.old.input) (O.taken self.old.output))) }
        ensures cause { HasCause (I.faults self.old.input) (I.faults self.new.input) result }
        ensures others { O.faults self.old.output ≤ O.faults self.new.output }
        ensures output { self.new.output ≡ self.old.output }
    {
        match self.input.fill(out) {
            Ok(count) => Ok(count),
            Err(_fault) => Err(LinkFault),
        }
    }
}
