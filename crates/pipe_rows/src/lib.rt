#![tactic(auto)]

//! A mirror at the other end of a link: answers that are wrong, or stop, or come in pieces, what is asked behind them, and what is asked ahead.

ghost use Rattle.std.specs.Prelude.{◌≤◌, ◌*◌, length};
ghost use Rattle.remote_trait.specs.Runs.{Run};
ghost use Rattle.remote_serve.specs.Requests.{IsRequest};
ghost use Rattle.remote_pipe.specs.Ahead.{most_ahead, request_of};
ghost use Rattle.remote_pipe.specs.Peer.{request_frame};

#[cfg(test)]
mod ahead;
#[cfg(test)]
mod chain;
#[cfg(test)]
mod wrong;

/// All that may be asked ahead together is no more than a pipe holds, whose other end doesn't read: 65,536 bytes, as Linux makes them. So no
/// end waits for the other to read what it asks ahead.
pub fn what_is_asked_ahead_fits_a_pipe()
    ensures { (run : Run) → IsRequest (request_of run) → most_ahead * length (request_frame (request_of run)) ≤ 65536 }
{}
