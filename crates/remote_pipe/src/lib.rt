#![tactic(auto)]

//! A mirror at the other end of a pipe as a remote: each call puts a request in a frame and takes an answer in one, and names that are asked
//! for next are asked for ahead.

mod ahead;
mod ends;
mod exchange;
mod fault;
mod laws;
mod line;
mod link;
mod reading;
mod remote;
mod spelling;
mod told;

pub use ends::Ends;
pub use fault::{LinkFault, PipeFault};
pub use laws::{
    answers_ahead_are_allowed, answers_are_one, served_answers_are_allowed, served_mirrors_serve,
    servers_are_peers,
};
pub use link::Link;
pub use remote::PipeRemote;
