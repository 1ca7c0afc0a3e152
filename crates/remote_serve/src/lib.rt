#![tactic(auto)]

//! Serving a mirror: requests come in frames, and each is answered in a frame before the next one is read.

mod ask;
mod asking;
mod frames;
mod laws;
mod once;
mod refused;
mod served;
mod serving;
mod spelling;

pub use ask::Ask;
pub use laws::{failures_are_counted, frames_are_split};
pub use once::answer_frame;
pub use served::Served;
pub use serving::{Desk, serve, serve_remote};
