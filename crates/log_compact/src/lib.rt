//! A log written anew: what a log holds, in one batch of another log.
#![tactic(auto)]

mod answer;
mod whole;
mod writing;

pub use answer::{Compacted, Shrunk};
pub use writing::compact;
