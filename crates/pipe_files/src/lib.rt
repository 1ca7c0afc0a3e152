#![tactic(auto)]

//! The two ends of a pipe by their paths, opened when bytes are first wanted: the edge between a link and a file system, of which nothing
//! is told.

mod sink;
mod source;

pub use crate::sink::PipeSink;
pub use crate::source::PipeSource;
