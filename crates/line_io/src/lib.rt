#![tactic(auto)]

//! Sources and sinks of bytes that count their faults, and the lines of an input.

mod laws;
mod lines;
mod memory_sink;
mod memory_source;
mod sink;
mod source;
mod std_io;

pub use laws::examples;
pub use lines::{Line, LineFault, Lines};
pub use memory_sink::MemorySink;
pub use memory_source::MemorySource;
pub use sink::{Sink, SinkFault};
pub use source::{Source, SourceFault};
pub use std_io::{StdSink, StdSource};
