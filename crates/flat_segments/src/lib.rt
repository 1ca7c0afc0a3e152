#![tactic(auto)]

//! The commits of a graph as flat segments, whose parents are read from the log's bytes when they are wanted.

mod entry;
mod fault;
mod joining;
mod laws;
mod lookups;
mod record;
mod run;
mod search;
mod section;
mod table;
mod view;

pub use fault::FlatFault;
pub use laws::{cut_segments, maximal_segments, segments_by_parents, segments_spelled_out};
pub use section::Section;
pub use table::FlatTable;
pub use view::FlatView;
