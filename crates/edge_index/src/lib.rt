#![tactic(auto)]

//! Which flat segments begin on an id: the edges of a table of segments, kept as numbers in order.

mod finding;
mod index;
mod merge;
mod order;

pub use index::EdgeIndex;
