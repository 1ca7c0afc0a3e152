//! An index of names by place: sorted runs of places, whose names are read from bytes that the caller lends.
//!
//! Of a name it keeps its front, a number that all its bytes are mixed into, beside its place, 16 bytes in all. A change
//! adds a run and merges it with the last runs that are not much longer, so there are few runs. A run of many entries has
//! a filter besides, of 11 bits an entry: it tells of most names that the run doesn't hold by one word. A look-up is a
//! search in each run that may hold the name.

#![tactic(auto)]

mod entry;
mod filter;
mod index;
mod laws;
mod merge;
mod moved;
mod order;
mod run;
mod search;

pub use index::{IndexFault, NameIndex};
pub use laws::{any_order, keys_spelled_out, names_are_distinct};
