#![tactic(auto)]

//! The map between names and master ids of a log. It keeps places in the log's bytes, and no copied name.

mod adding;
mod build;
mod fault;
mod laws;
mod map;
mod part;
mod reading;
mod search;
mod sizes;

pub use build::MapBuild;
pub use fault::MapFault;
pub use laws::{known_names_are_distinct, names_spelled_out, payloads_stay};
pub use map::NameMap;
