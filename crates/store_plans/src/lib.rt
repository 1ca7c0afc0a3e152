#![tactic(auto)]

//! What a session keeps, and what its change is: planned, and all memory for it taken.

mod changing;
mod cloning;
mod finding;
mod lookup;
mod planning;
mod pulling;
mod seen;
mod session;
mod sources;
mod stripping;

pub use changing::{Next, prepare_flush, reloaded};
pub use cloning::prepare_clone;
pub use lookup::{are_names, find, find_seen, has_parents, has_unnamed, refusal_of};
pub use planning::lacks_names;
pub use pulling::prepare_pull;
pub use seen::Seen;
pub use session::Session;
pub use sources::NameSources;
pub use stripping::prepare_strip;
