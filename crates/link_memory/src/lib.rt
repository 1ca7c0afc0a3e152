#![tactic(auto)]

//! A link in memory, for tests: what is put is served at once, over a remote, and the answers are taken as they are or with something wrong
//! about one of them.

mod coming;
mod link;
mod reached;
mod wrong;

pub use link::{MemoryLink, piped};
pub use reached::Reached;
pub use wrong::{Way, Wrong};
