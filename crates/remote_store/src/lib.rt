#![tactic(auto)]

//! A log as a remote: it answers of the master of the world that a disk's bytes hold, and writes nothing.

mod laws;
mod loaded;
mod names;
mod remote;

pub use change_rules::Limits;
pub use laws::{logs_are_honest, logs_are_sound, logs_are_told};
pub use remote::StoreRemote;
