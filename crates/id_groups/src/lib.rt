#![tactic(auto)]

//! Names of commits, the two groups of their ids, and how both are printed.

mod id;
mod laws;
mod name;
mod span;

pub use id::{FIRST_OTHER, Group, ID_END, Id};
pub use laws::{names_decided, names_spelled, one_filtering, printed};
pub use name::{Name, NameRef};
pub use span::IdSpan;
