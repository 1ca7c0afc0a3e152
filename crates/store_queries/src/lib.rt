#![tactic(auto)]

//! What a session asks of what it sees: the members of an expression, their names, and what an add comes to.

mod adding;
mod names;
mod query;

pub use adding::{Added, Sought, add_sought, seek};
pub use names::Names;
pub use query::{Found, found_in, members};
