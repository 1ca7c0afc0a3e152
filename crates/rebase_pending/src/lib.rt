#![tactic(auto)]

//! Pending rows on a newer world.

mod rebasing;

pub use rebasing::{add_id, has_parents, rebase};
