#![tactic(auto)]

//! What commits have in common, and what only some of them reach, over a table of segments.

mod all_reach;
mod difference;
mod jump;
mod last_members;
mod meeting;

pub use all_reach::{common, gca};
pub use difference::only;
pub use last_members::tips;
