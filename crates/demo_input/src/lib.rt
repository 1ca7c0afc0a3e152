#![tactic(auto)]

//! The input lines of a demonstration: commits whose parents are drawn from a start number, their flushes, and four
//! questions at the end.

mod commits;
mod drawing;
mod laws;
mod text;

pub use crate::commits::{CommitLines, last_lines};
pub use crate::laws::first_draws;
