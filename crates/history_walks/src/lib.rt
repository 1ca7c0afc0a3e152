#![tactic(auto)]

//! Walks for what a page of history shows: a line of first parents, the parents of a row in their order, how far tips are apart.

mod first_parents;
mod rows;
mod tips;

pub use first_parents::line;
pub use rows::{InOrder, parents_in_order};
pub use tips::{Distance, sides};
