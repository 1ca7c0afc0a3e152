//! The order in which commits move into master: parents from left to right, and then the commit.

#![tactic(auto)]

mod graph;
mod laws;
mod order;
mod walk;

pub use graph::{Node, ParentsOf};
pub use laws::{
    exactly_ancestors, more_rows, order_spelled_out, parents_first, placed_before,
    placed_behind_parents, placed_by_names, placed_once, rows_placed_before,
    rows_placed_behind_parents,
};
pub use walk::place;
