#![tactic(auto)]

//! What a flush makes of a world: the payload in which commits move into master.

mod building;
mod graph;
mod numbers;
mod plan;
mod runs;

pub use plan::{add_number, plan_change, plan_moves};
