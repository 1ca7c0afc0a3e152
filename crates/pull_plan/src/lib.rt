#![tactic(auto)]

//! What a pull makes of a world: the payload.

mod agreeing;
mod laws;
mod pull;
mod pulled;

pub use laws::honest_pulls_are_told;
pub use pull::plan_pull_change;
