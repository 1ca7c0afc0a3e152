#![tactic(auto)]

//! What a strip makes of a world: the payload.

mod lent;
mod lent_runs;
mod strip;

pub use strip::plan_strip_change;
