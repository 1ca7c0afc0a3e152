#![tactic(auto)]

//! What a clone makes of what a remote told: the payload.

mod cloning;
mod told;

pub use cloning::plan_clone_change;
