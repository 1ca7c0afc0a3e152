#![tactic(auto)]

//! Tables over bytes of their own, for tests and benchmarks: flat ones of commits that are handed in or of drawn histories, and
//! levels of a log whose records are added some at a time.

mod held;
mod history;
mod laws;
mod levels;
mod others;
mod parents;
mod sample;

pub use held::{held_id, held_ids};
pub use history::{Rule, draw_history};
pub use laws::histories_spelled_out;
pub use levels::LevelSample;
pub use others::OtherSample;
pub use sample::Sample;
