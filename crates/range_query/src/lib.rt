#![tactic(auto)]

//! Children, descendants, ranges, heads, roots and merges over a table of segments.

mod between;
mod child_walk;
mod cut;
mod downward;
mod edge_walk;
mod flat_pass;
mod head_walk;
mod ladder;
mod merge_walk;
mod place;
mod rising;
mod root_walk;
mod tail;
mod upward;

pub use between::range;
pub use child_walk::children;
pub use head_walk::heads;
pub use merge_walk::merges;
pub use root_walk::roots;
pub use upward::descendants;
