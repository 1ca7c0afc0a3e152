#![tactic(auto)]

//! What is kept of levels of segments, and their laws.

mod laws;

pub use laws::{
    groups_are_greatest, heads_by_ids, levels_are_headed, levels_nest, levels_stay,
    new_levels_are_behind, segments_of_graph,
};
