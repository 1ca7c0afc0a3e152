//! Sets of ids, held as spans.

#![tactic(auto)]

mod algebra;
mod ids_down;
mod laws;
mod search;
mod set;

pub use ids_down::IdsDown;
pub use laws::{each_once, one_form, spans_spelled_out};
pub use set::IdSet;
