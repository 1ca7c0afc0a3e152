#![tactic(auto)]

//! Ancestors and parents over a table of segments.

mod ancestry;
mod floor;
mod jump;
mod laws;
mod parent_set;
mod work_list;

pub use ancestry::{ancestors, first_ancestor, is_ancestor};
pub use floor::ancestors_above;
pub use jump::best_jump;
pub use laws::counts_spelled_out;
pub use parent_set::parents;
pub use work_list::{Window, WorkList};
