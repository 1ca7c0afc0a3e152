#![tactic(auto)]

//! What the plans of changes share: faults, the change that is written, numbers of commits and their names.

mod change;
mod fault;
mod laws;
mod names;
mod numbers;

pub use change::{Change, FLUSH, Payload, add_levels, check};
pub use fault::PlanFault;
pub use laws::payloads_stand_for_a_world;
pub use names::{Names, add_other_names, names_of};
pub use numbers::{blank, end_of, marks_of, moved, numbered, unmarked};
