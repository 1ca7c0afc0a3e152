#![tactic(auto)]

//! The tables of a log that is read, for all who read one.

mod laws;
mod reading;

pub use laws::unlawful_logs_hold_nothing;
pub use reading::{TablesFault, read_tables};
