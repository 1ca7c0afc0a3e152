#![tactic(auto)]

//! The bundle of a stored master.

mod making;

pub use making::{bundle_of, bundle_of_store};
