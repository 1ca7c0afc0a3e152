#![tactic(auto)]

//! A bundle as a remote: it answers of the rows of the bundle that a disk's bytes are, and writes nothing.

mod held;
mod laws;
mod lookups;
mod names;
mod reading;
mod remote;
mod segments;
mod whole;

pub use bundle_codec::{Bundle, BundleBuild, BundleFault};
pub use laws::mirrors_of_bundles;
pub use remote::BundleRemote;
