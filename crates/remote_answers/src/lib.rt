#![tactic(auto)]

//! What a remote answers of a master that it has as a table of segments with names: names along first parents, paths to commits, and
//! clone data. No call walks over single commits, but for those whose names it gives.

mod cloning;
mod line;
mod marks;
mod names;
mod path;
mod reached;

pub use cloning::clone_of;
pub use line::put_names;
pub use names::MasterNames;
pub use path::find_path;
pub use reached::Reached;
