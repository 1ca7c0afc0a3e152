#![tactic(auto)]

//! Runs of command lines over a log: from the bytes that are read to the bytes that are written.

mod bundling;
mod compacting;
mod demo;
mod execute;
mod laws;
mod program;
mod reach;
mod replies;
mod report;
mod serving;
mod stops;
mod words;

pub use dag_store::Limits;
pub use execute::execute as execute_line;
pub use laws::{new_disks_begin, runs_that_pull_begin, words_spelled_out};
pub use program::{run_lines, run_mode, top, usage_of};
pub use reach::Reach;
pub use report::{Moments, Report};
pub use stops::Stop;
pub use words::{Split, split_words};
