#![tactic(auto)]

//! Records of segments: runs of ids in which each id but the lowest has the one before it as its only parent. Beside them
//! the trait of a table of segments, with its laws.

mod edges;
mod flat;
mod head;
mod laws;
mod lent;
mod level;
mod number;
mod passing;
mod reading;
mod segment;
mod steps;
mod stripping;
mod table;
mod writing;

pub use edges::Edges;
pub use laws::{numbers_are_spelled, records_are_spelled, segments_go_on, tables_spelled_out};
pub use lent::{Parents, SegmentRef};
pub use level::write_numbers;
pub use number::number_len;
pub use passing::pass_segment;
pub use reading::read_segment;
pub use steps::Steps;
pub use stripping::strip_short;
pub use table::{Bounds, SegmentTable};
pub use writing::{write_lent, write_segment};
