#![tactic(auto)]

//! Payloads of a log: the records, names and counts that one change of the store adds.

mod batch;
mod building;
mod counts;
mod fixed;
mod laws;
mod lent;
mod rules;
mod section;
mod sections;
mod whole;

pub use building::BatchBuild;
pub use fixed::{read_piece, read_u16, read_u32, read_u64};
pub use laws::{
    lawful_payloads, payloads_are_spelled, sections_by_records, unknown_ids_were_cloned,
};
pub use lent::{KnownRef, KnownSlice, NameSlice, SegmentSlice};
pub use section::{read_names, read_section};
pub use whole::BatchRef;
