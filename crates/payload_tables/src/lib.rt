#![tactic(auto)]

//! What is kept of a log's payloads and of pending rows, and the world that a session sees by them.

mod base;
mod brought;
mod build;
mod fault;
mod heads;
mod indexing;
mod masters;
mod others;
mod pending;
mod piece;
mod tables;

pub use base::BaseRef;
pub use build::TablesBuild;
pub use fault::TableFault;
pub use others::OthersTable;
pub use pending::PendingRows;
pub use tables::Tables;
