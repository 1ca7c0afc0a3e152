#![tactic(auto)]

//! A file as a disk: the edge between the store and a file system, of which nothing is told.

mod access;
mod disk;
mod file;
mod lock;

pub use crate::access::Access;
pub use crate::disk::FileDisk;
