//! What is answered.

use disk_trait::DiskFault;

/// The sizes of the world, and how long the log is that was read and the one that was written.
#[derive(Clone, Copy, PartialEq, Eq, Debug)]
pub struct Shrunk {
    /// Commits of the master group.
    pub master: u64,
    /// Other commits.
    pub others: u64,
    /// How many bytes the log has that was read.
    pub length_from: u64,
    /// How many bytes the log has that was written.
    pub length_to: u64,
}

/// How writing a log anew ended.
#[derive(Clone, Copy, PartialEq, Eq, Debug)]
pub enum Compacted {
    /// It is written.
    Done(Shrunk),
    /// A call of the disk that is read failed.
    FromDisk(DiskFault),
    /// What is read is no log.
    FromBad,
    /// A call of the disk that is written failed.
    ToDisk(DiskFault),
    /// The file that was to be written is no log, or has a batch. It isn't written.
    NotFresh,
    /// The batch would exceed this limit. It isn't written.
    Full(u64),
    /// Memory was wanted. No batch is written.
    Memory,
}
