//! What the calls of a store answer.

use crate::store::Store;
use disk_trait::DiskFault;
use step_rules::Refusal;

/// The sizes of what a session works on, in rows.
#[derive(Clone, Copy, PartialEq, Eq, Debug)]
pub struct Counts {
    /// Master rows of its base.
    pub master: u64,
    /// Other rows of its base.
    pub others: u64,
    /// Its rows that aren't stored.
    pub pending: u64,
}

/// Why a store isn't loaded.
#[derive(Clone, Copy, PartialEq, Eq, Debug)]
pub enum LoadFault {
    /// The gate at this place is open, and its batch with the next gate runs past the end.
    Frame(u64),
    /// The file has so many bytes, more than the limit.
    TooLarge(u64),
    /// This payload is the first that isn't in the grammar, or may not come behind those before it.
    Batch(u32),
    /// A call of the disk failed.
    Disk(DiskFault),
    /// There was no memory.
    Memory,
}

/// How a change ended.
#[derive(Drop)]
pub enum Changed {
    /// The store, the sizes of the stored world, and the clock at the acknowledgement, where something was stored.
    Done(Store, Counts, Option<u64>),
    /// The store as it was, and why nothing was stored.
    Refused(Store, Refusal),
    /// A call of the disk failed, and the store is gone.
    Disk(DiskFault),
}
