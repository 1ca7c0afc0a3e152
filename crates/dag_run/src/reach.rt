//! What a run reaches.

use disk_trait::Disk;
use mirror_set::Mirrors;
use remote_trait::Remote;

/// What a run reaches beside its input and its output: the disk of its log, its mirrors, and the list in which the moments of changes
/// are noted.
#[derive(Drop)]
pub struct Reach<'d, 'm, 'c, D: Disk, R: Remote> {
    /// The disk of the log.
    pub disk: &'d mut D,
    /// The mirrors, in the order in which they are asked.
    pub mirrors: &'m mut Mirrors<R>,
    /// The moment of each change so far, in calls of the disk.
    pub changes: &'c mut Vec<u64>,
}
