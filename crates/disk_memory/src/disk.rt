ghost use Rattle.std.specs.Prelude.{◌≡◌, ◌≤◌, ◌*◌};
ghost use Rattle.disk_trait.specs.Images.{moment_of, IsSound};
ghost use Rattle.disk_memory.specs.Scenes.{history_of, told_of};

use crate::call::Call;
use crate::failing::Failing;
use std::alloc::Global;

/// A disk in memory. Its record has what it held at first, the writes and syncs that counted, each behind so many
/// calls that changed nothing, and how many of these came behind the last of them.
#[derive(Drop)]
pub struct MemoryDisk {
    pub(crate) alloc: Global,
    pub(crate) start: Vec<u8>,
    pub(crate) bytes: Vec<u8>,
    pub(crate) calls: Vec<Call>,
    pub(crate) idle: u64,
    pub(crate) clock: u64,
    pub(crate) failing: Failing,
    pub(crate) faults: u64,
    ghost holds: { bytes.items ≡ (told_of (history_of start.items calls.items idle)).bytes },
    ghost time: { moment_of (told_of (history_of start.items calls.items idle)) ≡ clock },
    ghost few: { 2 * idle ≤ clock },
    ghost sound: { IsSound (told_of (history_of start.items calls.items idle)) },
}
