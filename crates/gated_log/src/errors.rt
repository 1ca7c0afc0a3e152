// From the faults of the disk and of the memory to those of a log.
ghost use Rattle.std.specs.Prelude.{◌≡◌};
ghost use Rattle.gated_log.specs.declared.LoadLog.TheVariants.{Disk, Memory};
ghost use Rattle.gated_log.specs.declared.ReserveFault.TheVariants as faults;

use crate::{LoadLog, ReserveFault};
use disk_trait::DiskFault;
use std::alloc::{AllocError, AllocFailed};

impl From<DiskFault> for LoadLog {
    ghost from_gives = { λ fault e. e ≡ Disk fault };

    fn from(fault: DiskFault) -> LoadLog {
        LoadLog::Disk(fault)
    }
}

impl From<AllocError> for LoadLog {
    ghost from_gives = { λ _ e. e ≡ Memory };

    fn from(_refused: AllocError) -> LoadLog {
        LoadLog::Memory
    }
}

impl<T: Drop> From<AllocFailed<T>> for LoadLog {
    ghost from_gives = { λ _ e. e ≡ Memory };

    fn from(_refused: AllocFailed<T>) -> LoadLog {
        LoadLog::Memory
    }
}

impl From<AllocError> for ReserveFault {
    ghost from_gives = { λ _ e. e ≡ faults.Memory };

    fn from(_refused: AllocError) -> ReserveFault {
        ReserveFault::Memory
    }
}
