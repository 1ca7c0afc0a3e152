//! Why records are not added.

use std::alloc::AllocError;

/// Why a table stays as it was.
#[derive(Clone, Copy, PartialEq, Eq, Debug)]
pub enum FlatFault {
    /// The record of this number, counted from 0, is the first that may not come where it stands.
    BadSegment(u32),
    /// Memory was wanted.
    Memory,
}

impl From<AllocError> for FlatFault {
    ghost use Rattle.std.specs.Prelude.{◌≡◌};
    ghost use Rattle.flat_segments.specs.declared.fault.FlatFault.TheVariants.{Memory};

    ghost from_gives = { λ _ fault. fault ≡ Memory };

    fn from(_fault: AllocError) -> FlatFault {
        FlatFault::Memory
    }
}
