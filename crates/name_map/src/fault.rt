//! Why a payload wasn't added.

use name_index::IndexFault;
use std::alloc::AllocError;

/// Why a payload wasn't added.
#[derive(Clone, Copy, PartialEq, Eq, Debug)]
pub enum MapFault {
    /// A known name, or another name of the payload, stands twice among these and the known names of the payloads
    /// before it.
    Double,
    /// There was no memory.
    Memory,
}

impl From<AllocError> for MapFault {
    ghost use Rattle.std.specs.Prelude.{◌≡◌};
    ghost use Rattle.name_map.specs.declared.fault.MapFault.TheVariants.{Memory};

    ghost from_gives = { λ _ fault. fault ≡ Memory };

    fn from(_refused: AllocError) -> MapFault {
        MapFault::Memory
    }
}

impl From<IndexFault> for MapFault {
    ghost use Rattle.std.specs.Prelude.{◌≡◌};
    ghost use Rattle.name_map.specs.Adding.{fault_of};

    ghost from_gives = { λ fault gives. gives ≡ fault_of fault };

    fn from(fault: IndexFault) -> MapFault {
        match fault {
            IndexFault::Double => MapFault::Double,
            IndexFault::Memory => MapFault::Memory,
        }
    }
}
