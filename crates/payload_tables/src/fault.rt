//! Why tables stay as they were.

use name_map::MapFault;
use std::alloc::AllocError;

/// Why a payload wasn't added.
#[derive(Clone, Copy, PartialEq, Eq, Debug, Drop)]
pub enum TableFault {
    /// It may not come behind the payloads before it.
    Unlawful,
    /// There was no memory.
    Memory,
}

impl From<AllocError> for TableFault {
    ghost use Rattle.std.specs.Prelude.{◌≡◌};
    ghost use Rattle.payload_tables.specs.declared.fault.TableFault.TheVariants.{Memory};

    ghost from_gives = { λ _ fault. fault ≡ Memory };

    fn from(_refused: AllocError) -> TableFault {
        TableFault::Memory
    }
}

impl From<MapFault> for TableFault {
    ghost use Rattle.std.specs.Prelude.{◌≡◌};
    ghost use Rattle.payload_tables.specs.Kept.{map_fault};

    ghost from_gives = { λ fault gives. gives ≡ map_fault fault };

    fn from(fault: MapFault) -> TableFault {
        match fault {
            MapFault::Double => TableFault::Unlawful,
            MapFault::Memory => TableFault::Memory,
        }
    }
}
