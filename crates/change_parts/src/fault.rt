//! Why there is no plan.

use change_rules::Limit;
use id_groups::Name;
use std::alloc::AllocError;

/// Why there is no plan.
#[derive(Clone, Copy, PartialEq, Eq, Debug, Drop)]
pub enum PlanFault {
    /// A head is neither stored nor pending.
    Unknown(Name),
    /// A pending row is stored with other parents.
    Conflict(Name),
    /// A pending row would lose this parent: it isn't stored, and no pending row.
    Lost(Name),
    /// A strip would leave nothing of so many rows.
    Emptied(u64),
    /// There would be more than so many.
    Full(Limit, u64),
    /// The item of clone data with this number is the first that breaks its rule.
    BadClone(u64),
    /// The fetched name of the row with this id can't be a new row's.
    BadRow(u64),
    /// There was no memory.
    Memory,
}

impl From<AllocError> for PlanFault {
    ghost use Rattle.std.specs.Prelude.{◌≡◌};
    ghost use Rattle.change_parts.specs.declared.fault.PlanFault.TheVariants.{Memory};

    ghost from_gives = { λ _ fault. fault ≡ Memory };

    fn from(_refused: AllocError) -> PlanFault {
        PlanFault::Memory
    }
}
