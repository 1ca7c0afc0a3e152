//! Why a run stops.

use line_io::{LineFault, SinkFault};
use std::alloc::AllocError;

/// Why a run ended before the end of its input.
#[derive(Clone, Copy, PartialEq, Eq, Debug)]
pub enum Stop {
    /// Memory was wanting before the first line.
    Memory,
    /// The bytes of the disk are no log.
    NoLog,
    /// The disk failed while the log was loaded.
    NotLoaded,
    /// The disk failed in a change.
    NotStored,
    /// The source failed.
    Source,
    /// The sink failed.
    Sink,
    /// The input is longer than the limit.
    Limit,
}

impl From<AllocError> for Stop {
    ghost use Rattle.std.specs.Prelude.{◌≡◌};
    ghost use Rattle.dag_run.specs.declared.stops.Stop.TheVariants.{Memory};

    ghost from_gives = { λ _ stop. stop ≡ Memory };

    fn from(_refused: AllocError) -> Stop {
        Stop::Memory
    }
}

impl From<SinkFault> for Stop {
    ghost use Rattle.std.specs.Prelude.{◌≡◌};
    ghost use Rattle.dag_run.specs.declared.stops.Stop.TheVariants.{Sink};

    ghost from_gives = { λ _ stop. stop ≡ Sink };

    fn from(_fault: SinkFault) -> Stop {
        Stop::Sink
    }
}

impl From<LineFault> for Stop {
    ghost use Rattle.std.specs.Prelude.{◌≡◌};
    ghost use Rattle.dag_run.specs.Stops.{stop_of};

    ghost from_gives = { λ fault stop. stop ≡ stop_of fault };

    fn from(fault: LineFault) -> Stop {
        match fault {
            LineFault::Read => Stop::Source,
            LineFault::Limit => Stop::Limit,
        }
    }
}
