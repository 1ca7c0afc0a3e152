//! Putting a payload behind a log in memory alone, since it stands on a disk already.

ghost use Rattle.std.specs.Prelude.{◌≡◌, ◌≤◌, ◌++◌, ◌∷◌, ◌+◌, [], length};
ghost use Rattle.gated_log.specs.Held.{log_bytes, longer};
ghost use Rattle.gated_log.specs.Log.{StandsFrom};

use disk_trait::{Disk, DiskFault};
use gated_log::{Committed, Log};

/// A disk on which nothing is put, since what is written to it stands on another one already.
#[derive(Drop)]
struct Elsewhere;

impl Disk for Elsewhere {
    ghost use Rattle.std.specs.Prelude.{None};

    ghost bytes = { λ d. None };

    ghost told = { λ d. None };

    ghost meanwhile = { λ d. None };

    ghost faults = { λ d. 0 };

    ghost tells = { λ d. tt };

    ghost sound = { λ d. tt };

    fn size(&mut self) -> Result<u64, DiskFault> {
        Ok(0)
    }

    fn read(&mut self, _at: u64, _out: &mut [u8]) -> Result<usize, DiskFault> {
        Ok(0)
    }

    fn write(&mut self, _at: u64, _piece: &[u8]) -> Result<(), DiskFault> {
        Ok(())
    }

    fn sync(&mut self) -> Result<(), DiskFault> {
        Ok(())
    }

    fn clock(&self) -> u64 {
        0
    }
}

/// Puts a payload behind the others of a log that has room for it.
pub(crate) fn append(log: Log, payload: &[u8]) -> Log
    requires { (longer log payload.now ≤ log.limit) × (longer log payload.now ≤ log.room) }
    ensures payloads { result.payloads ≡ log.payloads ++ payload.now ∷ [] }
    ensures limit { result.limit ≡ log.limit }
    ensures gate { result.gate ≡ 0 }
    ensures place { StandsFrom (length (log_bytes log) + 8) payload.now (log_bytes result) }
{
    match log.commit(&mut Elsewhere, payload) {
        Committed::Done(log, _clock) => log,
        Committed::Full(_log, _limit) => unreachable!(),
        Committed::Memory(_log) => unreachable!(),
        Committed::Disk(_fault) => unreachable!(),
    }
}
