//! Writing a log anew.

ghost use Rattle.std.specs.Prelude.{◌≡◌, ◌⊎◌, ◌≤◌, ◌^◌};
ghost use Rattle.change_rules.specs.Holding.{KeepsHolding};
ghost use Rattle.disk_trait.specs.Since.{IsUntouched};
ghost use Rattle.outside.specs.Counts.{Rose};
ghost use Rattle.outside.specs.Told.{WhereTold};
ghost use Rattle.id_groups.specs.Name.{Name};
ghost use Rattle.commit_graph.specs.World.{World};
ghost use Rattle.disk_trait.specs.Calls.{Goes};
ghost use Rattle.gated_log.specs.Load.{LeavesOldOrFresh};
ghost use Rattle.dag_run.specs.Compacting.{CompactMeans, HasStatus, IsCompactStatus, PutsAnswer};

use command_lines::put_shrunk;
use disk_trait::Disk;
use line_io::Sink;
use log_compact::{Compacted, Shrunk, compact};
use std::alloc::Global;

/// Puts the line that tells of it, and gives the status: 0 where it was put whole, else 6.
fn tell_shrunk<O: Sink>(output: &mut O, shrunk: &Shrunk) -> u8
    ensures has { (result ≡ 0) ⊎ (result ≡ 6) }
    ensures puts { WhereTold (O.taken output.old) (O.taken output.new) (PutsAnswer (Compacted.Done shrunk.now) result) }
    ensures sink { result ≡ 6 → Rose (O.faults output.old) (O.faults output.new) }
{
    let put = put_shrunk(
        output,
        shrunk.master,
        shrunk.others,
        shrunk.length_from,
        shrunk.length_to,
    );
    match put {
        Ok(()) => 0,
        Err(_) => 6,
    }
}

/// Puts the line where the answer is that it is written, and gives the status.
fn tell_answer<O: Sink>(output: &mut O, answer: Compacted) -> u8
    ensures has { HasStatus answer result }
    ensures puts { WhereTold (O.taken output.old) (O.taken output.new) (PutsAnswer answer result) }
    ensures nothing { (result ≡ 0) ⊎ ((result ≡ 6) ⊎ (output.new ≡ output.old)) }
    ensures sink { result ≡ 6 → Rose (O.faults output.old) (O.faults output.new) }
{
    match answer {
        Compacted::Done(shrunk) => tell_shrunk(output, &shrunk),
        Compacted::FromDisk(_) => 3,
        Compacted::FromBad => 4,
        Compacted::Memory => 7,
        Compacted::ToDisk(_) => 13,
        Compacted::NotFresh => 14,
        Compacted::Full(_) => 15,
    }
}

/// Writes what the log holds anew to the spare disk, puts a line that tells of it, and gives the status: 0 where it is written and the
/// line put, 3 where a call of the log's disk failed, 4 where its bytes are no log, 6 where it is written and the sink failed, 7 where
/// memory was wanting, 13 where a call of the spare disk failed, 14 where its bytes are no log or have a batch, and 15 where the
/// payload is too long for the limit.
pub(crate) fn compact_log<D: Disk, O: Sink>(
    alloc: Global,
    limit: u64,
    log: &mut D,
    spare: &mut D,
    output: &mut O,
) -> u8
    requires { (1 ≤ limit) × (limit ≤ 2 ^ 32) }
    ensures known { IsCompactStatus result }
    ensures means { CompactMeans limit (D.bytes log.old) (D.bytes spare.old) (D.told spare.old) (D.told spare.new) (O.taken output.old) (O.taken output.new) result }
    ensures holds { (w : World Name) → Goes (KeepsHolding limit w) (D.told log.old) (D.told log.new) }
    ensures loaded { Goes LeavesOldOrFresh (D.told log.old) (D.told log.new) }
    ensures quiet { (result ≡ 3) ⊎ (result ≡ 4) → spare.new ≡ spare.old }
    ensures nothing { (result ≡ 0) ⊎ ((result ≡ 6) ⊎ (output.new ≡ output.old)) }
    ensures unwritten { result ≡ 4 → Goes IsUntouched (D.told log.old) (D.told log.new) }
    ensures disk { result ≡ 3 → Rose (D.faults log.old) (D.faults log.new) }
    ensures spare_disk { result ≡ 13 → Rose (D.faults spare.old) (D.faults spare.new) }
    ensures sink { result ≡ 6 → Rose (O.faults output.old) (O.faults output.new) }
{
    let answer = compact(alloc, log, spare, limit);
    tell_answer(output, answer)
}
