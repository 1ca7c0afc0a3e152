//! The functions by which C changes what is stored.

ghost use Rattle.std.specs.Prelude.{◌≡◌};
ghost use Rattle.call_disk.specs.Performed.{HonestDisk};
ghost use Rattle.step_rules.specs.Verb.{Clone as ToClone, Pull as ToPull};
ghost use Rattle.segdag_c.specs.Changing.{FlushCame, GivesCounts, MirrorChangeCame, StripCame};
ghost use Rattle.segdag_c.specs.Handles.{SlotAnswers, code_of as told_code};

use crate::changing::{clone, flush, pull, strip};
use crate::codes::{DONE, Failure, code_of};
use crate::exports::closed;
use crate::slot::{Slot, put, take};
use dag_store::Counts;
use std::alloc::Global;

/// Tells how many commits are in master and beside it, where a change was done.
fn tell_counts(answer: Result<Counts, Failure>, master: &mut u64, others: &mut u64) -> u32
    ensures code { result ≡ told_code answer }
    ensures counts { GivesCounts master.old master.new others.old others.new answer }
{
    match answer {
        Ok(counts) => {
            *master = counts.master;
            *others = counts.others;
            DONE
        }
        Err(failure) => code_of(failure),
    }
}

/// Stores what a session added behind the stored world, moves these heads, 20 bytes each, and all that they reach into master, and says how many
/// commits are in master and beside it. What is to be performed before it counts is noted.
#[unsafe(no_mangle)]
pub extern "C" fn segdag_core_flush(
    alloc: Global,
    slot: &mut Slot,
    session: u8,
    heads: &[u8],
    master: &mut u64,
    others: &mut u64,
) -> u32
    ghost disk: { HonestDisk }
    ensures { SlotAnswers slot.old.handle.held slot.new.handle.held result (FlushCame session heads.now disk.told) (GivesCounts master.old master.new others.old others.new) }
{
    match take(alloc, slot) {
        Some(taken) => {
            let mut held = taken;
            let answer = flush(alloc, &mut *held, session, heads);
            put(slot, held);
            tell_counts(answer, master, others)
        }
        None => closed(),
    }
}

/// Takes these commits, 20 bytes each, one at least, with all that descend from them out of the stored world, and says the same.
#[unsafe(no_mangle)]
pub extern "C" fn segdag_core_strip(
    alloc: Global,
    slot: &mut Slot,
    session: u8,
    names: &[u8],
    master: &mut u64,
    others: &mut u64,
) -> u32
    ghost disk: { HonestDisk }
    ensures { SlotAnswers slot.old.handle.held slot.new.handle.held result (StripCame session names.now disk.told) (GivesCounts master.old master.new others.old others.new) }
{
    match take(alloc, slot) {
        Some(taken) => {
            let mut held = taken;
            let answer = strip(alloc, &mut *held, session, names);
            put(slot, held);
            tell_counts(answer, master, others)
        }
        None => closed(),
    }
}

/// Stores the master of a mirror where nothing is stored yet, and says the same.
#[unsafe(no_mangle)]
pub extern "C" fn segdag_core_clone(
    alloc: Global,
    slot: &mut Slot,
    session: u8,
    master: &mut u64,
    others: &mut u64,
) -> u32
    ghost disk: { HonestDisk }
    ensures { SlotAnswers slot.old.handle.held slot.new.handle.held result (MirrorChangeCame ToClone session disk.told) (GivesCounts master.old master.new others.old others.new) }
{
    match take(alloc, slot) {
        Some(taken) => {
            let mut held = taken;
            let answer = clone(alloc, &mut *held, session);
            put(slot, held);
            tell_counts(answer, master, others)
        }
        None => closed(),
    }
}

/// Stores the new master rows of a mirror behind those of the stored world, and says the same.
#[unsafe(no_mangle)]
pub extern "C" fn segdag_core_pull(
    alloc: Global,
    slot: &mut Slot,
    session: u8,
    master: &mut u64,
    others: &mut u64,
) -> u32
    ghost disk: { HonestDisk }
    ensures { SlotAnswers slot.old.handle.held slot.new.handle.held result (MirrorChangeCame ToPull session disk.told) (GivesCounts master.old master.new others.old others.new) }
{
    match take(alloc, slot) {
        Some(taken) => {
            let mut held = taken;
            let answer = pull(alloc, &mut *held, session);
            put(slot, held);
            tell_counts(answer, master, others)
        }
        None => closed(),
    }
}
