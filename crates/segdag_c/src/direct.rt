//! The functions that C calls with names and numbers alone: no text is read for them, and none is made.

ghost use Rattle.std.specs.Prelude.{◌≡◌, ℕ};
ghost use Rattle.dag_store.specs.declared.replies.Counts.{Counts as Told};
ghost use Rattle.segdag_c.specs.Calls.{CountCame, DiscardCame, PlaceCame, QueryCame, ReloadCame, SizesCame};
ghost use Rattle.segdag_c.specs.Handles.{Gives, SlotAnswers, code_of as told_code};
ghost use Rattle.segdag_c.specs.Pairs.{ancestor_form, bases_form, only_form, place_form};

use crate::codes::{DONE, Failure, code_of};
use crate::exports::{closed, tell_count, tell_size};
use crate::pairs::{count_ancestor, count_only, find_at_place, find_bases};
use crate::sizes::{discard, reload, sizes};
use crate::slot::{Slot, put, take};
use dag_store::Counts;
use id_groups::Name;
use std::alloc::Global;

/// Says how often the first commit stands among the second and its ancestors: 1 where it is that or an ancestor of it, and else 0.
#[unsafe(no_mangle)]
pub extern "C" fn segdag_core_is_ancestor(
    alloc: Global,
    slot: &mut Slot,
    session: u8,
    a: &[u8; 20],
    b: &[u8; 20],
    count: &mut u64,
) -> u32
    ensures { SlotAnswers slot.old.handle.held slot.new.handle.held result (CountCame session (ancestor_form a.now b.now)) (Gives (λ (n : ℕ). n) count.old count.new) }
{
    match take(alloc, slot) {
        Some(taken) => {
            let mut held = taken;
            let a = Name::from_bytes(*a);
            let answer = count_ancestor(alloc, &mut *held, session, &a, &Name::from_bytes(*b));
            put(slot, held);
            tell_count(answer, count)
        }
        None => closed(),
    }
}

/// Says how many commits the first one reaches and the second doesn't.
#[unsafe(no_mangle)]
pub extern "C" fn segdag_core_only(
    alloc: Global,
    slot: &mut Slot,
    session: u8,
    a: &[u8; 20],
    b: &[u8; 20],
    count: &mut u64,
) -> u32
    ensures { SlotAnswers slot.old.handle.held slot.new.handle.held result (CountCame session (only_form a.now b.now)) (Gives (λ (n : ℕ). n) count.old count.new) }
{
    match take(alloc, slot) {
        Some(taken) => {
            let mut held = taken;
            let a = Name::from_bytes(*a);
            let answer = count_only(alloc, &mut *held, session, &a, &Name::from_bytes(*b));
            put(slot, held);
            tell_count(answer, count)
        }
        None => closed(),
    }
}

/// Finds the merge bases of two commits, keeps their names, the greatest id first, and says how many bytes these have, 20 each.
#[unsafe(no_mangle)]
pub extern "C" fn segdag_core_merge_bases(
    alloc: Global,
    slot: &mut Slot,
    session: u8,
    a: &[u8; 20],
    b: &[u8; 20],
    size: &mut usize,
) -> u32
    ensures { SlotAnswers slot.old.handle.held slot.new.handle.held result (QueryCame session (bases_form a.now b.now)) (Gives (λ (n : ℕ). n) size.old size.new) }
{
    match take(alloc, slot) {
        Some(taken) => {
            let mut held = taken;
            let a = Name::from_bytes(*a);
            let answer = find_bases(alloc, &mut *held, session, &a, &Name::from_bytes(*b));
            put(slot, held);
            tell_size(answer, size)
        }
        None => closed(),
    }
}

/// Finds the commit at a place, counted from the greatest id, which is at place 1, keeps its name, and says how many bytes that has: 20, or
/// none where there are fewer commits.
#[unsafe(no_mangle)]
pub extern "C" fn segdag_core_at_place(
    alloc: Global,
    slot: &mut Slot,
    session: u8,
    place: u64,
    size: &mut usize,
) -> u32
    ensures { SlotAnswers slot.old.handle.held slot.new.handle.held result (PlaceCame session place (place_form place)) (Gives (λ (n : ℕ). n) size.old size.new) }
{
    match take(alloc, slot) {
        Some(taken) => {
            let mut held = taken;
            let answer = find_at_place(alloc, &mut *held, session, place);
            put(slot, held);
            tell_size(answer, size)
        }
        None => closed(),
    }
}

/// Tells sizes, where there are some.
fn tell_sizes(
    answer: Result<Counts, Failure>,
    master: &mut u64,
    others: &mut u64,
    pending: &mut u64,
) -> u32
    ensures code { result ≡ told_code answer }
    ensures sizes { (Gives (λ (c : Told). c.master) master.old master.new answer) × (Gives (λ (c : Told). c.others) others.old others.new answer) × (Gives (λ (c : Told). c.pending) pending.old pending.new answer) }
{
    match answer {
        Ok(counts) => {
            *master = counts.master;
            *others = counts.others;
            *pending = counts.pending;
            DONE
        }
        Err(failure) => code_of(failure),
    }
}

/// Says how many rows a session works on: in master, among the others, and pending.
#[unsafe(no_mangle)]
pub extern "C" fn segdag_core_sizes(
    alloc: Global,
    slot: &mut Slot,
    session: u8,
    master: &mut u64,
    others: &mut u64,
    pending: &mut u64,
) -> u32
    ensures { SlotAnswers slot.old.handle.held slot.new.handle.held result (SizesCame session) (λ answer. (Gives (λ (c : Told). c.master) master.old master.new answer) × (Gives (λ (c : Told). c.others) others.old others.new answer) × (Gives (λ (c : Told). c.pending) pending.old pending.new answer)) }
{
    match take(alloc, slot) {
        Some(held) => {
            let answer = sizes(&held, session);
            put(slot, held);
            tell_sizes(answer, master, others, pending)
        }
        None => closed(),
    }
}

/// Tells a number of rows, where there is one.
fn tell_rows(answer: Result<u32, Failure>, rows: &mut u64) -> u32
    ensures code { result ≡ told_code answer }
    ensures number { Gives (λ (n : ℕ). n) rows.old rows.new answer }
{
    match answer {
        Ok(count) => {
            *rows = u64::from(count);
            DONE
        }
        Err(failure) => code_of(failure),
    }
}

/// Takes a session to the newest version, and says how many pending rows it keeps.
#[unsafe(no_mangle)]
pub extern "C" fn segdag_core_reload(
    alloc: Global,
    slot: &mut Slot,
    session: u8,
    pending: &mut u64,
) -> u32
    ensures { SlotAnswers slot.old.handle.held slot.new.handle.held result (ReloadCame session) (Gives (λ (n : ℕ). n) pending.old pending.new) }
{
    match take(alloc, slot) {
        Some(taken) => {
            let mut held = taken;
            let answer = reload(&mut *held, session);
            put(slot, held);
            tell_rows(answer, pending)
        }
        None => closed(),
    }
}

/// Lets the pending rows of a session go, and says how many they were.
#[unsafe(no_mangle)]
pub extern "C" fn segdag_core_discard(
    alloc: Global,
    slot: &mut Slot,
    session: u8,
    pending: &mut u64,
) -> u32
    ensures { SlotAnswers slot.old.handle.held slot.new.handle.held result (DiscardCame session) (Gives (λ (n : ℕ). n) pending.old pending.new) }
{
    match take(alloc, slot) {
        Some(taken) => {
            let mut held = taken;
            let answer = discard(&mut *held, session);
            put(slot, held);
            tell_rows(answer, pending)
        }
        None => closed(),
    }
}
