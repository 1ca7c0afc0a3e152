//! Entries of names that stood elsewhere before: where these are some of the old ones in their order, nothing is sorted.

ghost use Rattle.std.specs.Prelude.{◌≡◌, ◌<◌, ◌+◌, ◌*◌, ◌^◌, ◌++◌, ℕ, List, Some, None, length, map, slice_index_or, IfOk, IfSome, OnOk};
ghost use Rattle.std.specs.List.{AllByRecursion};
ghost use Rattle.std.specs.Option.{option_to_list};
ghost use Rattle.name_index.specs.Filter.{PassAll};
ghost use Rattle.name_index.specs.Moved.{AppendsNumbers, AreMoves, AreNumbers, AreThinned, StandsAmong};
ghost use Rattle.name_index.specs.Named.{NamedPlace, StandFrom};
ghost use Rattle.name_index.specs.Runs.{entry_of};

use crate::entry::{Entry, NAME_BYTES};
use std::alloc::{AllocError, Global};

/// So many names are compared at once.
const BLOCK: usize = 64;

/// A number, where it takes 32 bits.
#[inline]
fn told(number: usize) -> Option<u32>
    ensures { IfSome result (λ m. m ≡ number) }
{
    u32::try_from(number).ok()
}

/// What lies behind a block of names that both begin with; `None` where there is none, or where so many names are to be gone past one
/// by one before one is sought.
#[inline]
fn behind_block<'a>(rest: &'a [u8], left: &'a [u8], wait: usize) -> Option<(&'a [u8], &'a [u8])>
    ensures { IfSome result (λ behind. (names : List ℕ) × (length names ≡ 20 * 64) × (rest.now ≡ names ++ behind.0.now) × (left.now ≡ names ++ behind.1.now)) }
{
    if wait > 0 {
        return None;
    }
    let (names, others) = rest.split_at_checked(NAME_BYTES * BLOCK)?;
    let (same, behind) = left.split_at_checked(NAME_BYTES * BLOCK)?;
    if names != same {
        return None;
    }
    Some((others, behind))
}

/// Appends the numbers of a block of names, from the first one's on; none is told where they may not take 32 bits.
#[inline]
fn push_block(moves: &mut Vec<Option<u32>>, first: usize) -> Result<(), AllocError>
    ensures { OnOk result (AppendsNumbers first 64 moves.old.items moves.new.items) }
{
    let mut numbers = [None; BLOCK];
    if first > u32::MAX as usize - BLOCK {
        moves.extend_from_slice(&numbers)?;
        return Ok(());
    }
    'numbers: for k in 0..BLOCK {
        numbers[k] = Some((first + k) as u32);
    }
    moves.extend_from_slice(&numbers)?;
    Ok(())
}

/// Of each of the old names its number among the new ones. Where these are some of the old names in their order, it is told of
/// all of them. Most of them stand in both one behind another, so a block of names is gone past at once where it is the same in
/// both. Behind a block that isn't, so many names are gone past one by one before the next block is tried.
pub(crate) fn moves_of(
    alloc: Global,
    old: &[u8],
    new: &[u8],
) -> Result<Vec<Option<u32>>, AllocError>
    ensures { IfOk result (λ moves. AreMoves old.now new.now 0 moves.items) }
{
    let mut moves = Vec::with_capacity(alloc, old.len() / NAME_BYTES)?;
    let mut rest = old;
    let mut left = new;
    let mut number = 0;
    let mut wait = 0;
    'names: while rest.len() >= NAME_BYTES {
        match behind_block(rest, left, wait) {
            Some((others, behind)) => {
                push_block(&mut moves, number)?;
                number += BLOCK;
                rest = others;
                left = behind;
            }
            None => {
                wait = wait.checked_sub(1).unwrap_or(BLOCK);
                let (name, others) = rest.split_at(NAME_BYTES);
                match left.strip_prefix(name) {
                    Some(behind) => {
                        moves.push(told(number))?;
                        number += 1;
                        left = behind;
                    }
                    None => moves.push(None)?,
                }
                rest = others;
            }
        }
    }
    Ok(moves)
}

/// The number of the name at this place, where names stand one behind another from `from` on; `None` where none begins there.
#[inline]
fn number_of(place: u64, from: u64) -> Option<u64>
    ensures { IfSome result (λ k. place ≡ from + 20 * k) }
{
    let behind = place.checked_sub(from)?;
    if behind % 20 != 0 {
        return None;
    }
    Some(behind / 20)
}

/// The entry of the same name at its new place; `None` where it went.
#[inline]
fn moved_entry(entry: Entry, from: u64, moves: &[Option<u32>], to: u64) -> Option<Entry>
    requires { to < 2 ^ 63 }
    ensures { IfSome result (λ moved. (k m : ℕ) × (entry.place ≡ from + 20 * k) × (slice_index_or moves.now k None ≡ Some m) × (moved ≡ record { front = entry.front; place = to + 20 * m })) }
{
    let k = number_of(entry.place, from)?;
    match moves.get(k as usize) {
        Some(Some(m)) => Some(Entry {
            front: entry.front,
            place: to + 20 * u64::from(*m),
        }),
        _ => None,
    }
}

/// Appends the entry, if there is one.
#[inline]
fn push_some(out: &mut Vec<Entry>, entry: Option<Entry>) -> Result<(), AllocError>
    ensures { OnOk result (out.new.items ≡ out.old.items ++ option_to_list entry) }
{
    if let Some(entry) = entry {
        out.push(entry)?;
    }
    Ok(())
}

/// The entries of the names that didn't go, in their order, at their new places.
pub(crate) fn moved_entries(
    alloc: Global,
    entries: &[Entry],
    from: u64,
    moves: &[Option<u32>],
    to: u64,
) -> Result<Vec<Entry>, AllocError>
    requires { to < 2 ^ 63 }
    ensures moved { IfOk result (λ out. (old new : List ℕ) (held : List NamedPlace) → AreMoves old new 0 moves.now → entries.now ≡ map entry_of held → StandFrom from old held
        → (next : List NamedPlace) × (out.items ≡ map entry_of next) × AreThinned held next × AllByRecursion (StandsAmong to new) next) }
    ensures filter { IfOk result (λ out. (words : List ℕ) → PassAll words entries.now → PassAll words out.items) }
{
    let mut out = Vec::with_capacity(alloc, entries.len())?;
    let mut rest = entries;
    'each: while let Some((entry, others)) = rest.split_first() {
        push_some(&mut out, moved_entry(*entry, from, moves, to))?;
        rest = others;
    }
    Ok(out)
}
