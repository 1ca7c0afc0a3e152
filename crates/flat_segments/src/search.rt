//! A search among entries that rise.

ghost use Rattle.std.specs.Prelude.{◌≡◌, ◌<◌, ◌≤◌, ◌^◌, ℕ, true, false, length, nat_le};
ghost use Rattle.std.specs.List.{AllWithin};
ghost use Rattle.flat_segments.specs.Entries.{PlainEntry};
ghost use Rattle.flat_segments.specs.Runs.{do_rise};

use crate::entry::Entry;

/// So many entries below a place are tried one by one.
const NEAR: usize = 16;

/// After so many leaps from entries that all begin above the id, a search goes on by halves.
const FAR: u32 = 4;

/// How many entries a search leaps over at first once it has tried the nearest.
const LEAP: usize = 16;

/// And how many later.
const LONG_LEAP: usize = 128;

/// A place from `low` to before `high`: the stride below `high`, or the middle where that isn't between them.
#[inline]
fn probe(low: usize, high: usize, stride: usize) -> usize
    requires some { low < high }
    requires stride { 1 ≤ stride }
    ensures low { low ≤ result }
    ensures high { result < high }
{
    if stride < high - low {
        high - stride
    } else {
        low + (high - low) / 2
    }
}

/// How far below the last place a search looks next, behind so many leaps from entries that begin above the id.
#[inline]
fn stride_behind(leaps: u32) -> usize
    ensures { 1 ≤ result }
{
    if leaps < FAR / 2 {
        LEAP
    } else if leaps < FAR {
        LONG_LEAP
    } else {
        usize::MAX
    }
}

/// How many of the entries, which rise, begin at the id or below it: none from a place on. It leaps down from there, as often as
/// `so_far` leaves it to, and then goes by halves.
fn count_before(entries: &[Entry], id: u64, end: usize, so_far: u32) -> usize
    requires rise { (end : ℕ) × (do_rise end entries.now ≡ true) }
    requires small { id < 2 ^ 57 }
    requires within { end ≤ length entries.now }
    requires back { AllWithin (λ (e : PlainEntry). nat_le e.low id ≡ false) entries.now end (length entries.now) }
    ensures within { result ≤ length entries.now }
    ensures front { AllWithin (λ (e : PlainEntry). nat_le e.low id ≡ true) entries.now 0 result }
    ensures back { AllWithin (λ (e : PlainEntry). nat_le e.low id ≡ false) entries.now result (length entries.now) }
{
    let mut low = 0;
    let mut high = end;
    let mut leaps = so_far;
    'search: while low < high {
        let at = probe(low, high, stride_behind(leaps));
        if entries[at].begins_above(id) {
            high = at;
            leaps = leaps.saturating_add(1);
        } else {
            low = at + 1;
            leaps = FAR;
        }
    }
    low
}

/// The same, where none from the place `near` on does: those below it are tried one by one at first.
fn count_near(entries: &[Entry], id: u64, near: usize) -> usize
    requires rise { (end : ℕ) × (do_rise end entries.now ≡ true) }
    requires small { id < 2 ^ 57 }
    requires within { near ≤ length entries.now }
    requires back { AllWithin (λ (e : PlainEntry). nat_le e.low id ≡ false) entries.now near (length entries.now) }
    ensures within { result ≤ length entries.now }
    ensures front { AllWithin (λ (e : PlainEntry). nat_le e.low id ≡ true) entries.now 0 result }
    ensures back { AllWithin (λ (e : PlainEntry). nat_le e.low id ≡ false) entries.now result (length entries.now) }
{
    let mut place = near;
    let least = near.saturating_sub(NEAR);
    'places: while least < place {
        if !entries[place - 1].begins_above(id) {
            return place;
        }
        place -= 1;
    }
    count_before(entries, id, place, 0)
}

/// How many of the entries, which rise, begin at the id or below it. Where the entry at the place `near` begins above the id
/// it seeks downwards from there, the nearest entries one by one; else by halves.
#[inline(never)]
fn count_by_search(entries: &[Entry], id: u64, near: usize) -> usize
    requires rise { (end : ℕ) × (do_rise end entries.now ≡ true) }
    requires small { id < 2 ^ 57 }
    ensures within { result ≤ length entries.now }
    ensures front { AllWithin (λ (e : PlainEntry). nat_le e.low id ≡ true) entries.now 0 result }
    ensures back { AllWithin (λ (e : PlainEntry). nat_le e.low id ≡ false) entries.now result (length entries.now) }
{
    if near < entries.len() && entries[near].begins_above(id) {
        return count_near(entries, id, near);
    }
    count_before(entries, id, entries.len(), FAR)
}

/// The same, first tried at the place `near` itself: where a walk goes down by one segment, the next is found at once.
#[inline(always)]
pub(crate) fn count_up_to(entries: &[Entry], id: u64, near: usize) -> usize
    requires rise { (end : ℕ) × (do_rise end entries.now ≡ true) }
    requires small { id < 2 ^ 57 }
    ensures within { result ≤ length entries.now }
    ensures front { AllWithin (λ (e : PlainEntry). nat_le e.low id ≡ true) entries.now 0 result }
    ensures back { AllWithin (λ (e : PlainEntry). nat_le e.low id ≡ false) entries.now result (length entries.now) }
{
    if 0 < near
        && near < entries.len()
        && entries[near].begins_above(id)
        && !entries[near - 1].begins_above(id)
    {
        return near;
    }
    count_by_search(entries, id, near)
}
