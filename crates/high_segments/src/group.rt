//! Which segments form the next group, and its parents.

ghost use Rattle.std.specs.Prelude.{◌≡◌, ◌≤◌, ◌+◌, ◌++◌, ℕ, [], ◌∷◌, length, take, drop, filter, not, nat_eq, nat_lt, ◌<◌, ◌-◌, true, false, get_or, OnOk, IfOk};
ghost use Rattle.id_groups.specs.Lists.{is_in};
ghost use Rattle.segment_codec.specs.Lent.{segment_of};
ghost use Rattle.segment_codec.specs.Reading.{ascend_from};
ghost use Rattle.segment_rules.specs.Levels.{group_limit, group_size as size_of, parents_below as below_of, ascending};
ghost use Rattle.segment_levels.specs.Kept.{segments_in};
ghost use Rattle.segment_levels.specs.Sound.{IsSound};
ghost use Rattle.high_segments.specs.Noting.{AreNoted};

use crate::level::Level;
use segment_codec::SegmentRef;
use std::alloc::AllocError;

/// A group is decided once there are so many segments, and has no more.
pub(crate) const GROUP_LIMIT: usize = 16;

/// Takes the number away.
fn remove(heads: &mut Vec<u64>, number: u64)
    ensures { heads.new.items ≡ filter (λ h. not (nat_eq h number)) heads.old.items }
{
    heads.retain(move |head| *head != number);
}

/// Takes from the heads those that are parents of the segment, and adds its highest id.
fn add_head(heads: &mut Vec<u64>, segment: SegmentRef<'_>) -> Result<(), AllocError>
    ensures { OnOk result (heads.new.items ≡ filter (λ h. not (is_in nat_eq h (segment_of segment.entry).parents)) heads.old.items ++ (segment_of segment.entry).high ∷ []) }
{
    let mut rest = segment.parents();
    'parents: while let Some(parent) = rest.next() {
        remove(heads, parent.number());
    }
    heads.push(segment.high().number())?;
    Ok(())
}

/// How many of the sixteen segments from a place on may form a group: none that is noted to have no child has others behind it.
fn most_of(children: &[bool], from: usize) -> usize
    requires { from + 16 ≤ length children.now }
    ensures some { 1 ≤ result }
    ensures most { result ≤ 16 }
    ensures last { result < 16 → get_or children.now (from + result - 1) true ≡ false }
{
    let mut count = 1;
    'places: while count < GROUP_LIMIT {
        if !children[from + count - 1] {
            return count;
        }
        count += 1;
    }
    count
}

/// How many of the sixteen segments from a place on form a group, by the heads of the first ones. What `heads` has is written over.
fn scan_group(
    heads: &mut Vec<u64>,
    below: &Level,
    children: &[bool],
    from: usize,
) -> Result<usize, AllocError>
    requires sound { IsSound below.now }
    requires room { from + 16 ≤ length below.now.entries }
    requires noted { AreNoted (segments_in below.now) (length below.now.entries) children.now }
    ensures { IfOk result (λ n. n ≡ size_of group_limit (drop from (segments_in below.now))) }
{
    let _count = below.len();
    heads.clear();
    let most = most_of(children, from);
    let mut size = 0;
    for k in 0..most {
        add_head(heads, below.at(from + k))?;
        if heads.len() == 1 {
            size = k + 1;
        }
    }
    Ok(size)
}

/// How many of the sixteen segments from a place on form a group, with a note of those that have a child among the fifteen
/// behind them. What `heads` has is written over.
pub(crate) fn group_size(
    heads: &mut Vec<u64>,
    below: &Level,
    children: &[bool],
    from: usize,
) -> Result<usize, AllocError>
    requires sound { IsSound below.now }
    requires room { from + 16 ≤ length below.now.entries }
    requires noted { AreNoted (segments_in below.now) (length below.now.entries) children.now }
    ensures { IfOk result (λ n. n ≡ size_of group_limit (drop from (segments_in below.now))) }
{
    if !children[from] {
        return Ok(1);
    }
    scan_group(heads, below, children, from)
}

/// Whether the segment's parents ascend, each once.
pub(crate) fn have_order(segment: SegmentRef<'_>) -> bool
    ensures { result ≡ ascend_from 0 (segment_of segment.entry).parents }
{
    let mut rest = segment.parents();
    let mut least = 0;
    'parents: while let Some(parent) = rest.next() {
        if parent.number() < least {
            return false;
        }
        least = parent.number() + 1;
    }
    true
}

/// Adds the parents of the segment that lie below an id.
fn add_below(found: &mut Vec<u64>, segment: SegmentRef<'_>, low: u64) -> Result<(), AllocError>
    ensures { OnOk result (found.new.items ≡ found.old.items ++ filter (λ p. nat_lt p low) (segment_of segment.entry).parents) }
{
    let mut rest = segment.parents();
    'parents: while let Some(parent) = rest.next() {
        if parent.number() < low {
            found.push(parent.number())?;
        }
    }
    Ok(())
}

/// Puts the numbers in order, each once.
fn put_in_order(numbers: &mut Vec<u64>)
    ensures { numbers.new.items ≡ ascending numbers.old.items }
{
    numbers.sort_unstable();
    numbers.dedup();
}

/// Puts the parents below an id of so many segments from a place on, ascending, in place of what is found.
pub(crate) fn find_parents(
    found: &mut Vec<u64>,
    below: &Level,
    from: usize,
    size: usize,
    low: u64,
) -> Result<(), AllocError>
    requires sound { IsSound below.now }
    requires room { from + size ≤ length below.now.entries }
    ensures { OnOk result (found.new.items ≡ ascending (below_of low (take size (drop from (segments_in below.now))))) }
{
    let _count = below.len();
    found.clear();
    for k in 0..size {
        add_below(found, below.at(from + k), low)?;
    }
    put_in_order(found);
    Ok(())
}
