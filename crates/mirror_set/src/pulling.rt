//! The calls on one mirror that a pull makes.

ghost use Rattle.std.specs.Prelude.{◌≡◌, ◌<◌, ◌≤◌, ◌+◌, ◌-◌, ◌^◌, ◌⊎◌, None, Some, Err, ℕ, length, take, IfOk, IfErr, OnOk};
ghost use Rattle.segment_codec.specs.Turns.{place_behind};
ghost use Rattle.remote_rules.specs.CloneData.{first_broken};
ghost use Rattle.mirror_set.specs.Round.{Stays};
ghost use Rattle.mirror_set.specs.Fresh.{IsPulledFrom, GivesFresh, AsksOn, AsksLine, AreNamesBelow, count_from, part_fault};
ghost use Rattle.mirror_set.specs.declared.pulling.PartFault.TheVariants.{Memory, BadClone};

use crate::asking::clone_of;
use crate::fresh::{Fresh, FreshNames};
use id_groups::Name;
use remote_trait::{CloneData, Remote, RemoteFault};
use std::alloc::{AllocError, Global};

/// Why one mirror gave nothing to pull.
#[derive(Clone, Copy, PartialEq, Eq, Debug)]
pub(crate) enum PartFault {
    /// A call failed.
    Failed,
    /// Its clone data break a rule at the item with this number.
    BadClone(u64),
    /// So many names were asked, and fewer came: so many.
    BadNames(u32, u32),
    /// There was no memory.
    Memory,
}

impl From<AllocError> for PartFault {
    ghost use Rattle.std.specs.Prelude.{◌≡◌};
    ghost use Rattle.mirror_set.specs.declared.pulling.PartFault.TheVariants.{Memory};

    ghost from_gives = { λ _ fault. fault ≡ Memory };

    fn from(_refused: AllocError) -> PartFault {
        PartFault::Memory
    }
}

/// A remote's fault, as that of a pull.
fn part_of(fault: RemoteFault) -> PartFault
    ensures { result ≡ part_fault fault }
{
    match fault {
        RemoteFault::Failed => PartFault::Failed,
        RemoteFault::Memory => PartFault::Memory,
    }
}

/// How many names a pull may bring: each has a number of 32 bits behind those of the others of a log.
const MOST_NAMES: u64 = (1 << 31) - 1;

/// Refuses clone data that break a rule.
fn check_clone(alloc: Global, cloned: &CloneData) -> Result<(), PartFault>
    ensures ok { OnOk result (first_broken cloned.now ≡ None) }
    ensures err { IfErr result (λ fault. (fault ≡ Memory) ⊎ ((at : ℕ) × (fault ≡ BadClone at) × (first_broken cloned.now ≡ Some at))) }
{
    match cloned.first_broken(alloc)? {
        Some(number) => Err(PartFault::BadClone(number)),
        None => Ok(()),
    }
}

/// So many names, all of them this one.
fn names_like(alloc: Global, name: &Name, count: u32) -> Result<Vec<Name>, AllocError>
    ensures { IfOk result (λ names. length names.items ≡ count) }
{
    let names = vec![in alloc; *name; count as usize]?;
    Ok(names)
}

/// Asks for so many names, back from the one of that name, and puts them behind the others, the last of them first.
fn add_names<R: Remote>(
    alloc: Global,
    remote: &mut R,
    name: &Name,
    count: u32,
    names: &mut FreshNames,
) -> Result<(), PartFault>
    requires { length names.old + count < 2 ^ 31 }
    ensures { AsksLine name.now count names.old names.new (R.shown remote.old) (R.shown remote.new) result }
{
    let mut out = names_like(alloc, name, count)?;
    let given = match remote.names_of(alloc, name, 0, &mut out) {
        Ok(given) => given,
        Err(fault) => return Err(part_of(fault)),
    };
    if given < count {
        return Err(PartFault::BadNames(count, given));
    }
    names.add_reversed(&out)?;
    Ok(())
}

/// The greater of two ids.
fn later(a: u64, b: u64) -> u64
    ensures { result ≡ a + (b - a) }
{
    if a < b { b } else { a }
}

/// Asks for the names of the ids of a segment from this id on, by the name of its highest one.
fn add_segment<R: Remote>(
    alloc: Global,
    remote: &mut R,
    cloned: &CloneData,
    k: u32,
    from: u64,
    names: &mut FreshNames,
) -> Result<(), PartFault>
    requires unbroken { first_broken cloned.now ≡ None }
    requires there { k < length cloned.now.segments }
    requires count { length names.old ≡ place_behind 0 (take k cloned.now.segments) - from }
    ensures asked { AsksOn cloned.now (place_behind 0 (take (k + 1) cloned.now.segments) - from - length names.old) (R.shown remote.old) (R.shown remote.new) result }
    ensures count { OnOk result (length names.new ≡ place_behind 0 (take (k + 1) cloned.now.segments) - from) }
    ensures names { OnOk result (AreNamesBelow from (place_behind 0 (take k cloned.now.segments)) cloned.now (R.shown remote.old) names.old
        → AreNamesBelow from (place_behind 0 (take (k + 1) cloned.now.segments)) cloned.now (R.shown remote.new) names.new) }
{
    let segment = cloned.segments.at(k);
    if segment.high < from {
        return Ok(());
    }
    let first = later(segment.low, from);
    let count = segment.high - first;
    if count >= MOST_NAMES - u64::from(names.len()) {
        return Err(PartFault::Memory);
    }
    let Some(name) = cloned.name_of(segment.high) else {
        unreachable!()
    };
    add_names(alloc, remote, &name, count as u32 + 1, names)
}

/// Asks for the names of all ids from this one on, segment by segment.
fn names_from<R: Remote>(
    alloc: Global,
    remote: &mut R,
    cloned: &CloneData,
    from: u64,
) -> Result<FreshNames, PartFault>
    requires { first_broken cloned.now ≡ None }
    ensures stays { Stays (count_from from cloned.now) (R.shown remote.old) (R.shown remote.new) }
    ensures count { IfOk result (λ names. length names ≡ count_from from cloned.now) }
    ensures names { IfOk result (λ names. AreNamesBelow from (place_behind 0 cloned.now.segments) cloned.now (R.shown remote.new) names) }
    ensures faults { IfErr result (λ fault. AsksOn cloned.now (count_from from cloned.now) (R.shown remote.old) (R.shown remote.new) (Err fault)) }
{
    let mut names = FreshNames::empty(alloc);
    'segments: for k in 0..cloned.segments.len() {
        add_segment(alloc, remote, cloned, k, from, &mut names)?;
    }
    Ok(names)
}

/// Refreshes the mirror, and takes its clone data and the names of its ids from this one on.
pub(crate) fn pull_from<R: Remote>(
    alloc: Global,
    remote: &mut R,
    from: u64,
) -> Result<Fresh, PartFault>
    ensures left { IsPulledFrom from (R.shown remote.old) (R.shown remote.new) }
    ensures gives { GivesFresh from (R.shown remote.old) (R.shown remote.new) result }
{
    let cloned = match clone_of(alloc, remote) {
        Ok(cloned) => cloned,
        Err(fault) => return Err(part_of(fault)),
    };
    check_clone(alloc, &cloned)?;
    let names = names_from(alloc, remote, &cloned, from)?;
    Ok(Fresh { cloned, names })
}
