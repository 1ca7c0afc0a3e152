//! The calls that add mirrors to an open log, and give them their bytes.

ghost use Rattle.std.specs.Prelude.{◌≡◌, ◌<◌, ◌++◌, ◌∷◌, [], ℕ, length, Some, None, IfOk, IfErr, IfSome, MatchOption, MatchResult, slice_get, if◌then◌else◌};
ghost use Rattle.disk_trait.specs.Images.{fresh_disk};
ghost use Rattle.call_disk.specs.Tells.{tells};
ghost use Rattle.segdag_c.specs.Renewed.{bundle_over, log_over, number_of, renewed, AddMirrorCame, AreOver, HasNumber, IsMissing, IsOverAt, IsNoKind, RenewCame};

use crate::codes::Failure;
use crate::held::Held;
use crate::mirror::Mirror;
use call_disk::OwnedDisk;
use mirror_set::Mirrors;
use remote_bundle::BundleRemote;
use remote_store::{Limits, StoreRemote};
use std::alloc::{AllocFailed, Global};
use std::mem::replace;

/// The kind of a log.
const LOG: u32 = 0;

/// The kind of a bundle.
const BUNDLE: u32 = 1;

/// How many mirrors there are at most.
const MOST_MIRRORS: u32 = 1 << 16;

/// How many bytes a bundle may have.
const BUNDLE_LIMIT: u64 = 1 << 30;

/// The log on this disk, which may have as many bytes as an open log.
fn log_on(disk: OwnedDisk) -> StoreRemote<OwnedDisk>
    ensures { result ≡ log_over disk }
{
    StoreRemote::new(disk, Limits::standard())
}

/// The bundle on this disk.
fn bundle_on(disk: OwnedDisk) -> BundleRemote<OwnedDisk>
    ensures { result ≡ bundle_over disk }
{
    BundleRemote::new(disk, BUNDLE_LIMIT)
}

/// A mirror of this kind, if it is one, that isn't there.
fn missing(alloc: Global, number: u32, kind: u32) -> Option<Mirror>
    ensures { MatchOption result (IsNoKind kind) (IsMissing number kind) }
{
    match kind {
        LOG => Some(Mirror::Log(number, log_on(OwnedDisk::missing(alloc)))),
        BUNDLE => Some(Mirror::Bundle(number, bundle_on(OwnedDisk::missing(alloc)))),
        _ => None,
    }
}

/// That memory ran out for one mirror more, which is let go.
fn no_memory(_left: AllocFailed<Mirror>) -> Failure
    ensures { result ≡ Failure.Memory }
{
    Failure::Memory
}

/// Puts a mirror behind the others.
fn push_mirror(mirrors: &mut Mirrors<Mirror>, mirror: Mirror) -> Result<(), Failure>
    requires { length mirrors.old.list.items < 65536 }
    ensures { MatchResult result (λ _. mirrors.new.list.items ≡ mirrors.old.list.items ++ mirror ∷ [])
        (λ failure. (failure ≡ Failure.Memory) × (mirrors.new.list.items ≡ mirrors.old.list.items)) }
{
    mirrors.list.push(mirror).map_err(no_memory)
}

/// Adds a mirror of this kind behind the others, to be spoken of by this number. It isn't there so far, and each call on it fails.
pub(crate) fn add_mirror(
    alloc: Global,
    held: &mut Held,
    number: u32,
    kind: u32,
) -> Result<(), Failure>
    ensures { AddMirrorCame number kind held.old held.new result }
{
    if held.mirrors.len() >= MOST_MIRRORS {
        return Err(Failure::Argument);
    }
    let Some(mirror) = missing(alloc, number, kind) else {
        return Err(Failure::Argument);
    };
    push_mirror(&mut held.mirrors, mirror)
}

impl Mirror {
    /// The number by which C speaks of it.
    fn number(&self) -> u32
        ensures { result ≡ number_of self.now }
    {
        match self {
            Mirror::Log(number, _) | Mirror::Bundle(number, _) => *number,
        }
    }

    /// Lets go of what it was read from, for this disk.
    fn renew(&mut self, disk: OwnedDisk)
        ensures { self.new ≡ renewed disk self.old }
    {
        match self {
            Mirror::Log(_, log) => drop(replace(log, log_on(disk))),
            Mirror::Bundle(_, bundle) => drop(replace(bundle, bundle_on(disk))),
        }
    }
}

/// The place of the mirror with this number.
fn place_of(list: &[Mirror], number: u32) -> Option<usize>
    ensures bound { IfSome result (λ k. k < length list.now) }
    ensures number { IfSome result (HasNumber list.now number) }
    ensures none { result ≡ None → (k : ℕ) → HasNumber list.now number k → ⊥ }
{
    'mirrors: for k in 0..list.len() {
        let mirror = &list[k];
        if mirror.number() == number {
            return Some(k);
        }
    }
    None
}

/// The disk with a copy of these bytes, or one that isn't there.
fn disk_of(alloc: Global, is_there: bool, bytes: &[u8]) -> Result<OwnedDisk, Failure>
    ensures disk { IfOk result (λ disk. tells disk ≡ (if is_there then Some (fresh_disk bytes.now) else None)) }
    ensures fault { IfErr result (λ failure. failure ≡ Failure.Memory) }
{
    if !is_there {
        return Ok(OwnedDisk::missing(alloc));
    }
    match OwnedDisk::of(alloc, bytes) {
        Ok(disk) => Ok(disk),
        Err(_) => Err(Failure::Memory),
    }
}

/// Gives the mirror at this place another disk.
fn renew_at(mirrors: &mut Mirrors<Mirror>, place: usize, disk: OwnedDisk)
    requires { place < length mirrors.old.list.items }
    ensures { IsOverAt mirrors.old.list.items mirrors.new.list.items place disk }
{
    let mirror = &mut mirrors.list[place];
    mirror.renew(disk);
}

/// Gives the mirror with this number another disk, if there is one.
fn renew_in(mirrors: &mut Mirrors<Mirror>, number: u32, disk: OwnedDisk) -> Result<(), Failure>
    ensures { MatchResult result (λ _. AreOver mirrors.old.list.items mirrors.new.list.items number disk)
        (λ failure. (failure ≡ Failure.Argument) × ((k : ℕ) → HasNumber mirrors.old.list.items number k → ⊥) × (mirrors.new ≡ mirrors.old)) }
{
    let Some(place) = place_of(&mirrors.list, number) else {
        return Err(Failure::Argument);
    };
    renew_at(mirrors, place, disk);
    Ok(())
}

/// Gives the mirror with this number a copy of these bytes, or takes what it had, where it isn't there.
pub(crate) fn renew_mirror(
    alloc: Global,
    held: &mut Held,
    number: u32,
    is_there: bool,
    bytes: &[u8],
) -> Result<(), Failure>
    ensures { RenewCame number is_there bytes.now held.old held.new result }
{
    match disk_of(alloc, is_there, bytes) {
        Ok(disk) => renew_in(&mut held.mirrors, number, disk),
        Err(failure) => Err(failure),
    }
}
