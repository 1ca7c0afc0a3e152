//! Following what another process stores behind an open log.

ghost use Rattle.std.specs.Prelude.{◌≡◌, ℕ, List, IfOk, IfErr};
ghost use Rattle.change_rules.specs.Standard.{standard};
ghost use Rattle.gated_log.specs.Load.{IsLogOf};
ghost use Rattle.remote_rules.specs.Mirror.{Mirror};
ghost use Rattle.step_rules.specs.State.{State};
ghost use Rattle.dag_store.specs.Following.{FollowsTo, GoOn, Takes, Written, texts_of};
ghost use Rattle.dag_store.specs.Stands.{StandsBeside};
ghost use Rattle.dag_store.specs.declared.following.Followed.{Followed as End};
ghost use Rattle.segdag_c.specs.Following.{EndCame, IsNoMore, MoreCame, follow_failure, followed_answer, followed_count, followed_store};

use crate::answering::take_store;
use crate::codes::Failure;
use crate::held::Held;
use call_disk::LentDisk;
use dag_store::{FollowFault, Followed, Limits, Store};
use gated_log::{LoadLog, Log};
use std::alloc::Global;
use std::marker::Brand;

/// Where the log of an open store goes on: the place of its closed gate.
pub(crate) fn end_of(held: &Held) -> Result<u64, Failure>
    ensures { EndCame held.now held.now result }
{
    match &held.store {
        Some(store) => Ok(store.log_length() - 1),
        None => Err(Failure::Disk),
    }
}

/// The log that these bytes are. Reading them takes few calls, of which none fails; where one did, nothing would be taken.
fn read_more(alloc: Global, bytes: &[u8]) -> Result<Log, Failure>
    ensures log { IfOk result (IsLogOf standard.log bytes.now) }
    ensures none { IfErr result (IsNoMore bytes.now) }
{
    let mut disk = LentDisk::<Brand>::new(alloc, bytes);
    match Log::peek(alloc, &mut disk, Limits::standard().log) {
        Ok(log) => Ok(log),
        Err(LoadLog::Disk(_)) => Err(Failure::Memory),
        Err(LoadLog::Memory) => Err(Failure::Memory),
        Err(LoadLog::Damaged(_)) => Err(Failure::NoLog),
        Err(LoadLog::TooLarge(_)) => Err(Failure::NoLog),
    }
}

/// Why C is told that a payload isn't taken.
fn failure_of(fault: FollowFault) -> Failure
    ensures { result ≡ follow_failure fault }
{
    match fault {
        FollowFault::Memory => Failure::Memory,
        FollowFault::Unlawful | FollowFault::Full => Failure::NoLog,
    }
}

/// Takes the payloads of a log that goes on where the store's ends, and how many were taken.
fn follow(store: Store, more: &Log) -> (Store, u32, Result<(), Failure>)
    ensures follows { (followed : End) × Takes store more.now.payloads followed
        × ((began : ℕ) (mirrors : List Mirror) (st : State) (changes : List Written) → StandsBeside began store mirrors st
        → more.now.payloads ≡ texts_of changes → GoOn st changes → FollowsTo began mirrors st changes followed)
        × (result.0 ≡ followed_store followed) × (result.1 ≡ followed_count more.now.payloads followed) × (result.2 ≡ followed_answer followed) }
    ensures limits { result.0.limits ≡ store.limits }
{
    match store.follow(more) {
        Followed::Done(next) => (next, more.batch_count(), Ok(())),
        Followed::Refused(next, count, fault) => (next, count, Err(failure_of(fault))),
    }
}

/// Takes what another process has stored: these bytes of the file, from the place of the closed gate on. How many payloads were taken
/// stands in `count`.
pub(crate) fn take_more(
    alloc: Global,
    held: &mut Held,
    bytes: &[u8],
    count: &mut u32,
) -> Result<(), Failure>
    ensures { MoreCame bytes.now count.new held.old held.new result }
{
    *count = 0;
    let more = read_more(alloc, bytes)?;
    let Some(store) = take_store(held) else {
        return Err(Failure::Disk);
    };
    let (next, taken, done) = follow(store, &more);
    held.store = Some(next);
    *count = taken;
    done
}
