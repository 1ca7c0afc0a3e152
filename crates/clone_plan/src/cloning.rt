//! The plan of a clone.

ghost use Rattle.std.specs.Prelude.{[], ◌≡◌, ◌<◌, ◌≤◌, ◌^◌, ◌⊎◌, None, Some, List, length, true, IfErr, IfOk, MatchResult};
ghost use Rattle.id_groups.specs.Name.{Name as NameBytes};
ghost use Rattle.commit_graph.specs.World.{Row, empty_world};
ghost use Rattle.remote_rules.specs.CloneData.{first_broken};
ghost use Rattle.remote_rules.specs.Known.{master_world};
ghost use Rattle.change_rules.specs.Standard.{AreLimits, most_heads};
ghost use Rattle.payload_tables.specs.Kept.{AreTablesOf};
ghost use Rattle.change_parts.specs.declared.fault.PlanFault.TheVariants.{Memory};
ghost use Rattle.change_parts.specs.Plans.{IsPlanOf, MayBeStored, clone_fault};
ghost use Rattle.clone_plan.specs.Cloning.{told_count, counts_refusal, log_refusal, told_refusal, IsToldPlan, clone_payload, clone_refusal, IsToldBy};

use crate::told::payload_told;
use change_parts::{Change, Payload, PlanFault, check};
use change_rules::{Limit, Limits};
use payload_tables::Tables;
use remote_trait::CloneData;
use std::alloc::Global;

/// The most heads that a payload has room for.
const MOST_HEADS: u64 = 65_535;

/// Refuses data of which an item breaks its rule.
fn check_items(alloc: Global, cloned: &CloneData) -> Result<(), PlanFault>
    ensures ok { IfOk result (λ done. first_broken cloned.now ≡ None) }
    ensures err { IfErr result (λ fault. (fault ≡ Memory) ⊎ (clone_fault (first_broken cloned.now) ≡ Some fault)) }
{
    let broken = cloned.first_broken(alloc)?;
    match broken {
        Some(at) => Err(PlanFault::BadClone(at)),
        None => Ok(()),
    }
}

/// How many commits the segments have, which follow one another.
fn count_told(cloned: &CloneData) -> u128
    ensures { result ≡ told_count cloned.now }
{
    let n = cloned.segments.len();
    if n == 0 {
        return 0;
    }
    let last = cloned.segments.at(n - 1);
    u128::from(last.high) + 1
}

/// Refuses more heads or more commits than there may be, and answers how many commits there are.
fn check_sizes(cloned: &CloneData, limits: Limits) -> Result<u64, PlanFault>
    ensures count { IfOk result (λ count. (count ≡ told_count cloned.now) × (length cloned.now.heads ≤ most_heads) × (count ≤ limits.master)) }
    ensures ok { IfOk result (λ count. counts_refusal limits cloned.now ≡ None) }
    ensures err { IfErr result (λ fault. counts_refusal limits cloned.now ≡ Some fault) }
{
    check(Limit::Heads, u64::from(cloned.heads.len()), MOST_HEADS)?;
    let count = count_told(cloned);
    if count > u128::from(limits.master) {
        return Err(PlanFault::Full(Limit::Master, u64::from(limits.master)));
    }
    Ok(count as u64)
}

/// The change of no commits.
fn nothing_told(alloc: Global) -> Change
    ensures { result ≡ record { payload = []; master = 0; others = 0; same = true } }
{
    Change {
        payload: Payload::empty(alloc),
        master: 0,
        others: 0,
        same: true,
    }
}

/// The change of what a remote told of some commits, over a log of so many bytes. It breaks no rule, and is within the limits of commits
/// and heads.
fn some_told(
    alloc: Global,
    tables: &mut Tables,
    bytes: &[u8],
    cloned: &CloneData,
    count: u64,
    limits: Limits,
) -> Result<Change, PlanFault>
    requires limits { AreLimits limits }
    requires log { length bytes.now ≤ 2 ^ 32 }
    requires tables { AreTablesOf tables.old [] }
    requires lawful { first_broken cloned.now ≡ None }
    requires count { count ≡ told_count cloned.now }
    requires some { 0 < count }
    requires heads { length cloned.now.heads ≤ most_heads }
    requires few { count ≤ limits.master }
    ensures told { MatchResult result
        (λ change. (log_refusal limits (length bytes.now) cloned.now ≡ None) × IsToldPlan change cloned.now)
        (λ fault. (fault ≡ Memory) ⊎ (log_refusal limits (length bytes.now) cloned.now ≡ Some fault)) }
    ensures stored { IfOk result (MayBeStored 2 limits (length bytes.now) []) }
    ensures unchanged { tables.new ≡ tables.old }
{
    let payload = payload_told(alloc, tables, bytes, cloned, count)?;
    let log = bytes.len() as u64;
    check(Limit::Log, log + 9 + payload.len() as u64, limits.log)?;
    Ok(Change {
        payload: Payload::of(payload),
        master: count,
        others: 0,
        same: false,
    })
}

/// The same of any number of commits.
fn change_told(
    alloc: Global,
    tables: &mut Tables,
    bytes: &[u8],
    cloned: &CloneData,
    count: u64,
    limits: Limits,
) -> Result<Change, PlanFault>
    requires limits { AreLimits limits }
    requires log { length bytes.now ≤ 2 ^ 32 }
    requires tables { AreTablesOf tables.old [] }
    requires lawful { first_broken cloned.now ≡ None }
    requires count { count ≡ told_count cloned.now }
    requires heads { length cloned.now.heads ≤ most_heads }
    requires few { count ≤ limits.master }
    ensures told { MatchResult result
        (λ change. (log_refusal limits (length bytes.now) cloned.now ≡ None) × IsToldPlan change cloned.now)
        (λ fault. (fault ≡ Memory) ⊎ (log_refusal limits (length bytes.now) cloned.now ≡ Some fault)) }
    ensures stored { IfOk result (MayBeStored 2 limits (length bytes.now) []) }
    ensures unchanged { tables.new ≡ tables.old }
{
    if count == 0 {
        return Ok(nothing_told(alloc));
    }
    some_told(alloc, tables, bytes, cloned, count, limits)
}

/// What a clone writes, of what a remote told: its segments with their levels, names and heads, over an empty log of these bytes. The
/// tables, which are of no payload, are asked for the levels, and stay as they are: those that follow are those with the payload added.
///
/// `BadClone` has the number of the first item that breaks its rule; `Full` the first of the heads, the commits and the log's bytes
/// that would exceed its limit.
pub fn plan_clone_change(
    alloc: Global,
    tables: &mut Tables,
    bytes: &[u8],
    cloned: &CloneData,
    limits: Limits,
) -> Result<Change, PlanFault>
    requires limits { AreLimits limits }
    requires log { length bytes.now ≤ 2 ^ 32 }
    requires tables { AreTablesOf tables.old [] }
    ensures told { MatchResult result
        (λ change. (told_refusal limits (length bytes.now) cloned.now ≡ None) × IsToldPlan change cloned.now)
        (λ fault. (fault ≡ Memory) ⊎ (told_refusal limits (length bytes.now) cloned.now ≡ Some fault)) }
    ensures honest { (rows : List (Row NameBytes)) → IsToldBy rows cloned.now → MatchResult result
        (λ change. (clone_refusal limits (length bytes.now) (master_world rows) ≡ None) × IsPlanOf change empty_world (master_world rows) (clone_payload (master_world rows)))
        (λ fault. (fault ≡ Memory) ⊎ (clone_refusal limits (length bytes.now) (master_world rows) ≡ Some fault)) }
    ensures stored { IfOk result (MayBeStored 2 limits (length bytes.now) []) }
    ensures unchanged { tables.new ≡ tables.old }
{
    check_items(alloc, cloned)?;
    let count = check_sizes(cloned, limits)?;
    change_told(alloc, tables, bytes, cloned, count, limits)
}
