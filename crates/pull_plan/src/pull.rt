//! The plan of a pull.

ghost use Rattle.std.specs.Prelude.{◌≡◌, ◌<◌, ◌≤◌, ◌+◌, ◌^◌, ◌⊎◌, List, None, Some, ℕ, length, map, IfOk, MatchResult};
ghost use Rattle.std.specs.List.{AllByRecursion};
ghost use Rattle.id_groups.specs.Name.{Name as NameBytes, same_name};
ghost use Rattle.commit_graph.specs.World.{Row, World};
ghost use Rattle.assign_ids.specs.Numbers.{others_of};
ghost use Rattle.remote_rules.specs.Known.{master_world};
ghost use Rattle.change_rules.specs.Pull.{pulled};
ghost use Rattle.change_rules.specs.Standard.{AreLimits};
ghost use Rattle.name_map.specs.Added.{Placed};
ghost use Rattle.change_parts.specs.declared.fault.PlanFault.TheVariants.{Memory};
ghost use Rattle.change_parts.specs.Moves.{node_of};
ghost use Rattle.change_parts.specs.Plans.{IsPlanOf, IsChangeOf, MayComeNext};
ghost use Rattle.pull_plan.specs.Pulling.{MayPullOn, MayPull, mismatch, pull_refusal};
ghost use Rattle.pull_plan.specs.Taken.{MayPut, pull_sizes, any_others};

use crate::pulled::{Taken, taken_of};
use change_parts::{Change, PlanFault};
use change_rules::Limits;
use flush_plan::{add_number, plan_moves};
use id_groups::Id;
use mirror_set::Fresh;
use payload_tables::{PendingRows, Tables};
use std::alloc::{AllocError, Global};

/// The most others that a payload has room for.
const MOST_OTHERS: u32 = 65_536;

/// The limits of a pull: it never has more others than there were, so theirs isn't tested.
fn pull_limits(limits: Limits) -> Limits
    ensures { result ≡ any_others limits }
{
    Limits {
        pending: limits.pending,
        others: MOST_OTHERS,
        master: limits.master,
        log: limits.log,
        answer: limits.answer,
        input: limits.input,
    }
}

/// The numbers of those ids that aren't in master.
fn numbers_of(alloc: Global, ids: &[Id]) -> Result<Vec<u32>, AllocError>
    requires { AllByRecursion (λ id. id < 2 ^ 56 + 2 ^ 32) ids.now }
    ensures { IfOk result (λ numbers. numbers.items ≡ others_of (map node_of ids.now)) }
{
    let mut numbers = Vec::new(alloc);
    'ids: for id in ids {
        add_number(&mut numbers, *id)?;
    }
    Ok(numbers)
}

/// The change in which what was taken of a remote moves into master: a flush of it, put behind the others.
fn moves_taken(
    alloc: Global,
    tables: &mut Tables,
    bytes: &[u8],
    taken: &Taken,
    limits: Limits,
) -> Result<Change, PlanFault>
    requires limits { AreLimits limits }
    requires log { length bytes.now ≤ 2 ^ 32 }
    requires taken { (w : World NameBytes) × (rows : List (Row NameBytes)) × MayPut tables.old bytes.now taken.now.ids.items taken.now.left w rows }
    ensures worlds { (w : World NameBytes) (rows : List (Row NameBytes)) (payload : List ℕ) → MayPut tables.old bytes.now taken.now.ids.items taken.now.left w rows
        → IsChangeOf w (pulled same_name w (master_world rows)) payload
        → MatchResult result
        (λ change. (pull_sizes limits (length bytes.now) (pulled same_name w (master_world rows)) payload ≡ None) × IsPlanOf change w (pulled same_name w (master_world rows)) payload)
        (λ fault. (fault ≡ Memory) ⊎ (pull_sizes limits (length bytes.now) (pulled same_name w (master_world rows)) payload ≡ Some fault)) }
    ensures unchanged { tables.new ≡ tables.old }
    ensures stored { (w : World NameBytes) (rows : List (Row NameBytes)) (put : MayPut tables.old bytes.now taken.now.ids.items taken.now.left w rows)
        → IfOk result (MayComeNext 1 limits (length bytes.now) put.added) }
{
    let numbers = numbers_of(alloc, &taken.ids)?;
    let limits = pull_limits(limits);
    plan_moves(alloc, tables, bytes, &taken.left, &numbers, limits)
}

/// What a pull of these rows of a remote writes: its master rows that aren't in master come behind it, in its order, with all their
/// names; those that are among the others move. The change is what it is for each world for which the tables stand, and its payload
/// may be added to them. This only reads: the tables that follow are those with the payload added. The tables are asked for the levels
/// that come with the change, and stay as they are.
///
/// `BadClone` and `BadRow` come where what was taken disagrees with what is stored of the cloned commits, or a name of it can't be
/// a new row's; then `Conflict` names the first row of the remote's that is there with other parents; `Full` is the first of the
/// master rows and the log's bytes that would exceed its limit.
pub fn plan_pull_change(
    alloc: Global,
    tables: &mut Tables,
    bytes: &[u8],
    fresh: &Fresh,
    limits: Limits,
) -> Result<Change, PlanFault>
    requires limits { AreLimits limits }
    requires log { length bytes.now ≤ 2 ^ 32 }
    requires tables { (added : List Placed) × MayPullOn tables.old bytes.now fresh.now added }
    ensures worlds { (w : World NameBytes) (rows : List (Row NameBytes)) (payload : List ℕ) (m : MayPull tables.old bytes.now fresh.now w rows)
        → IsChangeOf w (pulled same_name w (master_world rows)) payload
        → MatchResult result
        (λ change. (pull_refusal limits (length bytes.now) m.added fresh.now w rows (pulled same_name w (master_world rows)) payload ≡ None)
        × IsPlanOf change w (pulled same_name w (master_world rows)) payload)
        (λ fault. (fault ≡ Memory) ⊎ (pull_refusal limits (length bytes.now) m.added fresh.now w rows (pulled same_name w (master_world rows)) payload ≡ Some fault)) }
    ensures mismatch { (added : List Placed) → MayPullOn tables.old bytes.now fresh.now added
        → MatchResult result (λ change. mismatch added fresh.now ≡ None)
        (λ fault. (fault ≡ Memory) ⊎ ((mismatch added fresh.now ≡ None) ⊎ (mismatch added fresh.now ≡ Some fault))) }
    ensures unchanged { tables.new ≡ tables.old }
    ensures stored { (added : List Placed) → MayPullOn tables.old bytes.now fresh.now added → IfOk result (MayComeNext 1 limits (length bytes.now) added) }
{
    let none = PendingRows::empty(alloc, u64::from(tables.others().count()));
    let taken = taken_of(alloc, tables, bytes, &none, fresh)?;
    moves_taken(alloc, tables, bytes, &taken, limits)
}
