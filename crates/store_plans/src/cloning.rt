//! Cloning a remote's master into a store that has nothing.

ghost use Rattle.std.specs.Prelude.{◌≡◌, ◌<◌, ◌+◌, ◌^◌, ◌⊎◌, ℕ, List, [], None, Some, Ok, Err, length, map, IfOk, MatchResult, OnErr};
ghost use Rattle.std.specs.Option.{option_map};
ghost use Rattle.gated_log.specs.Held.{log_bytes};
ghost use Rattle.id_groups.specs.Name.{Name as NameBytes};
ghost use Rattle.commit_graph.specs.World.{Row, World};
ghost use Rattle.name_map.specs.Added.{Placed, payloads_of};
ghost use Rattle.change_rules.specs.Tables.{StandFor};
ghost use Rattle.payload_tables.specs.Bases.{ArePending};
ghost use Rattle.payload_tables.specs.Pending.{HeldRow, HoldsRows};
ghost use Rattle.remote_trait.specs.Calls.{Refreshes};
ghost use Rattle.mirror_set.specs.Asking.{Asks, IsItsClone};
ghost use Rattle.change_rules.specs.Standard.{AreLimits};
ghost use Rattle.payload_tables.specs.Kept.{AreTablesOf};
ghost use Rattle.change_parts.specs.Plans.{MayBeStored};
ghost use Rattle.clone_plan.specs.Cloning.{told_refusal, IsToldPlan};
ghost use Rattle.step_rules.specs.declared.Refusal.TheVariants as why;
ghost use Rattle.step_rules.specs.State.{Stored};
ghost use Rattle.step_rules.specs.Verb.{Clone};
ghost use Rattle.step_rules.specs.Tests.{refused_first, tests};
ghost use Rattle.step_rules.specs.Asking.{refusal_for};
ghost use Rattle.store_plans.specs.Sessions.{IsSessionOf};
ghost use Rattle.store_plans.specs.Changes.{AreOver, IsOn, IsPrepared, refusal_of, HasRoom};
ghost use Rattle.store_plans.specs.ClonePlans.{PlansClone, RefusesClone};

use crate::changing::{Next, take_change};
use crate::planning::refusal_of;
use crate::session::Session;
use change_parts::Change;
use change_rules::Limits;
use clone_plan::plan_clone_change;
use gated_log::Log;
use mirror_set::{MirrorFault, ask_clone};
use payload_tables::Tables;
use remote_trait::{CloneData, Remote};
use std::alloc::{AllocError, Global};
use step_rules::Refusal;

/// What an ask is refused for that no mirror answered.
fn refusal_for(fault: MirrorFault) -> Refusal
    ensures { result ≡ refusal_for fault }
{
    match fault {
        MirrorFault::NoRemote => Refusal::NoRemote,
        MirrorFault::AllFailed(count) => Refusal::Remote(count),
        MirrorFault::Memory => Refusal::Memory,
    }
}

/// Refuses a clone where something is stored.
fn check_empty(tables: &Tables) -> Result<(), Refusal>
    ensures none { (added : List Placed) → AreTablesOf tables.now added → IfOk result (λ done. added ≡ []) }
    ensures rows { (added : List Placed) (w : World NameBytes) → AreTablesOf tables.now added → StandFor (payloads_of added) w → MatchResult result
        (λ done. (length w.master ≡ 0) × (length w.others ≡ 0))
        (λ refusal. (refusal ≡ why.NotEmpty (length w.master) (length w.others)) × (0 < length w.master + length w.others)) }
{
    let master = tables.master_count();
    let others = u64::from(tables.others().count());
    if master > 0 || others > 0 {
        return Err(Refusal::NotEmpty(master, others));
    }
    Ok(())
}

/// Refuses where the session has rows.
pub(crate) fn check_pending(session: &Session) -> Result<(), Refusal>
    requires { (rows : List HeldRow) × HoldsRows session.now.pending rows }
    ensures { (w : World NameBytes) (rows : List (Row NameBytes)) → ArePending w session.now.pending rows → MatchResult result
        (λ done. length rows ≡ 0) (λ refusal. (refusal ≡ why.Pending (length rows)) × (0 < length rows)) }
{
    let pending = session.pending.len();
    if pending > 0 {
        return Err(Refusal::Pending(pending));
    }
    Ok(())
}

/// Refuses a clone where something is stored, or the session has rows.
fn check_nothing(tables: &Tables, session: &Session) -> Result<(), Refusal>
    requires { (added : List Placed) × IsSessionOf added session.now }
    ensures none { (added : List Placed) → AreTablesOf tables.now added → IfOk result (λ done. added ≡ []) }
    ensures tests { (began s : ℕ) (added : List Placed) (st : Stored) (limits : _) → AreTablesOf tables.now added → IsOn began added session.now st s
        → MatchResult result (λ done. refused_first (tests limits st s Clone) ≡ None) (λ refusal. refused_first (tests limits st s Clone) ≡ Some refusal) }
{
    check_empty(tables)?;
    check_pending(session)?;
    Ok(())
}

/// What one of the mirrors tells of its master.
fn ask_told<R: Remote>(alloc: Global, mirrors: &mut Vec<R>) -> Result<CloneData, Refusal>
    requires { length mirrors.old.items < 2 ^ 32 }
    ensures asks { MatchResult result
        (λ told. Asks Refreshes IsItsClone (map R.shown mirrors.old.items) (map R.shown mirrors.new.items) (Ok told))
        (λ refusal. (fault : _) × Asks Refreshes IsItsClone (map R.shown mirrors.old.items) (map R.shown mirrors.new.items) (Err fault) × (refusal ≡ refusal_for fault)) }
    ensures len { length mirrors.new.items ≡ length mirrors.old.items }
{
    match ask_clone(alloc, mirrors) {
        Ok(told) => Ok(told),
        Err(fault) => Err(refusal_for(fault)),
    }
}

/// What a clone of what was told changes. The tables, to which nothing was added, are asked for the levels of its segments, and stay as
/// they are.
fn plan_told(
    alloc: Global,
    log: &Log,
    tables: &mut Tables,
    told: &CloneData,
    limits: Limits,
) -> Result<Change, Refusal>
    requires limits { AreLimits limits }
    requires limit { log.now.limit ≡ limits.log }
    requires tables { AreTablesOf tables.old [] }
    ensures unchanged { tables.new ≡ tables.old }
    ensures stored { IfOk result (MayBeStored 2 limits (length (log_bytes log.now)) []) }
    ensures told { MatchResult result
        (λ change. (told_refusal limits (length (log_bytes log.now)) told.now ≡ None) × IsToldPlan change told.now)
        (λ refusal. (refusal ≡ why.Memory) ⊎ (option_map refusal_of (told_refusal limits (length (log_bytes log.now)) told.now) ≡ Some refusal)) }
{
    match plan_clone_change(alloc, tables, log.bytes(), told, limits) {
        Ok(change) => Ok(change),
        Err(fault) => Err(refusal_of(fault)),
    }
}

/// Plans the clone of what was told, and takes all memory for it. Nothing was added to the tables.
fn prepare_told(
    alloc: Global,
    log: &mut Log,
    tables: &mut Tables,
    told: &CloneData,
    limits: Limits,
) -> Result<Next, Refusal>
    requires limits { AreLimits limits }
    requires limit { log.old.limit ≡ limits.log }
    requires over { AreOver log.old tables.old [] }
    ensures room { HasRoom log.old log.new }
    ensures refused { OnErr result (tables.new ≡ tables.old) }
    ensures ready { IfOk result (λ next. IsPrepared limits log.old log.new tables.old tables.new [] next.change next.session) }
    ensures told { MatchResult result
        (λ next. (told_refusal limits (length (log_bytes log.old)) told.now ≡ None) × IsToldPlan next.change told.now)
        (λ refusal. (refusal ≡ why.Memory) ⊎ (option_map refusal_of (told_refusal limits (length (log_bytes log.old)) told.now) ≡ Some refusal)) }
{
    let change = plan_told(alloc, log, tables, told, limits)?;
    match take_change(alloc, log, tables, &change, limits) {
        Ok(session) => Ok(Next { change, session }),
        Err(AllocError) => Err(Refusal::Memory),
    }
}

/// Asks the mirrors for their master, plans its clone, and takes all memory for it.
pub fn prepare_clone<R: Remote>(
    alloc: Global,
    log: &mut Log,
    tables: &mut Tables,
    session: &Session,
    mirrors: &mut Vec<R>,
    limits: Limits,
) -> Result<Next, Refusal>
    requires limits { AreLimits limits }
    requires limit { log.old.limit ≡ limits.log }
    requires kept { (added : List Placed) × AreOver log.old tables.old added × IsSessionOf added session.now }
    requires mirrors { length mirrors.old.items < 2 ^ 32 }
    ensures room { HasRoom log.old log.new }
    ensures refused { OnErr result (tables.new ≡ tables.old) }
    ensures ready { (added : List Placed) → AreOver log.old tables.old added → IsSessionOf added session.now
        → IfOk result (λ next. IsPrepared limits log.old log.new tables.old tables.new added next.change next.session) }
    ensures asks { (began s : ℕ) (added : List Placed) (st : Stored) → AreOver log.old tables.old added → IsSessionOf added session.now → IsOn began added session.now st s
        → MatchResult result
        (λ next. PlansClone limits st s (length (log_bytes log.old)) (map R.shown mirrors.old.items) (map R.shown mirrors.new.items) next.change)
        (RefusesClone limits st s (length (log_bytes log.old)) (map R.shown mirrors.old.items) (map R.shown mirrors.new.items)) }
    ensures len { length mirrors.new.items ≡ length mirrors.old.items }
{
    check_nothing(tables, session)?;
    let told = ask_told(alloc, mirrors)?;
    prepare_told(alloc, log, tables, &told, limits)
}
