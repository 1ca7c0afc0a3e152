//! Pulling a remote's new master rows behind the stored ones.

ghost use Rattle.std.specs.Prelude.{◌≡◌, ◌<◌, ◌^◌, ℕ, List, Ok, Err, None, length, map, IfOk, MatchResult, OnErr};
ghost use Rattle.gated_log.specs.Held.{log_bytes};
ghost use Rattle.name_map.specs.Added.{Placed, payloads_of};
ghost use Rattle.remote_rules.specs.CloneData.{first_broken};
ghost use Rattle.mirror_set.specs.Fresh.{AsksFresh, count_from};
ghost use Rattle.change_rules.specs.Standard.{AreLimits};
ghost use Rattle.change_rules.specs.Tables.{cloned_count};
ghost use Rattle.change_parts.specs.Plans.{MayComeNext};
ghost use Rattle.step_rules.specs.State.{Stored};
ghost use Rattle.store_plans.specs.Sessions.{PlainSession, IsSessionOf};
ghost use Rattle.store_plans.specs.Changes.{AreOver, IsOn, IsPrepared, HasRoom};
ghost use Rattle.store_plans.specs.PullPlans.{PlansPull, PlansTold, RefusesPull, RefusesTold, fresh_refusal};

use crate::changing::{Next, take_change};
use crate::cloning::check_pending;
use crate::planning::refusal_of;
use crate::session::Session;
use change_parts::Change;
use change_rules::Limits;
use gated_log::Log;
use mirror_set::{Fresh, FreshFault, ask_fresh};
use payload_tables::Tables;
use pull_plan::plan_pull_change;
use remote_trait::Remote;
use std::alloc::{AllocError, Global};
use step_rules::Refusal;

/// What a pull is refused for that got nothing from a mirror.
fn refusal_for(fault: FreshFault) -> Refusal
    ensures { result ≡ fresh_refusal fault }
{
    match fault {
        FreshFault::NoRemote => Refusal::NoRemote,
        FreshFault::AllFailed(count) => Refusal::Remote(count),
        FreshFault::BadClone(at) => Refusal::MismatchClone(at),
        FreshFault::BadNames(asked, given) => Refusal::MismatchNames(asked, given),
        FreshFault::Memory => Refusal::Memory,
    }
}

/// What one of the mirrors tells of its master, with the names of its rows from this id on.
fn ask_told<R: Remote>(alloc: Global, mirrors: &mut Vec<R>, from: u64) -> Result<Fresh, Refusal>
    requires { length mirrors.old.items < 2 ^ 32 }
    ensures asks { MatchResult result
        (λ fresh. AsksFresh from (map R.shown mirrors.old.items) (map R.shown mirrors.new.items) (Ok fresh))
        (λ refusal. (fault : _) × AsksFresh from (map R.shown mirrors.old.items) (map R.shown mirrors.new.items) (Err fault) × (refusal ≡ fresh_refusal fault)) }
    ensures fits { IfOk result (λ fresh. (first_broken fresh.cloned ≡ None) × (length fresh.names ≡ count_from from fresh.cloned)) }
    ensures len { length mirrors.new.items ≡ length mirrors.old.items }
{
    match ask_fresh(alloc, mirrors, from) {
        Ok(fresh) => Ok(fresh),
        Err(fault) => Err(refusal_for(fault)),
    }
}

/// What a pull of what was told changes. The tables are asked for the levels of its segments, and stay as they are.
fn plan_told(
    alloc: Global,
    log: &Log,
    tables: &mut Tables,
    fresh: &Fresh,
    limits: Limits,
) -> Result<Change, Refusal>
    requires limits { AreLimits limits }
    requires limit { log.now.limit ≡ limits.log }
    requires over { (added : List Placed) × AreOver log.now tables.old added × (length fresh.now.names ≡ count_from (cloned_count (payloads_of added)) fresh.now.cloned) }
    requires unbroken { first_broken fresh.now.cloned ≡ None }
    ensures unchanged { tables.new ≡ tables.old }
    ensures stored { (added : List Placed) → AreOver log.now tables.old added → length fresh.now.names ≡ count_from (cloned_count (payloads_of added)) fresh.now.cloned
        → IfOk result (MayComeNext 1 limits (length (log_bytes log.now)) added) }
    ensures told { (began s : ℕ) (added : List Placed) (x : PlainSession) (st : Stored) → AreOver log.now tables.old added
        → length fresh.now.names ≡ count_from (cloned_count (payloads_of added)) fresh.now.cloned → IsOn began added x st s
        → MatchResult result (PlansTold limits st fresh.now) (RefusesTold limits st fresh.now) }
{
    match plan_pull_change(alloc, tables, log.bytes(), fresh, limits) {
        Ok(change) => Ok(change),
        Err(fault) => Err(refusal_of(fault)),
    }
}

/// Plans the pull of what was told, and takes all memory for it.
fn prepare_told(
    alloc: Global,
    log: &mut Log,
    tables: &mut Tables,
    fresh: &Fresh,
    limits: Limits,
) -> Result<Next, Refusal>
    requires limits { AreLimits limits }
    requires limit { log.old.limit ≡ limits.log }
    requires over { (added : List Placed) × AreOver log.old tables.old added × (length fresh.now.names ≡ count_from (cloned_count (payloads_of added)) fresh.now.cloned) }
    requires unbroken { first_broken fresh.now.cloned ≡ None }
    ensures room { HasRoom log.old log.new }
    ensures refused { OnErr result (tables.new ≡ tables.old) }
    ensures ready { (added : List Placed) → AreOver log.old tables.old added → length fresh.now.names ≡ count_from (cloned_count (payloads_of added)) fresh.now.cloned
        → IfOk result (λ next. IsPrepared limits log.old log.new tables.old tables.new added next.change next.session) }
    ensures told { (began s : ℕ) (added : List Placed) (x : PlainSession) (st : Stored) → AreOver log.old tables.old added
        → length fresh.now.names ≡ count_from (cloned_count (payloads_of added)) fresh.now.cloned → IsOn began added x st s
        → MatchResult result (λ next. PlansTold limits st fresh.now next.change) (RefusesTold limits st fresh.now) }
{
    let change = plan_told(alloc, log, tables, fresh, limits)?;
    match take_change(alloc, log, tables, &change, limits) {
        Ok(session) => Ok(Next { change, session }),
        Err(AllocError) => Err(Refusal::Memory),
    }
}

/// Asks the mirrors for their master, plans its pull, and takes all memory for it.
pub fn prepare_pull<R: Remote>(
    alloc: Global,
    log: &mut Log,
    tables: &mut Tables,
    session: &Session,
    mirrors: &mut Vec<R>,
    limits: Limits,
) -> Result<Next, Refusal>
    requires limits { AreLimits limits }
    requires limit { log.old.limit ≡ limits.log }
    requires kept { (added : List Placed) × AreOver log.old tables.old added × IsSessionOf added session.now }
    requires mirrors { length mirrors.old.items < 2 ^ 32 }
    ensures room { HasRoom log.old log.new }
    ensures refused { OnErr result (tables.new ≡ tables.old) }
    ensures ready { (added : List Placed) → AreOver log.old tables.old added
        → IfOk result (λ next. IsPrepared limits log.old log.new tables.old tables.new added next.change next.session) }
    ensures asks { (began s : ℕ) (added : List Placed) (st : Stored) → AreOver log.old tables.old added → IsOn began added session.now st s
        → MatchResult result
        (λ next. PlansPull limits st s (map R.shown mirrors.old.items) (map R.shown mirrors.new.items) next.change)
        (RefusesPull limits st s (map R.shown mirrors.old.items) (map R.shown mirrors.new.items)) }
    ensures len { length mirrors.new.items ≡ length mirrors.old.items }
{
    check_pending(session)?;
    let from = tables.cloned();
    let fresh = ask_told(alloc, mirrors, from)?;
    prepare_told(alloc, log, tables, &fresh, limits)
}
