//! Taking commits out of the stored world.

ghost use Rattle.std.specs.Prelude.{◌≡◌, ◌<◌, ◌^◌, ℕ, List, [], length, map, IfOk, OnErr};
ghost use Rattle.std.specs.List.{AllByRecursion};
ghost use Rattle.gated_log.specs.Held.{log_bytes};
ghost use Rattle.id_groups.specs.Name.{Name as NameBytes};
ghost use Rattle.commit_graph.specs.World.{World, IsNamedWorld};
ghost use Rattle.name_map.specs.Added.{Placed, payloads_of};
ghost use Rattle.change_rules.specs.Standard.{AreLimits};
ghost use Rattle.change_rules.specs.Tables.{StandFor};
ghost use Rattle.change_parts.specs.Plans.{MayComeNext};
ghost use Rattle.step_rules.specs.State.{Stored};
ghost use Rattle.store_plans.specs.Sessions.{IsSessionOf};
ghost use Rattle.store_plans.specs.Looking.{IsSoundCache, MaySee, Shows, items_of};
ghost use Rattle.store_plans.specs.Changes.{AreOver, IsOn, IsPrepared, HasRoom};
ghost use Rattle.store_plans.specs.Strips.{FindsOther, FindsOthers, IsOtherId, PlansStrip, PreparesStrip};

use crate::changing::{Next, take_change};
use crate::cloning::check_pending;
use crate::lookup::find;
use crate::planning::refusal_of;
use crate::seen::Seen;
use crate::session::Session;
use crate::sources::NameSources;
use change_parts::Change;
use change_rules::Limits;
use gated_log::Log;
use id_groups::{Group, Id, Name};
use lazy_names::LazyNames;
use payload_tables::{PendingRows, Tables};
use remote_trait::Remote;
use std::alloc::{AllocError, Global};
use step_rules::Refusal;
use strip_plan::plan_strip_change;

/// The id in the newest base of a commit that isn't one of master. A name that isn't stored is asked of a mirror where the base has an
/// id without a stored name. `InMaster` for a commit of master, and `Unknown` for a name that is nowhere.
fn find_other<R: Remote>(
    alloc: Global,
    newest: &Seen<'_>,
    cache: &mut LazyNames,
    mirrors: &mut Vec<R>,
    name: &Name,
) -> Result<Id, Refusal>
    requires mirrors { length mirrors.old.items < 2 ^ 32 }
    requires view { (added : List Placed) × MaySee newest.now added }
    ensures finds { (added : List Placed) (w : World NameBytes) → Shows newest.now added w []
        → FindsOther added w name.now (map R.shown mirrors.old.items) (map R.shown mirrors.new.items) cache.old cache.new result }
    ensures sound { IsSoundCache cache.old → IsSoundCache cache.new }
    ensures len { length mirrors.new.items ≡ length mirrors.old.items }
{
    let found = find(alloc, newest, cache, mirrors, name)?;
    let Some(id) = found else {
        return Err(Refusal::Unknown(*name));
    };
    match id.group() {
        Group::Master => Err(Refusal::InMaster(*name)),
        Group::Others => Ok(id),
    }
}

/// The ids in the newest base of these names, none of which is one of master. The first that is refused is.
fn look_up_others<R: Remote>(
    alloc: Global,
    newest: &Seen<'_>,
    cache: &mut LazyNames,
    mirrors: &mut Vec<R>,
    names: &[Name],
) -> Result<Vec<Id>, Refusal>
    requires mirrors { length mirrors.old.items < 2 ^ 32 }
    requires view { (added : List Placed) × MaySee newest.now added }
    ensures finds { (added : List Placed) (w : World NameBytes) → Shows newest.now added w []
        → FindsOthers added w names.now (map R.shown mirrors.old.items) (map R.shown mirrors.new.items) cache.old cache.new (items_of result) }
    ensures sound { IsSoundCache cache.old → IsSoundCache cache.new }
    ensures len { length mirrors.new.items ≡ length mirrors.old.items }
{
    let mut ids = Vec::new(alloc);
    'names: for name in names {
        let id = find_other(alloc, newest, cache, mirrors, name)?;
        let Ok(()) = ids.push(id) else {
            return Err(Refusal::Memory);
        };
    }
    Ok(ids)
}

/// The ids of these names in the newest base of a log. The first that is refused is.
fn others_found<R: Remote>(
    alloc: Global,
    log: &Log,
    tables: &Tables,
    cache: &mut LazyNames,
    mirrors: &mut Vec<R>,
    names: &[Name],
) -> Result<Vec<Id>, Refusal>
    requires mirrors { length mirrors.old.items < 2 ^ 32 }
    requires over { (added : List Placed) × AreOver log.now tables.now added }
    ensures found { (added : List Placed) → AreOver log.now tables.now added → IfOk result (λ ids. AllByRecursion (IsOtherId added) ids.items) }
    ensures finds { (added : List Placed) (w : World NameBytes) → AreOver log.now tables.now added → StandFor (payloads_of added) w → IsNamedWorld w
        → FindsOthers added w names.now (map R.shown mirrors.old.items) (map R.shown mirrors.new.items) cache.old cache.new (items_of result) }
    ensures sound { IsSoundCache cache.old → IsSoundCache cache.new }
    ensures len { length mirrors.new.items ≡ length mirrors.old.items }
{
    let none = PendingRows::empty(alloc, u64::from(tables.others().count()));
    let newest = Seen::newest(log.bytes(), tables, &none);
    look_up_others(alloc, &newest, cache, mirrors, names)
}

/// What a strip of these names by a session changes.
fn plan_stripped<R: Remote>(
    alloc: Global,
    log: &Log,
    tables: &Tables,
    session: &Session,
    sources: NameSources<'_, '_, R>,
    names: &[Name],
    limits: Limits,
) -> Result<Change, Refusal>
    requires mirrors { length sources.mirrors.now.items < 2 ^ 32 }
    requires limits { AreLimits limits }
    requires limit { log.now.limit ≡ limits.log }
    requires kept { (added : List Placed) × AreOver log.now tables.now added × IsSessionOf added session.now }
    ensures stored { (added : List Placed) → AreOver log.now tables.now added → IfOk result (MayComeNext 1 limits (length (log_bytes log.now)) added) }
    ensures step { (began s : ℕ) (added : List Placed) (st : Stored) → AreOver log.now tables.now added → IsOn began added session.now st s
        → PlansStrip limits st s names.now (map R.shown sources.entry.mirrors.now.items) (map R.shown sources.exit.1.0.now.items) sources.entry.cache.now sources.exit.0.now result }
    ensures sound { IsSoundCache sources.entry.cache.now → IsSoundCache sources.exit.0.now }
    ensures len { length sources.exit.1.0.now.items ≡ length sources.entry.mirrors.now.items }
{
    check_pending(session)?;
    let NameSources { cache, mirrors } = sources;
    let ids = others_found(alloc, log, tables, cache, mirrors, names)?;
    match plan_strip_change(alloc, tables, log.bytes(), &ids, limits) {
        Ok(change) => Ok(change),
        Err(fault) => Err(refusal_of(fault)),
    }
}

/// Plans the strip of these names by a session, and takes all memory for it.
pub fn prepare_strip<R: Remote>(
    alloc: Global,
    log: &mut Log,
    tables: &mut Tables,
    session: &Session,
    sources: NameSources<'_, '_, R>,
    names: &[Name],
    limits: Limits,
) -> Result<Next, Refusal>
    requires mirrors { length sources.mirrors.now.items < 2 ^ 32 }
    requires limits { AreLimits limits }
    requires limit { log.old.limit ≡ limits.log }
    requires kept { (added : List Placed) × AreOver log.old tables.old added × IsSessionOf added session.now }
    ensures room { HasRoom log.old log.new }
    ensures refused { OnErr result (tables.new ≡ tables.old) }
    ensures ready { (added : List Placed) → AreOver log.old tables.old added
        → IfOk result (λ next. IsPrepared limits log.old log.new tables.old tables.new added next.change next.session) }
    ensures step { (began s : ℕ) (added : List Placed) (st : Stored) → AreOver log.old tables.old added → IsOn began added session.now st s
        → PreparesStrip limits st s names.now (map R.shown sources.entry.mirrors.now.items) (map R.shown sources.exit.1.0.now.items) sources.entry.cache.now sources.exit.0.now result }
    ensures sound { IsSoundCache sources.entry.cache.now → IsSoundCache sources.exit.0.now }
    ensures len { length sources.exit.1.0.now.items ≡ length sources.entry.mirrors.now.items }
{
    let change = plan_stripped(alloc, log, tables, session, sources, names, limits)?;
    match take_change(alloc, log, tables, &change, limits) {
        Ok(session) => Ok(Next { change, session }),
        Err(AllocError) => Err(Refusal::Memory),
    }
}
