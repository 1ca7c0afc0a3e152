//! What a session's change is.

ghost use Rattle.std.specs.Prelude.{◌≡◌, ◌<◌, ◌^◌, ℕ, List, Ok, length, map, IfErr, IfOk, MatchResult};
ghost use Rattle.std.specs.List.{AllZip};
ghost use Rattle.gated_log.specs.Held.{log_bytes};
ghost use Rattle.id_groups.specs.Name.{Name as NameBytes};
ghost use Rattle.commit_graph.specs.World.{World, IsNamedWorld, names_of};
ghost use Rattle.name_map.specs.Added.{Placed, payloads_of};
ghost use Rattle.change_rules.specs.Lazy.{has_lazy};
ghost use Rattle.change_rules.specs.Standard.{AreLimits};
ghost use Rattle.change_rules.specs.Tables.{StandFor};
ghost use Rattle.payload_tables.specs.Kept.{AreTablesOf};
ghost use Rattle.payload_tables.specs.Pending.{HeldRow, HoldsRows};
ghost use Rattle.remote_rules.specs.Mirror.{Mirror};
ghost use Rattle.lazy_names.specs.Cache.{PlainCache};
ghost use Rattle.change_parts.specs.Asked.{IsFoundIn, MayStore};
ghost use Rattle.change_parts.specs.Plans.{MayBeStored, stored_id};
ghost use Rattle.step_rules.specs.State.{Stored, pending_of};
ghost use Rattle.step_rules.specs.declared.Refusal.TheVariants as why;
ghost use Rattle.store_plans.specs.Sessions.{IsSessionOf};
ghost use Rattle.store_plans.specs.Looking.{IsSoundCache, items_of};
ghost use Rattle.store_plans.specs.Changes.{AreOver, FindsHeads, FindsRows, HaveNames, IsOn, IsOfPlan, Rebases, RebasesAnew, PlansFlush, RowsFound, refusal_of};

use crate::finding::{look_up_heads, look_up_rows, take_rows};
use crate::seen::Seen;
use crate::session::Session;
use crate::sources::NameSources;
use change_parts::{Change, PlanFault};
use change_rules::Limits;
use flush_plan::plan_change;
use gated_log::Log;
use id_groups::{Id, Name};
use lazy_names::LazyNames;
use payload_tables::{PendingRows, Tables};
use rebase_pending::rebase;
use remote_trait::Remote;
use std::alloc::{AllocError, Global};
use step_rules::Refusal;

/// A plan's fault, as a command is refused for it.
pub(crate) fn refusal_of(fault: PlanFault) -> Refusal
    ensures { result ≡ refusal_of fault }
{
    match fault {
        PlanFault::Unknown(name) => Refusal::Unknown(name),
        PlanFault::Conflict(name) => Refusal::Conflict(name),
        PlanFault::Lost(name) => Refusal::Lost(name),
        PlanFault::Emptied(count) => Refusal::Emptied(count),
        PlanFault::Full(what, limit) => Refusal::Full(what, limit),
        PlanFault::BadClone(at) => Refusal::MismatchClone(at),
        PlanFault::BadRow(id) => Refusal::MismatchRow(id),
        PlanFault::Memory => Refusal::Memory,
    }
}

/// Whether some master id has no stored name.
pub fn lacks_names(tables: &Tables) -> bool
    ensures { (added : List Placed) (w : World NameBytes) → AreTablesOf tables.now added → StandFor (payloads_of added) w → result ≡ has_lazy (payloads_of added) w }
{
    let count = tables.master_count();
    tables.names().known_below(count) < count
}

/// The rows once more.
fn copied(alloc: Global, pending: &PendingRows) -> Result<PendingRows, Refusal>
    ensures { MatchResult result (λ copy. copy ≡ pending.now) (λ refusal. refusal ≡ why.Memory) }
{
    match pending.copy(alloc) {
        Ok(copy) => Ok(copy),
        Err(AllocError) => Err(Refusal::Memory),
    }
}

/// The rows of a session that the newest world doesn't have, with their parents by their ids in it, where these were found of their
/// names.
fn rebased_anew(
    alloc: Global,
    log: &Log,
    tables: &Tables,
    session: &Session,
    found: &[Option<Id>],
) -> Result<PendingRows, Refusal>
    requires { (added : List Placed) × AreOver log.now tables.now added × IsSessionOf added session.now × RowsFound added session.now.pending found.now }
    ensures left { (added : List Placed) → AreOver log.now tables.now added → IsSessionOf added session.now → RowsFound added session.now.pending found.now → IfOk result (λ left. MayStore left added) }
    ensures step { (began s : ℕ) (added : List Placed) (st : Stored) → AreOver log.now tables.now added → IsSessionOf added session.now
        → IsOn began added session.now st s → found.now ≡ map (stored_id st.stored) (names_of (pending_of st s)) → RebasesAnew st s result }
    ensures planned { IfErr result IsOfPlan }
{
    let bytes = log.bytes();
    let base = session.base(bytes, tables);
    match rebase(alloc, tables, bytes, base, &session.pending, found) {
        Ok(left) => Ok(left),
        Err(fault) => Err(refusal_of(fault)),
    }
}

/// What the names of a session's rows are found to be in the newest base, in the order of the rows. The first that is refused is.
fn rows_found<R: Remote>(
    alloc: Global,
    log: &Log,
    tables: &Tables,
    session: &Session,
    cache: &mut LazyNames,
    mirrors: &mut Vec<R>,
) -> Result<Vec<Option<Id>>, Refusal>
    requires mirrors { length mirrors.old.items < 2 ^ 32 }
    requires over { (added : List Placed) × AreOver log.now tables.now added × IsSessionOf added session.now }
    ensures found { (added : List Placed) → AreOver log.now tables.now added → IsSessionOf added session.now → IfOk result (λ found. RowsFound added session.now.pending found.items) }
    ensures finds { (added : List Placed) (w : World NameBytes) (names : List NameBytes) → AreOver log.now tables.now added → IsSessionOf added session.now
        → StandFor (payloads_of added) w → IsNamedWorld w → HaveNames session.now.pending names
        → FindsRows added w names (map R.shown mirrors.old.items) (map R.shown mirrors.new.items) cache.old cache.new (items_of result) }
    ensures count { (rows : List HeldRow) → HoldsRows session.now.pending rows → IfOk result (λ found. length found.items ≡ length rows) }
    ensures sound { IsSoundCache cache.old → IsSoundCache cache.new }
    ensures len { length mirrors.new.items ≡ length mirrors.old.items }
{
    let none = PendingRows::empty(alloc, u64::from(tables.others().count()));
    let newest = Seen::newest(log.bytes(), tables, &none);
    look_up_rows(alloc, &newest, session, cache, mirrors)
}

/// The rows of a session that the newest world doesn't have, with their parents by their ids in it. Those of a session that is on the
/// newest world stay as they are. Of heads that were found nowhere else, what was found of the rows with their names is found.
pub(crate) fn rebased<R: Remote>(
    alloc: Global,
    log: &Log,
    tables: &Tables,
    session: &Session,
    sources: NameSources<'_, '_, R>,
    heads: &[Name],
    found: &mut [Option<Id>],
) -> Result<PendingRows, Refusal>
    requires mirrors { length sources.mirrors.now.items < 2 ^ 32 }
    requires heads { length found.old ≡ length heads.now }
    requires over { (added : List Placed) × AreOver log.now tables.now added × IsSessionOf added session.now }
    ensures left { (added : List Placed) → AreOver log.now tables.now added → IsSessionOf added session.now → IfOk result (λ left. MayStore left added) }
    ensures found { (added : List Placed) → AreOver log.now tables.now added → IsSessionOf added session.now
        → AllZip (IsFoundIn added) heads.now found.old → IfOk result (λ left. AllZip (IsFoundIn added) heads.now found.new) }
    ensures step { (began s : ℕ) (added : List Placed) (st : Stored) (limits : _) → AreOver log.now tables.now added → IsSessionOf added session.now
        → IsOn began added session.now st s
        → Rebases limits st s heads.now (map R.shown sources.entry.mirrors.now.items) (map R.shown sources.exit.1.0.now.items) sources.entry.cache.now sources.exit.0.now found.old found.new result }
    ensures size { length found.new ≡ length found.old }
    ensures sound { IsSoundCache sources.entry.cache.now → IsSoundCache sources.exit.0.now }
    ensures len { length sources.exit.1.0.now.items ≡ length sources.entry.mirrors.now.items }
{
    if session.payloads == log.batch_count() {
        return copied(alloc, &session.pending);
    }
    let NameSources { cache, mirrors } = sources;
    let rows = rows_found(alloc, log, tables, session, cache, mirrors)?;
    take_rows(&session.pending, heads, &rows, found);
    rebased_anew(alloc, log, tables, session, &rows)
}

/// What a flush of these heads changes. The tables are asked for the levels that come with it, and stay as they are.
pub(crate) fn plan<R: Remote>(
    alloc: Global,
    log: &Log,
    tables: &mut Tables,
    session: &Session,
    sources: NameSources<'_, '_, R>,
    heads: &[Name],
    limits: Limits,
) -> Result<Change, Refusal>
    requires mirrors { length sources.mirrors.now.items < 2 ^ 32 }
    requires limits { AreLimits limits }
    requires limit { log.now.limit ≡ limits.log }
    requires kept { (added : List Placed) × AreOver log.now tables.old added × IsSessionOf added session.now }
    ensures stored { (added : List Placed) → AreOver log.now tables.old added → IsSessionOf added session.now
        → IfOk result (MayBeStored 1 limits (length (log_bytes log.now)) added) }
    ensures unchanged { tables.new ≡ tables.old }
    ensures step { (began s : ℕ) (added : List Placed) (st : Stored) → AreOver log.now tables.old added → IsSessionOf added session.now
        → IsOn began added session.now st s
        → PlansFlush limits st s heads.now (map R.shown sources.entry.mirrors.now.items) (map R.shown sources.exit.1.0.now.items) sources.entry.cache.now sources.exit.0.now result }
    ensures sound { IsSoundCache sources.entry.cache.now → IsSoundCache sources.exit.0.now }
    ensures len { length sources.exit.1.0.now.items ≡ length sources.entry.mirrors.now.items }
{
    let NameSources { cache, mirrors } = sources;
    let mut found = heads_found(alloc, log, tables, session, cache, mirrors, heads)?;
    let sources = NameSources { cache, mirrors };
    let sought = Sought {
        heads,
        found: &mut found,
    };
    plan_found(alloc, log, tables, session, sources, sought, limits)
}

/// Heads, and what was found of each in the newest base.
#[derive(Drop)]
struct Sought<'h, 'f> {
    heads: &'h [Name],
    found: &'f mut [Option<Id>],
}

/// What a flush of these heads changes, of which these ids were found in the newest base, or none.
fn plan_found<R: Remote>(
    alloc: Global,
    log: &Log,
    tables: &mut Tables,
    session: &Session,
    sources: NameSources<'_, '_, R>,
    sought: Sought<'_, '_>,
    limits: Limits,
) -> Result<Change, Refusal>
    requires mirrors { length sources.mirrors.now.items < 2 ^ 32 }
    requires limits { AreLimits limits }
    requires limit { log.now.limit ≡ limits.log }
    requires kept { (added : List Placed) × AreOver log.now tables.old added × IsSessionOf added session.now × AllZip (IsFoundIn added) sought.heads.now sought.found.now }
    ensures stored { (added : List Placed) → AreOver log.now tables.old added → IsSessionOf added session.now → AllZip (IsFoundIn added) sought.entry.heads.now sought.entry.found.now
        → IfOk result (MayBeStored 1 limits (length (log_bytes log.now)) added) }
    ensures unchanged { tables.new ≡ tables.old }
    ensures step { (began s : ℕ) (added : List Placed) (st : Stored) (first : List Mirror) (before : PlainCache) → AreOver log.now tables.old added → IsSessionOf added session.now
        → IsOn began added session.now st s
        → FindsHeads added st.stored (pending_of st s) sought.entry.heads.now first (map R.shown sources.entry.mirrors.now.items) before sources.entry.cache.now (Ok sought.entry.found.now)
        → PlansFlush limits st s sought.entry.heads.now first (map R.shown sources.exit.1.0.now.items) before sources.exit.0.now result }
    ensures sound { IsSoundCache sources.entry.cache.now → IsSoundCache sources.exit.0.now }
    ensures len { length sources.exit.1.0.now.items ≡ length sources.entry.mirrors.now.items }
{
    let Sought { heads, found } = sought;
    let left = rebased(alloc, log, tables, session, sources, heads, found)?;
    match plan_change(alloc, tables, log.bytes(), &left, heads, found, limits) {
        Ok(change) => Ok(change),
        Err(fault) => Err(refusal_of(fault)),
    }
}

/// The ids of these heads in the newest base. The first that is refused is.
fn heads_found<R: Remote>(
    alloc: Global,
    log: &Log,
    tables: &Tables,
    session: &Session,
    cache: &mut LazyNames,
    mirrors: &mut Vec<R>,
    heads: &[Name],
) -> Result<Vec<Option<Id>>, Refusal>
    requires mirrors { length mirrors.old.items < 2 ^ 32 }
    requires over { (added : List Placed) × AreOver log.now tables.now added × IsSessionOf added session.now }
    ensures found { (added : List Placed) → AreOver log.now tables.now added → IsSessionOf added session.now → IfOk result (λ found. AllZip (IsFoundIn added) heads.now found.items) }
    ensures step { (began s : ℕ) (added : List Placed) (st : Stored) → AreOver log.now tables.now added → IsSessionOf added session.now
        → IsOn began added session.now st s
        → FindsHeads added st.stored (pending_of st s) heads.now (map R.shown mirrors.old.items) (map R.shown mirrors.new.items) cache.old cache.new (items_of result) }
    ensures sound { IsSoundCache cache.old → IsSoundCache cache.new }
    ensures len { length mirrors.new.items ≡ length mirrors.old.items }
{
    let none = PendingRows::empty(alloc, u64::from(tables.others().count()));
    let newest = Seen::newest(log.bytes(), tables, &none);
    look_up_heads(alloc, &newest, session, cache, mirrors, heads)
}
