//! A session's change, and the memory for it.

ghost use Rattle.std.specs.Prelude.{◌≡◌, ◌<◌, ◌≤◌, ◌+◌, ◌^◌, ℕ, List, [], length, Ok, IfOk, OnErr, OnOk, map};
ghost use Rattle.batch_codec.specs.Payload.{Payload, payload_bytes};
ghost use Rattle.change_rules.specs.Lawful.{MayFollow};
ghost use Rattle.gated_log.specs.Held.{log_bytes, longer};
ghost use Rattle.name_map.specs.Added.{Placed, payloads_of};
ghost use Rattle.change_rules.specs.Standard.{AreLimits};
ghost use Rattle.change_parts.specs.Asked.{MayStore};
ghost use Rattle.change_parts.specs.Plans.{MayComeNext};
ghost use Rattle.payload_tables.specs.Kept.{AreTablesOf};
ghost use Rattle.step_rules.specs.State.{Stored};
ghost use Rattle.store_plans.specs.Sessions.{IsSessionOf, IsOnNewest};
ghost use Rattle.store_plans.specs.Looking.{IsSoundCache};
ghost use Rattle.store_plans.specs.Changes.{AreOver, IsOn, IsPrepared, PreparesFlush, Reloads, added_behind, HasRoom};

use crate::planning::{plan, rebased};
use crate::session::Session;
use crate::sources::NameSources;
use batch_codec::BatchRef;
use change_parts::Change;
use change_rules::Limits;
use gated_log::{Log, ReserveFault};
use id_groups::Name;
use lazy_names::LazyNames;
use payload_tables::{PendingRows, Tables};
use remote_trait::Remote;
use std::alloc::{AllocError, Global};
use step_rules::Refusal;

/// The session on so many payloads, of which these are the tables, with these rows.
fn session_with(
    alloc: Global,
    tables: &Tables,
    payloads: u32,
    pending: PendingRows,
) -> Result<Session, AllocError>
    ensures session { (added : List Placed) → AreTablesOf tables.now added → payloads ≡ length added → MayStore pending added → IfOk result (λ x. IsSessionOf added x × (x.payloads ≡ length added)) }
    ensures pending { IfOk result (λ x. x.pending ≡ pending) }
{
    let others = tables.others().copy(alloc)?;
    Ok(Session {
        payloads,
        below: tables.master_count(),
        others,
        pending,
    })
}

/// The session on the newest world, with its rows that this doesn't have.
pub fn reloaded<R: Remote>(
    alloc: Global,
    log: &Log,
    tables: &Tables,
    session: &Session,
    cache: &mut LazyNames,
    mirrors: &mut Vec<R>,
) -> Result<Session, Refusal>
    requires mirrors { length mirrors.old.items < 2 ^ 32 }
    requires over { (added : List Placed) × AreOver log.now tables.now added × IsSessionOf added session.now }
    ensures session { (added : List Placed) → AreOver log.now tables.now added → IsSessionOf added session.now
        → IfOk result (λ x. IsSessionOf added x × (x.payloads ≡ length added)) }
    ensures step { (began s : ℕ) (added : List Placed) (st : Stored) (limits : _) → AreOver log.now tables.now added → IsSessionOf added session.now
        → IsOn began added session.now st s
        → Reloads limits st s (map R.shown mirrors.old.items) (map R.shown mirrors.new.items) cache.old cache.new result }
    ensures sound { IsSoundCache cache.old → IsSoundCache cache.new }
    ensures len { length mirrors.new.items ≡ length mirrors.old.items }
{
    let sources = NameSources { cache, mirrors };
    let left = rebased(alloc, log, tables, session, sources, &[], &mut [])?;
    match session_with(alloc, tables, log.batch_count(), left) {
        Ok(session) => Ok(session),
        Err(AllocError) => Err(Refusal::Memory),
    }
}

/// Takes the memory for the payload of a change: it is added to the tables, and the log has room for it. The answer is a session
/// without rows that is on it.
fn add_change(
    alloc: Global,
    log: &mut Log,
    tables: &mut Tables,
    payload: &[u8],
) -> Result<Session, AllocError>
    requires fits { (longer log.old payload.now ≤ log.old.limit) × (log.old.limit ≤ 2 ^ 32) }
    requires lawful { (added : List Placed) × (last : Payload) × AreOver log.old tables.old added × MayFollow (payloads_of added) last × (payload.now ≡ payload_bytes last) }
    ensures room { HasRoom log.old log.new }
    ensures refused { OnErr result (tables.new ≡ tables.old) }
    ensures enough { OnOk result (longer log.old payload.now ≤ log.new.room) }
    ensures added { (added : List Placed) (last : Payload) → AreOver log.old tables.old added → MayFollow (payloads_of added) last → payload.now ≡ payload_bytes last
        → IfOk result (λ x. AreTablesOf tables.new (added_behind log.old added last) × IsOnNewest (added_behind log.old added last) x) }
{
    match log.reserve(payload.len() as u64) {
        Ok(()) => {}
        Err(ReserveFault::Memory) => return Err(AllocError),
        Err(ReserveFault::Full) => unreachable!(),
    }
    add_payload(alloc, log, tables, payload)
}

/// Adds the payload to the tables. The answer is a session without rows that is on it.
fn add_payload(
    alloc: Global,
    log: &Log,
    tables: &mut Tables,
    payload: &[u8],
) -> Result<Session, AllocError>
    requires fits { longer log.now payload.now ≤ 2 ^ 32 }
    requires lawful { (added : List Placed) × (last : Payload) × AreOver log.now tables.old added × MayFollow (payloads_of added) last × (payload.now ≡ payload_bytes last) }
    ensures refused { OnErr result (tables.new ≡ tables.old) }
    ensures added { (added : List Placed) (last : Payload) → AreOver log.now tables.old added → MayFollow (payloads_of added) last → payload.now ≡ payload_bytes last
        → IfOk result (λ x. AreTablesOf tables.new (added_behind log.now added last) × IsOnNewest (added_behind log.now added last) x) }
{
    let batch = BatchRef::over(payload);
    let bytes = log.bytes();
    let at = bytes.len() as u64 + 8;
    let payloads = log.batch_count() + 1;
    let others = tables.add_lawful(bytes, &batch, at)?;
    Ok(Session::with_others(alloc, tables, payloads, others))
}

/// Takes the memory for a change: where nothing changes, the session is on the newest payloads without rows; or the log and the
/// tables are ready for the payload, and the session is on it.
pub(crate) fn take_change(
    alloc: Global,
    log: &mut Log,
    tables: &mut Tables,
    change: &Change,
    limits: Limits,
) -> Result<Session, AllocError>
    requires limits { AreLimits limits }
    requires limit { log.old.limit ≡ limits.log }
    requires stored { (kind : ℕ) × (added : List Placed) × AreOver log.old tables.old added × MayComeNext kind limits (length (log_bytes log.old)) added change.now }
    ensures room { HasRoom log.old log.new }
    ensures refused { OnErr result (tables.new ≡ tables.old) }
    ensures ready { (kind : ℕ) (added : List Placed) → AreOver log.old tables.old added → MayComeNext kind limits (length (log_bytes log.old)) added change.now
        → IfOk result (IsPrepared limits log.old log.new tables.old tables.new added change.now) }
{
    if change.same {
        return Session::newest(alloc, tables, log.batch_count());
    }
    add_change(alloc, log, tables, change.payload.bytes())
}

/// A change, and the session after it.
#[derive(Drop)]
pub struct Next {
    /// The change.
    pub change: Change,
    /// The session, without rows, on the world that it makes.
    pub session: Session,
}

/// Plans the flush of a session, and takes all memory for it.
pub fn prepare_flush<R: Remote>(
    alloc: Global,
    log: &mut Log,
    tables: &mut Tables,
    session: &Session,
    sources: NameSources<'_, '_, R>,
    heads: &[Name],
    limits: Limits,
) -> Result<Next, Refusal>
    requires mirrors { length sources.mirrors.now.items < 2 ^ 32 }
    requires limits { AreLimits limits }
    requires limit { log.old.limit ≡ limits.log }
    requires kept { (added : List Placed) × AreOver log.old tables.old added × IsSessionOf added session.now }
    ensures room { HasRoom log.old log.new }
    ensures refused { OnErr result (tables.new ≡ tables.old) }
    ensures ready { (added : List Placed) → AreOver log.old tables.old added → IsSessionOf added session.now
        → IfOk result (λ next. IsPrepared limits log.old log.new tables.old tables.new added next.change next.session) }
    ensures step { (began s : ℕ) (added : List Placed) (st : Stored) → AreOver log.old tables.old added → IsSessionOf added session.now
        → IsOn began added session.now st s
        → PreparesFlush limits st s heads.now (map R.shown sources.entry.mirrors.now.items) (map R.shown sources.exit.1.0.now.items) sources.entry.cache.now sources.exit.0.now result }
    ensures sound { IsSoundCache sources.entry.cache.now → IsSoundCache sources.exit.0.now }
    ensures len { length sources.exit.1.0.now.items ≡ length sources.entry.mirrors.now.items }
{
    let change = plan(alloc, log, tables, session, sources, heads, limits)?;
    match take_change(alloc, log, tables, &change, limits) {
        Ok(session) => Ok(Next { change, session }),
        Err(AllocError) => Err(Refusal::Memory),
    }
}
