//! Looking up in the newest base what a flush and a reload name.

ghost use Rattle.std.specs.Prelude.{◌≡◌, ◌<◌, ◌^◌, ℕ, List, [], None, IfOk, length, map, slice_index_or};
ghost use Rattle.name_map.specs.Added.{Placed};
ghost use Rattle.id_groups.specs.Name.{Name as NameBytes};
ghost use Rattle.commit_graph.specs.World.{Row, World, names_of};
ghost use Rattle.payload_tables.specs.Pending.{HeldRow, HoldsRows};
ghost use Rattle.store_plans.specs.Sessions.{IsSessionOf};
ghost use Rattle.store_plans.specs.Looking.{IsSoundCache, MaySee, Shows, items_of};
ghost use Rattle.store_plans.specs.Changes.{HaveNames, FindsHead, FindsHeads, FindsRows, IsRowOf, IsTaken};

use crate::lookup::{find, find_seen};
use crate::seen::Seen;
use crate::session::Session;
use id_groups::{Id, Name};
use lazy_names::LazyNames;
use payload_tables::PendingRows;
use remote_trait::Remote;
use std::alloc::Global;
use step_rules::Refusal;

/// The id of a head in the newest base; none where it is pending and not stored. A head that is neither is asked of a mirror where the
/// base has an id without a stored name, and `Unknown` where it is nowhere.
fn find_head<R: Remote>(
    alloc: Global,
    newest: &Seen<'_>,
    session: &Session,
    cache: &mut LazyNames,
    mirrors: &mut Vec<R>,
    head: &Name,
) -> Result<Option<Id>, Refusal>
    requires mirrors { length mirrors.old.items < 2 ^ 32 }
    requires base { (added : List Placed) × MaySee newest.now added × IsSessionOf added session.now }
    ensures finds { (added : List Placed) (w : World NameBytes) (rows : List (Row NameBytes)) → Shows newest.now added w [] → HaveNames session.now.pending (names_of rows)
        → FindsHead added w rows head.now (map R.shown mirrors.old.items) (map R.shown mirrors.new.items) cache.old cache.new result }
    ensures sound { IsSoundCache cache.old → IsSoundCache cache.new }
    ensures len { length mirrors.new.items ≡ length mirrors.old.items }
{
    if session.pending.find(head.lend()).is_some() {
        return Ok(newest.base.id(head.lend()));
    }
    let id = find_seen(alloc, newest, cache, mirrors, head)?;
    Ok(Some(id))
}

/// The ids of these heads in the newest base. The first that is refused is.
pub(crate) fn look_up_heads<R: Remote>(
    alloc: Global,
    newest: &Seen<'_>,
    session: &Session,
    cache: &mut LazyNames,
    mirrors: &mut Vec<R>,
    heads: &[Name],
) -> Result<Vec<Option<Id>>, Refusal>
    requires mirrors { length mirrors.old.items < 2 ^ 32 }
    requires base { (added : List Placed) × MaySee newest.now added × IsSessionOf added session.now }
    ensures finds { (added : List Placed) (w : World NameBytes) (rows : List (Row NameBytes)) → Shows newest.now added w [] → HaveNames session.now.pending (names_of rows)
        → FindsHeads added w rows heads.now (map R.shown mirrors.old.items) (map R.shown mirrors.new.items) cache.old cache.new (items_of result) }
    ensures sound { IsSoundCache cache.old → IsSoundCache cache.new }
    ensures len { length mirrors.new.items ≡ length mirrors.old.items }
{
    let mut found = Vec::new(alloc);
    'heads: for head in heads {
        let id = find_head(alloc, newest, session, cache, mirrors, head)?;
        let Ok(()) = found.push(id) else {
            return Err(Refusal::Memory);
        };
    }
    Ok(found)
}

/// The ids in the newest base of the names of a session's rows. One that isn't stored is asked of a mirror where the base has an id
/// without a stored name.
pub(crate) fn look_up_rows<R: Remote>(
    alloc: Global,
    newest: &Seen<'_>,
    session: &Session,
    cache: &mut LazyNames,
    mirrors: &mut Vec<R>,
) -> Result<Vec<Option<Id>>, Refusal>
    requires mirrors { length mirrors.old.items < 2 ^ 32 }
    requires base { (added : List Placed) × MaySee newest.now added × IsSessionOf added session.now }
    ensures finds { (added : List Placed) (w : World NameBytes) (names : List NameBytes) → Shows newest.now added w [] → HaveNames session.now.pending names
        → FindsRows added w names (map R.shown mirrors.old.items) (map R.shown mirrors.new.items) cache.old cache.new (items_of result) }
    ensures count { (rows : List HeldRow) → HoldsRows session.now.pending rows → IfOk result (λ found. length found.items ≡ length rows) }
    ensures sound { IsSoundCache cache.old → IsSoundCache cache.new }
    ensures len { length mirrors.new.items ≡ length mirrors.old.items }
{
    let pending = &session.pending;
    let mut found = Vec::new(alloc);
    'rows: for i in 0..pending.len() {
        let name = pending.name(i).to_name();
        let id = find(alloc, newest, cache, mirrors, &name)?;
        let Ok(()) = found.push(id) else {
            return Err(Refusal::Memory);
        };
    }
    Ok(found)
}

/// Takes over for a head that was found nowhere, but is pending, what was found of that row.
pub(crate) fn take_rows(
    pending: &PendingRows,
    heads: &[Name],
    rows: &[Option<Id>],
    found: &mut [Option<Id>],
)
    requires heads { length found.old ≡ length heads.now }
    requires rows { (held : List HeldRow) × HoldsRows pending.now held × (length rows.now ≡ length held) }
    ensures taken { (names : List NameBytes) → HaveNames pending.now names → (i : ℕ) → i < length heads.now
        → IsTaken names rows.now (slice_index_or heads.now i []) (slice_index_or found.old i None) (slice_index_or found.new i None) }
    ensures len { length found.new ≡ length found.old }
{
    'heads: for i in 0..heads.len() {
        found[i] = taken(pending, rows, &heads[i], found[i]);
    }
}

/// What was found of a head; or, where it was found nowhere, of the pending row with its name.
fn taken(pending: &PendingRows, rows: &[Option<Id>], head: &Name, found: Option<Id>) -> Option<Id>
    requires { (held : List HeldRow) × HoldsRows pending.now held × (length rows.now ≡ length held) }
    ensures { (names : List NameBytes) → HaveNames pending.now names → IsTaken names rows.now head.now found result }
{
    match found {
        Some(id) => Some(id),
        None => found_row(pending, rows, head),
    }
}

/// What was found of the pending row with the name; none where none has it.
fn found_row(pending: &PendingRows, rows: &[Option<Id>], name: &Name) -> Option<Id>
    requires { (held : List HeldRow) × HoldsRows pending.now held × (length rows.now ≡ length held) }
    ensures { (names : List NameBytes) → HaveNames pending.now names → IsRowOf names rows.now name.now result }
{
    match pending.find(name.lend()) {
        Some(k) => rows[k as usize],
        None => None,
    }
}
