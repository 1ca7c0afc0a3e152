//! What an add comes to, and a row more behind the pending ones.

ghost use Rattle.std.specs.Prelude.{◌≡◌, ◌<◌, ◌≤◌, ◌^◌, List, [], None, Some, map, length, nat_eq, IfOk, OnErr, MatchResult};
ghost use Rattle.id_groups.specs.Lists.{IsIn, AreDistinct, is_in};
ghost use Rattle.id_groups.specs.Name.{Name as NameBytes, same_name};
ghost use Rattle.commit_graph.specs.World.{Row, World};
ghost use Rattle.name_map.specs.Added.{Placed, payloads_of};
ghost use Rattle.payload_tables.specs.Pending.{HeldRow, HoldsRows, row_names};
ghost use Rattle.step_rules.specs.Tests.{twice};
ghost use Rattle.store_plans.specs.Looking.{MaySee, Shows, IsSoundCache, FindsAll, items_of};
ghost use Rattle.store_queries.specs.Adding.{FindsParents, IsTwice, Seeks, MayBeParents, Appends, MayBeSought, IsNewAmong, PutsSought};

use change_rules::Limit;
use id_groups::{Id, Name};
use lazy_names::LazyNames;
use payload_tables::PendingRows;
use remote_trait::Remote;
use std::alloc::Global;
use step_rules::Refusal;
use store_plans::{Seen, Session, find, find_seen, has_parents};

/// What an add did.
#[derive(Clone, Copy, PartialEq, Eq, Debug)]
pub enum Added {
    /// The row is pending, with this id.
    New(Id),
    /// The commit was there with these parents, with this id.
    Old(Id),
}

/// What an add comes to before it changes anything.
#[derive(Drop)]
pub enum Sought {
    /// The commit is there with these parents, with this id.
    Old(Id),
    /// It isn't there; these are the ids of its parents.
    New(Vec<Id>),
}

/// Whether the name is one of the names.
fn has_name(names: &[Name], name: &Name) -> bool
    ensures { result ≡ is_in same_name name.now names.now }
{
    for known in names {
        if name.is(known) {
            return true;
        }
    }
    false
}

/// Refuses the first parent that equals an earlier one.
fn refuse_twice(parents: &[Name]) -> Result<(), Refusal>
    ensures { MatchResult result (λ _. twice [] parents.now ≡ None) (λ refusal. twice [] parents.now ≡ Some refusal) }
{
    for place in 0..parents.len() {
        let parent = parents[place];
        if has_name(&parents[..place], &parent) {
            return Err(Refusal::Twice(parent));
        }
    }
    Ok(())
}

/// The ids of names in a session's view, in order. They are looked up from left to right.
fn find_all<R: Remote>(
    alloc: Global,
    seen: &Seen<'_>,
    cache: &mut LazyNames,
    mirrors: &mut Vec<R>,
    names: &[Name],
) -> Result<Vec<Id>, Refusal>
    requires mirrors { length mirrors.old.items < 2 ^ 32 }
    requires view { (added : List Placed) × MaySee seen.now added }
    ensures finds { (added : List Placed) (w : World NameBytes) (rows : List (Row NameBytes)) → Shows seen.now added w rows
        → FindsAll (payloads_of added) w rows names.now (map R.shown mirrors.old.items) (map R.shown mirrors.new.items) cache.old cache.new (items_of result) }
    ensures count { IfOk result (λ ids. length ids.items ≡ length names.now) }
    ensures sound { IsSoundCache cache.old → IsSoundCache cache.new }
    ensures len { length mirrors.new.items ≡ length mirrors.old.items }
{
    let Ok(mut ids) = Vec::with_capacity(alloc, names.len()) else {
        return Err(Refusal::Memory);
    };
    'names: for name in names {
        let id = find_seen(alloc, seen, cache, mirrors, name)?;
        let Ok(()) = ids.push(id) else {
            return Err(Refusal::Memory);
        };
    }
    Ok(ids)
}

/// Whether the id is one of these.
fn has_id(ids: &[Id], id: Id) -> bool
    ensures { result ≡ is_in nat_eq id ids.now }
{
    for known in ids {
        if known.number() == id.number() {
            return true;
        }
    }
    false
}

/// Refuses the first parent that was found as an earlier one: mirrors that lie may give two names one id.
fn refuse_same(ids: &[Id], parents: &[Name]) -> Result<(), Refusal>
    requires { length parents.now ≡ length ids.now }
    ensures { MatchResult result (λ _. AreDistinct ids.now) (λ refusal. (AreDistinct ids.now → ⊥) × IsTwice refusal) }
{
    'ids: for place in 0..ids.len() {
        if has_id(&ids[..place], ids[place]) {
            return Err(Refusal::Twice(parents[place]));
        }
    }
    Ok(())
}

/// The ids of parents, in order, no two of which may be the same.
fn find_parents<R: Remote>(
    alloc: Global,
    seen: &Seen<'_>,
    cache: &mut LazyNames,
    mirrors: &mut Vec<R>,
    parents: &[Name],
) -> Result<Vec<Id>, Refusal>
    requires mirrors { length mirrors.old.items < 2 ^ 32 }
    requires view { (added : List Placed) × MaySee seen.now added }
    ensures finds { (added : List Placed) (w : World NameBytes) (rows : List (Row NameBytes)) → Shows seen.now added w rows
        → FindsParents (payloads_of added) w rows parents.now (map R.shown mirrors.old.items) (map R.shown mirrors.new.items) cache.old cache.new (items_of result) }
    ensures distinct { IfOk result (λ ids. AreDistinct ids.items) }
    ensures sound { IsSoundCache cache.old → IsSoundCache cache.new }
    ensures len { length mirrors.new.items ≡ length mirrors.old.items }
{
    let ids = find_all(alloc, seen, cache, mirrors, parents)?;
    refuse_twice(parents)?;
    refuse_same(&ids, parents)?;
    Ok(ids)
}

/// Looks up a commit and its parents, and refuses it for all but the number of rows.
///
/// `Unknown` for the first parent that isn't there, `Twice` for the first parent that equals an earlier one, and `Differs` where the
/// commit is there with other parents. Where a name has to be asked, `NoRemote` where there is no mirror, `Remote` where all failed,
/// and `MismatchPath` where the answer disagrees with the log.
pub fn seek<R: Remote>(
    alloc: Global,
    seen: &Seen<'_>,
    cache: &mut LazyNames,
    mirrors: &mut Vec<R>,
    name: &Name,
    parents: &[Name],
) -> Result<Sought, Refusal>
    requires mirrors { length mirrors.old.items < 2 ^ 32 }
    requires view { (added : List Placed) × MaySee seen.now added }
    requires few { length parents.now ≤ 8 }
    ensures seeks { (added : List Placed) (w : World NameBytes) (rows : List (Row NameBytes)) → Shows seen.now added w rows
        → Seeks (payloads_of added) w rows name.now parents.now (map R.shown mirrors.old.items) (map R.shown mirrors.new.items) cache.old cache.new result }
    ensures sound { IsSoundCache cache.old → IsSoundCache cache.new }
    ensures len { length mirrors.new.items ≡ length mirrors.old.items }
{
    let found = find(alloc, seen, cache, mirrors, name)?;
    let ids = find_parents(alloc, seen, cache, mirrors, parents)?;
    let Some(id) = found else {
        return Ok(Sought::New(ids));
    };
    if !has_parents(&seen.base.view(seen.pending), id, &ids) {
        return Err(Refusal::Differs(*name));
    }
    Ok(Sought::Old(id))
}

/// Puts a row behind the pending ones, none of which has its name, if there are fewer than the limit.
fn append(
    pending: &mut PendingRows,
    most: u32,
    name: &Name,
    parents: &[Id],
) -> Result<Added, Refusal>
    requires rows { (rows : List HeldRow) × HoldsRows pending.old rows }
    requires limit { most ≤ 65536 }
    requires parents { MayBeParents pending.old.first (length pending.old.places) parents.now }
    ensures appends { (rows : List HeldRow) → HoldsRows pending.old rows → (IsIn name.now (row_names rows) → ⊥) → Appends most pending.old rows name.now parents.now result pending.new }
    ensures unchanged { OnErr result (pending.new ≡ pending.old) }
{
    let count = pending.len();
    if count >= most {
        return Err(Refusal::Full(Limit::Pending, u64::from(most)));
    }
    let id = Id::other(pending.first() + u64::from(count));
    let Ok(()) = pending.push_new(name, parents) else {
        return Err(Refusal::Memory);
    };
    Ok(Added::New(id))
}

/// Puts a row that was looked up behind the rows of a session, of which there may be so many, unless it was there.
pub fn add_sought(
    session: &mut Session,
    most: u32,
    name: &Name,
    sought: Sought,
) -> Result<Added, Refusal>
    requires rows { (rows : List HeldRow) × HoldsRows session.old.pending rows }
    requires limit { most ≤ 65536 }
    requires parents { MayBeSought session.old.pending sought }
    ensures puts { (rows : List HeldRow) → HoldsRows session.old.pending rows → IsNewAmong rows name.now sought → PutsSought most session.old rows name.now sought result session.new }
    ensures refused { OnErr result (session.new ≡ session.old) }
{
    match sought {
        Sought::Old(id) => Ok(Added::Old(id)),
        Sought::New(ids) => append(&mut session.pending, most, name, &ids),
    }
}
