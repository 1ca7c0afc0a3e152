//! Looking up names, among mirrors.

ghost use Rattle.std.specs.Prelude.{◌≡◌, ◌<◌, ◌^◌, List, nat_eq, true, length, map};
ghost use Rattle.std.specs.List.{AllByRecursion};
ghost use Rattle.std.specs.Cmp.Lexicographic.{pointwise};
ghost use Rattle.id_groups.specs.Name.{Name as NameBytes, IsName};
ghost use Rattle.commit_graph.specs.World.{Row, World};
ghost use Rattle.segment_codec.specs.Lent.{parents_left};
ghost use Rattle.segment_codec.specs.Table.{parents_at};
ghost use Rattle.high_segments.specs.Views.{flats_in};
ghost use Rattle.name_map.specs.Added.{Placed, payloads_of};
ghost use Rattle.change_rules.specs.Tables.{StandFor};
ghost use Rattle.change_rules.specs.Lazy.{has_lazy};
ghost use Rattle.payload_tables.specs.Kept.{AreTablesOf};
ghost use Rattle.change_parts.specs.Asked.{IsStored};
ghost use Rattle.store_plans.specs.Sessions.{PlainSession, IsSessionOf, base_added};
ghost use Rattle.store_plans.specs.Looking.{MaySee, Shows, Asked, FindsOne, Looks, IsSoundCache, as_refused, asking_refusal};

use crate::seen::Seen;
use high_segments::View;
use id_groups::{Id, Name};
use lazy_names::{LazyFault, LazyNames, Stored};
use payload_tables::Tables;
use remote_trait::Remote;
use segment_codec::{Parents, SegmentTable, Steps};
use std::alloc::Global;
use step_rules::Refusal;

/// That each of these names has its 20 bytes, for proofs of what is done with them.
pub fn are_names(names: &[Name])
    ensures { AllByRecursion IsName names.now }
{
    for name in names {
        let _bytes = name.lend();
    }
}

/// Whether some of the first master ids has no stored name.
pub fn has_unnamed(tables: &Tables, below: u64) -> bool
    ensures { (added : List Placed) (x : PlainSession) (w : World NameBytes) → AreTablesOf tables.now added → IsSessionOf added x → below ≡ x.below
        → StandFor (payloads_of (base_added added x)) w → result ≡ has_lazy (payloads_of (base_added added x)) w }
{
    tables.names().known_below(below) < below
}

/// A fault of asking, as a command is refused for it.
pub fn refusal_of(fault: LazyFault) -> Refusal
    ensures { result ≡ asking_refusal fault }
{
    match fault {
        LazyFault::NoRemote => Refusal::NoRemote,
        LazyFault::AllFailed(count) => Refusal::Remote(count),
        LazyFault::BadPath(from, back) => Refusal::MismatchPath(from, back),
        LazyFault::BadNames(asked, got) => Refusal::MismatchNames(asked, got),
        LazyFault::Memory => Refusal::Memory,
    }
}

/// What was found, or why the command is refused.
fn or_refused(found: Result<Option<Id>, LazyFault>) -> Result<Option<Id>, Refusal>
    ensures { result ≡ as_refused found }
{
    match found {
        Ok(found) => Ok(found),
        Err(fault) => Err(refusal_of(fault)),
    }
}

/// Asks a mirror for the id of a name that the base doesn't store, where it has an id without a stored name.
pub(crate) fn ask_name<R: Remote>(
    alloc: Global,
    seen: &Seen<'_>,
    cache: &mut LazyNames,
    mirrors: &mut Vec<R>,
    name: &Name,
) -> Result<Option<Id>, Refusal>
    requires mirrors { length mirrors.old.items < 2 ^ 32 }
    requires view { (added : List Placed) × MaySee seen.now added }
    ensures asked { (added : List Placed) (w : World NameBytes) (rows : List (Row NameBytes)) → Shows seen.now added w rows
        → has_lazy (payloads_of added) w ≡ true → (IsStored added name.now → ⊥)
        → Asked (payloads_of added) w name.now (map R.shown mirrors.old.items) (map R.shown mirrors.new.items) cache.old cache.new result }
    ensures sound { IsSoundCache cache.new }
    ensures len { length mirrors.new.items ≡ length mirrors.old.items }
{
    let stored = Stored {
        table: &seen.base.view(seen.pending),
        known: seen.tables.names(),
        bytes: seen.bytes,
    };
    let found = cache.find_among(alloc, stored, seen.tables.heads(), mirrors, name);
    let _sound = cache.len();
    or_refused(found)
}

/// The id of a name that a base has or that is pending. A name that is neither is asked of a mirror where the base has an id without a
/// stored name. The pending rows are tried first: there are few, and most parents are among them.
pub fn find<R: Remote>(
    alloc: Global,
    seen: &Seen<'_>,
    cache: &mut LazyNames,
    mirrors: &mut Vec<R>,
    name: &Name,
) -> Result<Option<Id>, Refusal>
    requires mirrors { length mirrors.old.items < 2 ^ 32 }
    requires view { (added : List Placed) × MaySee seen.now added }
    ensures looks { (added : List Placed) (w : World NameBytes) (rows : List (Row NameBytes)) → Shows seen.now added w rows
        → Looks (payloads_of added) w rows name.now (map R.shown mirrors.old.items) (map R.shown mirrors.new.items) cache.old cache.new result }
    ensures sound { IsSoundCache cache.old → IsSoundCache cache.new }
    ensures len { length mirrors.new.items ≡ length mirrors.old.items }
{
    if let Some(k) = seen.pending.find(name.lend()) {
        return Ok(Some(Id::other(seen.pending.first() + u64::from(k))));
    }
    if let Some(id) = seen.base.id(name.lend()) {
        return Ok(Some(id));
    }
    if !seen.unnamed {
        return Ok(None);
    }
    ask_name(alloc, seen, cache, mirrors, name)
}

/// The id of a name in a session's view. `Unknown` where it isn't there.
pub fn find_seen<R: Remote>(
    alloc: Global,
    seen: &Seen<'_>,
    cache: &mut LazyNames,
    mirrors: &mut Vec<R>,
    name: &Name,
) -> Result<Id, Refusal>
    requires mirrors { length mirrors.old.items < 2 ^ 32 }
    requires view { (added : List Placed) × MaySee seen.now added }
    ensures finds { (added : List Placed) (w : World NameBytes) (rows : List (Row NameBytes)) → Shows seen.now added w rows
        → FindsOne (payloads_of added) w rows name.now (map R.shown mirrors.old.items) (map R.shown mirrors.new.items) cache.old cache.new result }
    ensures sound { IsSoundCache cache.old → IsSoundCache cache.new }
    ensures len { length mirrors.new.items ≡ length mirrors.old.items }
{
    match find(alloc, seen, cache, mirrors, name)? {
        Some(id) => Ok(id),
        None => Err(Refusal::Unknown(*name)),
    }
}

/// Whether these are the ids, in order.
fn are_these(parents: Parents<'_>, ids: &[Id]) -> bool
    ensures { result ≡ pointwise nat_eq (parents_left parents.entry) ids.now }
{
    let mut rest = parents;
    match ids {
        [] => rest.next().is_none(),
        [id, others @ ..] => match rest.next() {
            Some(parent) => parent.number() == id.number() && are_these(rest, others),
            None => false,
        },
    }
}

/// Whether the id of the view has these parents, in order.
pub fn has_parents(view: &View<'_>, id: Id, ids: &[Id]) -> bool
    ensures { result ≡ pointwise nat_eq (parents_at (flats_in view.now) id) ids.now }
{
    let mut steps = Steps::new();
    let Some(segment) = view.flat(id, &mut steps) else {
        return ids.is_empty();
    };
    if segment.low().number() == id.number() {
        return are_these(segment.parents(), ids);
    }
    match ids {
        [parent] => parent.number() == id.number().saturating_sub(1),
        _ => false,
    }
}
