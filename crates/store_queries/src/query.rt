//! The answers of expressions in a session's view.

ghost use Rattle.std.specs.Prelude.{◌≡◌, ◌<◌, ◌≤◌, ◌^◌, List, length, map, IfOk, MatchResult};
ghost use Rattle.id_groups.specs.Name.{Name as NameBytes, same_name};
ghost use Rattle.commit_graph.specs.World.{Row, World, with_pending};
ghost use Rattle.commit_graph.specs.Ids.{id_in};
ghost use Rattle.name_map.specs.Added.{Placed, payloads_of};
ghost use Rattle.span_set.specs.Members.{ids_of};
ghost use Rattle.set_expr.specs.Expr.{commits_in};
ghost use Rattle.set_expr.specs.Whole.{tree_of};
ghost use Rattle.store_plans.specs.Looking.{MaySee, Shows, AreRight, IsSoundCache, FindsAll, items_of};
ghost use Rattle.store_queries.specs.Bounds.{EndsWithoutParents, ancestors_of, most_looks};
ghost use Rattle.store_queries.specs.Names.{AreNamesById, known_name, names_left};
ghost use Rattle.store_queries.specs.Querying.{AreViewIds, Evaluates, Fetches, FindsMembers, IsTooLong};

use crate::names::Names;
use id_groups::Id;
use lazy_names::{Fetched, LazyNames, Stored};
use remote_trait::Remote;
use set_query::{Answer, Expr, eval};
use span_set::IdSet;
use std::alloc::Global;
use step_rules::Refusal;
use store_plans::{Seen, find_seen, refusal_of};

/// The answer of a query, and the names of those of its ids that have no stored one.
#[derive(Drop)]
pub struct Found {
    answer: Answer,
    fetched: Fetched,
}

impl Found {
    /// The answer of the expression.
    pub fn answer(&self) -> &Answer
        ensures { result.now ≡ self.now.answer }
    {
        &self.answer
    }

    /// The names of the answer, lent, where this is what was asked.
    pub fn names<'a>(&'a self, seen: &Seen<'a>) -> Names<'a>
        requires { (added : List Placed) × MaySee seen.now added }
        ensures { (added : List Placed) (w : World NameBytes) (rows : List (Row NameBytes)) (names : List NameBytes) → Shows seen.now added w rows
            → AreNamesById (payloads_of added) w rows (ids_of self.now.answer.set) (map known_name self.now.fetched) names → names_left result ≡ names }
    {
        Names::over(
            self.answer.set().ids_down(),
            seen.base,
            seen.pending,
            &self.fetched,
        )
    }
}

/// The ids of the names of an expression, in text order. They are looked up from left to right.
fn find_names<R: Remote>(
    alloc: Global,
    seen: &Seen<'_>,
    cache: &mut LazyNames,
    mirrors: &mut Vec<R>,
    expr: &Expr,
) -> Result<Vec<Id>, Refusal>
    requires mirrors { length mirrors.old.items < 2 ^ 32 }
    requires view { (added : List Placed) × MaySee seen.now added }
    ensures finds { (added : List Placed) (w : World NameBytes) (rows : List (Row NameBytes)) → Shows seen.now added w rows
        → FindsAll (payloads_of added) w rows (commits_in (tree_of expr.now)) (map R.shown mirrors.old.items) (map R.shown mirrors.new.items) cache.old cache.new (items_of result) }
    ensures sound { IsSoundCache cache.old → IsSoundCache cache.new }
    ensures len { length mirrors.new.items ≡ length mirrors.old.items }
{
    let mut ids = Vec::new(alloc);
    'names: for k in 0..expr.name_count() {
        let id = find_seen(alloc, seen, cache, mirrors, expr.name_at(k))?;
        let Ok(()) = ids.push(id) else {
            return Err(Refusal::Memory);
        };
    }
    Ok(ids)
}

/// The members of an expression in what a session sees.
///
/// `Unknown` for the first name of the expression that isn't there. Where a name has to be asked, `NoRemote` where there is no mirror,
/// `Remote` where all failed, and `MismatchPath` where the answer disagrees with the log.
pub fn members<R: Remote>(
    alloc: Global,
    seen: &Seen<'_>,
    cache: &mut LazyNames,
    mirrors: &mut Vec<R>,
    expr: &Expr,
) -> Result<Answer, Refusal>
    requires mirrors { length mirrors.old.items < 2 ^ 32 }
    requires view { (added : List Placed) × (w : World NameBytes) × (rows : List (Row NameBytes)) × Shows seen.now added w rows }
    ensures answer { (added : List Placed) (w : World NameBytes) (rows : List (Row NameBytes)) → Shows seen.now added w rows
        → Evaluates (payloads_of added) w rows (tree_of expr.now) (map R.shown mirrors.old.items) (map R.shown mirrors.new.items) cache.old cache.new result }
    ensures few { (added : List Placed) (w : World NameBytes) (rows : List (Row NameBytes)) (name : NameBytes) → Shows seen.now added w rows
        → tree_of expr.now ≡ ancestors_of name → IfOk result (λ answer. answer.steps ≤ most_looks w rows answer.set) }
    ensures one { (added : List Placed) (w : World NameBytes) (rows : List (Row NameBytes)) (name : NameBytes) → Shows seen.now added w rows
        → tree_of expr.now ≡ ancestors_of name → EndsWithoutParents w (id_in same_name (with_pending w rows) name)
        → AreRight (payloads_of added) w (map R.shown mirrors.old.items) → IfOk result (λ answer. answer.steps ≤ 8) }
    ensures sound { IsSoundCache cache.old → IsSoundCache cache.new }
    ensures len { length mirrors.new.items ≡ length mirrors.old.items }
{
    let ids = find_names(alloc, seen, cache, mirrors, expr)?;
    let Ok(answer) = eval(alloc, &seen.base.view(seen.pending), expr, &ids) else {
        return Err(Refusal::Memory);
    };
    let _spans = answer.set().spans();
    Ok(answer)
}

/// Refuses an answer that has more names than so many.
fn check_count(most: u32, answer: &Answer) -> Result<(), Refusal>
    ensures { MatchResult result (λ _. length (ids_of answer.now.set) ≤ most) (λ refusal. IsTooLong most (length (ids_of answer.now.set)) refusal) }
{
    let count = answer.count();
    if count > u64::from(most) {
        return Err(Refusal::Answer(count));
    }
    Ok(())
}

/// The names of a set's ids that have no stored one, in what a session sees: from the cache, or asked of a mirror.
fn fetch_names<R: Remote>(
    alloc: Global,
    seen: &Seen<'_>,
    cache: &mut LazyNames,
    mirrors: &mut Vec<R>,
    set: &IdSet,
) -> Result<Fetched, Refusal>
    requires mirrors { length mirrors.old.items < 2 ^ 32 }
    requires few { length (ids_of set.now) < 2 ^ 32 }
    requires view { (added : List Placed) × (w : World NameBytes) × (rows : List (Row NameBytes)) × Shows seen.now added w rows × AreViewIds w rows set.now }
    ensures fetches { (added : List Placed) (w : World NameBytes) (rows : List (Row NameBytes)) → Shows seen.now added w rows
        → Fetches (payloads_of added) w rows (ids_of set.now) (map R.shown mirrors.old.items) (map R.shown mirrors.new.items) cache.old cache.new result }
    ensures sound { IsSoundCache cache.old → IsSoundCache cache.new }
    ensures len { length mirrors.new.items ≡ length mirrors.old.items }
{
    if !seen.unnamed {
        return Ok(Fetched::none(alloc));
    }
    let view = seen.base.view(seen.pending);
    let stored = Stored {
        table: &view,
        known: seen.tables.names(),
        bytes: seen.bytes,
    };
    let fetched = cache.fetch_among(alloc, stored, mirrors, set);
    let _sound = cache.len();
    match fetched {
        Ok(fetched) => Ok(fetched),
        Err(fault) => Err(refusal_of(fault)),
    }
}

/// The answer of a query in what a session sees, with the names that aren't stored, of which there may be so many.
///
/// `Answer` where there are more members than that. Where a name has to be asked, `NoRemote` where there is no mirror, `Remote` where
/// all failed, and `MismatchNames` where the answer disagrees with the log.
pub fn found_in<R: Remote>(
    alloc: Global,
    seen: &Seen<'_>,
    most: u32,
    cache: &mut LazyNames,
    mirrors: &mut Vec<R>,
    answer: Answer,
) -> Result<Found, Refusal>
    requires mirrors { length mirrors.old.items < 2 ^ 32 }
    requires most { most ≤ 1048576 }
    requires view { (added : List Placed) × (w : World NameBytes) × (rows : List (Row NameBytes)) × Shows seen.now added w rows × AreViewIds w rows answer.set }
    ensures finds { (added : List Placed) (w : World NameBytes) (rows : List (Row NameBytes)) → Shows seen.now added w rows
        → FindsMembers most (payloads_of added) w rows (ids_of answer.set) (map R.shown mirrors.old.items) (map R.shown mirrors.new.items) cache.old cache.new result }
    ensures answer { IfOk result (λ found. found.answer ≡ answer) }
    ensures sound { IsSoundCache cache.old → IsSoundCache cache.new }
    ensures len { length mirrors.new.items ≡ length mirrors.old.items }
{
    check_count(most, &answer)?;
    let fetched = fetch_names(alloc, seen, cache, mirrors, answer.set())?;
    Ok(Found { answer, fetched })
}
