//! The typed calls of an open log.

ghost use Rattle.std.specs.Prelude.{◌≡◌, ◌<◌, ◌≤◌, ℕ, List, length, map, IfOk, IfErr, MatchOption, MatchResult};
ghost use Rattle.std.specs.List.{concat};
ghost use Rattle.id_groups.specs.Name.{Name as NameBytes};
ghost use Rattle.set_expr.specs.Whole.{tree_of};
ghost use Rattle.set_expr.specs.Spelling.{SpellsExpr};
ghost use Rattle.span_set.specs.Members.{ids_of};
ghost use Rattle.step_rules.specs.State.{Stored};
ghost use Rattle.step_rules.specs.Reply.{Listed, Refused as IsRefused};
ghost use Rattle.step_rules.specs.declared.Refusal.TheVariants as why;
ghost use Rattle.dag_store.specs.Stands.{Stands};
ghost use Rattle.dag_store.specs.Steps.{AreIdsOf};
ghost use Rattle.store_queries.specs.Names.{known_name};
ghost use Rattle.step_rules.specs.Verb.{Add as ToAdd, Count as ToCount, IdOf, Query as ToQuery};
ghost use Rattle.segdag_c.specs.Calls.{AddCame, AddStepCame, AreNoParents, CountCame, IdCame, IsNoExpr, IsUntried, QueryCame, TextCountCame, TextQueryCame};
ghost use Rattle.segdag_c.specs.Does.{Does};
ghost use Rattle.segdag_c.specs.Mirrors.{shown_all};
ghost use Rattle.segdag_c.specs.Names.{AreJoined};
ghost use Rattle.segdag_c.specs.Typed.{added_reply, counted_reply, id_reply, refusal_in};

use crate::codes::Failure;
use crate::held::Held;
use crate::mirror::Mirror;
use crate::names::{NAME_SIZE, join, names_in};
use dag_store::{Added, Expr, Found, Refusal, Store};
use id_groups::{Id, Name};
use mirror_set::Mirrors;
use set_expr::ExprFault;
use std::alloc::Global;

/// The first number that is no session's.
pub(crate) const SESSIONS: u8 = 16;

/// How many parents a commit has at most.
const MOST_PARENTS: usize = 8;

/// Adds a commit to a session of the store.
fn add_to(
    store: &mut Store,
    mirrors: &mut Mirrors<Mirror>,
    session: u8,
    name: &Name,
    parents: &[Name],
) -> Result<Added, Failure>
    requires session { session < 16 }
    requires few { length parents.now ≤ 8 }
    ensures does { MatchOption (added_reply result) ⊥ (λ reply. Does (shown_all mirrors.old.list.items) store.old session (ToAdd name.now parents.now) reply store.new (shown_all mirrors.new.list.items)) }
    ensures limits { store.new.limits ≡ store.old.limits }
{
    match store.add(session, mirrors, name, parents) {
        Ok(added) => Ok(added),
        Err(refusal) => Err(Failure::Refused(refusal)),
    }
}

/// Adds a commit with these parents to a session.
fn add_held(held: &mut Held, session: u8, name: &Name, parents: &[Name]) -> Result<Added, Failure>
    requires session { session < 16 }
    requires few { length parents.now ≤ 8 }
    ensures { AddStepCame session name.now parents.now held.old held.new result }
{
    let Some(store) = &mut held.store else {
        return Err(Failure::Disk);
    };
    add_to(store, &mut held.mirrors, session, name, parents)
}

/// The names of parents that these bytes are, 20 each.
fn parents_in(alloc: Global, bytes: &[u8]) -> Result<Vec<Name>, Failure>
    ensures few { IfOk result (λ parents. length parents.items ≤ 8) }
    ensures joined { IfOk result (λ parents. AreJoined parents.items bytes.now) }
    ensures fault { IfErr result (IsUntried (AreNoParents bytes.now) ⊥) }
{
    if bytes.len() > MOST_PARENTS * NAME_SIZE {
        return Err(Failure::Argument);
    }
    if bytes.len() % NAME_SIZE != 0 {
        return Err(Failure::Argument);
    }
    match names_in(alloc, bytes) {
        Ok(parents) => Ok(parents),
        Err(_) => Err(Failure::Memory),
    }
}

/// Adds a commit with these parents, 20 bytes each, to a session.
pub(crate) fn add(
    alloc: Global,
    held: &mut Held,
    session: u8,
    name: &Name,
    parents: &[u8],
) -> Result<Added, Failure>
    ensures { AddCame session name.now parents.now held.old held.new result }
{
    if session >= SESSIONS {
        return Err(Failure::Argument);
    }
    match parents_in(alloc, parents) {
        Ok(parents) => add_held(held, session, name, &parents),
        Err(failure) => Err(failure),
    }
}

/// The id of a commit that a session of the store sees.
fn id_in(
    store: &mut Store,
    mirrors: &mut Mirrors<Mirror>,
    session: u8,
    name: &Name,
) -> Result<Id, Failure>
    requires { session < 16 }
    ensures does { MatchOption (id_reply result) ⊥ (λ reply. Does (shown_all mirrors.old.list.items) store.old session (IdOf name.now) reply store.new (shown_all mirrors.new.list.items)) }
    ensures limits { store.new.limits ≡ store.old.limits }
{
    match store.id(session, mirrors, name) {
        Ok(id) => Ok(id),
        Err(refusal) => Err(Failure::Refused(refusal)),
    }
}

/// The id of a commit that a session sees.
pub(crate) fn id(held: &mut Held, session: u8, name: &Name) -> Result<Id, Failure>
    ensures { IdCame session name.now held.old held.new result }
{
    if session >= SESSIONS {
        return Err(Failure::Argument);
    }
    let Some(store) = &mut held.store else {
        return Err(Failure::Disk);
    };
    id_in(store, &mut held.mirrors, session, name)
}

/// The expression that a text spells.
fn expr_of(alloc: Global, text: &[u8]) -> Result<Expr, Failure>
    ensures spells { IfOk result (λ e. SpellsExpr text.now (tree_of e)) }
    ensures fault { IfErr result (IsUntried ⊥ (IsNoExpr text.now)) }
{
    match Expr::parse(alloc, text) {
        Ok(expr) => Ok(expr),
        Err(ExprFault::Memory) => Err(Failure::Memory),
        Err(ExprFault::Syntax) => Err(Failure::Syntax),
    }
}

/// How many members an expression has in a session of the store.
fn count_in(
    store: &mut Store,
    mirrors: &mut Mirrors<Mirror>,
    session: u8,
    expr: &Expr,
) -> Result<u64, Failure>
    requires { session < 16 }
    ensures does { MatchOption (counted_reply result) ⊥ (λ reply. Does (shown_all mirrors.old.list.items) store.old session (ToCount (tree_of expr.now)) reply store.new (shown_all mirrors.new.list.items)) }
    ensures limits { store.new.limits ≡ store.old.limits }
{
    match store.count(session, mirrors, expr) {
        Ok(answer) => Ok(answer.count()),
        Err(refusal) => Err(Failure::Refused(refusal)),
    }
}

/// How many members an expression has in a session.
pub(crate) fn count_held(held: &mut Held, session: u8, expr: &Expr) -> Result<u64, Failure>
    requires { session < 16 }
    ensures { CountCame session (tree_of expr.now) held.old held.new result }
{
    let Some(store) = &mut held.store else {
        return Err(Failure::Disk);
    };
    count_in(store, &mut held.mirrors, session, expr)
}

/// How many members the expression that a text spells has in a session.
pub(crate) fn count(
    alloc: Global,
    held: &mut Held,
    session: u8,
    text: &[u8],
) -> Result<u64, Failure>
    ensures { TextCountCame session text.now held.old held.new result }
{
    if session >= SESSIONS {
        return Err(Failure::Argument);
    }
    match expr_of(alloc, text) {
        Ok(expr) => count_held(held, session, &expr),
        Err(failure) => Err(failure),
    }
}

/// The names of an answer, one behind the other.
fn join_found(alloc: Global, store: &Store, session: u8, found: &Found) -> Result<Vec<u8>, Failure>
    requires { session < 16 }
    ensures names { IfOk result (λ bytes. (listed : List NameBytes) × (concat listed ≡ bytes.items) × ((began : ℕ) (st : Stored) (names : List NameBytes) → Stands began store.now st
        → AreIdsOf st session (ids_of found.now.answer.set) (map known_name found.now.fetched) names → listed ≡ names)) }
    ensures fault { IfErr result (λ failure. failure ≡ Failure.Refused why.Memory) }
{
    match join(alloc, store.names(session, found)) {
        Ok(names) => Ok(names),
        Err(_) => Err(Failure::Refused(Refusal::Memory)),
    }
}

/// The names of the members of an expression in a session of the store.
fn query_in(
    alloc: Global,
    store: &mut Store,
    mirrors: &mut Mirrors<Mirror>,
    session: u8,
    expr: &Expr,
) -> Result<Vec<u8>, Failure>
    requires { session < 16 }
    ensures does { MatchResult result
        (λ bytes. (listed : List NameBytes) × (concat listed ≡ bytes.items)
        × Does (shown_all mirrors.old.list.items) store.old session (ToQuery (tree_of expr.now)) (Listed listed) store.new (shown_all mirrors.new.list.items))
        (λ failure. MatchOption (refusal_in failure) ⊥ (λ refusal.
        Does (shown_all mirrors.old.list.items) store.old session (ToQuery (tree_of expr.now)) (IsRefused refusal) store.new (shown_all mirrors.new.list.items))) }
    ensures limits { store.new.limits ≡ store.old.limits }
{
    match store.query(session, mirrors, expr) {
        Ok(found) => join_found(alloc, store, session, &found),
        Err(refusal) => Err(Failure::Refused(refusal)),
    }
}

/// Finds the members of an expression in a session: their names stand in `names`. How many bytes they have.
pub(crate) fn query_held(
    alloc: Global,
    held: &mut Held,
    session: u8,
    expr: &Expr,
) -> Result<usize, Failure>
    requires { session < 16 }
    ensures { QueryCame session (tree_of expr.now) held.old held.new result }
{
    let Some(store) = &mut held.store else {
        return Err(Failure::Disk);
    };
    match query_in(alloc, store, &mut held.mirrors, session, expr) {
        Ok(names) => {
            held.names = names;
            Ok(held.names.len())
        }
        Err(failure) => Err(failure),
    }
}

/// Finds the members of the expression that a text spells in a session: their names stand in `names`. How many bytes they have.
pub(crate) fn query(
    alloc: Global,
    held: &mut Held,
    session: u8,
    text: &[u8],
) -> Result<usize, Failure>
    ensures { TextQueryCame session text.now held.old held.new result }
{
    if session >= SESSIONS {
        return Err(Failure::Argument);
    }
    match expr_of(alloc, text) {
        Ok(expr) => query_held(alloc, held, session, &expr),
        Err(failure) => Err(failure),
    }
}
