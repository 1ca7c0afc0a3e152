//! Typed calls over two commits, or over a place: each expression is made of the names or the number, and no text is.

ghost use Rattle.segdag_c.specs.Calls.{CountCame, PlaceCame, QueryCame};
ghost use Rattle.segdag_c.specs.Pairs.{ancestor_form, bases_form, only_form, place_form};

use crate::calls::{SESSIONS, count_held, query_held};
use crate::codes::Failure;
use crate::held::Held;
use dag_store::Expr;
use id_groups::Name;
use std::alloc::Global;

/// How often the first commit stands among the second and its ancestors: once or not at all.
pub(crate) fn count_ancestor(
    alloc: Global,
    held: &mut Held,
    session: u8,
    a: &Name,
    b: &Name,
) -> Result<u64, Failure>
    ensures { CountCame session (ancestor_form a.now b.now) held.old held.new result }
{
    if session >= SESSIONS {
        return Err(Failure::Argument);
    }
    match Expr::ancestor_of(alloc, a, b) {
        Ok(expr) => count_held(held, session, &expr),
        Err(_) => Err(Failure::Memory),
    }
}

/// How many commits the first one reaches and the second doesn't.
pub(crate) fn count_only(
    alloc: Global,
    held: &mut Held,
    session: u8,
    a: &Name,
    b: &Name,
) -> Result<u64, Failure>
    ensures { CountCame session (only_form a.now b.now) held.old held.new result }
{
    if session >= SESSIONS {
        return Err(Failure::Argument);
    }
    match Expr::only(alloc, a, b) {
        Ok(expr) => count_held(held, session, &expr),
        Err(_) => Err(Failure::Memory),
    }
}

/// Finds the merge bases of two commits: their names stand in `names`. How many bytes they have.
pub(crate) fn find_bases(
    alloc: Global,
    held: &mut Held,
    session: u8,
    a: &Name,
    b: &Name,
) -> Result<usize, Failure>
    ensures { QueryCame session (bases_form a.now b.now) held.old held.new result }
{
    if session >= SESSIONS {
        return Err(Failure::Argument);
    }
    match Expr::merge_bases(alloc, a, b) {
        Ok(expr) => query_held(alloc, held, session, &expr),
        Err(_) => Err(Failure::Memory),
    }
}

/// Finds the commit at a place, counted from the greatest id, which is at place 1: its name stands in `names`. How many bytes it has.
pub(crate) fn find_at_place(
    alloc: Global,
    held: &mut Held,
    session: u8,
    place: u64,
) -> Result<usize, Failure>
    ensures { PlaceCame session place (place_form place) held.old held.new result }
{
    if session >= SESSIONS || place == 0 {
        return Err(Failure::Argument);
    }
    match Expr::at_place(alloc, place) {
        Ok(expr) => query_held(alloc, held, session, &expr),
        Err(_) => Err(Failure::Memory),
    }
}
