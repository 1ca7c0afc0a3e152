//! The numbers that stay, and the new ids of all.

ghost use Rattle.std.specs.Prelude.{◌≡◌, ◌<◌, ◌≤◌, ◌+◌, ◌^◌, ℕ, length, slice_index, IfOk};
ghost use Rattle.id_groups.specs.Id.{other_id};
ghost use Rattle.assign_ids.specs.Numbers.{AreBelow};
ghost use Rattle.change_parts.specs.Moves.{rest_of, moved_id};

use change_parts::{blank, marks_of, numbered, unmarked};
use id_groups::{FIRST_OTHER, Id};
use std::alloc::{AllocError, Global};

/// The numbers that move, in order, behind so many master ids, and those that stay.
#[derive(Clone, Copy)]
pub(crate) struct Moved<'a> {
    pub(crate) before: u64,
    pub(crate) order: &'a [u32],
    pub(crate) rest: &'a [u32],
}

/// The numbers below n that don't move.
pub(crate) fn rest(alloc: Global, n: u32, order: &[u32]) -> Result<Vec<u32>, AllocError>
    requires { AreBelow n order.now }
    ensures { IfOk result (λ rest. rest.items ≡ rest_of n order.now) }
{
    let moves = marks_of(alloc, n, order)?;
    let rest = unmarked(alloc, &moves, n)?;
    Ok(rest)
}

/// The new ids of the numbers below n: those that move come behind so many master ids, and the rest keep their order.
pub(crate) fn ids_of(alloc: Global, n: u32, moved: &Moved<'_>) -> Result<Vec<Id>, AllocError>
    requires order { AreBelow n moved.now.order.now }
    requires rest { moved.now.rest.now ≡ rest_of n moved.now.order.now }
    requires room { moved.now.before + length moved.now.order.now ≤ 2 ^ 56 }
    ensures ids { IfOk result (λ ids. (k : ℕ) → k < n → slice_index ids.items k ≡ moved_id moved.now.before n moved.now.order.now (other_id k)) }
    ensures len { IfOk result (λ ids. length ids.items ≡ n) }
{
    let ids = blank(alloc, n)?;
    let ids = numbered(ids, moved.rest, FIRST_OTHER);
    let ids = numbered(ids, moved.order, moved.before);
    Ok(ids)
}
