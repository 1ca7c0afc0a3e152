//! The commits outside master by numbers: marks of them, and their new ids.

ghost use Rattle.std.specs.Prelude.{◌≡◌, ◌<◌, ◌≤◌, ◌+◌, ◌^◌, ◌++◌, ◌∷◌, [], ℕ, false, cond, replicate, not, filter, length, slice_index, slice_index_or, IfOk, OnOk, if◌then◌else◌, nat_eq, ◌-◌};
ghost use Rattle.id_groups.specs.Lists.{is_in};
ghost use Rattle.commit_graph.specs.Ids.{place_of};
ghost use Rattle.assign_ids.specs.Numbers.{AreBelow};
ghost use Rattle.name_map.specs.Part.{upward};
ghost use Rattle.change_parts.specs.Moves.{new_id};

use id_groups::{FIRST_OTHER, Group, Id};
use std::alloc::{AllocError, Global};

/// No mark.
fn no_marks(alloc: Global, n: u32) -> Result<Vec<bool>, AllocError>
    ensures { IfOk result (λ marks. marks.items ≡ replicate n false) }
{
    let marks = vec![in alloc; false; n as usize]?;
    Ok(marks)
}

/// These numbers below n are marked.
pub fn marks_of(alloc: Global, n: u32, numbers: &[u32]) -> Result<Vec<bool>, AllocError>
    requires { AreBelow n numbers.now }
    ensures marked { IfOk result (λ marks. (k : ℕ) → k < n → slice_index_or marks.items k false ≡ is_in nat_eq k numbers.now) }
    ensures len { IfOk result (λ marks. length marks.items ≡ n) }
{
    let mut marks = no_marks(alloc, n)?;
    'numbers: for number in numbers {
        marks[*number as usize] = true;
    }
    Ok(marks)
}

/// Adds the number, unless it is marked.
fn keep_unmarked(rest: &mut Vec<u32>, number: u32, marked: bool) -> Result<(), AllocError>
    ensures { OnOk result (rest.new.items ≡ rest.old.items ++ cond (not marked) (number ∷ []) []) }
{
    if !marked {
        rest.push(number)?;
    }
    Ok(())
}

/// The numbers that aren't marked.
pub fn unmarked(alloc: Global, marks: &[bool], n: u32) -> Result<Vec<u32>, AllocError>
    requires { length marks.now ≡ n }
    ensures { IfOk result (λ rest. rest.items ≡ filter (λ k. not (slice_index_or marks.now k false)) (upward 0 n)) }
{
    let mut rest = Vec::with_capacity(alloc, n as usize)?;
    'rest: for k in 0..n {
        keep_unmarked(&mut rest, k, marks[k as usize])?;
    }
    Ok(rest)
}

/// Gives ids to these numbers, from the first on in their order.
pub fn numbered(ids: Vec<Id>, numbers: &[u32], first: u64) -> Vec<Id>
    requires below { AreBelow (length ids.items) numbers.now }
    requires room { first + length numbers.now ≤ 2 ^ 57 }
    ensures ids { (k : ℕ) → k < length ids.items → slice_index result.items k ≡ (if is_in nat_eq k numbers.now then first + place_of nat_eq k numbers.now else slice_index ids.items k) }
    ensures len { length result.items ≡ length ids.items }
{
    let mut ids = ids;
    'numbers: for i in (0..numbers.len()).rev() {
        ids[numbers[i] as usize] = Id::from_number(first + i as u64);
    }
    ids
}

/// So many ids.
pub fn blank(alloc: Global, n: u32) -> Result<Vec<Id>, AllocError>
    ensures { IfOk result (λ ids. length ids.items ≡ n) }
{
    let ids = vec![in alloc; Id::master(0); n as usize]?;
    Ok(ids)
}

/// The number behind that of the id, or n where that is less.
pub fn end_of(high: Id, n: u32) -> u32
    requires { 2 ^ 56 ≤ high }
    ensures above { (k : ℕ) → 2 ^ 56 + k ≤ high → k < n → k < result }
    ensures below { (result ≤ n) × (2 ^ 56 + result ≤ high + 1) }
{
    let last = high.number() - FIRST_OTHER;
    if last < u64::from(n) {
        return last as u32 + 1;
    }
    n
}

/// The new id of an id.
pub fn moved(id: Id, ids: &[Id]) -> Id
    requires { id < 2 ^ 56 + length ids.now }
    ensures { result ≡ new_id ids.now id }
{
    match id.group() {
        Group::Master => id,
        Group::Others => ids[id.place() as usize],
    }
}
