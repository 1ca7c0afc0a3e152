//! The sets that the forms of expressions make.

ghost use Rattle.std.specs.Prelude.{min, ◌-◌, ◌≡◌, ℕ, ◌+◌, ◌*◌, ◌≤◌, ◌<◌, ◌^◌, ◌⊎◌, ◌↔◌, Some, IfOk, OnOk};
ghost use Rattle.commit_graph.specs.Graph.{first_ancestor as after_steps};
ghost use Rattle.segment_codec.specs.Table.{IsHeld};
ghost use Rattle.span_set.specs.Members.{IsMember, IsCanonical};
ghost use Rattle.ancestor_query.specs.Graph.{table_graph};
ghost use Rattle.ancestor_query.specs.Counts.{count_met, EndsWhole};
ghost use Rattle.set_expr.specs.Meaning.{named, made_of as made, made_of_two as made_two};

use ancestor_query::{ancestors, first_ancestor, parents};
use common_ancestor::{common, gca, only, tips};
use history_walks::line;
use id_groups::{FIRST_OTHER, Id, IdSpan};
use range_query::{children, descendants, heads, merges, range, roots};
use segment_codec::{SegmentTable, Steps};
use set_expr::{Call, PairCall, Word};
use span_set::IdSet;
use std::alloc::{AllocError, Global};

/// The set of this id alone. `AllocError` only for want of memory.
pub(crate) fn single(alloc: Global, id: Id) -> Result<IdSet, AllocError>
    ensures members { IfOk result (λ r. (x : ℕ) → IsMember r x ↔ (x ≡ id)) }
    ensures canonical { IfOk result IsCanonical }
{
    let mut set = IdSet::empty(alloc);
    set.insert_span(IdSpan::single(id))?;
    Ok(set)
}

/// The set that the word names. `AllocError` only for want of memory.
pub(crate) fn named_set<T: SegmentTable>(
    alloc: Global,
    table: &T,
    word: Word,
) -> Result<IdSet, AllocError>
    ensures members { IfOk result (λ r. (x : ℕ) → IsMember r x ↔ named (table_graph (T.flats table.now)) word x) }
    ensures canonical { IfOk result IsCanonical }
{
    match word {
        Word::All => all_of(alloc, table),
        Word::Master => masters_of(alloc, table),
        Word::Others => others_of(alloc, table),
    }
}

/// All ids of the table. `AllocError` only for want of memory.
fn all_of<T: SegmentTable>(alloc: Global, table: &T) -> Result<IdSet, AllocError>
    ensures members { IfOk result (λ r. (x : ℕ) → IsMember r x ↔ named (table_graph (T.flats table.now)) Word.All x) }
    ensures canonical { IfOk result IsCanonical }
{
    let bounds = table.bounds();
    let mut set = others_of(alloc, table)?;
    set.insert_between(0, bounds.master)?;
    Ok(set)
}

/// The ids of the master group. `AllocError` only for want of memory.
fn masters_of<T: SegmentTable>(alloc: Global, table: &T) -> Result<IdSet, AllocError>
    ensures members { IfOk result (λ r. (x : ℕ) → IsMember r x ↔ named (table_graph (T.flats table.now)) Word.Master x) }
    ensures canonical { IfOk result IsCanonical }
{
    let bounds = table.bounds();
    let mut set = IdSet::empty(alloc);
    set.insert_between(0, bounds.master)?;
    Ok(set)
}

/// The ids of the other group. `AllocError` only for want of memory.
fn others_of<T: SegmentTable>(alloc: Global, table: &T) -> Result<IdSet, AllocError>
    ensures members { IfOk result (λ r. (x : ℕ) → IsMember r x ↔ named (table_graph (T.flats table.now)) Word.Others x) }
    ensures canonical { IfOk result IsCanonical }
{
    let bounds = table.bounds();
    let mut set = IdSet::empty(alloc);
    set.insert_between(FIRST_OTHER, FIRST_OTHER + bounds.others)?;
    Ok(set)
}

/// What the call makes of the set, whose members are ids of the table. It takes back nothing that `steps` counted.
/// `AllocError` only for want of memory.
pub(crate) fn made_of<T: SegmentTable>(
    alloc: Global,
    table: &T,
    call: Call,
    set: &IdSet,
    steps: &mut Steps,
) -> Result<IdSet, AllocError>
    requires { (x : ℕ) → IsMember set.now x → IsHeld (T.flats table.now) x }
    ensures members { IfOk result (λ r. (x : ℕ) → IsMember r x ↔ made (table_graph (T.flats table.now)) call (IsMember set.now) x) }
    ensures canonical { IfOk result IsCanonical }
    ensures counted { min steps.old.taken (2 ^ 64 - 1) ≤ steps.new.taken }
    ensures few { call ≡ Call.Ancestors → IfOk result (λ r. steps.new.taken ≤ steps.old.taken + 8 * (1 + count_met r (T.flats table.now))) }
    ensures looked { call ≡ Call.Ancestors → IfOk result (λ r. (x : ℕ) → IsMember r x → min (steps.old.taken + 8) (2 ^ 64 - 1) ≤ steps.new.taken) }
    ensures one { (x : ℕ) → call ≡ Call.Ancestors → ((y : ℕ) → IsMember set.now y ↔ (y ≡ x)) → EndsWhole (T.ending_at table.now) x → OnOk result (steps.new.taken ≤ steps.old.taken + 8) }
{
    match call {
        Call::Parents => parents(alloc, table, set, steps),
        Call::Children => children(alloc, table, set, steps),
        Call::Ancestors => ancestors(alloc, table, set, steps),
        Call::Descendants => descendants(alloc, table, set, steps),
        Call::Heads => heads(alloc, table, set, steps),
        Call::Roots => roots(alloc, table, set, steps),
        Call::Tips => tips(alloc, table, set, steps),
        Call::Merges => merges(alloc, table, set, steps),
        Call::Common => common(alloc, table, set, steps),
        Call::Gca => gca(alloc, table, set, steps),
        Call::Line => line(alloc, table, set, steps),
    }
}

/// What the call makes of the two sets, whose members are ids of the table. It takes back nothing that `steps` counted.
/// `AllocError` only for want of memory.
pub(crate) fn made_of_two<T: SegmentTable>(
    alloc: Global,
    table: &T,
    call: PairCall,
    one: &IdSet,
    other: &IdSet,
    steps: &mut Steps,
) -> Result<IdSet, AllocError>
    requires one { (x : ℕ) → IsMember one.now x → IsHeld (T.flats table.now) x }
    requires other { (x : ℕ) → IsMember other.now x → IsHeld (T.flats table.now) x }
    ensures members { IfOk result (λ r. (x : ℕ) → IsMember r x ↔ made_two (table_graph (T.flats table.now)) call (IsMember one.now) (IsMember other.now) x) }
    ensures canonical { IfOk result IsCanonical }
    ensures counted { min steps.old.taken (2 ^ 64 - 1) ≤ steps.new.taken }
{
    match call {
        PairCall::Range => range(alloc, table, one, other, steps),
        PairCall::Only => only(alloc, table, one, other, steps),
        PairCall::Union => one.union(alloc, other),
        PairCall::Inter => one.inter(alloc, other),
        PairCall::Minus => one.minus(alloc, other),
    }
}

/// The n-th first-parent ancestor of the id, where there is one. It takes back nothing that `steps` counted. `AllocError`
/// only for want of memory.
pub(crate) fn up<T: SegmentTable>(
    alloc: Global,
    table: &T,
    id: Id,
    n: u64,
    steps: &mut Steps,
) -> Result<IdSet, AllocError>
    requires { IsHeld (T.flats table.now) id }
    ensures members { IfOk result (λ r. (x : ℕ) → IsMember r x ↔ (after_steps (table_graph (T.flats table.now)) n id ≡ Some x)) }
    ensures canonical { IfOk result IsCanonical }
    ensures counted { min steps.old.taken (2 ^ 64 - 1) ≤ steps.new.taken }
{
    match first_ancestor(table, id, n, steps) {
        Some(found) => single(alloc, found),
        None => Ok(IdSet::empty(alloc)),
    }
}
