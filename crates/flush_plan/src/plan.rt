//! The plan of a flush.

ghost use Rattle.std.specs.Prelude.{◌≡◌, ◌≤◌, ◌+◌, ◌^◌, ◌⊎◌, ◌++◌, ◌∷◌, ◌<◌, List, [], map, length, slice_index_or, None, Some, ℕ, OnOk, IfOk, IfSome, MatchOption, MatchResult};
ghost use Rattle.id_groups.specs.Name.{Name as NameBytes, same_name};
ghost use Rattle.id_groups.specs.Lists.{IsIn, AreAllIn};
ghost use Rattle.commit_graph.specs.World.{Row, World, rows_of, names_of, with_pending};
ghost use Rattle.commit_graph.specs.Ids.{id_in};
ghost use Rattle.change_parts.specs.declared.fault.PlanFault.TheVariants.{Memory};
ghost use Rattle.assign_ids.specs.Numbers.{AreBelow, HaveOlderParents, others_of, order_of};
ghost use Rattle.change_rules.specs.Flush.{flushed};
ghost use Rattle.change_rules.specs.Lawful.{AreLawful};
ghost use Rattle.change_rules.specs.Tables.{StandFor};
ghost use Rattle.flush_plan.specs.Flushing.{IsMove, MayLook, MayFind, unknown_fault, first_unknown, MayFlush, flush_refusal, MayPlan};
ghost use Rattle.change_parts.specs.Moves.{node_of, rest_of};
ghost use Rattle.payload_tables.specs.Bases.{ArePending};
ghost use Rattle.payload_tables.specs.Pending.{HeldRow, HoldsRows};
ghost use Rattle.change_rules.specs.Standard.{AreLimits};
ghost use Rattle.change_parts.specs.Plans.{stored_id, MayMove, size_refusal, IsPlanOf, IsChangeOf, MayBeStored};
ghost use Rattle.name_map.specs.Added.{Placed, payloads_of};
ghost use Rattle.id_groups.specs.Id.{other_id};

use crate::building::payload_of;
use crate::graph::{Graph, graph_of};
use crate::numbers::{Moved, rest};
use assign_ids::place;
use change_parts::{Change, Names, Payload, PlanFault, check, names_of};
use change_rules::{Limit, Limits};
use id_groups::{FIRST_OTHER, Id, Name};
use payload_tables::{PendingRows, Tables};
use std::alloc::{AllocError, Global};

/// The numbers that move, in order, and those that stay.
#[derive(Drop)]
struct Moves {
    order: Vec<u32>,
    rest: Vec<u32>,
}

impl Moves {
    /// That they move behind so many master ids.
    fn behind(&self, before: u64) -> Moved<'_>
        ensures before { result.before ≡ before }
        ensures order { result.order.now ≡ self.now.order.items }
        ensures rest { result.rest.now ≡ self.now.rest.items }
    {
        Moved {
            before,
            order: &self.order,
            rest: &self.rest,
        }
    }
}

/// What moves where these numbers are the heads, by the parents of the n numbers.
fn moves_of(alloc: Global, graph: &Graph, n: u32, numbers: &[u32]) -> Result<Moves, AllocError>
    requires older { HaveOlderParents (λ k. slice_index_or (map (map node_of) graph.now) k []) }
    requires numbers { AreBelow n numbers.now }
    requires order { AreBelow n (order_of (λ k. slice_index_or (map (map node_of) graph.now) k []) n numbers.now) }
    ensures order { IfOk result (λ moves. moves.order.items ≡ order_of (λ k. slice_index_or (map (map node_of) graph.now) k []) n numbers.now) }
    ensures rest { IfOk result (λ moves. moves.rest.items ≡ rest_of n moves.order.items) }
{
    let nodes = graph.nodes(alloc)?;
    let order = place(alloc, &nodes, numbers)?;
    let rest = rest(alloc, n, &order)?;
    Ok(Moves { order, rest })
}

/// The change in which these numbers move, with a log of these bytes. The tables are asked for the levels that come with it, and
/// stay as they are.
fn change_of(
    alloc: Global,
    tables: &mut Tables,
    bytes: &[u8],
    names: &Names<'_>,
    graph: &Graph,
    moved: &Moved<'_>,
    limits: Limits,
) -> Result<Change, PlanFault>
    requires limits { AreLimits limits }
    requires log { length bytes.now ≤ 2 ^ 32 }
    requires few { moved.now.before ≤ 2 ^ 56 }
    requires world { (w : World NameBytes) × (rows : List (Row NameBytes)) × (heads : List NameBytes)
        × (m : IsMove (names.now.stored.now ++ names.now.pending.now) (names.now.count + names.now.more) names.now.more moved.now.before (length bytes.now) graph.now moved.now.order.now moved.now.rest.now w rows heads)
        × (m.tables ≡ tables.old) × (m.bytes ≡ bytes.now) }
    ensures worlds { (w : World NameBytes) (rows : List (Row NameBytes)) (heads : List NameBytes) (payload : List ℕ)
        (m : IsMove (names.now.stored.now ++ names.now.pending.now) (names.now.count + names.now.more) names.now.more moved.now.before (length bytes.now) graph.now moved.now.order.now moved.now.rest.now w rows heads)
        → m.tables ≡ tables.old → m.bytes ≡ bytes.now
        → IsChangeOf w (flushed same_name (with_pending w rows) heads) payload
        → MatchResult result
        (λ plan. (size_refusal limits (length bytes.now) (flushed same_name (with_pending w rows) heads) payload ≡ None) × IsPlanOf plan w (flushed same_name (with_pending w rows) heads) payload)
        (λ fault. (fault ≡ Memory) ⊎ (size_refusal limits (length bytes.now) (flushed same_name (with_pending w rows) heads) payload ≡ Some fault)) }
    ensures unchanged { tables.new ≡ tables.old }
    ensures stored { (w : World NameBytes) (rows : List (Row NameBytes)) (heads : List NameBytes) (added : List Placed)
        (m : IsMove (names.now.stored.now ++ names.now.pending.now) (names.now.count + names.now.more) names.now.more moved.now.before (length bytes.now) graph.now moved.now.order.now moved.now.rest.now w rows heads)
        → m.tables ≡ tables.old → m.bytes ≡ bytes.now
        → AreLawful [] (payloads_of added) → StandFor (payloads_of added) w → IfOk result (MayBeStored 1 limits (length bytes.now) added) }
{
    let master = moved.before + moved.order.len() as u64;
    let others = moved.rest.len() as u64;
    check(Limit::Others, others, u64::from(limits.others))?;
    check(Limit::Master, master, u64::from(limits.master))?;
    if moved.order.is_empty() && names.more == 0 {
        return Ok(Change {
            payload: Payload::empty(alloc),
            master,
            others,
            same: true,
        });
    }
    let payload = payload_of(alloc, tables, bytes, graph, names, moved)?;
    let log = bytes.len() as u64;
    check(Limit::Log, log + 9 + payload.len() as u64, limits.log)?;
    Ok(Change {
        payload: Payload::of(payload),
        master,
        others,
        same: false,
    })
}

/// The plan where all heads are there, by the numbers of those that aren't in master.
pub fn plan_moves<'x>(
    alloc: Global,
    tables: &mut Tables,
    bytes: &'x [u8],
    pending: &'x PendingRows,
    numbers: &[u32],
    limits: Limits,
) -> Result<Change, PlanFault>
    requires limits { AreLimits limits }
    requires log { length bytes.now ≤ 2 ^ 32 }
    requires world { (w : World NameBytes) × (rows : List (Row NameBytes)) × (heads : List NameBytes) × MayMove tables.old bytes.now pending.now numbers.now w rows heads }
    ensures worlds { (w : World NameBytes) (rows : List (Row NameBytes)) (heads : List NameBytes) (payload : List ℕ) → MayMove tables.old bytes.now pending.now numbers.now w rows heads
        → IsChangeOf w (flushed same_name (with_pending w rows) heads) payload
        → MatchResult result
        (λ plan. (size_refusal limits (length bytes.now) (flushed same_name (with_pending w rows) heads) payload ≡ None) × IsPlanOf plan w (flushed same_name (with_pending w rows) heads) payload)
        (λ fault. (fault ≡ Memory) ⊎ (size_refusal limits (length bytes.now) (flushed same_name (with_pending w rows) heads) payload ≡ Some fault)) }
    ensures unchanged { tables.new ≡ tables.old }
    ensures stored { (w : World NameBytes) (rows : List (Row NameBytes)) (heads : List NameBytes) (m : MayMove tables.old bytes.now pending.now numbers.now w rows heads)
        → IfOk result (MayBeStored 1 limits (length bytes.now) m.added) }
{
    let base = tables.newest(bytes);
    let view = base.view(pending);
    let names = names_of(bytes, tables.others(), pending);
    let n = names.count + names.more;
    let graph = graph_of(alloc, &view, n)?;
    let moves = moves_of(alloc, &graph, n, numbers)?;
    let moved = moves.behind(tables.master_count());
    change_of(alloc, tables, bytes, &names, &graph, &moved, limits)
}

/// The id of a head in a session's view: the one that was found in the stored world, or that of a pending row.
fn head_id(pending: &PendingRows, head: &Name, found: Option<Id>) -> Option<Id>
    requires { (rows : List HeldRow) × HoldsRows pending.now rows }
    ensures small { (rows : List HeldRow) → HoldsRows pending.now rows → IfSome result (λ id. (found ≡ Some id) ⊎ ((2 ^ 56 ≤ id) × (id < other_id (pending.now.first + length rows)))) }
    ensures worlds { (w : World NameBytes) (rows : List (Row NameBytes)) → ArePending w pending.now rows → found ≡ stored_id w head.now
        → MatchOption result (IsIn head.now (names_of (rows_of (with_pending w rows))) → ⊥) (λ id. IsIn head.now (names_of (rows_of (with_pending w rows))) × (id ≡ id_in same_name (with_pending w rows) head.now)) }
{
    if found.is_some() {
        return found;
    }
    let k = pending.find(head.lend())?;
    Some(Id::other(pending.first() + u64::from(k)))
}

/// Adds the number of an id that isn't in master.
pub fn add_number(numbers: &mut Vec<u32>, id: Id) -> Result<(), AllocError>
    requires { id < 2 ^ 56 + 2 ^ 32 }
    ensures { OnOk result (numbers.new.items ≡ numbers.old.items ++ others_of (node_of id ∷ [])) }
{
    if id.number() >= FIRST_OTHER {
        numbers.push(id.place() as u32)?;
    }
    Ok(())
}

/// The numbers of those heads that aren't in master.
fn head_numbers(
    alloc: Global,
    pending: &PendingRows,
    heads: &[Name],
    found: &[Option<Id>],
) -> Result<Vec<u32>, PlanFault>
    requires { MayLook pending.now heads.now found.now }
    ensures below { (rows : List HeldRow) → HoldsRows pending.now rows → IfOk result (λ numbers. AreBelow (pending.now.first + length rows) numbers.items) }
    ensures worlds { (w : World NameBytes) (rows : List (Row NameBytes)) → MayFind pending.now heads.now found.now w rows
        → MatchResult result
        (λ numbers. AreAllIn heads.now (names_of (rows_of (with_pending w rows))) × (numbers.items ≡ others_of (map node_of (map (id_in same_name (with_pending w rows)) heads.now))))
        (λ fault. (fault ≡ Memory) ⊎ (unknown_fault (first_unknown (with_pending w rows) heads.now) ≡ Some fault)) }
{
    let mut numbers = Vec::new(alloc);
    'heads: for i in 0..heads.len() {
        let Some(id) = head_id(pending, &heads[i], found[i]) else {
            return Err(PlanFault::Unknown(heads[i]));
        };
        add_number(&mut numbers, id)?;
    }
    Ok(numbers)
}

/// What a flush of these heads writes: the heads and all that they reach move into master, and the pending rows are stored
/// with the rest. `found` has for each head its id in the stored world, where that has it. The change is what it is for each
/// world for which the tables stand, and its payload may be added to them. This only reads: the tables that follow are those
/// with the payload added. The tables are asked for the levels that come with the change, and stay as they are.
///
/// `Unknown` names the first head that is neither found nor pending; `Full` the first of the others, the master rows and
/// the log's bytes that would exceed its limit.
pub fn plan_change(
    alloc: Global,
    tables: &mut Tables,
    bytes: &[u8],
    pending: &PendingRows,
    heads: &[Name],
    found: &[Option<Id>],
    limits: Limits,
) -> Result<Change, PlanFault>
    requires limits { AreLimits limits }
    requires log { length bytes.now ≤ 2 ^ 32 }
    requires tables { (added : List Placed) × MayPlan tables.old bytes.now pending.now heads.now found.now added }
    ensures worlds { (w : World NameBytes) (rows : List (Row NameBytes)) (payload : List ℕ) → MayFlush tables.old bytes.now pending.now heads.now found.now w rows
        → IsChangeOf w (flushed same_name (with_pending w rows) heads.now) payload
        → MatchResult result
        (λ change. (flush_refusal limits (length bytes.now) (with_pending w rows) (flushed same_name (with_pending w rows) heads.now) heads.now payload ≡ None)
        × IsPlanOf change w (flushed same_name (with_pending w rows) heads.now) payload)
        (λ fault. (fault ≡ Memory) ⊎ (flush_refusal limits (length bytes.now) (with_pending w rows) (flushed same_name (with_pending w rows) heads.now) heads.now payload ≡ Some fault)) }
    ensures unchanged { tables.new ≡ tables.old }
    ensures stored { (added : List Placed) → MayPlan tables.old bytes.now pending.now heads.now found.now added → IfOk result (MayBeStored 1 limits (length bytes.now) added) }
{
    let numbers = head_numbers(alloc, pending, heads, found)?;
    plan_moves(alloc, tables, bytes, pending, &numbers, limits)
}
