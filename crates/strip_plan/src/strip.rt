//! The plan of a strip.

ghost use Rattle.std.specs.Prelude.{[], ◌≡◌, ◌<◌, ◌≤◌, ◌+◌, ◌^◌, ◌⊎◌, ◌||◌, ◌-◌, ◌++◌, List, None, Some, ℕ, false, length, slice_index_or, IfOk, MatchResult};
ghost use Rattle.std.specs.List.{AllByRecursion, list_any};
ghost use Rattle.id_groups.specs.Name.{Name as NameBytes, same_name};
ghost use Rattle.id_groups.specs.Id.{other_id};
ghost use Rattle.commit_graph.specs.World.{World};
ghost use Rattle.assign_ids.specs.Numbers.{AreBelow};
ghost use Rattle.change_rules.specs.Strip.{stripped};
ghost use Rattle.change_rules.specs.Standard.{AreLimits};
ghost use Rattle.name_map.specs.Added.{Placed};
ghost use Rattle.segment_codec.specs.Lent.{parents_left};
ghost use Rattle.strip_plan.specs.LentRows.{lent_row};
ghost use Rattle.payload_tables.specs.Pending.{HoldsRows};
ghost use Rattle.change_parts.specs.declared.fault.PlanFault.TheVariants.{Memory};
ghost use Rattle.change_parts.specs.Plans.{IsPlanOf, IsChangeOf, MayComeNext};
ghost use Rattle.batch_codec.specs.Payload.{payload_bytes};
ghost use Rattle.batch_codec.specs.Grammar.{IsPayload};
ghost use Rattle.change_parts.specs.Rows.{AreRowsBelow};
ghost use Rattle.strip_plan.specs.Stripping.{is_marked, places_of, AreSpread, AreKept, AreKeptIds, strip_payload, IsStrip, MayStripOn, MayStrip, strip_refusal};

use crate::lent::{LentGraph, Row, before, lent_graph};
use crate::lent_runs::add_lent_section;
use batch_codec::BatchBuild;
use change_parts::{
    Change, FLUSH, Names, Payload, PlanFault, blank, check, marks_of, names_of, numbered, unmarked,
};
use change_rules::{Limit, Limits};
use id_groups::{FIRST_OTHER, Group, Id};
use payload_tables::{PendingRows, Tables};
use segment_codec::Parents;
use std::alloc::{AllocError, Global};

/// The number of an other id.
fn place(id: Id) -> u32
    requires { (2 ^ 56 ≤ id) × (id < 2 ^ 56 + 2 ^ 32) }
    ensures { result ≡ id - 2 ^ 56 }
{
    (id.number() - FIRST_OTHER) as u32
}

/// The numbers of these other ids.
fn places(alloc: Global, ids: &[Id]) -> Result<Vec<u32>, AllocError>
    requires { AllByRecursion (λ id. (2 ^ 56 ≤ id) × (id < 2 ^ 56 + 2 ^ 32)) ids.now }
    ensures { IfOk result (λ numbers. numbers.items ≡ places_of ids.now) }
{
    let mut numbers = Vec::with_capacity(alloc, ids.len())?;
    'ids: for id in ids {
        numbers.push(place(*id))?;
    }
    Ok(numbers)
}

/// Whether one of these parents is marked.
fn has_marked(parents: Parents<'_>, marks: &[bool]) -> bool
    requires { AllByRecursion (λ p. p < 2 ^ 56 + length marks.now) (parents_left parents) }
    ensures { result ≡ list_any (is_marked marks.now) (parents_left parents.entry) }
{
    let mut rest = parents;
    'parents: while let Some(parent) = rest.next() {
        if is_marked(parent, marks) {
            return true;
        }
    }
    false
}

/// Whether one of these parents is marked. Where all are of master none is read.
fn has_marked_other(parents: Parents<'_>, marks: &[bool]) -> bool
    requires { AllByRecursion (λ p. p < 2 ^ 56 + length marks.now) (parents_left parents) }
    ensures { result ≡ list_any (is_marked marks.now) (parents_left parents.entry) }
{
    if parents.are_masters() {
        return false;
    }
    has_marked(parents, marks)
}

/// Whether a parent of the number k is marked.
fn is_led(row: Row<'_>, k: u32, marks: &[bool]) -> bool
    requires { AllByRecursion (λ p. p < 2 ^ 56 + length marks.now) (lent_row k row) }
    ensures { result ≡ list_any (is_marked marks.now) (lent_row k row.entry) }
{
    match row {
        Row::Root => false,
        Row::Follows => is_marked(before(k), marks),
        Row::Begins(parents) => has_marked_other(parents, marks),
    }
}

/// Whether the id is one of the others that are marked.
fn is_marked(id: Id, marks: &[bool]) -> bool
    requires { id < 2 ^ 56 + length marks.now }
    ensures { result ≡ is_marked marks.now id }
{
    match id.group() {
        Group::Master => false,
        Group::Others => marks[id.place() as usize],
    }
}

/// Whether the number is marked, or one of its parents is.
fn goes(graph: &LentGraph<'_>, marks: &[bool], k: u32) -> bool
    requires place { k < length marks.now }
    requires parents { AllByRecursion (λ p. p < 2 ^ 56 + length marks.now) (slice_index_or graph.now k []) }
    ensures { result ≡ (slice_index_or marks.now k false || list_any (is_marked marks.now) (slice_index_or graph.now k [])) }
{
    marks[k as usize] || is_led(graph.row(k), k, marks)
}

/// Marks the numbers below n with a marked parent too. A parent's number is lower, so one walk from the lowest on does.
fn spread(graph: &LentGraph<'_>, marks: Vec<bool>, n: u32) -> Vec<bool>
    requires long { length marks.items ≡ n }
    requires rows { (k : ℕ) → k < n → AllByRecursion (λ p. p < other_id k) (slice_index_or graph.now k []) }
    ensures { AreSpread graph.now marks.items result.items }
{
    let mut marks = marks;
    'marks: for k in 0..n {
        let is_gone = goes(graph, &marks, k);
        marks[k as usize] = is_gone;
    }
    marks
}

/// The numbers below n that stay where these ids go with all that reach them.
fn kept_of(alloc: Global, graph: &LentGraph<'_>, n: u32, ids: &[Id]) -> Result<Vec<u32>, AllocError>
    requires ids { AllByRecursion (λ id. (2 ^ 56 ≤ id) × (id < other_id n)) ids.now }
    requires rows { (k : ℕ) → k < n → AllByRecursion (λ p. p < other_id k) (slice_index_or graph.now k []) }
    ensures { IfOk result (λ kept. AreKept graph.now n ids.now kept.items) }
{
    let numbers = places(alloc, ids)?;
    let marks = spread(graph, marks_of(alloc, n, &numbers)?, n);
    unmarked(alloc, &marks, n)
}

/// The new ids of the numbers below n where these stay, in their order.
fn kept_ids(alloc: Global, n: u32, kept: &[u32]) -> Result<Vec<Id>, AllocError>
    requires below { AreBelow n kept.now }
    requires few { length kept.now ≤ n }
    ensures { IfOk result (λ ids. AreKeptIds n kept.now ids.items) }
{
    let ids = blank(alloc, n)?;
    Ok(numbered(ids, kept, FIRST_OTHER))
}

/// The payload of a strip in which these numbers stay, beside so many master ids. Nothing is added to them, so no segments of
/// levels come with it.
fn stripped_payload(
    alloc: Global,
    graph: &LentGraph<'_>,
    names: &Names<'_>,
    before: u64,
    kept: &[u32],
) -> Result<Vec<u8>, AllocError>
    requires few { (names.now.count + names.now.more < 2 ^ 32) × (length kept.now ≤ names.now.count + names.now.more) }
    requires room { before ≤ 2 ^ 56 }
    requires below { AreBelow (names.now.count + names.now.more) kept.now }
    requires rows { AreRowsBelow (names.now.count + names.now.more) graph.now }
    requires payload { (ids : List ℕ) → AreKeptIds (names.now.count + names.now.more) kept.now ids → IsPayload (strip_payload ids graph.now (names.now.stored.now ++ names.now.pending.now) before kept.now) }
    ensures { IfOk result (λ payload. (ids : List ℕ) × AreKeptIds (names.now.count + names.now.more) kept.now ids × (payload.items ≡ payload_bytes (strip_payload ids graph.now (names.now.stored.now ++ names.now.pending.now) before kept.now))) }
{
    let ids = kept_ids(alloc, names.count + names.more, kept)?;
    let mut build = BatchBuild::new(alloc, FLUSH, before, before, 0)?;
    add_lent_section(alloc, &mut build, graph, names, &ids, kept)?;
    build.finish()
}

/// The change in which these numbers stay, of a world with so many master ids, with a log of so many bytes.
fn stripped_change(
    alloc: Global,
    graph: &LentGraph<'_>,
    names: &Names<'_>,
    before: u64,
    kept: &[u32],
    log: u64,
    limits: Limits,
) -> Result<Change, PlanFault>
    requires log { log ≤ 2 ^ 32 }
    requires few { names.now.count + names.now.more ≤ 65536 }
    requires small { before ≤ 16777216 }
    requires strip { (added : List Placed) × (w : World NameBytes) × (given : List NameBytes) × IsStrip added (names.now.stored.now ++ names.now.pending.now) graph.now (names.now.count + names.now.more) before kept.now w given }
    ensures worlds { (added : List Placed) (w : World NameBytes) (given : List NameBytes) (payload : List ℕ)
        → IsStrip added (names.now.stored.now ++ names.now.pending.now) graph.now (names.now.count + names.now.more) before kept.now w given
        → IsChangeOf w (stripped same_name w given) payload
        → MatchResult result
        (λ change. (strip_refusal limits log w (stripped same_name w given) payload ≡ None) × IsPlanOf change w (stripped same_name w given) payload)
        (λ fault. (fault ≡ Memory) ⊎ (strip_refusal limits log w (stripped same_name w given) payload ≡ Some fault)) }
    ensures stored { (added : List Placed) (w : World NameBytes) (given : List NameBytes)
        → IsStrip added (names.now.stored.now ++ names.now.pending.now) graph.now (names.now.count + names.now.more) before kept.now w given
        → IfOk result (MayComeNext 1 limits log added) }
{
    let n = u64::from(names.count + names.more);
    let others = kept.len() as u64;
    if before + others == 0 {
        return Err(PlanFault::Emptied(before + n));
    }
    if others == n {
        return Ok(Change {
            payload: Payload::empty(alloc),
            master: before,
            others,
            same: true,
        });
    }
    let payload = stripped_payload(alloc, graph, names, before, kept)?;
    check(Limit::Log, log + 9 + payload.len() as u64, limits.log)?;
    Ok(Change {
        payload: Payload::of(payload),
        master: before,
        others,
        same: false,
    })
}

/// The change that a strip of these other ids makes, where no rows are pending.
fn strip_beside(
    alloc: Global,
    tables: &Tables,
    bytes: &[u8],
    none: &PendingRows,
    ids: &[Id],
    limits: Limits,
) -> Result<Change, PlanFault>
    requires log { length bytes.now ≤ 2 ^ 32 }
    requires none { HoldsRows none.now [] × (none.now.first ≡ tables.now.others.count) }
    requires tables { (added : List Placed) × MayStripOn tables.now bytes.now ids.now added }
    ensures worlds { (w : World NameBytes) (names : List NameBytes) (payload : List ℕ) → MayStrip tables.now bytes.now ids.now w names
        → IsChangeOf w (stripped same_name w names) payload
        → MatchResult result
        (λ change. (strip_refusal limits (length bytes.now) w (stripped same_name w names) payload ≡ None) × IsPlanOf change w (stripped same_name w names) payload)
        (λ fault. (fault ≡ Memory) ⊎ (strip_refusal limits (length bytes.now) w (stripped same_name w names) payload ≡ Some fault)) }
    ensures stored { (added : List Placed) → MayStripOn tables.now bytes.now ids.now added → IfOk result (MayComeNext 1 limits (length bytes.now) added) }
{
    let base = tables.newest(bytes);
    let view = base.view(none);
    let names = names_of(bytes, tables.others(), none);
    let n = names.count + names.more;
    let graph = lent_graph(alloc, &view, n)?;
    let kept = kept_of(alloc, &graph, n, ids)?;
    let before = tables.master_count();
    let log = bytes.len() as u64;
    stripped_change(alloc, &graph, &names, before, &kept, log, limits)
}

/// What a strip of these other ids writes: they go, with all that reach them. The change is what it is for each world for which the
/// tables stand, and its payload may be added to them. This only reads: the tables that follow are those with the payload added.
///
/// `Emptied` comes exactly where nothing would be left; it tells how many rows there are. `Full` comes where the log would be too
/// long. The walk goes once over the others: no commit is sought.
pub fn plan_strip_change(
    alloc: Global,
    tables: &Tables,
    bytes: &[u8],
    ids: &[Id],
    limits: Limits,
) -> Result<Change, PlanFault>
    requires limits { AreLimits limits }
    requires log { length bytes.now ≤ 2 ^ 32 }
    requires tables { (added : List Placed) × MayStripOn tables.now bytes.now ids.now added }
    ensures worlds { (w : World NameBytes) (names : List NameBytes) (payload : List ℕ) → MayStrip tables.now bytes.now ids.now w names
        → IsChangeOf w (stripped same_name w names) payload
        → MatchResult result
        (λ change. (strip_refusal limits (length bytes.now) w (stripped same_name w names) payload ≡ None) × IsPlanOf change w (stripped same_name w names) payload)
        (λ fault. (fault ≡ Memory) ⊎ (strip_refusal limits (length bytes.now) w (stripped same_name w names) payload ≡ Some fault)) }
    ensures stored { (added : List Placed) → MayStripOn tables.now bytes.now ids.now added → IfOk result (MayComeNext 1 limits (length bytes.now) added) }
{
    let none = PendingRows::empty(alloc, u64::from(tables.others().count()));
    strip_beside(alloc, tables, bytes, &none, ids, limits)
}
