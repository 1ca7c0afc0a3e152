//! Pending rows on a newer world.

ghost use Rattle.std.specs.Prelude.{◌≡◌, ◌<◌, ◌≤◌, ◌+◌, ◌++◌, ◌∷◌, [], ℕ, false, length, IfOk, OnOk, nat_eq, ◌⊎◌, ◌↔◌, List, Option, None, Some, take, slice_get, true, IsTrue, MatchOption, MatchResult};
ghost use Rattle.id_groups.specs.Lists.{IsIn, AreDistinct};
ghost use Rattle.id_groups.specs.Id.{other_id};
ghost use Rattle.segment_codec.specs.Table.{parents_at};
ghost use Rattle.segment_codec.specs.Lent.{parents_left};
ghost use Rattle.std.specs.List.{AllByRecursion, AllZip};
ghost use Rattle.std.specs.Cmp.Lexicographic.{pointwise};
ghost use Rattle.id_groups.specs.Name.{Name as NameBytes, same_name};
ghost use Rattle.high_segments.specs.Views.{flats_in};
ghost use Rattle.commit_graph.specs.World.{Row, World};
ghost use Rattle.change_parts.specs.declared.fault.PlanFault.TheVariants.{Memory, Conflict};
ghost use Rattle.name_map.specs.Added.{Placed};
ghost use Rattle.payload_tables.specs.Kept.{PlainTables};
ghost use Rattle.payload_tables.specs.Bases.{IsBaseOf, ArePending};
ghost use Rattle.payload_tables.specs.Pending.{HeldRow, HoldsRows};
ghost use Rattle.change_rules.specs.Rebase.{first_conflict, first_lost, left_of};
ghost use Rattle.rebase_pending.specs.Rebases.{MayRebase, lost_fault, rebase_refusal, MayRebaseOn};
ghost use Rattle.change_parts.specs.Plans.{conflict_fault};
ghost use Rattle.change_parts.specs.Asked.{others_count, MayStore};
ghost use Rattle.rebase_pending.specs.Rebasing.{IsAt, IsNowhere, AreStoredAs, AreStoredWhere, IsMoved, IsLostBy, LosesFirst, IsKept, IsRebased, IsNotLeft, LeftSoFar, ReadsFor, ReadsOn};

use change_parts::PlanFault;
use high_segments::View;
use id_groups::{FIRST_OTHER, Id, Name};
use payload_tables::{BaseRef, PendingRows, Tables};
use segment_codec::{Parents, SegmentTable, Steps};
use std::alloc::{AllocError, Global};

/// What a rebase reads: the tables and bytes of the newest world, the base of the pending rows, these rows, and of each the id that was
/// found in the newest world.
#[derive(Clone, Copy)]
struct Reads<'a> {
    tables: &'a Tables,
    bytes: &'a [u8],
    base: BaseRef<'a>,
    pending: &'a PendingRows,
    found: &'a [Option<Id>],
}

/// These parents as a list.
fn listed(alloc: Global, parents: Parents<'_>) -> Result<Vec<Id>, AllocError>
    ensures { IfOk result (λ list. list.items ≡ parents_left parents.entry) }
{
    parents.collect(alloc)
}

/// The parents of an id of the table, in order; none of an id that it doesn't have.
fn parents_of<T: SegmentTable>(
    alloc: Global,
    table: &T,
    id: Id,
    steps: &mut Steps,
) -> Result<Vec<Id>, AllocError>
    ensures { IfOk result (λ parents. parents.items ≡ parents_at (T.flats table.now) id) }
{
    let Some(segment) = table.flat(id, steps) else {
        return Ok(Vec::new(alloc));
    };
    if segment.low().number() == id.number() {
        return listed(alloc, segment.parents());
    }
    let mut parents = Vec::new(alloc);
    parents.push(Id::from_number(id.number().saturating_sub(1)))?;
    Ok(parents)
}

/// The id in the newest base of a parent of a pending row, where the other ids of the row's own base are so many, and these ids
/// were found of the pending rows. `None` where the newest base hasn't the parent.
fn stored_parent(
    newest: &BaseRef<'_>,
    base: &BaseRef<'_>,
    first: u64,
    found: &[Option<Id>],
    parent: Id,
) -> Option<Id>
    requires newest { (added : List Placed) × IsBaseOf newest.now added }
    requires base { (before : List Placed) × IsBaseOf base.now before × (first ≡ others_count before) }
    requires parent { parent < other_id (first + length found.now) }
    ensures { (added before : List Placed) → IsBaseOf newest.now added → IsBaseOf base.now before → first ≡ others_count before
        → MatchOption result (IsNowhere before added first found.now parent) (IsAt before added first found.now parent) }
{
    if parent.number() < FIRST_OTHER {
        return Some(parent);
    }
    let place = parent.place();
    if place >= first {
        return found[(place - first) as usize];
    }
    newest.id(base.name(parent)?)
}

/// These parents by their ids in the newest base, in order. `None` where it hasn't one of them.
fn stored_parents(
    alloc: Global,
    newest: &BaseRef<'_>,
    base: &BaseRef<'_>,
    first: u64,
    found: &[Option<Id>],
    parents: &[Id],
) -> Result<Option<Vec<Id>>, AllocError>
    requires newest { (added : List Placed) × IsBaseOf newest.now added }
    requires base { (before : List Placed) × IsBaseOf base.now before × (first ≡ others_count before) }
    requires parents { AllByRecursion (λ p. p < other_id (first + length found.now)) parents.now }
    ensures { (added before : List Placed) → IsBaseOf newest.now added → IsBaseOf base.now before → first ≡ others_count before
        → IfOk result (λ stored. MatchOption stored ((p : ℕ) × IsIn p parents.now × IsNowhere before added first found.now p) (λ ids. AllZip (IsAt before added first found.now) parents.now ids.items)) }
{
    let mut stored = Vec::with_capacity(alloc, parents.len())?;
    'parents: for parent in parents {
        let Some(id) = stored_parent(newest, base, first, found, *parent) else {
            return Ok(None);
        };
        stored.push(id)?;
    }
    Ok(Some(stored))
}

/// Whether the id of the view has these parents, in order.
pub fn has_parents(
    alloc: Global,
    view: &View<'_>,
    id: Id,
    parents: &[Id],
) -> Result<bool, AllocError>
    ensures { IfOk result (λ same. same ≡ pointwise nat_eq (parents_at (flats_in view.now) id) parents.now) }
{
    let stored = parents_of(alloc, view, id, &mut Steps::new())?;
    Ok(are_same(&stored, parents))
}

/// Whether these are the same, in order.
fn are_same(a: &[Id], b: &[Id]) -> bool
    ensures { result ≡ pointwise nat_eq a.now b.now }
{
    a == b
}

/// Whether the stored id has the parents of this pending row, in order.
fn is_stored_so(
    alloc: Global,
    reads: &Reads<'_>,
    newest: &BaseRef<'_>,
    view: &View<'_>,
    i: u32,
    id: Id,
) -> Result<bool, AllocError>
    requires newest { (added : List Placed) × IsBaseOf newest.now added }
    requires base { (before : List Placed) × IsBaseOf reads.now.base before × (reads.now.pending.now.first ≡ others_count before) }
    requires row { (rows : List HeldRow) × (row : HeldRow) × HoldsRows reads.now.pending.now rows × (slice_get rows i ≡ Some row)
        × AllByRecursion (λ p. p < other_id (reads.now.pending.now.first + length reads.now.found.now)) row.parents }
    ensures { (added before : List Placed) (rows : List HeldRow) (row : HeldRow) → IsBaseOf newest.now added → IsBaseOf reads.now.base before
        → reads.now.pending.now.first ≡ others_count before → HoldsRows reads.now.pending.now rows → slice_get rows i ≡ Some row
        → IfOk result (AreStoredAs before added reads.now.pending.now.first reads.now.found.now (parents_at (flats_in view.now) id) row.parents) }
{
    let pending = reads.pending;
    let Some(parents) = pending.parents(i) else {
        unreachable!()
    };
    let parents = listed(alloc, parents)?;
    match stored_parents(
        alloc,
        newest,
        &reads.base,
        pending.first(),
        reads.found,
        &parents,
    )? {
        Some(stored) => has_parents(alloc, view, id, &stored),
        None => Ok(false),
    }
}

/// Refuses a pending row that was found, where it is stored with other parents.
fn check_row(
    alloc: Global,
    reads: &Reads<'_>,
    newest: &BaseRef<'_>,
    view: &View<'_>,
    i: u32,
    own: Option<Id>,
) -> Result<(), PlanFault>
    requires newest { (added : List Placed) × IsBaseOf newest.now added }
    requires base { (before : List Placed) × IsBaseOf reads.now.base before × (reads.now.pending.now.first ≡ others_count before) }
    requires row { (rows : List HeldRow) × (row : HeldRow) × HoldsRows reads.now.pending.now rows × (slice_get rows i ≡ Some row)
        × AllByRecursion (λ p. p < other_id (reads.now.pending.now.first + length reads.now.found.now)) row.parents }
    ensures { (added before : List Placed) (rows : List HeldRow) (row : HeldRow) → IsBaseOf newest.now added → IsBaseOf reads.now.base before
        → reads.now.pending.now.first ≡ others_count before → HoldsRows reads.now.pending.now rows → slice_get rows i ≡ Some row
        → MatchResult result
        (λ done. AreStoredWhere before added reads.now.pending.now.first reads.now.found.now (flats_in view.now) own row.parents true)
        (λ fault. (fault ≡ Memory) ⊎ ((fault ≡ Conflict row.name) × AreStoredWhere before added reads.now.pending.now.first reads.now.found.now (flats_in view.now) own row.parents false)) }
{
    let Some(id) = own else {
        return Ok(());
    };
    if is_stored_so(alloc, reads, newest, view, i, id)? {
        return Ok(());
    }
    Err(PlanFault::Conflict(reads.pending.name(i).to_name()))
}

/// Refuses the first pending row that the newest world has with other parents. `none` has no rows.
fn check_rows(alloc: Global, reads: &Reads<'_>, none: &PendingRows) -> Result<(), PlanFault>
    requires rebase { (added before : List Placed) × ReadsOn reads.now added before }
    requires none { HoldsRows none.now [] × (none.now.first ≡ reads.now.tables.now.others.count) }
    ensures { (w old : World NameBytes) (rows : List (Row NameBytes)) → ReadsFor reads.now w old rows
        → MatchResult result
        (λ done. first_conflict same_name w rows ≡ None)
        (λ fault. (fault ≡ Memory) ⊎ (conflict_fault (first_conflict same_name w rows) ≡ Some fault)) }
{
    let newest = reads.tables.newest(reads.bytes);
    let view = newest.view(none);
    let found = reads.found;
    'rows: for i in 0..reads.pending.len() {
        let own = found[i as usize];
        check_row(alloc, reads, &newest, &view, i, own)?;
    }
    Ok(())
}

/// The id in the newest base of a parent of a pending row, where the other ids of the row's own base are so many, and the
/// pending rows before it have these ids. `Lost` names the parent where the newest base doesn't store its name.
fn moved_parent(
    newest: &BaseRef<'_>,
    base: &BaseRef<'_>,
    first: u64,
    ids: &[Id],
    parent: Id,
) -> Result<Id, PlanFault>
    requires newest { (added : List Placed) × IsBaseOf newest.now added }
    requires base { (before : List Placed) × IsBaseOf base.now before × (first ≡ others_count before) }
    requires parent { parent < other_id (first + length ids.now) }
    ensures { (added before : List Placed) → IsBaseOf newest.now added → IsBaseOf base.now before → first ≡ others_count before
        → MatchResult result (IsMoved before added first ids.now parent) (IsLostBy before added parent) }
{
    if parent.number() < FIRST_OTHER {
        return Ok(parent);
    }
    let place = parent.place();
    if place >= first {
        return Ok(ids[(place - first) as usize]);
    }
    let Some(name) = base.name(parent) else {
        unreachable!()
    };
    match newest.id(name) {
        Some(id) => Ok(id),
        None => Err(PlanFault::Lost(name.to_name())),
    }
}

/// These parents by their ids in the newest base, in order. `Lost` names the first that has none.
fn moved_parents(
    alloc: Global,
    newest: &BaseRef<'_>,
    base: &BaseRef<'_>,
    first: u64,
    ids: &[Id],
    parents: &[Id],
) -> Result<Vec<Id>, PlanFault>
    requires newest { (added : List Placed) × IsBaseOf newest.now added }
    requires base { (before : List Placed) × IsBaseOf base.now before × (first ≡ others_count before) }
    requires parents { AllByRecursion (λ p. p < other_id (first + length ids.now)) parents.now }
    ensures { (added before : List Placed) → IsBaseOf newest.now added → IsBaseOf base.now before → first ≡ others_count before
        → MatchResult result
        (λ moved. AllZip (IsMoved before added first ids.now) parents.now moved.items)
        (λ fault. (fault ≡ Memory) ⊎ LosesFirst before added first ids.now parents.now fault) }
{
    let mut moved = Vec::with_capacity(alloc, parents.len())?;
    'parents: for parent in parents {
        let id = moved_parent(newest, base, first, ids, *parent)?;
        add_id(&mut moved, id)?;
    }
    Ok(moved)
}

/// Whether the id is one of these.
fn is_among(id: Id, ids: &[Id]) -> bool
    ensures { IsTrue result ↔ IsIn id ids.now }
{
    match ids {
        [] => false,
        [first, others @ ..] => id.number() == first.number() || is_among(id, others),
    }
}

/// Whether no two of these are the same.
fn are_distinct(ids: &[Id]) -> bool
    ensures { IsTrue result ↔ AreDistinct ids.now }
{
    match ids {
        [] => true,
        [first, others @ ..] => !is_among(*first, others) && are_distinct(others),
    }
}

/// Puts a row behind those that are left, with these parents. The answer is its id. Where two parents are the same, as in no world,
/// it counts as stored with others.
fn keep_row(name: &Name, parents: &[Id], left: &mut PendingRows) -> Result<Id, PlanFault>
    requires few { length parents.now ≤ 8 }
    requires rows { (rows : List HeldRow) × HoldsRows left.old rows × (length rows < 16777216) }
    requires below { AllByRecursion (λ p. p < other_id (left.old.first + length left.old.places)) parents.now }
    ensures { MatchResult result
        (λ id. AreDistinct parents.now × IsKept left.old left.new name.now parents.now id)
        (λ fault. (fault ≡ Memory) ⊎ ((fault ≡ Conflict name.now) × (AreDistinct parents.now → ⊥))) }
{
    if !are_distinct(parents) {
        return Err(PlanFault::Conflict(*name));
    }
    let id = Id::other(left.first() + u64::from(left.len()));
    left.push(name, parents)?;
    Ok(id)
}

/// The parents of this pending row by their ids in the newest base, where the pending rows before it have these ids. `Lost` names
/// the first whose name the newest base doesn't store.
fn row_parents(
    alloc: Global,
    newest: &BaseRef<'_>,
    base: &BaseRef<'_>,
    pending: &PendingRows,
    i: u32,
    ids: &[Id],
) -> Result<Vec<Id>, PlanFault>
    requires newest { (added : List Placed) × IsBaseOf newest.now added }
    requires base { (before : List Placed) × IsBaseOf base.now before × (pending.now.first ≡ others_count before) }
    requires row { (rows : List HeldRow) × (row : HeldRow) × HoldsRows pending.now rows × (slice_get rows i ≡ Some row)
        × AllByRecursion (λ p. p < other_id (pending.now.first + length ids.now)) row.parents }
    ensures { (added before : List Placed) (rows : List HeldRow) (row : HeldRow) → IsBaseOf newest.now added → IsBaseOf base.now before
        → pending.now.first ≡ others_count before → HoldsRows pending.now rows → slice_get rows i ≡ Some row
        → MatchResult result
        (λ moved. AllZip (IsMoved before added pending.now.first ids.now) row.parents moved.items)
        (λ fault. (fault ≡ Memory) ⊎ LosesFirst before added pending.now.first ids.now row.parents fault) }
{
    let Some(parents) = pending.parents(i) else {
        unreachable!()
    };
    let parents = listed(alloc, parents)?;
    moved_parents(alloc, newest, base, pending.first(), ids, &parents)
}

/// The id of this pending row in the newest base, where it was found there; else the row is put behind those that are left.
fn left_row(
    alloc: Global,
    reads: &Reads<'_>,
    newest: &BaseRef<'_>,
    i: u32,
    found: Option<Id>,
    ids: &[Id],
    left: &mut PendingRows,
) -> Result<Id, PlanFault>
    requires newest { (added : List Placed) × IsBaseOf newest.now added }
    requires row { (tables : PlainTables) × (bytes : List ℕ) × (all : List (Option ℕ)) × (added before : List Placed) × (m : MayRebaseOn tables bytes reads.now.base reads.now.pending.now all added before)
        × (row : HeldRow) × IsBaseOf newest.now added × (slice_get m.rows i ≡ Some row) × LeftSoFar added (take i m.rows) ids.now left.old }
    ensures { (added before : List Placed) (rows : List HeldRow) (row : HeldRow) → IsBaseOf newest.now added → IsBaseOf reads.now.base before
        → reads.now.pending.now.first ≡ others_count before → HoldsRows reads.now.pending.now rows → slice_get rows i ≡ Some row
        → MatchResult result
        (IsRebased before added reads.now.pending.now.first ids.now found left.old left.new row)
        (λ fault. (fault ≡ Memory) ⊎ IsNotLeft before added reads.now.pending.now.first ids.now found row fault) }
{
    if let Some(id) = found {
        return Ok(id);
    }
    let name = reads.pending.name(i).to_name();
    let moved = row_parents(alloc, newest, &reads.base, reads.pending, i, ids)?;
    keep_row(&name, &moved, left)
}

/// Adds an id.
pub fn add_id(ids: &mut Vec<Id>, id: Id) -> Result<(), AllocError>
    ensures { OnOk result (ids.new.items ≡ ids.old.items ++ id ∷ []) }
{
    ids.push(id)?;
    Ok(())
}

/// Puts the pending rows that the newest world doesn't have behind `left`, which has none yet, and the id of each pending row
/// behind `ids`, which has none either. The newest world has none of them with other parents.
fn keep_rows(
    alloc: Global,
    reads: &Reads<'_>,
    left: &mut PendingRows,
    ids: &mut Vec<Id>,
) -> Result<(), PlanFault>
    requires rebase { (added before : List Placed) × ReadsOn reads.now added before }
    requires left { HoldsRows left.old [] × (left.old.first ≡ reads.now.tables.now.others.count) }
    requires ids { ids.old.items ≡ [] }
    ensures worlds { (w old : World NameBytes) (rows : List (Row NameBytes)) → ReadsFor reads.now w old rows
        → MatchResult result
        (λ done. (first_lost same_name w rows ≡ None) × ArePending w left.new (left_of same_name w rows))
        (λ fault. (fault ≡ Memory) ⊎ (lost_fault (first_lost same_name w rows) ≡ Some fault)) }
    ensures left { (added before : List Placed) → ReadsOn reads.now added before → OnOk result (MayStore left.new added) }
{
    let newest = reads.tables.newest(reads.bytes);
    let found = reads.found;
    'rows: for i in 0..reads.pending.len() {
        let own = found[i as usize];
        let id = left_row(alloc, reads, &newest, i, own, ids, left)?;
        add_id(ids, id)?;
    }
    Ok(())
}

/// Puts the pending rows that the newest world doesn't have behind `left`, which has none yet; `none` has none either.
fn add_left(
    alloc: Global,
    reads: &Reads<'_>,
    none: &PendingRows,
    left: &mut PendingRows,
) -> Result<(), PlanFault>
    requires rebase { (added before : List Placed) × ReadsOn reads.now added before }
    requires none { HoldsRows none.now [] × (none.now.first ≡ reads.now.tables.now.others.count) }
    requires left { HoldsRows left.old [] × (left.old.first ≡ reads.now.tables.now.others.count) }
    ensures worlds { (w old : World NameBytes) (rows : List (Row NameBytes)) → ReadsFor reads.now w old rows
        → MatchResult result
        (λ done. (rebase_refusal w rows ≡ None) × ArePending w left.new (left_of same_name w rows))
        (λ fault. (fault ≡ Memory) ⊎ (rebase_refusal w rows ≡ Some fault)) }
    ensures left { (added before : List Placed) → ReadsOn reads.now added before → OnOk result (MayStore left.new added) }
{
    check_rows(alloc, reads, none)?;
    let mut ids = Vec::with_capacity(alloc, reads.found.len())?;
    keep_rows(alloc, reads, left, &mut ids)?;
    Ok(())
}

/// The pending rows that the newest world doesn't have, in order, with their parents by their ids in it. `found` has for each
/// pending row the id of its name in the newest world, where that has it.
///
/// `Conflict` names the first row that the newest world has with other parents, and counts as well where no world has a row's parents, as
/// two of them were found at one id. `Lost` comes where there is no conflict: it names, of the first of the rows that are left
/// which has such a parent, the first parent that neither the newest world has nor is a pending row.
///
/// It speaks of the worlds in which no commit without a stored name is one that is missing: where one of the base's others isn't
/// stored any more, the newest world doesn't have it.
pub fn rebase(
    alloc: Global,
    tables: &Tables,
    bytes: &[u8],
    base: BaseRef<'_>,
    pending: &PendingRows,
    found: &[Option<Id>],
) -> Result<PendingRows, PlanFault>
    requires { (added before : List Placed) × MayRebaseOn tables.now bytes.now base pending.now found.now added before }
    ensures worlds { (w old : World NameBytes) (rows : List (Row NameBytes)) → MayRebase tables.now bytes.now base.entry pending.now found.now w old rows
        → MatchResult result
        (λ left. (rebase_refusal w rows ≡ None) × ArePending w left (left_of same_name w rows))
        (λ fault. (fault ≡ Memory) ⊎ (rebase_refusal w rows ≡ Some fault)) }
    ensures left { (added before : List Placed) → MayRebaseOn tables.now bytes.now base.entry pending.now found.now added before → IfOk result (λ left. MayStore left added) }
{
    let others = u64::from(tables.others().count());
    let none = PendingRows::empty(alloc, others);
    let mut left = PendingRows::empty(alloc, others);
    let reads = Reads {
        tables,
        bytes,
        base,
        pending,
        found,
    };
    add_left(alloc, &reads, &none, &mut left)?;
    Ok(left)
}
