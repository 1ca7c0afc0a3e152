//! The rows of a remote from the cloned ones on, beside the newest world: their ids there, and those of them that it doesn't have.

ghost use Rattle.std.specs.Prelude.{◌≡◌, ◌<◌, ◌≤◌, ◌+◌, ◌^◌, ◌⊎◌, ◌++◌, ◌∷◌, [], List, None, Some, length, map, take, max, nat_eq, if◌then◌else◌, IfOk, MatchResult};
ghost use Rattle.std.specs.List.{AllByRecursion};
ghost use Rattle.id_groups.specs.Lists.{IsIn, AreDistinct};
ghost use Rattle.id_groups.specs.Name.{Name as NameBytes, same_name};
ghost use Rattle.id_groups.specs.Id.{other_id};
ghost use Rattle.commit_graph.specs.World.{Row, World};
ghost use Rattle.segment_codec.specs.Record.{Segment};
ghost use Rattle.high_segments.specs.Views.{flats_in};
ghost use Rattle.name_map.specs.Added.{Placed, payloads_of};
ghost use Rattle.change_rules.specs.Rebase.{first_conflict};
ghost use Rattle.change_rules.specs.Tables.{cloned_count};
ghost use Rattle.payload_tables.specs.Bases.{IsBaseOf};
ghost use Rattle.payload_tables.specs.Pending.{HeldRow, HoldsRows, row_names};
ghost use Rattle.change_parts.specs.declared.fault.PlanFault.TheVariants.{Memory};
ghost use Rattle.change_parts.specs.Plans.{conflict_fault};
ghost use Rattle.rebase_pending.specs.Rebasing.{IsKept};
ghost use Rattle.pull_plan.specs.Pulling.{MayPullOn, mismatch};
ghost use Rattle.pull_plan.specs.Taken.{beside, IsBeside, IsOther, AreTaken, MayAdd, MayWalk, MayTake};

use crate::agreeing::check_fresh;
use change_parts::PlanFault;
use high_segments::View;
use id_groups::{Id, Name};
use mirror_set::Fresh;
use payload_tables::{BaseRef, PendingRows, Tables};
use rebase_pending::{add_id, has_parents};
use remote_trait::{CloneData, CloneSegment};
use std::alloc::{AllocError, Global};

/// For how many rows there is room behind a world's others.
const MOST_ROWS: u32 = 16_777_216;

/// The newest world: its base and the view of it, and how many of its rows were cloned.
#[derive(Clone, Copy)]
struct Newest<'a> {
    base: BaseRef<'a>,
    view: View<'a>,
    cloned: u64,
}

/// The id beside the world of one of the remote's: the cloned ones stay, and the others have these ids.
fn id_beside(ids: &[Id], cloned: u64, number: u64) -> Id
    requires small { cloned ≤ 2 ^ 56 }
    requires there { number < cloned + length ids.now }
    ensures { result ≡ beside cloned ids.now number }
{
    if number < cloned {
        return Id::master(number);
    }
    ids[(number - cloned) as usize]
}

/// These parents of a row of the remote's, by their ids beside the world.
fn parents_beside(
    alloc: Global,
    ids: &[Id],
    cloned: u64,
    numbers: &[u64],
) -> Result<Vec<Id>, AllocError>
    requires small { cloned ≤ 2 ^ 56 }
    requires there { AllByRecursion (λ n. n < cloned + length ids.now) numbers.now }
    ensures { IfOk result (λ parents. parents.items ≡ map (beside cloned ids.now) numbers.now) }
{
    let mut parents = Vec::with_capacity(alloc, numbers.len())?;
    'numbers: for number in numbers {
        parents.push(id_beside(ids, cloned, *number))?;
    }
    Ok(parents)
}

/// Puts a row that isn't there behind those that are left, with these parents. The answer is its id. Where there is no room for
/// one more, that counts as want of memory.
fn add_new(name: &Name, parents: &[Id], left: &mut PendingRows) -> Result<Id, PlanFault>
    requires rows { (rows : List HeldRow) × HoldsRows left.old rows }
    requires new { (rows : List HeldRow) → HoldsRows left.old rows → IsIn name.now (row_names rows) → ⊥ }
    requires few { length parents.now ≤ 8 }
    requires distinct { AreDistinct parents.now }
    requires below { AllByRecursion (λ p. p < other_id (left.old.first + length left.old.places)) parents.now }
    ensures { MatchResult result (IsKept left.old left.new name.now parents.now) (λ fault. fault ≡ Memory) }
{
    if left.len() >= MOST_ROWS {
        return Err(PlanFault::Memory);
    }
    let id = Id::other(left.first() + u64::from(left.len()));
    left.push_new(name, parents)?;
    Ok(id)
}

/// The id beside the world of the row with this name and these parents. Where the world doesn't have it, it is put behind those that
/// are left; `Conflict` names it where the world has it with others.
fn row_beside(
    alloc: Global,
    newest: &BaseRef<'_>,
    view: &View<'_>,
    name: &Name,
    parents: &[Id],
    left: &mut PendingRows,
) -> Result<Id, PlanFault>
    requires newest { (added : List Placed) × IsBaseOf newest.now added }
    requires rows { (rows : List HeldRow) × HoldsRows left.old rows }
    requires new { (rows : List HeldRow) → HoldsRows left.old rows → IsIn name.now (row_names rows) → ⊥ }
    requires few { length parents.now ≤ 8 }
    requires distinct { AreDistinct parents.now }
    requires below { AllByRecursion (λ p. p < other_id (left.old.first + length left.old.places)) parents.now }
    ensures { (added : List Placed) → IsBaseOf newest.now added → MatchResult result
        (IsBeside added (flats_in view.now) name.now parents.now left.old left.new)
        (λ fault. (fault ≡ Memory) ⊎ IsOther added (flats_in view.now) name.now parents.now fault) }
{
    let Some(id) = newest.id(name.lend()) else {
        return add_new(name, parents, left);
    };
    let same = has_parents(alloc, view, id, parents)?;
    if !same {
        return Err(PlanFault::Conflict(*name));
    }
    Ok(id)
}

/// Goes on by the row with this name and the parents with these numbers.
fn add_row(
    alloc: Global,
    newest: &Newest<'_>,
    name: &Name,
    numbers: &[u64],
    ids: &mut Vec<Id>,
    left: &mut PendingRows,
) -> Result<(), PlanFault>
    requires few { length numbers.now ≤ 8 }
    requires row { (w : World NameBytes) × (rows front rest : List (Row NameBytes)) × (row : Row NameBytes)
        × MayAdd newest.now.base (flats_in newest.now.view) newest.now.cloned ids.old.items left.old name.now numbers.now w rows front rest row }
    ensures { (w : World NameBytes) (rows front rest : List (Row NameBytes)) (row : Row NameBytes)
        → MayAdd newest.now.base (flats_in newest.now.view) newest.now.cloned ids.old.items left.old name.now numbers.now w rows front rest row
        → MatchResult result
        (λ done. AreTaken w newest.now.cloned (front ++ row ∷ []) ids.new.items left.new)
        (λ fault. (fault ≡ Memory) ⊎ (conflict_fault (first_conflict same_name w rows) ≡ Some fault)) }
{
    let parents = parents_beside(alloc, ids, newest.cloned, numbers)?;
    let id = row_beside(alloc, &newest.base, &newest.view, name, &parents, left)?;
    add_id(ids, id)?;
    Ok(())
}

/// The numbers of the parents of an id of the segment, where `previous` has the number before it alone.
fn parents_in<'a>(segment: &'a CloneSegment, id: u64, previous: &'a [u64]) -> &'a [u64]
    requires { length previous.now ≤ 8 }
    ensures parents { result.now ≡ (if nat_eq id segment.now.low then segment.now.parents else previous.now) }
    ensures few { length result.now ≤ 8 }
{
    if id == segment.low {
        return segment.parents.numbers();
    }
    previous
}

/// Goes on by the rows of a segment from the cloned ones on.
fn add_segment(
    alloc: Global,
    newest: &Newest<'_>,
    fresh: &Fresh,
    segment: &CloneSegment,
    ids: &mut Vec<Id>,
    left: &mut PendingRows,
) -> Result<(), PlanFault>
    requires names { length fresh.now.names < 2 ^ 31 }
    requires rows { (w : World NameBytes) × (rows : List (Row NameBytes)) × MayWalk newest.now.base (flats_in newest.now.view) newest.now.cloned fresh.now w rows
        × IsIn segment.now fresh.now.cloned.segments × AreTaken w newest.now.cloned (take (max newest.now.cloned segment.now.low) rows) ids.old.items left.old }
    ensures { (w : World NameBytes) (rows : List (Row NameBytes)) → MayWalk newest.now.base (flats_in newest.now.view) newest.now.cloned fresh.now w rows
        → IsIn segment.now fresh.now.cloned.segments → AreTaken w newest.now.cloned (take (max newest.now.cloned segment.now.low) rows) ids.old.items left.old
        → MatchResult result
        (λ done. AreTaken w newest.now.cloned (take (max newest.now.cloned (segment.now.high + 1)) rows) ids.new.items left.new)
        (λ fault. (fault ≡ Memory) ⊎ (conflict_fault (first_conflict same_name w rows) ≡ Some fault)) }
{
    let mut id = newest.cloned.max(segment.low);
    'ids: while id <= segment.high {
        let name = fresh.names.at((id - newest.cloned) as u32);
        let previous = [id.saturating_sub(1)];
        let numbers = parents_in(segment, id, &previous);
        add_row(alloc, newest, name, numbers, ids, left)?;
        id += 1;
    }
    Ok(())
}

/// Goes on by all rows from the cloned ones on; `told` is what was told of their ids and parents.
fn add_rows(
    alloc: Global,
    newest: &Newest<'_>,
    fresh: &Fresh,
    told: &CloneData,
    ids: &mut Vec<Id>,
    left: &mut PendingRows,
) -> Result<(), PlanFault>
    requires names { length fresh.now.names < 2 ^ 31 }
    requires told { told.now ≡ fresh.now.cloned }
    requires rows { (w : World NameBytes) × (rows : List (Row NameBytes)) × MayWalk newest.now.base (flats_in newest.now.view) newest.now.cloned fresh.now w rows
        × (left.old.first ≡ length w.others) }
    requires ids { ids.old.items ≡ [] }
    requires left { HoldsRows left.old [] }
    ensures { (w : World NameBytes) (rows : List (Row NameBytes)) → MayWalk newest.now.base (flats_in newest.now.view) newest.now.cloned fresh.now w rows
        → left.old.first ≡ length w.others
        → MatchResult result
        (λ done. AreTaken w newest.now.cloned rows ids.new.items left.new)
        (λ fault. (fault ≡ Memory) ⊎ (conflict_fault (first_conflict same_name w rows) ≡ Some fault)) }
{
    'segments: for k in 0..told.segments.len() {
        let segment = told.segments.at(k);
        add_segment(alloc, newest, fresh, segment, ids, left)?;
    }
    Ok(())
}

/// No segment has more parents than a row may have: their type has no room for more.
fn count_parents(told: &CloneData)
    ensures { AllByRecursion (λ (s : Segment). length s.parents ≤ 8) told.now.segments }
{
    'segments: for k in 0..told.segments.len() {
        let segment = told.segments.at(k);
        let _numbers = segment.parents.numbers();
    }
}

/// What was taken of a remote beside the newest world.
#[derive(Drop)]
pub(crate) struct Taken {
    /// The id of each row that wasn't cloned.
    pub(crate) ids: Vec<Id>,
    /// The rows that the world doesn't have.
    pub(crate) left: PendingRows,
}

/// Takes the rows that a remote told, where they agree with what is stored of the cloned ones; `none` has no rows. `Conflict` names the
/// first that the world has with other parents.
pub(crate) fn taken_of(
    alloc: Global,
    tables: &Tables,
    bytes: &[u8],
    none: &PendingRows,
    fresh: &Fresh,
) -> Result<Taken, PlanFault>
    requires none { HoldsRows none.now [] × (none.now.first ≡ tables.now.others.count) }
    requires tables { (added : List Placed) × MayPullOn tables.now bytes.now fresh.now added }
    ensures mismatch { (added : List Placed) → MayPullOn tables.now bytes.now fresh.now added
        → MatchResult result (λ taken. mismatch added fresh.now ≡ None)
        (λ fault. (fault ≡ Memory) ⊎ ((mismatch added fresh.now ≡ None) ⊎ (mismatch added fresh.now ≡ Some fault))) }
    ensures worlds { (w : World NameBytes) (rows : List (Row NameBytes)) (m : MayTake tables.now bytes.now fresh.now w rows)
        → MatchResult result
        (λ taken. (mismatch m.added fresh.now ≡ None) × AreTaken w (cloned_count (payloads_of m.added)) rows taken.ids.items taken.left)
        (λ fault. (fault ≡ Memory) ⊎ ((mismatch m.added fresh.now ≡ Some fault) ⊎ ((mismatch m.added fresh.now ≡ None) × (conflict_fault (first_conflict same_name w rows) ≡ Some fault)))) }
    ensures some { (added : List Placed) → MayPullOn tables.now bytes.now fresh.now added
        → IfOk result (λ taken. (w : World NameBytes) × (rows : List (Row NameBytes)) × (m : MayTake tables.now bytes.now fresh.now w rows) × (m.added ≡ added)) }
{
    check_fresh(alloc, tables, bytes, fresh)?;
    count_parents(&fresh.cloned);
    let base = tables.newest(bytes);
    let view = base.view(none);
    let cloned = tables.cloned();
    let newest = Newest { base, view, cloned };
    let count = fresh.names.len();
    let mut ids = Vec::with_capacity(alloc, count as usize)?;
    let mut left = PendingRows::empty(alloc, none.first());
    add_rows(alloc, &newest, fresh, &fresh.cloned, &mut ids, &mut left)?;
    Ok(Taken { ids, left })
}
