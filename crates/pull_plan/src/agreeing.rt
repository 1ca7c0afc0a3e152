//! Whether what was taken from a remote agrees with what is stored of the cloned commits.

ghost use Rattle.std.specs.Prelude.{◌≡◌, ◌<◌, ◌≤◌, ◌+◌, ◌^◌, ◌∷◌, ◌++◌, ◌&&◌, ◌⊎◌, ◌↔◌, not, true, List, [], None, Some, length, nat_eq, slice_get, IsTrue, IfOk, MatchOption, MatchResult};
ghost use Rattle.std.specs.Cmp.Lexicographic.{pointwise};
ghost use Rattle.change_parts.specs.Plans.{clone_fault};
ghost use Rattle.id_groups.specs.Lists.{is_in};
ghost use Rattle.id_groups.specs.Name.{Name as NameBytes, same_name};
ghost use Rattle.segment_codec.specs.Record.{Segment};
ghost use Rattle.segment_codec.specs.Lent.{parents_left, segment_of};
ghost use Rattle.high_segments.specs.Views.{flats_in};
ghost use Rattle.name_map.specs.Added.{Placed, payloads_of, AllStand};
ghost use Rattle.remote_rules.specs.CloneData.{first_broken};
ghost use Rattle.change_rules.specs.Tables.{known_in, cloned_count};
ghost use Rattle.change_rules.specs.Disagree.{first_unlike, first_bad_row, same_segment, name_agrees};
ghost use Rattle.payload_tables.specs.Kept.{AreTablesOf};
ghost use Rattle.payload_tables.specs.Pending.{HoldsRows};
ghost use Rattle.change_parts.specs.declared.fault.PlanFault.TheVariants.{Memory};
ghost use Rattle.pull_plan.specs.Pulling.{MayPullOn, HasSeen, row_fault, mismatch, unlike_segment, unlike_name, cut_at, cloned_names, is_told};

use change_parts::PlanFault;
use high_segments::View;
use id_groups::{Id, Name};
use mirror_set::Fresh;
use payload_tables::{PendingRows, Tables};
use remote_trait::{CloneData, CloneSegment};
use segment_codec::{Parents, SegmentRef, SegmentTable, Steps};
use std::alloc::{AllocError, Global};
use std::collections::BTreeSet;

/// Whether these are the same ids, in order.
fn are_same(parents: Parents<'_>, numbers: &[u64]) -> bool
    ensures { result ≡ pointwise nat_eq numbers.now (parents_left parents.entry) }
{
    let mut rest = numbers;
    'parents: for parent in parents {
        let [first, more @ ..] = rest else {
            return false;
        };
        if parent.number() != *first {
            return false;
        }
        rest = more;
    }
    rest.is_empty()
}

/// Whether a segment that a remote told, cut below this id, is the stored one, cut so too.
fn is_stored(told: &CloneSegment, stored: SegmentRef<'_>, below: u64) -> bool
    ensures { result ≡ same_segment (cut_at below told.now) (cut_at below (segment_of stored.entry)) }
{
    let end = below.saturating_sub(1);
    told.low == stored.low().number()
        && told.high.min(end) == stored.high().number().min(end)
        && are_same(stored.parents(), told.parents.numbers())
}

/// Whether the view has the segment that a remote told at this place, both cut below the id, where it begins below it.
fn is_at(view: &View<'_>, k: u32, told: &CloneSegment, below: u64) -> bool
    ensures { IsTrue result ↔ ((s : Segment) × (slice_get (flats_in view.now) k ≡ Some s) × (s.low < below) × (same_segment (cut_at below told.now) (cut_at below s) ≡ true)) }
{
    if k >= view.flat_count() {
        return false;
    }
    let stored = view.flat_at(k, &mut Steps::new());
    stored.low().number() < below && is_stored(told, stored, below)
}

/// How many items there are.
fn items_of(told: &CloneData) -> u64
    ensures { result ≡ length told.now.segments + length told.now.names + length told.now.heads }
{
    u64::from(told.segments.len()) + u64::from(told.names.len()) + u64::from(told.heads.len())
}

/// So many items, where the view has a flat segment at this place that begins below this id.
fn missing(view: &View<'_>, k: u32, below: u64, items: u64) -> Option<u64>
    ensures { MatchOption result
        ((s : Segment) → slice_get (flats_in view.now) k ≡ Some s → s.low < below → ⊥)
        (λ n. (n ≡ items) × (s : Segment) × (slice_get (flats_in view.now) k ≡ Some s) × (s.low < below)) }
{
    if k >= view.flat_count() {
        return None;
    }
    let stored = view.flat_at(k, &mut Steps::new());
    if stored.low().number() < below {
        Some(items)
    } else {
        None
    }
}

/// The number of the first segment that isn't the stored one of its place, below the id; the number of all items where one is missing.
fn first_unlike_segment(view: &View<'_>, told: &CloneData, below: u64) -> Option<u64>
    requires { first_broken told.now ≡ None }
    ensures { result ≡ unlike_segment told.now.segments (flats_in view.now) below (length told.now.segments + length told.now.names + length told.now.heads) }
{
    let items = items_of(told);
    let count = told.segments.len();
    'segments: for k in 0..count {
        let segment = told.segments.at(k);
        if segment.low >= below {
            return missing(view, k, below, items);
        }
        if !is_at(view, k, segment, below) {
            return Some(u64::from(k));
        }
    }
    missing(view, count, below, items)
}

/// Whether the id has no other stored name.
fn is_named_so(tables: &Tables, bytes: &[u8], id: u64, name: &Name) -> bool
    requires { id < 2 ^ 57 }
    ensures { (added : List Placed) → AreTablesOf tables.now added → AllStand bytes.now added → result ≡ name_agrees (known_in (payloads_of added)) (record { id = id; name = name.now }) }
{
    match tables.names().name(bytes, Id::from_number(id)) {
        Some(stored) => stored.to_name().is(name),
        None => true,
    }
}

/// The number of the first name below the id that isn't the stored one, where one is stored; the names are numbered behind the segments.
fn first_unlike_name(tables: &Tables, bytes: &[u8], told: &CloneData, below: u64) -> Option<u64>
    requires unbroken { first_broken told.now ≡ None }
    requires below { below ≤ 2 ^ 56 }
    ensures { (added : List Placed) → AreTablesOf tables.now added → AllStand bytes.now added → result ≡ unlike_name told.now.names (known_in (payloads_of added)) below (length told.now.segments) }
{
    let first = u64::from(told.segments.len());
    'names: for i in 0..told.names.len() {
        let known = told.names.at(i);
        if known.id >= below {
            return None;
        }
        if !is_named_so(tables, bytes, known.id, &known.name) {
            return Some(first + u64::from(i));
        }
    }
    None
}

/// Refuses clone data of which an item below the cloned count is unlike what is stored. `none` has no rows.
fn check_cloned(
    tables: &Tables,
    bytes: &[u8],
    none: &PendingRows,
    told: &CloneData,
) -> Result<(), PlanFault>
    requires none { HoldsRows none.now [] × (none.now.first ≡ tables.now.others.count) }
    requires unbroken { first_broken told.now ≡ None }
    requires tables { (added : List Placed) × AreTablesOf tables.now added × AllStand bytes.now added }
    ensures { (added : List Placed) → AreTablesOf tables.now added → AllStand bytes.now added
        → MatchResult result
        (λ done. first_unlike (payloads_of added) (cloned_count (payloads_of added)) told.now ≡ None)
        (λ fault. clone_fault (first_unlike (payloads_of added) (cloned_count (payloads_of added)) told.now) ≡ Some fault) }
{
    let cloned = tables.cloned();
    let base = tables.newest(bytes);
    let view = base.view(none);
    if let Some(at) = first_unlike_segment(&view, told, cloned) {
        return Err(PlanFault::BadClone(at));
    }
    if let Some(at) = first_unlike_name(tables, bytes, told, cloned) {
        return Err(PlanFault::BadClone(at));
    }
    Ok(())
}

/// The bytes of a name.
fn bytes_of(name: &Name) -> [u8; 20]
    ensures { result ≡ name.now }
{
    let mut bytes = [0; 20];
    bytes.copy_from_slice(name.lend().bytes);
    bytes
}

/// Puts a name to those that were seen; whether it wasn't among them.
fn add_seen(seen: &mut BTreeSet<[u8; 20]>, name: &Name) -> Result<bool, AllocError>
    ensures new { (before : List NameBytes) → HasSeen before seen.old → IfOk result (λ is_new. is_new ≡ not (is_in same_name name.now before)) }
    ensures seen { (before : List NameBytes) → HasSeen before seen.old → IfOk result (λ is_new. HasSeen (before ++ name.now ∷ []) seen.new) }
{
    let is_new = seen.insert(bytes_of(name))?;
    Ok(is_new)
}

/// Whether a commit below the cloned count has the name, as far as names are stored.
fn is_cloned(tables: &Tables, bytes: &[u8], name: &Name, cloned: u64) -> bool
    ensures { (added : List Placed) → AreTablesOf tables.now added → AllStand bytes.now added → result ≡ is_in same_name name.now (cloned_names cloned (payloads_of added)) }
{
    tables.names().id(bytes, name.lend(), cloned).is_some()
}

/// Whether the clone data give the id no other name.
fn is_told_so(told: &CloneData, id: u64, name: &Name) -> bool
    requires { first_broken told.now ≡ None }
    ensures { result ≡ is_told told.now id name.now }
{
    match told.name_of(id) {
        Some(known) => known.is(name),
        None => true,
    }
}

/// Whether a fetched name that wasn't seen before may be that of the new row with this id.
fn may_be_new(
    tables: &Tables,
    bytes: &[u8],
    told: &CloneData,
    cloned: u64,
    id: u64,
    name: &Name,
) -> bool
    requires { first_broken told.now ≡ None }
    ensures { (added : List Placed) → AreTablesOf tables.now added → AllStand bytes.now added
        → result ≡ (not (is_in same_name name.now (cloned_names cloned (payloads_of added))) && is_told told.now id name.now) }
{
    !is_cloned(tables, bytes, name, cloned) && is_told_so(told, id, name)
}

/// Refuses the first fetched name that can't be that of a new row.
fn check_names(alloc: Global, tables: &Tables, bytes: &[u8], fresh: &Fresh) -> Result<(), PlanFault>
    requires { (added : List Placed) × MayPullOn tables.now bytes.now fresh.now added }
    ensures { (added : List Placed) → MayPullOn tables.now bytes.now fresh.now added
        → MatchResult result
        (λ done. first_bad_row (payloads_of added) (cloned_count (payloads_of added)) fresh.now.cloned fresh.now.names ≡ None)
        (λ fault. (fault ≡ Memory) ⊎ (row_fault (first_bad_row (payloads_of added) (cloned_count (payloads_of added)) fresh.now.cloned fresh.now.names) ≡ Some fault)) }
{
    let cloned = tables.cloned();
    let mut seen = BTreeSet::new(alloc);
    'names: for i in 0..fresh.names.len() {
        let name = fresh.names.at(i);
        let id = cloned + u64::from(i);
        let is_new = add_seen(&mut seen, name)?;
        if !is_new {
            return Err(PlanFault::BadRow(id));
        }
        if !may_be_new(tables, bytes, &fresh.cloned, cloned, id, name) {
            return Err(PlanFault::BadRow(id));
        }
    }
    Ok(())
}

/// Refuses what was taken from a remote where it disagrees with what is stored of the cloned commits: by the first item of the clone
/// data that is unlike it, or else by the first fetched name that can't be a new row's.
pub(crate) fn check_fresh(
    alloc: Global,
    tables: &Tables,
    bytes: &[u8],
    fresh: &Fresh,
) -> Result<(), PlanFault>
    requires { (added : List Placed) × MayPullOn tables.now bytes.now fresh.now added }
    ensures { (added : List Placed) → MayPullOn tables.now bytes.now fresh.now added
        → MatchResult result (λ done. mismatch added fresh.now ≡ None) (λ fault. (fault ≡ Memory) ⊎ (mismatch added fresh.now ≡ Some fault)) }
{
    let none = PendingRows::empty(alloc, u64::from(tables.others().count()));
    check_cloned(tables, bytes, &none, &fresh.cloned)?;
    check_names(alloc, tables, bytes, fresh)?;
    Ok(())
}
