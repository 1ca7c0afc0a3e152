//! The heads of a clone or a whole store, by its segments and its known names; and whether a payload is in its place.

ghost use Rattle.std.specs.Prelude.{◌≡◌, ◌≢◌, ◌<◌, ◌≤◌, ◌^◌, ◌&&◌, ◌++◌, ◌↔◌, ◌∷◌, [], ℕ, List, IsTrue, false, not, cond, replicate, filter, map, flat_map, length, slice_index_or, IfOk, OnOk, Err, nat_eq};
ghost use Rattle.std.specs.List.{AllByRecursion};
ghost use Rattle.id_groups.specs.Lists.{is_in};
ghost use Rattle.segment_codec.specs.Record.{Segment};
ghost use Rattle.segment_codec.specs.Lent.{segment_of, parents_left};
ghost use Rattle.batch_codec.specs.Payload.{names_bytes};
ghost use Rattle.batch_codec.specs.Grammar.{cut_below, cloned_head_names};
ghost use Rattle.batch_codec.specs.Lent.{payload_of, knowns_of};
ghost use Rattle.flat_segments.specs.Placed.{AreRecords};
ghost use Rattle.payload_tables.specs.declared.fault.TableFault.TheVariants.{Unlawful};
ghost use Rattle.payload_tables.specs.Places.{IsPlaced};

use crate::fault::TableFault;
use batch_codec::{BatchRef, KnownSlice};
use id_groups::{Id, Name, NameRef};
use segment_codec::{Parents, SegmentRef, read_segment};
use std::alloc::{AllocError, Global};

/// The kind of a flush's payload.
pub(crate) const FLUSH: u8 = 1;

/// The version of payloads that list no segments of levels.
pub(crate) const FIRST_VERSION: u8 = 1;

/// The highest ids of records, and the parents of all.
#[derive(Drop)]
struct Ends {
    highs: Vec<Id>,
    parents: Vec<Id>,
}

/// Adds these parents.
fn add_parents(alloc: Global, all: &mut Vec<Id>, parents: Parents<'_>) -> Result<(), AllocError>
    ensures { OnOk result (all.new.items ≡ all.old.items ++ parents_left parents.entry) }
{
    let list: Vec<Id> = parents.collect(alloc)?;
    all.extend_from_slice(&list)?;
    Ok(())
}

/// Adds the highest id and the parents of a segment, of the part of it below an id.
fn add_ends(
    alloc: Global,
    highs: &mut Vec<Id>,
    parents: &mut Vec<Id>,
    segment: SegmentRef<'_>,
    below: u64,
) -> Result<(), AllocError>
    ensures highs { OnOk result (highs.new.items ≡ highs.old.items ++ map (λ s. s.high) (cut_below below (segment_of segment.entry ∷ []))) }
    ensures parents { OnOk result (parents.new.items ≡ parents.old.items ++ flat_map (λ s. s.parents) (cut_below below (segment_of segment.entry ∷ []))) }
{
    if segment.low().number() >= below {
        return Ok(());
    }
    let high = segment.high().number().min(below - 1);
    highs.push(Id::from_number(high))?;
    add_parents(alloc, parents, segment.parents())?;
    Ok(())
}

/// The highest ids and the parents of these records, of their parts below an id.
fn ends_of(alloc: Global, records: &[u8], below: u64) -> Result<Ends, AllocError>
    requires { (segments : List Segment) × AreRecords segments records.now }
    ensures highs { IfOk result (λ ends. (segments : List Segment) → AreRecords segments records.now → ends.highs.items ≡ map (λ s. s.high) (cut_below below segments)) }
    ensures parents { IfOk result (λ ends. (segments : List Segment) → AreRecords segments records.now → ends.parents.items ≡ flat_map (λ s. s.parents) (cut_below below segments)) }
{
    let mut highs = Vec::new(alloc);
    let mut parents = Vec::new(alloc);
    let mut rest = records;
    'records: while let Some((segment, after)) = read_segment(rest) {
        add_ends(alloc, &mut highs, &mut parents, segment, below)?;
        rest = after;
    }
    Ok(Ends { highs, parents })
}

/// No mark.
fn no_marks(alloc: Global, n: u32) -> Result<Vec<bool>, AllocError>
    ensures { IfOk result (λ marks. marks.items ≡ replicate n false) }
{
    let marks = vec![in alloc; false; n as usize]?;
    Ok(marks)
}

/// These ids below n are marked.
fn marks_of(alloc: Global, n: u32, ids: &[Id]) -> Result<Vec<bool>, AllocError>
    requires { AllByRecursion (λ id. id < n) ids.now }
    ensures marked { IfOk result (λ marks. (k : ℕ) → k < n → slice_index_or marks.items k false ≡ is_in nat_eq k ids.now) }
    ensures len { IfOk result (λ marks. length marks.items ≡ n) }
{
    let mut marks = no_marks(alloc, n)?;
    'ids: for id in ids {
        marks[id.number() as usize] = true;
    }
    Ok(marks)
}

/// Whether the id is marked as a highest one and not as a parent.
fn is_head(highs: &[bool], parents: &[bool], id: Id) -> bool
    requires highs { id < length highs.now }
    requires parents { id < length parents.now }
    ensures { result ≡ (slice_index_or highs.now id false && not (slice_index_or parents.now id false)) }
{
    let i = id.number() as usize;
    highs[i] && !parents[i]
}

/// Adds the name, if it is chosen.
fn add_where(names: &mut Vec<u8>, name: NameRef<'_>, chosen: bool) -> Result<(), AllocError>
    ensures { OnOk result (names.new.items ≡ names.old.items ++ cond chosen name.entry.bytes.now []) }
{
    if chosen {
        names.extend_from_slice(name.bytes)?;
    }
    Ok(())
}

/// The names of the known ids that are highest ones and no parents, one after another.
fn names_where(
    alloc: Global,
    known: &KnownSlice<'_>,
    highs: &[bool],
    parents: &[bool],
) -> Result<Vec<u8>, AllocError>
    requires highs { AllByRecursion (λ k. k.id < length highs.now) (knowns_of known.now) }
    requires parents { length parents.now ≡ length highs.now }
    ensures { IfOk result (λ names. names.items
        ≡ names_bytes (map (λ k. k.name) (filter (λ k. slice_index_or highs.now k.id false && not (slice_index_or parents.now k.id false)) (knowns_of known.now)))) }
{
    let mut names = Vec::new(alloc);
    'known: for i in 0..known.len() {
        let entry = known.at(i);
        let chosen = is_head(highs, parents, entry.id);
        add_where(&mut names, entry.name, chosen)?;
    }
    Ok(names)
}

/// The names of the heads among the cloned ids by a payload's segments, one after another.
fn head_bytes(alloc: Global, batch: &BatchRef<'_>) -> Result<Vec<u8>, AllocError>
    ensures { IfOk result (λ names. names.items ≡ names_bytes (cloned_head_names (payload_of batch.now))) }
{
    batch.is_payload();
    let segments = batch.master_segments();
    let n = batch.after() as u32;
    let ends = ends_of(alloc, segments.bytes(), batch.cloned())?;
    let highs = marks_of(alloc, n, &ends.highs)?;
    let parents = marks_of(alloc, n, &ends.parents)?;
    let known = batch.known();
    names_where(alloc, &known, &highs, &parents)
}

/// Whether the heads of a payload are those of its cloned ids by its segments: their known names that are no parent of one.
fn has_heads(alloc: Global, batch: &BatchRef<'_>) -> Result<bool, AllocError>
    ensures { IfOk result (λ has. IsTrue has ↔ ((payload_of batch.now).heads ≡ cloned_head_names (payload_of batch.now))) }
{
    batch.is_payload();
    let expected = head_bytes(alloc, batch)?;
    let heads = batch.heads();
    Ok(expected.as_slice() == heads.bytes())
}

/// Whether the payload keeps the rules of a clone or of a whole store, if it is one: it comes first, and its heads are those of its
/// cloned ids by its segments.
fn has_place(alloc: Global, batch: &BatchRef<'_>, is_first: bool) -> Result<bool, AllocError>
    ensures { IfOk result (λ has. IsTrue has
        ↔ ((payload_of batch.now).kind ≢ 1 → IsTrue is_first × ((payload_of batch.now).heads ≡ cloned_head_names (payload_of batch.now)))) }
{
    if batch.kind() == FLUSH {
        return Ok(true);
    }
    if !is_first {
        return Ok(false);
    }
    has_heads(alloc, batch)
}

/// What was added before a payload: how many master ids, of which version the newest payload is, and whether there is none.
#[derive(Clone, Copy)]
pub(crate) struct Before {
    pub(crate) masters: u64,
    pub(crate) version: u8,
    pub(crate) is_none: bool,
}

/// Refuses a payload that doesn't begin with the id behind the master ids before it or is of an earlier version than the newest,
/// and a clone or a whole store that breaks a rule of its own.
pub(crate) fn check_place(
    alloc: Global,
    batch: &BatchRef<'_>,
    before: Before,
) -> Result<(), TableFault>
    ensures place { OnOk result (IsPlaced before (payload_of batch.now)) }
    ensures unlawful { result ≡ Err Unlawful → IsPlaced before (payload_of batch.now) → ⊥ }
{
    if batch.before() != before.masters || batch.version() < before.version {
        return Err(TableFault::Unlawful);
    }
    if !has_place(alloc, batch, before.is_none)? {
        return Err(TableFault::Unlawful);
    }
    Ok(())
}

/// The heads that a payload lists.
pub(crate) fn heads_of(alloc: Global, batch: &BatchRef<'_>) -> Result<Vec<Name>, AllocError>
    ensures { IfOk result (λ names. names.items ≡ (payload_of batch.now).heads) }
{
    let heads = batch.heads();
    let mut names = Vec::with_capacity(alloc, heads.len() as usize)?;
    'heads: for i in 0..heads.len() {
        names.push(heads.at(i).to_name())?;
    }
    Ok(names)
}
