//! The clone data of a master group.

ghost use Rattle.std.specs.Prelude.{◌≡◌, ◌<◌, ◌≤◌, ◌+◌, ◌^◌, ◌++◌, ◌∷◌, [], ℕ, List, cond, not, false, length, filter, map, slice_index_or, IfOk, OnOk};
ghost use Rattle.std.specs.List.{AllByRecursion, range_with_len};
ghost use Rattle.id_groups.specs.Name.{Name as NameBytes};
ghost use Rattle.commit_graph.specs.World.{Row};
ghost use Rattle.segment_codec.specs.Record.{Segment};
ghost use Rattle.segment_codec.specs.Lent.{segment_of, parents_left};
ghost use Rattle.segment_codec.specs.Table.{Follow};
ghost use Rattle.remote_rules.specs.Known.{master_world};
ghost use Rattle.remote_rules.specs.Honest.{clone_data_of, named_ids};
ghost use Rattle.remote_answers.specs.Master.{IsMasterIn, IsMasterOf};

use crate::marks::{parent_marks, stored_marks};
use crate::names::MasterNames;
use arrayvec::ArrayVec;
use id_groups::Id;
use remote_trait::CloneData;
use segment_codec::{Parents, SegmentRef, SegmentTable, Steps};
use std::alloc::{AllocError, Global};

/// How many commits there are.
fn count_of<T: SegmentTable>(table: &T) -> u64
    ensures { (rows : List (Row NameBytes)) → IsMasterIn (T.flats table.now) rows → result ≡ length rows }
{
    table.bounds().master
}

/// What an honest remote with this master tells to who clones it.
pub fn clone_of<T: SegmentTable, N: MasterNames>(
    alloc: Global,
    table: &T,
    names: &N,
) -> Result<CloneData, AllocError>
    requires { (rows : List (Row NameBytes)) × IsMasterOf (T.flats table.now) (N.are_of names.now) rows }
    ensures { IfOk result (λ given. (rows : List (Row NameBytes)) → IsMasterOf (T.flats table.now) (N.are_of names.now) rows → given ≡ clone_data_of (master_world rows)) }
{
    let mut given = CloneData::empty(alloc);
    let count = count_of(table);
    put_segments(table, count, &mut given)?;
    let stored = stored_marks(alloc, count, &given.segments)?;
    put_names(names, &stored, &mut given)?;
    let parents = parent_marks(alloc, count, &given.segments)?;
    put_heads(names, &parents, &mut given)?;
    Ok(given)
}

/// The numbers of these ids, of which there are at most eight.
fn numbers_of(parents: Parents<'_>) -> ArrayVec<u64, 8>
    requires { length (parents_left parents) ≤ 8 }
    ensures { result.items ≡ parents_left parents.entry }
{
    let mut numbers = ArrayVec::new();
    'parents: for id in parents {
        numbers.push(id.number());
    }
    numbers
}

/// Puts a segment.
fn put_segment(segment: SegmentRef<'_>, given: &mut CloneData) -> Result<(), AllocError>
    requires flat { (segment_of segment).level ≡ 0 }
    requires few { length (segment_of segment).parents ≤ 8 }
    requires room { length given.old.segments + 1 < 2 ^ 32 }
    ensures { OnOk result (given.new ≡ record given.old { segments = given.old.segments ++ segment_of segment.entry ∷ [] }) }
{
    let parents = numbers_of(segment.parents());
    given.push_segment(
        segment.low().number(),
        segment.high().number(),
        parents.as_slice(),
    )
}

/// Puts the flat segments of so many master ids, which come first in the table.
fn put_segments<T: SegmentTable>(
    table: &T,
    count: u64,
    given: &mut CloneData,
) -> Result<(), AllocError>
    requires empty { given.old.segments ≡ [] }
    requires count { count ≤ 2 ^ 56 }
    ensures segments { OnOk result ((masters others : List Segment) (end : ℕ) → T.flats table.now ≡ masters ++ others → Follow 0 count masters
        → Follow (2 ^ 56) end others → given.new.segments ≡ masters) }
    ensures names { OnOk result (given.new.names ≡ given.old.names) }
    ensures heads { OnOk result (given.new.heads ≡ given.old.heads) }
{
    let mut steps = Steps::new();
    'segments: for k in 0..table.flat_count() {
        let segment = table.flat_at(k, &mut steps);
        if segment.low().number() >= count {
            return Ok(());
        }
        put_segment(segment, given)?;
    }
    Ok(())
}

/// Puts the name of an id, if it is stored.
fn put_name<N: MasterNames>(
    names: &N,
    id: Id,
    is_stored: bool,
    given: &mut CloneData,
) -> Result<(), AllocError>
    requires id { (rows : List (Row NameBytes)) × N.are_of names.now rows × (id < length rows) }
    requires room { length given.old.names + 1 < 2 ^ 32 }
    ensures names { OnOk result ((rows : List (Row NameBytes)) → N.are_of names.now rows
        → given.new.names ≡ given.old.names ++ named_ids (master_world rows) (cond is_stored (id ∷ []) [])) }
    ensures few { OnOk result (length given.new.names ≤ length given.old.names + 1) }
    ensures segments { OnOk result (given.new.segments ≡ given.old.segments) }
    ensures heads { OnOk result (given.new.heads ≡ given.old.heads) }
{
    if !is_stored {
        return Ok(());
    }
    given.push_name(id.number(), names.name(id))
}

/// Puts the names of the marked ids.
fn put_names<N: MasterNames>(
    names: &N,
    stored: &[bool],
    given: &mut CloneData,
) -> Result<(), AllocError>
    requires size { (rows : List (Row NameBytes)) × N.are_of names.now rows × (length stored.now ≡ length rows) }
    requires few { length stored.now ≤ 16777216 }
    requires empty { given.old.names ≡ [] }
    ensures names { OnOk result ((rows : List (Row NameBytes)) → N.are_of names.now rows
        → given.new.names ≡ named_ids (master_world rows) (filter (λ id. slice_index_or stored.now id false) (range_with_len 0 (length stored.now)))) }
    ensures segments { OnOk result (given.new.segments ≡ given.old.segments) }
    ensures heads { OnOk result (given.new.heads ≡ given.old.heads) }
{
    'ids: for place in 0..stored.len() {
        put_name(names, Id::master(place as u64), stored[place], given)?;
    }
    Ok(())
}

/// Puts the name of an id, if it is no parent.
fn put_head<N: MasterNames>(
    names: &N,
    id: Id,
    is_parent: bool,
    given: &mut CloneData,
) -> Result<(), AllocError>
    requires id { (rows : List (Row NameBytes)) × N.are_of names.now rows × (id < length rows) }
    requires room { length given.old.heads + 1 < 2 ^ 32 }
    ensures heads { OnOk result ((rows : List (Row NameBytes)) → N.are_of names.now rows
        → given.new.heads ≡ given.old.heads ++ map (λ k. k.name) (named_ids (master_world rows) (cond is_parent [] (id ∷ [])))) }
    ensures few { OnOk result (length given.new.heads ≤ length given.old.heads + 1) }
    ensures segments { OnOk result (given.new.segments ≡ given.old.segments) }
    ensures names { OnOk result (given.new.names ≡ given.old.names) }
{
    if is_parent {
        return Ok(());
    }
    given.push_head(names.name(id))
}

/// Puts the names of the segments' highest ids that aren't marked as parents.
fn put_heads<N: MasterNames>(
    names: &N,
    parents: &[bool],
    given: &mut CloneData,
) -> Result<(), AllocError>
    requires size { (rows : List (Row NameBytes)) × N.are_of names.now rows × (length parents.now ≡ length rows) }
    requires few { length parents.now ≤ 16777216 }
    requires highs { AllByRecursion (λ s. s.high < length parents.now) given.old.segments }
    requires empty { given.old.heads ≡ [] }
    ensures heads { OnOk result ((rows : List (Row NameBytes)) → N.are_of names.now rows
        → given.new.heads ≡ map (λ k. k.name) (named_ids (master_world rows) (filter (λ id. not (slice_index_or parents.now id false)) (map (λ s. s.high) given.old.segments)))) }
    ensures segments { OnOk result (given.new.segments ≡ given.old.segments) }
    ensures names { OnOk result (given.new.names ≡ given.old.names) }
{
    'segments: for i in 0..given.segments.len() {
        let high = given.segments.at(i).high;
        put_head(names, Id::master(high), parents[high as usize], given)?;
    }
    Ok(())
}
