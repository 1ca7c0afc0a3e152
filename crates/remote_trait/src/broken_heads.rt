//! Which names of clone data are missing, and which head is none.

ghost use Rattle.std.specs.Prelude.{◌≡◌, ◌+◌, ◌<◌, ◌^◌, ◌||◌, ℕ, [], ◌∷◌, ◌++◌, length, map, flat_map, IfOk, OnOk, nat_eq, slice_get, MatchOption, false, if◌then◌else◌};
ghost use Rattle.std.specs.List.{list_all};
ghost use Rattle.id_groups.specs.Lists.{is_in};
ghost use Rattle.id_groups.specs.Name.{same_name};
ghost use Rattle.remote_rules.specs.CloneData.{first_false, head_ids as ids_of_heads, heads_fit, merge_parents, names_at};
ghost use Rattle.remote_trait.specs.Broken.{AscendFrom};
ghost use Rattle.remote_trait.specs.Marked.{has};

use crate::broken_names::name_of;
use crate::clone::{CloneSegment, KnownName};
use crate::marked::{MarkedIds, named_ids};
use id_groups::Name;
use std::alloc::{AllocError, Global};

/// Whether the highest id of each segment and each parent of a merge have a name, where the segments end here.
pub(crate) fn has_needed_names(
    alloc: Global,
    segments: &[CloneSegment],
    names: &[KnownName],
    end: u128,
) -> Result<bool, AllocError>
    ensures { IfOk result (λ all. all ≡ list_all (λ s. list_all (λ id. is_in nat_eq id (map (λ k. k.id) names.now)) (s.high ∷ merge_parents s.parents)) segments.now) }
{
    let named = named_ids(alloc, names, end)?;
    Ok(have_names(segments, &named))
}

/// Whether the highest id of each segment and each parent of a merge are among these.
fn have_names(segments: &[CloneSegment], named: &MarkedIds) -> bool
    ensures { result ≡ list_all (λ s. list_all (has named.now) (s.high ∷ merge_parents s.parents)) segments.now }
{
    'segments: for k in 0..segments.len() {
        let segment = &segments[k];
        if !has_own_names(segment, named) {
            return false;
        }
    }
    true
}

/// Whether the highest id of the segment and, if it begins with a merge, each of its parents are among these.
fn has_own_names(segment: &CloneSegment, named: &MarkedIds) -> bool
    ensures { result ≡ list_all (has named.now) (segment.now.high ∷ merge_parents segment.now.parents) }
{
    named.contains(segment.high) && are_named(named, parents_of_merge(segment.parents.numbers()))
}

/// The parents, if they are a merge's.
fn parents_of_merge(parents: &[u64]) -> &[u64]
    ensures { result.now ≡ merge_parents parents.now }
{
    if parents.len() < 2 {
        &parents[..0]
    } else {
        parents
    }
}

/// Whether each id is among these.
fn are_named(named: &MarkedIds, ids: &[u64]) -> bool
    ensures { result ≡ list_all (has named.now) ids.now }
{
    'ids: for k in 0..ids.len() {
        let id = ids[k];
        if !named.contains(id) {
            return false;
        }
    }
    true
}

/// The ids that are no parent, ascending where the segments do, which end here.
pub(crate) fn head_ids(
    alloc: Global,
    segments: &[CloneSegment],
    end: u128,
) -> Result<Vec<u64>, AllocError>
    ensures { IfOk result (λ ids. ids.items ≡ ids_of_heads segments.now) }
{
    let parents = parents_of(alloc, segments, end)?;
    let mut ids = Vec::new(alloc);
    'segments: for k in 0..segments.len() {
        keep_head(&segments[k], &parents, &mut ids)?;
    }
    Ok(ids)
}

/// Puts the highest id of the segment behind the others, if it is no parent.
fn keep_head(
    segment: &CloneSegment,
    parents: &MarkedIds,
    ids: &mut Vec<u64>,
) -> Result<(), AllocError>
    ensures { OnOk result (ids.new.items ≡ ids.old.items ++ (if has parents.now segment.now.high then [] else segment.now.high ∷ [])) }
{
    if parents.contains(segment.high) {
        return Ok(());
    }
    ids.push(segment.high)?;
    Ok(())
}

/// The parents of all segments, which end here.
fn parents_of(alloc: Global, segments: &[CloneSegment], end: u128) -> Result<MarkedIds, AllocError>
    ensures { IfOk result (λ ids. (q : ℕ) → has ids q ≡ is_in nat_eq q (flat_map (λ s. s.parents) segments.now)) }
{
    let mut parents = MarkedIds::new(alloc, end)?;
    'segments: for k in 0..segments.len() {
        let segment = &segments[k];
        add_all(&mut parents, segment.parents.numbers())?;
    }
    Ok(parents)
}

/// Puts the numbers into the set.
fn add_all(set: &mut MarkedIds, numbers: &[u64]) -> Result<(), AllocError>
    ensures { OnOk result ((q : ℕ) → has set.new q ≡ (has set.old q || is_in nat_eq q numbers.now)) }
{
    'numbers: for k in 0..numbers.len() {
        let number = numbers[k];
        set.insert(number)?;
    }
    Ok(())
}

/// The number of the first head that isn't the name of the next of these ids, where the first head has the number `first`.
pub(crate) fn first_bad_head(
    names: &[KnownName],
    ids: &[u64],
    heads: &[Name],
    first: u64,
) -> Option<u64>
    requires ascend { AscendFrom 0 names.now }
    requires room { first + length heads.now < 2 ^ 64 }
    ensures { result ≡ first_false first (heads_fit names.now ids.now heads.now) }
{
    'heads: for k in 0..heads.len() {
        let head = &heads[k];
        if !is_head(names, id_at(ids, k), head) {
            return Some(first + k as u64);
        }
    }
    None
}

/// The id at this place.
fn id_at(ids: &[u64], place: usize) -> Option<u64>
    ensures { result ≡ slice_get ids.now place }
{
    if place < ids.len() {
        Some(ids[place])
    } else {
        None
    }
}

/// Whether the head is the name of the id.
fn is_head(names: &[KnownName], id: Option<u64>, head: &Name) -> bool
    requires { AscendFrom 0 names.now }
    ensures { MatchOption id (result ≡ false) (λ id. result ≡ is_in same_name head.now (names_at names.now id)) }
{
    match id {
        Some(id) => match name_of(names, id) {
            Some(name) => name.is(head),
            None => false,
        },
        None => false,
    }
}
