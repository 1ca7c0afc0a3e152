//! Which segments of a row have a child close behind.

ghost use Rattle.std.specs.Prelude.{◌≡◌, ◌≤◌, ◌<◌, ℕ, [], ◌∷◌, length, replicate, slice_get, true, Some, IfOk, IfSome};
ghost use Rattle.segment_codec.specs.Lent.{segment_of};
ghost use Rattle.segment_codec.specs.Record.{Segment};
ghost use Rattle.segment_levels.specs.Kept.{segments_in};
ghost use Rattle.segment_levels.specs.Sound.{IsSound};
ghost use Rattle.high_segments.specs.Noting.{AreNoted, Notes};

use crate::group::GROUP_LIMIT;
use crate::level::Level;
use segment_codec::SegmentRef;
use std::alloc::{AllocError, Global};

/// The place of the segment whose highest id this is, among those from a place on and before another.
fn place_of(below: &Level, from: usize, to: usize, id: u64) -> Option<usize>
    requires sound { IsSound below.now }
    requires within { to ≤ length below.now.entries }
    ensures before { IfSome result (λ place. place < to) }
    ensures found { (place : ℕ) (s : Segment) → slice_get (segments_in below.now) place ≡ Some s → from ≤ place → place < to → s.high ≡ id → result ≡ Some place }
{
    if from >= to {
        return None;
    }
    if below.high_at(from) > id {
        return None;
    }
    let mut place = to;
    'places: while from < place {
        let high = below.high_at(place - 1);
        if high == id {
            return Some(place - 1);
        }
        if high < id {
            return None;
        }
        place -= 1;
    }
    None
}

/// Notes the segment whose highest id this is, where it is one of the fifteen before a place.
fn note_parent(note: &mut [bool], below: &Level, place: usize, parent: u64)
    requires sound { IsSound below.now }
    requires within { place ≤ length below.now.entries }
    requires count { length note.old ≡ length below.now.entries }
    ensures { Notes (segments_in below.now) place (parent ∷ []) note.old note.new }
{
    let from = place.saturating_sub(GROUP_LIMIT - 1);
    if let Some(at) = place_of(below, from, place, parent) {
        note[at] = true;
    }
}

/// Notes those of the fifteen segments before a place that are parents of the segment there.
fn note_parents(note: &mut [bool], below: &Level, place: usize, segment: SegmentRef<'_>)
    requires sound { IsSound below.now }
    requires within { place ≤ length below.now.entries }
    requires count { length note.old ≡ length below.now.entries }
    ensures { Notes (segments_in below.now) place (segment_of segment.entry).parents note.old note.new }
{
    let mut rest = segment.parents();
    'parents: while let Some(parent) = rest.next() {
        note_parent(note, below, place, parent.number());
    }
}

/// Notes each segment of the row that one of the fifteen behind it has as a parent.
fn note_all(note: &mut [bool], below: &Level)
    requires sound { IsSound below.now }
    requires count { length note.old ≡ length below.now.entries }
    ensures { AreNoted (segments_in below.now) (length below.now.entries) note.new }
{
    for k in 0..below.len() {
        note_parents(note, below, k, below.at(k));
    }
}

/// A note of each segment of the row, whether one of the fifteen behind it may have it as a parent. Each segment's parents
/// are read once.
fn have_children(alloc: Global, below: &Level) -> Result<Vec<bool>, AllocError>
    requires { IsSound below.now }
    ensures { IfOk result (λ note. AreNoted (segments_in below.now) (length below.now.entries) note.items) }
{
    let mut note = Vec::from_elem(alloc, false, below.len())?;
    note_all(&mut note, below);
    Ok(note)
}

/// Where the groups of a level have so many segments or more on average, most of those below it have a child close behind.
const MANY: usize = 4;

/// A note of so many segments: each may have a child.
fn all_noted(alloc: Global, count: usize) -> Result<Vec<bool>, AllocError>
    ensures { IfOk result (λ note. note.items ≡ replicate count true) }
{
    let note = vec![in alloc; true; count]?;
    Ok(note)
}

/// A note of each segment of the row, whether one of the fifteen behind it may have it as a parent. `count` groups of the level
/// above have `grouped` segments: where that are many each, all may have one, and none is read.
pub(crate) fn may_have_children(
    alloc: Global,
    below: &Level,
    count: usize,
    grouped: usize,
) -> Result<Vec<bool>, AllocError>
    requires { IsSound below.now }
    ensures { IfOk result (λ note. AreNoted (segments_in below.now) (length below.now.entries) note.items) }
{
    if grouped / MANY >= count {
        return all_noted(alloc, below.len());
    }
    have_children(alloc, below)
}
