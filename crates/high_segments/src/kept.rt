//! What is kept of one level.

ghost use Rattle.std.specs.List.{AllWithin, AllByRecursion, list_all};
ghost use Rattle.std.specs.Prelude.{◌↔◌, IsTrue, nat_le, false, None, MatchOption, ◌≡◌, ◌≤◌, ◌<◌, ◌+◌, ◌^◌, [], true, ℕ, List, flat_map, length, Some, OnOk, OnErr, IfOk};
ghost use Rattle.segment_codec.specs.Lent.{segment_of};
ghost use Rattle.segment_codec.specs.Number.{number_bytes, numbers_in};
ghost use Rattle.segment_codec.specs.Record.{Segment};
ghost use Rattle.segment_codec.specs.Table.{segment_at};
ghost use Rattle.flat_segments.specs.Runs.{slice_in, is_read};
ghost use Rattle.segment_levels.specs.Kept.{PlainGroup, PlainGroups, groups_in, made_in, entry_of};
ghost use Rattle.segment_levels.specs.Sound.{IsReadable, HasFront};
ghost use Rattle.high_segments.specs.Growing.{DoRise, IsMarkOf, reached, with_next};

use crate::entry::Group;
use id_groups::Id;
use segment_codec::SegmentRef;
use std::alloc::{AllocError, Global};
use std::marker::Model;

/// The groups of one level that are kept, from the lowest on: those of two and more segments, and on level 1 all. The other
/// segments up to the level's end are those of the level below.
#[derive(Drop)]
pub(crate) struct KeptLevel {
    level: u8,
    groups: Vec<Group>,
    bytes: Vec<u8>,
    end: u64,
    grouped: usize,
    count: usize,
}

impl Model for KeptLevel {
    ghost use Rattle.segment_levels.specs.Kept.{PlainGroups};

    ghost Value = { PlainGroups };

    ghost view = { λ l. record { level = l.level; groups = l.groups.items; bytes = l.bytes.items; end = l.end; grouped = l.grouped; count = l.count } };
}

/// How much a level keeps.
#[derive(Clone, Copy)]
pub(crate) struct Mark {
    groups: usize,
    bytes: usize,
    pub(crate) end: u64,
    grouped: usize,
    pub(crate) count: usize,
}

impl Mark {
    /// That of a level that keeps nothing.
    pub(crate) fn none() -> Mark {
        Mark {
            groups: 0,
            bytes: 0,
            end: 0,
            grouped: 0,
            count: 0,
        }
    }
}

/// So many groups before a place are tried one by one.
const STEPS: usize = 8;

/// How many of the groups begin at the id or below it.
fn count_by_halves(groups: &[Group], id: u64) -> usize
    requires { DoRise groups.now }
    ensures within { result ≤ length groups.now }
    ensures front { AllWithin (λ (g : PlainGroup). nat_le g.low id ≡ true) groups.now 0 result }
    ensures back { AllWithin (λ (g : PlainGroup). nat_le g.low id ≡ false) groups.now result (length groups.now) }
{
    groups.partition_point(|group| group.low() <= id)
}

/// How many of the groups begin at the id or below it. The place `at`, behind which all begin above it, is tried first, then
/// some before it, then halves.
fn count_before(groups: &[Group], id: u64, at: usize) -> usize
    requires rise { DoRise groups.now }
    requires within { at < length groups.now }
    requires back { AllWithin (λ (g : PlainGroup). nat_le g.low id ≡ false) groups.now at (length groups.now) }
    ensures within { result ≤ length groups.now }
    ensures front { AllWithin (λ (g : PlainGroup). nat_le g.low id ≡ true) groups.now 0 result }
    ensures back { AllWithin (λ (g : PlainGroup). nat_le g.low id ≡ false) groups.now result (length groups.now) }
{
    let mut place = at;
    let least = at.saturating_sub(STEPS);
    'places: while least < place {
        if groups[place - 1].low() <= id {
            return place;
        }
        place -= 1;
    }
    count_by_halves(groups, id)
}

/// How many of the groups begin at the id or below it. The place `near` and some before it are tried first, or the last one where
/// `near` is behind it.
fn count_up_to(groups: &[Group], id: u64, near: usize) -> usize
    requires { DoRise groups.now }
    ensures within { result ≤ length groups.now }
    ensures front { AllWithin (λ (g : PlainGroup). nat_le g.low id ≡ true) groups.now 0 result }
    ensures back { AllWithin (λ (g : PlainGroup). nat_le g.low id ≡ false) groups.now result (length groups.now) }
{
    let len = groups.len();
    if near < len {
        if groups[near].low() > id {
            return count_before(groups, id, near);
        }
    } else if len > 0 && groups[len - 1].low() <= id {
        return len;
    }
    count_by_halves(groups, id)
}

/// The segment of a level that a group is. No parent is read.
#[inline(always)]
fn lend_group(level: u8, bytes: &[u8], group: Group) -> SegmentRef<'_>
    requires read { is_read bytes.now (entry_of group) ≡ true }
    requires order { group.low ≤ group.high }
    requires small { group.high < 2 ^ 57 }
    requires below { AllByRecursion (λ p. p < group.low) (numbers_in (slice_in bytes.now (entry_of group))) }
    ensures { segment_of result ≡ made_in level bytes.now group }
{
    let (_, behind) = bytes.split_at(group.place());
    let (parents, _) = behind.split_at(group.len());
    SegmentRef::of_level(
        level,
        Id::from_number(group.low()),
        Id::from_number(group.high()),
        parents,
    )
}

impl KeptLevel {
    /// A level without segments.
    pub(crate) fn empty(alloc: Global, level: u8) -> KeptLevel
        ensures { result ≡ record { level = level; groups = []; bytes = []; end = 0; grouped = 0; count = 0 } }
    {
        KeptLevel {
            level,
            groups: Vec::new(alloc),
            bytes: Vec::new(alloc),
            end: 0,
            grouped: 0,
            count: 0,
        }
    }

    /// The same level once more.
    pub(crate) fn copy(&self, alloc: Global) -> Result<KeptLevel, AllocError>
        ensures { IfOk result (λ copy. copy ≡ self.now) }
    {
        let mut groups = Vec::with_capacity(alloc, self.groups.len())?;
        groups.extend_from_slice(&self.groups)?;
        let mut bytes = Vec::with_capacity(alloc, self.bytes.len())?;
        bytes.extend_from_slice(&self.bytes)?;
        Ok(KeptLevel {
            level: self.level,
            groups,
            bytes,
            end: self.end,
            grouped: self.grouped,
            count: self.count,
        })
    }

    /// The level's number.
    pub(crate) fn level(&self) -> u8
        ensures { result ≡ self.now.level }
    {
        self.level
    }

    /// How many segments the level has.
    pub(crate) fn count(&self) -> usize
        ensures { result ≡ self.now.count }
    {
        self.count
    }

    /// The id behind the last segment.
    pub(crate) fn end(&self) -> u64
        ensures { result ≡ self.now.end }
    {
        self.end
    }

    /// How many segments of the level below are in groups.
    pub(crate) fn grouped(&self) -> usize
        ensures { result ≡ self.now.grouped }
    {
        self.grouped
    }

    /// How many bytes it takes.
    pub(crate) fn memory(&self) -> u64 {
        (self.groups.len() as u64)
            .saturating_mul(32)
            .saturating_add(self.bytes.len() as u64)
    }

    /// Whether it keeps no group.
    #[inline(always)]
    pub(crate) fn keeps_none(&self) -> bool
        ensures { IsTrue result ↔ (self.now.groups ≡ []) }
    {
        self.groups.is_empty()
    }

    /// The kept group that has the id. The search begins at a place, which level 1, the one with the most groups, moves to where
    /// it found one. No parent is read.
    pub(crate) fn find(&self, id: u64, near: &mut usize) -> Option<SegmentRef<'_>>
        requires { IsReadable self.now }
        ensures { MatchOption result (segment_at (groups_in self.now) id ≡ None) (λ r. segment_at (groups_in self.now) id ≡ Some (segment_of r)) }
    {
        let count = count_up_to(&self.groups, id, *near);
        if count == 0 {
            return None;
        }
        let group = self.groups[count - 1];
        if group.high() < id {
            return None;
        }
        if self.level == 1 {
            *near = count;
        }
        Some(lend_group(self.level, &self.bytes, group))
    }

    /// Whether the kept group before a place has the id and ends above it.
    #[inline(always)]
    pub(crate) fn has_within(&self, id: u64, near: usize) -> bool
        requires { IsReadable self.now }
        ensures { IsTrue result → (s : Segment) × (segment_at (groups_in self.now) id ≡ Some s) × (id < s.high) }
    {
        if near == 0 || near > self.groups.len() {
            return false;
        }
        let group = self.groups[near - 1];
        group.low() <= id && id < group.high()
    }

    /// How much is kept.
    pub(crate) fn mark(&self) -> Mark
        ensures { IsMarkOf result self.now }
    {
        Mark {
            groups: self.groups.len(),
            bytes: self.bytes.len(),
            end: self.end,
            grouped: self.grouped,
            count: self.count,
        }
    }

    /// Takes back what was added since the mark.
    pub(crate) fn cut_back(&mut self, mark: Mark)
        ensures { (old : PlainGroups) → IsMarkOf mark old → HasFront old self.old → self.new ≡ old }
    {
        self.groups.truncate(mark.groups);
        self.bytes.truncate(mark.bytes);
        self.end = mark.end;
        self.grouped = mark.grouped;
        self.count = mark.count;
    }

    /// Adds a segment that begins where the level ended and ends before an id, whose parents are spelled so, of so many segments
    /// of the level below. A single one is kept on level 1 alone.
    pub(crate) fn add(&mut self, end: u64, spelled: &[u8], size: usize) -> Result<(), AllocError>
        requires some { 1 ≤ end }
        requires counted { self.old.grouped + size < 2 ^ 64 }
        ensures added { OnOk result ((parents : List ℕ) → spelled.now ≡ flat_map number_bytes parents → self.new ≡ with_next self.old parents end size) }
        ensures front { OnErr result (HasFront self.old self.new) }
    {
        if size > 1 || self.level == 1 {
            let place = self.bytes.len();
            self.bytes.extend_from_slice(spelled)?;
            let group = Group::new(place as u64, spelled.len() as u64, self.end, end - 1);
            self.groups.push(group)?;
        }
        self.end = end;
        self.grouped += size;
        Ok(())
    }

    /// Goes on to an id with so many segments of the level below, of which no group is kept.
    pub(crate) fn reach(&mut self, end: u64, size: usize)
        requires { self.old.grouped + size < 2 ^ 64 }
        ensures { self.new ≡ reached self.old end size }
    {
        self.end = end;
        self.grouped += size;
    }

    /// Counts so many segments more.
    pub(crate) fn count_more(&mut self, more: usize)
        requires { self.old.count + more < 2 ^ 64 }
        ensures { self.new ≡ record self.old { count = self.old.count + more } }
    {
        self.count += more;
    }
}
