//! Segments of the other group.

ghost use Rattle.std.specs.Prelude.{◌≡◌, ◌++◌, [], ◌∷◌, List, length, take, OnOk, OnErr, IfOk};
ghost use Rattle.segment_codec.specs.Lent.{segment_of};
ghost use Rattle.flat_segments.specs.Placed.{PlacedSegment};
ghost use Rattle.flat_segments.specs.Kept.{IsSectionOf, MayPush};

use crate::entry::{Entry, copied};
use id_groups::FIRST_OTHER;
use segment_codec::SegmentRef;
use std::alloc::{AllocError, Global};
use std::marker::Model;

/// Segments of the other group that follow one another, 16 bytes for each. They are kept as they are pushed: what goes
/// on from the one before stays a segment of its own, since the commits of the graph and their parents are the same.
/// Contracts see what is kept; which records it is the section of, `IsSectionOf` says.
#[derive(Drop)]
pub struct Section {
    pub(crate) entries: Vec<Entry>,
    pub(crate) end: u64,
}

impl Model for Section {
    ghost use Rattle.flat_segments.specs.Kept.{KeptFlats};

    ghost Value = { KeptFlats };

    ghost view = { λ s. record { entries = s.entries.items; end = s.end } };
}

impl Section {
    /// The section without ids. It takes no memory yet, and keeps the allocator.
    pub fn empty(alloc: Global) -> Section
        ensures { IsSectionOf result [] }
    {
        Section {
            entries: Vec::new(alloc),
            end: FIRST_OTHER,
        }
    }

    /// The section without ids, with room for so many segments.
    pub fn with_room(alloc: Global, len: usize) -> Result<Section, AllocError>
        ensures { IfOk result (λ section. IsSectionOf section []) }
    {
        Ok(Section {
            entries: Vec::with_capacity(alloc, len)?,
            end: FIRST_OTHER,
        })
    }

    /// Adds a flat segment of the other group, which begins where the section ended, and whose record stands, or will
    /// stand, at the place `at`. The first one begins anywhere. Want of memory leaves the section as it was.
    pub fn push(&mut self, segment: SegmentRef<'_>, at: u64) -> Result<(), AllocError>
        requires { MayPush self.old (segment_of segment) }
        ensures section { OnOk result ((records : List PlacedSegment) → IsSectionOf self.old records
            → IsSectionOf self.new (records ++ record { place = at; segment = segment_of segment.entry } ∷ [])) }
        ensures unchanged { OnErr result (self.new ≡ self.old) }
    {
        self.entries.push(Entry::of(&segment, at))?;
        self.end = segment.high().number() + 1;
        Ok(())
    }

    /// The same section once more.
    pub fn copy(&self, alloc: Global) -> Result<Section, AllocError>
        ensures { IfOk result (λ copy. copy ≡ self.now) }
    {
        let entries = copied(alloc, &self.entries)?;
        Ok(Section {
            entries,
            end: self.end,
        })
    }

    /// How many segments there are.
    pub fn len(&self) -> usize
        ensures { result ≡ length self.now.entries }
    {
        self.entries.len()
    }

    /// The id behind the last one.
    pub fn end(&self) -> u64
        ensures { result ≡ self.now.end }
    {
        self.end
    }

    /// Takes back what was pushed last: so many segments stay, up to this id.
    pub fn cut_back(&mut self, len: usize, end: u64)
        ensures { self.new ≡ record { entries = take len self.old.entries; end = end } }
    {
        self.entries.truncate(len);
        self.end = end;
    }
}
