//! The records of the segments that came since levels had less, as a log keeps them.

ghost use Rattle.std.specs.Prelude.{◌≡◌, ◌<◌, ◌++◌, ℕ, List, flat_map, length, drop, OnOk, IfOk};
ghost use Rattle.std.specs.List.{AllByRecursion};
ghost use Rattle.segment_codec.specs.Record.{Segment, IsSegment, segment_bytes};
ghost use Rattle.segment_codec.specs.Lent.{segment_of, parents_left};
ghost use Rattle.segment_rules.specs.NewLevels.{new_levels};
ghost use Rattle.segment_levels.specs.Kept.{segments_in};
ghost use Rattle.segment_levels.specs.Sound.{IsSound};
ghost use Rattle.high_segments.specs.Storing.{HasNewAt, CameSince};

use crate::held::row_from;
use crate::kept::{KeptLevel, Mark};
use crate::level::Level;
use crate::levels::{Levels, LevelsMark};
use id_groups::Id;
use segment_codec::{Parents, SegmentRef, write_segment};
use std::alloc::{AllocError, Global};

/// These parents as a list.
fn listed(alloc: Global, parents: Parents<'_>) -> Result<Vec<Id>, AllocError>
    ensures { IfOk result (λ list. list.items ≡ parents_left parents.entry) }
{
    parents.collect(alloc)
}

/// Appends the record of a segment that has one.
fn write_record(alloc: Global, out: &mut Vec<u8>, segment: SegmentRef<'_>) -> Result<(), AllocError>
    requires { IsSegment (segment_of segment) }
    ensures { OnOk result (out.new.items ≡ out.old.items ++ segment_bytes (segment_of segment.entry)) }
{
    let parents = listed(alloc, segment.parents())?;
    write_segment(
        out,
        segment.low(),
        segment.high(),
        segment.level(),
        &parents,
    )
}

/// Appends the records of a row, whose segments have records.
fn write_row(alloc: Global, out: &mut Vec<u8>, run: &Level) -> Result<(), AllocError>
    requires sound { IsSound run.now }
    requires spelled { AllByRecursion IsSegment (segments_in run.now) }
    ensures { OnOk result (out.new.items ≡ out.old.items ++ flat_map segment_bytes (segments_in run.now)) }
{
    'segments: for i in 0..run.len() {
        write_record(alloc, out, run.at(i))?;
    }
    Ok(())
}

/// Appends the records of the segments of the level at place `k` from the mark's end on, and answers how many they are. A refusal
/// may leave some of them.
fn write_level(
    alloc: Global,
    out: &mut Vec<u8>,
    levels: &[KeptLevel],
    k: usize,
    mark: Mark,
) -> Result<usize, AllocError>
    requires within { k < length levels.now }
    requires new { (segments : List Segment) × (from : ℕ) × HasNewAt levels.now k segments from mark.end }
    ensures written { OnOk result ((segments : List Segment) (from : ℕ) → HasNewAt levels.now k segments from mark.end
        → out.new.items ≡ out.old.items ++ flat_map segment_bytes (drop from segments)) }
    ensures count { IfOk result (λ count. (segments : List Segment) (from : ℕ) → HasNewAt levels.now k segments from mark.end → count ≡ length (drop from segments)) }
{
    let near = mark.count.saturating_add(1);
    let run = row_from(alloc, levels, k, mark.end, near)?;
    write_row(alloc, out, &run)?;
    Ok(run.len())
}

/// Appends the records of the segments that came since the levels had so much, by level and then by low, and answers how many they
/// are. A refusal may leave some of them.
fn write_new(
    alloc: Global,
    out: &mut Vec<u8>,
    levels: &[KeptLevel],
    marks: &[Mark],
) -> Result<usize, AllocError>
    requires { (old : List Segment) × (new : List Segment) × CameSince marks.now levels.now old new }
    ensures written { OnOk result ((old new : List Segment) → CameSince marks.now levels.now old new
        → out.new.items ≡ out.old.items ++ flat_map segment_bytes (new_levels old new)) }
    ensures count { IfOk result (λ count. (old new : List Segment) → CameSince marks.now levels.now old new → count ≡ length (new_levels old new)) }
{
    let mut count = 0;
    'levels: for i in 0..levels.len() {
        count += write_level(alloc, out, levels, i, marks[i])?;
    }
    Ok(count)
}

impl Levels {
    /// Appends the records of the segments that came since the mark, by level and then by low, and answers how many they are. A
    /// refusal may leave some of them.
    pub fn write_since(&self, mark: &LevelsMark, out: &mut Vec<u8>) -> Result<usize, AllocError>
        requires { (old : List Segment) × (new : List Segment) × CameSince mark.now.marks self.now.levels old new }
        ensures written { OnOk result ((old new : List Segment) → CameSince mark.now.marks self.now.levels old new
            → out.new.items ≡ out.old.items ++ flat_map segment_bytes (new_levels old new)) }
        ensures count { IfOk result (λ count. (old new : List Segment) → CameSince mark.now.marks self.now.levels old new → count ≡ length (new_levels old new)) }
    {
        write_new(self.alloc, out, self.lend(), &mark.marks)
    }
}
