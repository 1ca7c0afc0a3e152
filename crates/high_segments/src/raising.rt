//! Rows that go up as they are.

ghost use Rattle.std.specs.Prelude.{◌≡◌, ◌≤◌, ◌<◌, ◌+◌, ◌^◌, [], List, length};
ghost use Rattle.flat_segments.specs.Maximal.{begin_of};
ghost use Rattle.segment_codec.specs.Record.{Segment};
ghost use Rattle.segment_levels.specs.Kept.{segments_in};
ghost use Rattle.segment_levels.specs.Sound.{IsSound, HasFront};
ghost use Rattle.high_segments.specs.Growing.{AddsGroups, AreBelow, KeepsRun};
ghost use Rattle.high_segments.specs.Lone.{AreLone};

use crate::group::GROUP_LIMIT;
use crate::kept::KeptLevel;
use crate::level::Level;

/// Segments of which the next level is made, and whether each is known to be a group of its own there.
#[derive(Drop)]
pub(crate) struct Row {
    pub(crate) segments: Level,
    pub(crate) lone: bool,
}

/// Adds all groups of the segments below to a row that has none yet, where each group is one segment: all but the last
/// fifteen go up as they are, and none of them is kept.
pub(crate) fn raise(below: Level, run: &mut Level, kept: &mut KeptLevel)
    requires sound { IsSound below }
    requires lone { AreLone (segments_in below) }
    requires none { run.old.entries ≡ [] }
    requires high { 2 ≤ run.old.level }
    requires begin { run.old.end ≡ begin_of below.end (segments_in below) }
    requires counted { run.old.grouped + length below.entries < 2 ^ 64 }
    requires grouped { kept.old.grouped ≡ run.old.grouped }
    ensures groups { AddsGroups below 0 run.old run.new }
    ensures count { kept.new.count ≡ kept.old.count }
    ensures kept { (front belows : List Segment) → KeepsRun front belows run.old kept.old → AreBelow run.old.level (segments_in below) belows → KeepsRun front belows run.new kept.new }
    ensures front { HasFront kept.old kept.new }
    ensures lone { AreLone (segments_in run.new) }
{
    let size = below.len().saturating_sub(GROUP_LIMIT - 1);
    kept.reach(below.low_at(size), size);
    let grouped = run.grouped() + size;
    *run = below.raised(size, run.level(), grouped);
}
