//! Sections, joined to a view.

ghost use Rattle.std.specs.Prelude.{◌≡◌, ◌≢◌, ◌++◌, [], List, ℕ};
ghost use Rattle.segment_codec.specs.Table.{Follow};
ghost use Rattle.flat_segments.specs.Maximal.{begin_of};
ghost use Rattle.flat_segments.specs.Placed.{PlacedSegment, segments_of};
ghost use Rattle.flat_segments.specs.Views.{flats_of, master_flats, other_flats, master_count};
ghost use Rattle.flat_segments.specs.Joined.{StandAs, MayJoin};

use crate::run::{Run, are_countable};
use crate::section::Section;
use crate::view::FlatView;
use id_groups::FIRST_OTHER;

/// The id behind the section's last one; where it has none, that at which it would begin.
fn end_from(section: &Section, start: u64) -> u64
    ensures none { section.now.entries ≡ [] → result ≡ start }
    ensures some { section.now.entries ≢ [] → result ≡ section.now.end }
{
    if section.entries.is_empty() {
        start
    } else {
        section.end
    }
}

/// The run of a section whose records stand in the bytes.
fn run_of<'a>(section: &'a Section, bytes: &'a [u8], start: u64) -> Run<'a>
    requires { (records : List PlacedSegment) × StandAs section.now bytes.now records }
    ensures flats { (records : List PlacedSegment) → StandAs section.now bytes.now records → flats_of result ≡ segments_of records }
    ensures begin { (records : List PlacedSegment) (end : ℕ) → StandAs section.now bytes.now records → Follow start end (segments_of records)
        → begin_of result.end (flats_of result) ≡ start }
    ensures end { (records : List PlacedSegment) (end : ℕ) → StandAs section.now bytes.now records → Follow start end (segments_of records) → result.end ≡ end }
{
    are_countable(bytes);
    let end = end_from(section, start);
    Run {
        entries: &section.entries,
        bytes,
        end,
    }
}

impl<'a> FlatView<'a> {
    /// The view with these two sections, one behind the other, in place of those that it had. The records of each stand
    /// in its bytes, the sections have the ids of the other group from the first on without a gap, and each parent lies
    /// below its record's lowest id and within the bounds. It takes no memory.
    pub fn join(
        self,
        others: &'a Section,
        other_bytes: &'a [u8],
        pending: &'a Section,
        pending_bytes: &'a [u8],
    ) -> FlatView<'a>
        requires { MayJoin self others.now other_bytes.now pending.now pending_bytes.now }
        ensures others { (first second : List PlacedSegment) → StandAs others.now other_bytes.now first → StandAs pending.now pending_bytes.now second
            → other_flats result ≡ segments_of first ++ segments_of second }
        ensures master { master_flats result ≡ master_flats self.entry }
        ensures count { master_count result ≡ master_count self.entry }
    {
        let master = self.master;
        let others = run_of(others, other_bytes, FIRST_OTHER);
        let pending = run_of(pending, pending_bytes, others.end);
        FlatView {
            master,
            others,
            pending,
        }
    }
}
