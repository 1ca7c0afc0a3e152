//! What a line is answered.

use dag_store::{Counts, LevelCounts, Refusal};
use id_groups::Id;

/// The reply to one line, but for an answer of names.
#[derive(Drop)]
pub enum Reply {
    /// The commit was added, with this id.
    Added(Id),
    /// The commit is there with the same parents, with this id.
    Old(Id),
    /// The sizes of the world that was stored.
    Flushed(Counts),
    /// The sizes of the world that a strip left.
    Stripped(Counts),
    /// The sizes of the world after a pull.
    Pulled(Counts),
    /// A mirror's master was stored, with so many rows.
    Cloned(u64),
    /// The session is on the newest world, with so many rows that aren't stored.
    Reloaded(u32),
    /// So many rows were let go.
    Discarded(u32),
    /// A number of members, or of mirrors.
    Counted(u64),
    /// The id of a commit.
    Identified(Id),
    /// The sizes of what the session works on.
    Sizes(Counts),
    /// How many segments the stored master has, level by level.
    LevelSizes(LevelCounts),
    /// A mirror was dropped, and so many are left.
    Dropped(u64),
    /// The command is refused.
    Refused(Refusal),
    /// The line isn't in the grammar.
    NoCommand,
    /// The line has more than 16,384 bytes.
    LongLine,
}
