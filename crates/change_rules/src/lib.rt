//! Flushes, rebases, strips and pulls.
#![tactic(auto)]

ghost use Rattle.std.specs.Prelude.{◌≡◌, ◌<◌, ◌≤◌, ◌++◌, ◌↔◌, ◌⊎◌, length, map, slice_get, Some, ℕ, List, [], ◌∷◌, None};
ghost use Rattle.id_groups.specs.Lists.{IsIn, AreAllIn};
ghost use Rattle.id_groups.specs.Name.{Name as NameBytes, same_name};
ghost use Rattle.commit_graph.specs.World.{Row, World, IsWorld, IsNamedWorld, GrowsMaster, empty_world, rows_of, names_of, with_pending};
ghost use Rattle.commit_graph.specs.Graph.{graph_of, Reaches};
ghost use Rattle.batch_codec.specs.Payload.{Payload};
ghost use Rattle.change_rules.specs.Tables.{StandFor};
ghost use Rattle.change_rules.specs.Rebase.{left_of, first_lost};
ghost use Rattle.change_rules.specs.Flush.{flushed};
ghost use Rattle.change_rules.specs.Strip.{stripped};
ghost use Rattle.change_rules.specs.Pull.{pulled};
ghost use Rattle.change_rules.specs.Change.{flush_change, clone_change, AreFormed, told_change};
ghost use Rattle.segment_codec.specs.Turns.{place_behind};
ghost use Rattle.change_rules.specs.Lawful.{MayFollow};
ghost use Rattle.remote_rules.specs.Known.{master_alone, master_world, master_graph, IsReached, IsKnownTo, IsPathTo, Path};
ghost use Rattle.remote_rules.specs.Honest.{heads_of, clone_data_of, stored_ids, master_segments};
ghost use Rattle.remote_rules.specs.CloneData.{CloneData, first_broken};
ghost use Rattle.remote_rules.specs.Clones.{IsCloneOf};
ghost use Rattle.change_rules.specs.Holding.{HoldPayloads, HoldAs};
ghost use Rattle.change_rules.specs.Unlawful.{IsNoLog};
ghost use Rattle.change_rules.specs.Disagree.{first_unlike, first_bad_row};
ghost use Rattle.change_rules.specs.Standard.{standard, most_heads, AreLimits};

/// The limits of a run.
#[derive(Clone, Copy, Debug, PartialEq, Eq)]
pub struct Limits {
    /// Pending rows of one session.
    pub pending: u32,
    /// Rows that are stored beside master.
    pub others: u32,
    /// Rows of master.
    pub master: u32,
    /// Bytes of the log.
    pub log: u64,
    /// Names that one query may print.
    pub answer: u32,
    /// Bytes of the input.
    pub input: u64,
}

/// What a limit counts.
#[derive(Clone, Copy, Debug, PartialEq, Eq)]
pub enum Limit {
    /// Pending rows of one session.
    Pending,
    /// Rows that are stored beside master.
    Others,
    /// Heads of a remote's master.
    Heads,
    /// Rows of master.
    Master,
    /// Bytes of the log.
    Log,
}

impl Limits {
    /// Those of the program.
    pub fn standard() -> Limits
        ensures { result ≡ standard }
    {
        Limits {
            pending: 1 << 16,
            others: 1 << 16,
            master: 1 << 24,
            log: 1 << 30,
            answer: 1 << 20,
            input: 1 << 30,
        }
    }
}

/// The standard limits are limits that a run may have.
pub fn standard_limits()
    ensures { AreLimits standard }
{}

/// No payloads stand for the empty world.
pub fn nothing_stored()
    ensures { StandFor [] empty_world }
{}

/// A flush of a world is a world with the same names, which keeps each row, and those of master at its front.
pub fn flush_keeps_worlds()
    ensures world { (w : World NameBytes) (heads : List NameBytes) → IsWorld w → AreAllIn heads (names_of (rows_of w)) → IsWorld (flushed same_name w heads) }
    ensures master { (w : World NameBytes) (heads : List NameBytes) → IsWorld w → AreAllIn heads (names_of (rows_of w)) → GrowsMaster w (flushed same_name w heads) }
    ensures rows { (w : World NameBytes) (heads : List NameBytes) (row : Row NameBytes) → IsWorld w → AreAllIn heads (names_of (rows_of w)) → IsIn row (rows_of w) → IsIn row (rows_of (flushed same_name w heads)) }
{}

/// Pending rows that lose no parent make a world behind the one that they are rebased on.
pub fn rebase_keeps_worlds()
    ensures { (w base : World NameBytes) (pending : List (Row NameBytes)) → IsWorld w → IsWorld (with_pending base pending) → first_lost same_name w pending ≡ None
        → IsWorld (with_pending w (left_of same_name w pending)) }
{}

/// A strip leaves a world, without exactly the others that reach a given name.
pub fn strip_keeps_worlds()
    ensures world { (w : World NameBytes) (names : List NameBytes) → IsWorld w → IsWorld (stripped same_name w names) }
    ensures taken { (w : World NameBytes) (names : List NameBytes) (row : Row NameBytes) → IsWorld w → IsIn row w.others
        → IsIn row (stripped same_name w names).others ↔ ((name : NameBytes) → IsIn name names → Reaches (graph_of same_name w) row.name name → ⊥) }
{}

/// A pull of a world's master leaves a world.
pub fn pull_keeps_worlds()
    ensures { (w r : World NameBytes) → IsWorld w → IsWorld r → IsWorld (pulled same_name w r) }
{}

/// With the payload of a change behind them, payloads that hold the old world hold the new one, whose master goes on from the old.
pub fn changes_are_held()
    ensures { (payloads : List Payload) (old new : World NameBytes) → HoldPayloads payloads old → IsNamedWorld new → GrowsMaster old new
        → length new.master ≤ standard.master → length new.others ≤ standard.others → 0 < length (rows_of new) → HoldPayloads (payloads ++ flush_change old new ∷ []) new }
{}

/// A file that holds a world is never one that is refused: it is within its limit, it isn't damaged, and no payload is unlawful.
pub fn held_files_are_logs()
    ensures { (limit : ℕ) (bytes : List ℕ) (payloads : List Payload) (w : World NameBytes) → HoldAs limit bytes payloads w → IsNoLog limit bytes → ⊥ }
{}

/// The payload of a clone is in the grammar, comes first, and holds the remote's master, within the bounds of the format.
pub fn clones_are_held()
    ensures { (r : World NameBytes) → IsNamedWorld (master_alone r) → 0 < length r.master → length r.master ≤ standard.master → length (heads_of r) ≤ most_heads
        → HoldPayloads (clone_change r ∷ []) (master_alone r) }
{}

/// What an honest remote tells of its master breaks no rule of clone data, however large it is.
pub fn honest_never_broken()
    ensures { (r : World NameBytes) → IsNamedWorld (master_alone r) → first_broken (clone_data_of r) ≡ None }
{}

/// Some head of a master group reaches each of its commits.
pub fn heads_reach_all()
    ensures { (r : World NameBytes) → IsNamedWorld (master_alone r)
        → (x : NameBytes) → IsIn x (names_of r.master) → IsReached (master_graph r) (heads_of r) x }
{}

/// The ids whose names an honest clone stores are those of the commits that may be named, and the highest of the segments.
pub fn stored_ids_are_known()
    ensures { (r : World NameBytes) → IsNamedWorld (master_alone r)
        → (id : ℕ) (row : Row NameBytes) → slice_get r.master id ≡ Some row
        → IsIn id (stored_ids r) ↔ (IsKnownTo (master_graph r) (heads_of r) row.name ⊎ IsIn id (map (λ s. s.high) (master_segments r))) }
{}

/// The payload of clone data that break no rule is in the grammar and may come first, whoever told them, within the bounds of the
/// format; that of an honest remote's is the payload of a clone.
pub fn told_clones_are_lawful()
    ensures lawful { (told : CloneData) → first_broken told ≡ None → AreFormed told → 0 < place_behind 0 told.segments → place_behind 0 told.segments ≤ standard.master → length told.heads ≤ most_heads
        → MayFollow [] (told_change told) }
    ensures honest { (r : World NameBytes) → IsNamedWorld (master_alone r) → told_change (clone_data_of r) ≡ clone_change r }
{}

/// What an honest remote tells is what it has to, item by item, and nothing else is.
pub fn clone_data_is_one()
    ensures { (rows : List (Row NameBytes)) → IsNamedWorld (master_world rows) → (told : CloneData) → IsCloneOf rows told ↔ (told ≡ clone_data_of (master_world rows)) }
{}

/// To each commit that one of some heads reaches there is a path from these heads, so that an honest remote has an answer to the
/// question for it, also from heads that its master has outgrown.
pub fn paths_are_there()
    ensures { (r : World NameBytes) (heads : List NameBytes) (x : NameBytes) → IsReached (master_graph r) heads x → (path : Path) × IsPathTo (master_graph r) heads x (Some path) }
{}

/// The heads that an honest remote tells are the commits of its master that are no parent there.
pub fn heads_have_no_children()
    ensures { (r : World NameBytes) → IsNamedWorld (master_alone r) → (row : Row NameBytes) → IsIn row r.master
        → IsIn row.name (heads_of r) ↔ ((child : Row NameBytes) → IsIn child r.master → IsIn row.name child.parents → ⊥) }
{}

/// An honest mirror whose master begins with the cloned rows never disagrees with the log at a pull, whatever else either has.
pub fn honest_pulls_agree()
    ensures { (payloads : List Payload) (w : World NameBytes) (cloned rest more : List (Row NameBytes)) → HoldPayloads payloads w → w.master ≡ cloned ++ rest → IsNamedWorld (master_world (cloned ++ more))
        → (first_unlike payloads (length cloned) (clone_data_of (master_world (cloned ++ more))) ≡ None)
        × (first_bad_row payloads (length cloned) (clone_data_of (master_world (cloned ++ more))) (names_of more) ≡ None) }
{}
