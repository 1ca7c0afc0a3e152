//! Laws of the definitions.

ghost use Rattle.std.specs.Prelude.{◌≡◌, ◌≤◌, ◌++◌, ℕ, List, None, length, take, drop};
ghost use Rattle.id_groups.specs.Name.{Name as NameBytes};
ghost use Rattle.commit_graph.specs.World.{Row, World, IsNamedWorld, names_of};
ghost use Rattle.batch_codec.specs.Payload.{Payload as PlainPayload};
ghost use Rattle.name_map.specs.Added.{Placed, payloads_of};
ghost use Rattle.remote_rules.specs.Known.{master_world};
ghost use Rattle.remote_rules.specs.Honest.{clone_data_of};
ghost use Rattle.change_rules.specs.Holding.{HoldPayloads};
ghost use Rattle.change_rules.specs.Tables.{cloned_count};
ghost use Rattle.mirror_set.specs.Fresh.{PlainFresh};
ghost use Rattle.pull_plan.specs.Pulling.{told_rows, mismatch};

/// What an honest remote tells of a master that begins with the cloned rows is that master, and never disagrees with what is stored.
pub fn honest_pulls_are_told()
    ensures rows { (w : World NameBytes) (rows more : List (Row NameBytes)) (cloned : ℕ) (fresh : PlainFresh) → cloned ≤ length w.master → rows ≡ take cloned w.master ++ more
        → IsNamedWorld (master_world rows) → fresh.cloned ≡ clone_data_of (master_world rows) → fresh.names ≡ names_of (drop cloned rows)
        → told_rows w cloned fresh ≡ rows }
    ensures agree { (added : List Placed) (w : World NameBytes) (rows more : List (Row NameBytes)) (fresh : PlainFresh) → HoldPayloads (payloads_of added) w → rows ≡ take (cloned_count (payloads_of added)) w.master ++ more
        → IsNamedWorld (master_world rows) → fresh.cloned ≡ clone_data_of (master_world rows) → fresh.names ≡ names_of (drop (cloned_count (payloads_of added)) rows)
        → mismatch added fresh ≡ None }
    ensures within { (payloads : List PlainPayload) (w : World NameBytes) → HoldPayloads payloads w → cloned_count payloads ≤ length w.master }
{}
