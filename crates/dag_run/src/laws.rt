//! Laws of the definitions.

ghost use Rattle.std.specs.Prelude.{◌≡◌, ◌+◌, ℕ, List, [], ◌∷◌, Some, None, codes};
ghost use Rattle.id_groups.specs.Name.{Name};
ghost use Rattle.commit_graph.specs.World.{World, empty_world};
ghost use Rattle.disk_trait.specs.Images.{fresh_disk};
ghost use Rattle.line_io.specs.Lines.{lines_of};
ghost use Rattle.batch_codec.specs.Payload.{Payload};
ghost use Rattle.change_rules.specs.declared.Limits.{Limits};
ghost use Rattle.change_rules.specs.Standard.{AreLimits};
ghost use Rattle.change_rules.specs.Tables.{cloned_count};
ghost use Rattle.remote_rules.specs.Mirror.{Mirror};
ghost use Rattle.remote_rules.specs.Serving.{AllServe};
ghost use Rattle.step_rules.specs.State.{at_start};
ghost use Rattle.step_rules.specs.Verb.{Pull};
ghost use Rattle.run_rules.specs.Premises.{AllBegin, BeginAtPulls, HasCommand, Start};
ghost use Rattle.dag_run.specs.Seen.{Seen};
ghost use Rattle.dag_run.specs.Enough.{AreEnough};
ghost use Rattle.dag_run.specs.Ends.{Begins};
ghost use Rattle.dag_run.specs.Words.{dashes_at, split_of};

/// Words that have a log, a mirror and a mode, a `--` behind the first one, and words that begin with `--`.
pub fn words_spelled_out()
    ensures parts { split_of (dashes_at (codes "log" ∷ codes "mirror" ∷ codes "--" ∷ codes "run" ∷ [])) ≡ Some (record { log = 0; remotes = 1; rest = 3 }) }
    ensures second { split_of (dashes_at (codes "log" ∷ codes "--" ∷ codes "--" ∷ [])) ≡ Some (record { log = 0; remotes = 1; rest = 2 }) }
    ensures first { split_of (dashes_at (codes "--" ∷ codes "run" ∷ [])) ≡ None }
{}

/// A run may begin over a new disk, which holds the empty world: without mirrors, and beside those that serve it.
pub fn new_disks_begin()
    ensures alone { (limits : Limits) (room : ℕ) (left taken : List ℕ) → Begins limits empty_world [] room [] (record { disk = fresh_disk []; left = left; taken = taken }) }
    ensures beside { (limits : Limits) (room : ℕ) (left taken : List ℕ) (mirrors : List Mirror) → AllServe 0 empty_world mirrors
        → BeginAtPulls limits (at_start empty_world [] room mirrors) (lines_of limits.input left)
        → Begins limits empty_world [] room mirrors (record { disk = fresh_disk []; left = left; taken = taken }) }
{}

/// A run with pulls may begin where the masters of all its mirrors begin with the cloned commits from the start.
pub fn runs_that_pull_begin()
    ensures { (limits : Limits) (w : World Name) (payloads : List Payload) (room : ℕ) (mirrors : List Mirror) (before : Seen)
        → AreLimits limits → Start limits before.disk w payloads → AreEnough payloads w mirrors
        → (HasCommand Pull (lines_of limits.input before.left) → AllBegin (cloned_count payloads) w mirrors (lines_of limits.input before.left))
        → Begins limits w payloads room mirrors before }
{}
