//! The turns of runs: what holds of the commands of sessions, one after another, holds of the lines of a run.
#![tactic(auto)]

ghost use Rattle.std.specs.Prelude.{◌≡◌, ◌<◌, ℕ, List};
ghost use Rattle.std.specs.List.{AllZip};
ghost use Rattle.id_groups.specs.Name.{Name};
ghost use Rattle.commit_graph.specs.World.{World};
ghost use Rattle.batch_codec.specs.Payload.{Payload};
ghost use Rattle.change_rules.specs.declared.Limits.{Limits};
ghost use Rattle.remote_rules.specs.Mirror.{Mirror};
ghost use Rattle.step_rules.specs.State.{State, session_count, at_start};
ghost use Rattle.step_rules.specs.declared.Refusal.TheVariants as why;
ghost use Rattle.step_rules.specs.Verb.{Levels, Discard, CountMirrors, Drop};
ghost use Rattle.step_rules.specs.Reply.{Reply, Refused};
ghost use Rattle.step_rules.specs.Step.{CommandStep};
ghost use Rattle.step_rules.specs.Turns.{Turn, AreTurns, turns_of};
ghost use Rattle.step_rules.specs.Isolation.{AreAlike, IsAnsweredAlike};
ghost use Rattle.run_rules.specs.Run.{Run};
ghost use Rattle.change_rules.specs.Standard.{standard};
ghost use Rattle.worked_rows.specs.Rows.{fresh};
ghost use Rattle.turn_laws.specs.Turned.{TurnedRun, AreIsolatedRuns};
ghost use Rattle.turn_laws.specs.Beside.{after_alone, after_others_flush, after_beside, alone_lines, beside_lines, alone_replies, beside_replies, alone_turns, beside_turns};

/// Each run has turns: its commands, each with its reply and the states before it and after. What has turns is a run, and its turns are
/// steps, one after another.
pub fn runs_have_turns()
    ensures turned { (limits : Limits) (st st' : State) (lines : List (List ℕ)) (replies : List Reply) → Run limits st lines replies st'
        → (turns : List Turn) × TurnedRun limits st lines replies st' turns }
    ensures back { (limits : Limits) (st st' : State) (lines : List (List ℕ)) (replies : List Reply) (turns : List Turn) → TurnedRun limits st lines replies st' turns → Run limits st lines replies st' }
    ensures steps { (limits : Limits) (st st' : State) (lines : List (List ℕ)) (replies : List Reply) (turns : List Turn) → TurnedRun limits st lines replies st' turns → AreTurns limits st turns }
{}

/// A session sees the others only where it looks at the stored world, or at a mirror's master: in two runs from one world it gets the
/// same replies where its turns are alike in both. Each two runs have such turns.
pub fn runs_are_isolated()
    ensures turns { AreIsolatedRuns }
    ensures runs { (limits : Limits) (s : ℕ) (w : World Name) (p q : List Payload) (room space : ℕ) (mirrors others : List Mirror) (lines words : List (List ℕ)) (replies answers : List Reply) (last end : State)
        → s < session_count → Run limits (at_start w p room mirrors) lines replies last → Run limits (at_start w q space others) words answers end
        → (ts us : List Turn) × TurnedRun limits (at_start w p room mirrors) lines replies last ts × TurnedRun limits (at_start w q space others) words answers end us
        × (AllZip (AreAlike limits s) (turns_of s ts) (turns_of s us) → AllZip IsAnsweredAlike (turns_of s ts) (turns_of s us)) }
{}

/// It says something: a session that adds a commit has turns that are alike alone and beside another one, which stores a commit before.
pub fn a_session_beside_another()
    ensures alone { TurnedRun standard fresh alone_lines alone_replies after_alone alone_turns }
    ensures beside { TurnedRun standard fresh beside_lines beside_replies after_beside beside_turns }
    ensures alike { AllZip (AreAlike standard 0) (turns_of 0 alone_turns) (turns_of 0 beside_turns) }
    ensures differ { after_others_flush.store.stored ≡ fresh.store.stored → ⊥ }
{}

/// Levels and mirrors are counted, pending rows are let go and mirrors dropped even where there is no memory; `status_told` says it of the
/// sizes.
pub fn memory_is_not_wanted()
    ensures levels { (limits : Limits) (st st' : State) (s : ℕ) → CommandStep limits st s Levels (Refused why.Memory) st' → ⊥ }
    ensures discard { (limits : Limits) (st st' : State) (s : ℕ) → CommandStep limits st s Discard (Refused why.Memory) st' → ⊥ }
    ensures mirrors { (limits : Limits) (st st' : State) (s : ℕ) → CommandStep limits st s CountMirrors (Refused why.Memory) st' → ⊥ }
    ensures drop { (limits : Limits) (st st' : State) (s k : ℕ) → CommandStep limits st s (Drop k) (Refused why.Memory) st' → ⊥ }
{}
