//! Examples, worked out on the definitions.
#![tactic(auto)]

ghost use Rattle.std.specs.Prelude.{◌≡◌, take, replicate, ◌++◌, ◌+◌, ◌^◌, ℕ, List, [], ◌∷◌, length, codes, None, Some};
ghost use Rattle.id_groups.specs.Name.{Name, same_name};
ghost use Rattle.commit_graph.specs.World.{Row, World, IsWorld, empty_world};
ghost use Rattle.step_rules.specs.State.{State, at_start};
ghost use Rattle.step_rules.specs.Verb.{Add, Flush, Reload, Discard, Status, IdOf, Strip, Levels};
ghost use Rattle.step_rules.specs.Reply.{Added, Old, Flushed, Reloaded, Discarded, Sizes, Identified, Stripped, LevelSizes, Refused};
ghost use Rattle.step_rules.specs.declared.Refusal.TheVariants as why;
ghost use Rattle.change_rules.specs.Standard.{standard};
ghost use Rattle.change_rules.specs.declared.Limit.TheVariants as limit;
ghost use Rattle.worked_rows.specs.Runs.{AreTold, AreToldTo, said};
ghost use Rattle.set_expr.specs.Expr.{One};
ghost use Rattle.step_rules.specs.Verb.{Query, Pull};
ghost use Rattle.step_rules.specs.Reply.{Listed, Pulled};
ghost use Rattle.worked_rows.specs.Remotes.{steady, over, asked_counts, lazy_names_said, after_clone, stumbling, failing_said, crossed_world, crossed};
ghost use Rattle.remote_rules.specs.Serving.{AllServe, BeginsWith};
ghost use Rattle.run_rules.specs.Premises.{AllBegin, BeginAtPulls, HaveOneOrder};
ghost use Rattle.segment_rules.specs.Flat.{flat_segments_of};
ghost use Rattle.segment_rules.specs.NewLevels.{new_levels};
ghost use Rattle.remote_rules.specs.CloneData.{first_broken};
ghost use Rattle.remote_rules.specs.Honest.{clone_data_of, stored_ids};
ghost use Rattle.batch_codec.specs.Grammar.{head_names};
ghost use Rattle.change_rules.specs.Change.{clone_change};
ghost use Rattle.change_rules.specs.Disagree.{first_unlike, first_bad_row};
ghost use Rattle.change_rules.specs.Flush.{flushed};
ghost use Rattle.change_rules.specs.Pull.{pulled};
ghost use Rattle.change_rules.specs.Rebase.{first_conflict};
ghost use Rattle.worked_rows.specs.Worlds.{n, ns, on, ten, day, twelve, aside, with_two, span, crossing, in_master};
ghost use Rattle.worked_rows.specs.Rows.{fresh, two_sessions_said, a_flush_on_others_said, an_older_session_said, strips_said, strips_refused_said, a_small_graph_said};

/// Another session's commits make a conflict.
pub fn two_sessions()
    ensures { AreTold standard fresh two_sessions_said }
{}

/// A flush refuses the same conflict.
pub fn a_flush_on_others()
    ensures { AreTold standard fresh a_flush_on_others_said }
{}

/// A session keeps the world that it works on while others flush.
pub fn an_older_session()
    ensures { AreTold standard fresh an_older_session_said }
{}

/// Commits go from the world, with their descendants, and a session that works on an older world loses a parent.
pub fn strips()
    ensures { AreTold standard fresh strips_said }
{}

/// With rows that aren't stored nothing is stripped, and never the last row.
pub fn strips_refused()
    ensures { AreTold standard fresh strips_refused_said }
{}

/// What adds are refused for, and how many levels an empty master has.
pub fn a_small_graph()
    ensures { AreTold standard fresh a_small_graph_said }
{}

/// A clone asks for no name; a name of a line and a name that is printed are asked once each.
pub fn lazy_names()
    ensures { (last : State) × AreToldTo standard (over (steady ten ∷ [])) lazy_names_said last × (asked_counts last ≡ 2 ∷ []) }
{}

/// A line is refused where each mirror failed in one ask, which then stand in their order; and where there is none.
pub fn failing_mirrors()
    ensures { AreTold standard (after_clone (stumbling ∷ stumbling ∷ stumbling ∷ [])) failing_said }
{}

/// What a remote tells of ten commits in a row, and of the ordinary day's.
pub fn clone_data()
    ensures ten { clone_data_of ten ≡ record {
      segments = record { low = 0; high = 9; level = 0; parents = [] } ∷ [];
      names = record { id = 9; name = n 0x19 } ∷ [];
      heads = n 0x19 ∷ [];
    } }
    ensures whole { first_broken (clone_data_of ten) ≡ None }
    ensures day { stored_ids (flushed same_name day (ns (6 ∷ []))) ≡ 2 ∷ 4 ∷ 5 ∷ [] }
    ensures day_whole { first_broken (clone_data_of (flushed same_name day (ns (6 ∷ [])))) ≡ None }
    ensures crossing_heads { (clone_change (in_master crossing)).heads ≡ ns (0xd1 ∷ 0xe1 ∷ []) }
    ensures crossing_lawful { head_names (clone_change (in_master crossing)) ≡ (clone_change (in_master crossing)).heads }
    ensures crossing_whole { first_broken (clone_data_of (in_master crossing)) ≡ None }
    ensures unlike { first_unlike (clone_change ten ∷ []) 10 (clone_data_of (record { master = take 9 ten.master; others = [] })) ≡ Some 0 }
    ensures alike { first_unlike (clone_change ten ∷ []) 10 (clone_data_of twelve) ≡ None }
    ensures rows { first_bad_row (clone_change ten ∷ []) 10 (clone_data_of twelve) (ns (0x1a ∷ 0x1b ∷ [])) ≡ None }
    ensures twice { first_bad_row (clone_change ten ∷ []) 10 (clone_data_of twelve) (ns (0x1a ∷ 0x1a ∷ [])) ≡ Some 11 }
{}

/// The first item of clone data that breaks a rule.
pub fn broken_clone_data()
    ensures goes_on { first_broken (record { segments = span 0 4 [] ∷ span 5 9 (4 ∷ []) ∷ []; names = []; heads = n 0x19 ∷ [] }) ≡ Some 1 }
    ensures above { first_broken (record { segments = span 0 9 [] ∷ []; names = record { id = 10; name = n 0x19 } ∷ []; heads = n 0x19 ∷ [] }) ≡ Some 1 }
    ensures nameless { first_broken (record { segments = span 0 9 [] ∷ []; names = []; heads = n 0x19 ∷ [] }) ≡ Some 1 }
    ensures headless { first_broken (record { segments = span 0 9 [] ∷ []; names = record { id = 9; name = n 0x19 } ∷ []; heads = [] }) ≡ Some 2 }
    ensures nothing { first_broken (record { segments = []; names = []; heads = [] }) ≡ None }
    ensures late { first_broken (record { segments = span 1 9 [] ∷ []; names = []; heads = [] }) ≡ Some 0 }
{}

/// What a pull makes of ten commits and two others, where the remote has two more, of which one is there.
pub fn pulls()
    ensures world { pulled same_name with_two twelve ≡ record { master = twelve.master; others = on 0x20 (0x19 ∷ []) ∷ [] } }
    ensures again { pulled same_name (pulled same_name with_two twelve) twelve ≡ pulled same_name with_two twelve }
    ensures fine { first_conflict same_name with_two twelve.master ≡ None }
    ensures conflict { first_conflict same_name (record { master = ten.master; others = on 0x1a (0x18 ∷ []) ∷ [] }) twelve.master ≡ Some (n 0x1a) }
{}

/// A pull takes what a mirror has behind the cloned commits, and asks for the names of that alone; where one of these commits has the name
/// of another one here it is refused, and the row is told.
pub fn pulls_told()
    ensures taken { (last : State) × AreToldTo standard (after_clone (steady twelve ∷ [])) (said 0 Pull (Pulled 12 0) ∷ []) last
        × (last.store.stored ≡ twelve) × (asked_counts last ≡ 2 ∷ []) }
    ensures refused { (last : State) × AreToldTo standard (crossed (steady twelve ∷ [])) (said 0 Pull (Refused (why.Conflict (n 0x1a))) ∷ []) last
        × (last.store.stored ≡ crossed_world) }
{}

/// What runs and pulls ask of mirrors is met: by one over a new log, by two of one master and more over a clone, by one with more for a
/// pull, and by two of one order for a clone with a pull behind it.
pub fn mirrors_that_serve()
    ensures fresh { AllServe 0 empty_world (steady ten ∷ []) }
    ensures two { AllServe 10 ten (steady ten ∷ steady twelve ∷ []) }
    ensures pulled { (lines : List (List ℕ)) → AllBegin 10 ten (steady twelve ∷ []) lines }
    ensures cloned { (lines : List (List ℕ)) → AllBegin 0 empty_world (steady ten ∷ steady ten ∷ []) lines }
{}

/// A run that drops a mirror of another order and then pulls asks nothing of that mirror's order: what the pull asks is met, though not by
/// all mirrors of the start.
pub fn pulls_behind_a_drop()
    ensures serve { AllServe 10 ten (steady ten ∷ steady aside ∷ []) }
    ensures pulled { BeginAtPulls standard (after_clone (steady ten ∷ steady aside ∷ [])) (codes "0 drop 1" ∷ codes "0 pull" ∷ []) }
    ensures unlike { BeginsWith 10 ten (steady aside) → ⊥ }
{}

/// One that clones and then pulls finds it met beside a mirror with a longer copy, too, though the two have no one order.
pub fn pulls_behind_a_clone()
    ensures pulled { BeginAtPulls standard (over (steady ten ∷ steady twelve ∷ [])) (codes "0 clone" ∷ codes "0 pull" ∷ []) }
    ensures unlike { HaveOneOrder (steady ten ∷ steady twelve ∷ []) → ⊥ }
{}

/// The level segments that come with three roots behind sixteen: two more groups are decided.
pub fn levels_that_come()
    ensures { new_levels (flat_segments_of 0 (replicate 17 [])) (flat_segments_of 0 (replicate 19 []))
        ≡ record { low = 1; high = 1; level = 1; parents = [] } ∷ record { low = 2; high = 2; level = 1; parents = [] } ∷ [] }
{}

/// A name that was asked and found isn't asked again to be printed.
pub fn found_and_printed()
    ensures { (last : State) × AreToldTo standard (after_clone (steady ten ∷ [])) (said 0 (Query (One (n 0x14))) (Listed (ns (0x14 ∷ []))) ∷ []) last × (asked_counts last ≡ 1 ∷ []) }
{}
