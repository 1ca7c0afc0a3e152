//! Several stores over one list of changes: together they are one store, whose sessions are those of all.
#![tactic(auto)]

ghost use Rattle.std.specs.Prelude.{◌≡◌, ◌<◌, ◌⊎◌, ℕ, List, [], ◌∷◌, length, replicate};
ghost use Rattle.commit_graph.specs.World.{World};
ghost use Rattle.id_groups.specs.Name.{Name};
ghost use Rattle.batch_codec.specs.Payload.{Payload};
ghost use Rattle.change_rules.specs.declared.Limits.{Limits};
ghost use Rattle.step_rules.specs.State.{Outside, State, Stored, IsStore, base_of, new_session, on_newest, pending_of, session_count, view_of};
ghost use Rattle.step_rules.specs.Served.{IsServed};
ghost use Rattle.step_rules.specs.Verb.{Reload};
ghost use Rattle.step_rules.specs.Reply.{Reloaded};
ghost use Rattle.step_rules.specs.Step.{CommandStep};
ghost use Rattle.step_rules.specs.Turns.{AreTurns, Turn};
ghost use Rattle.std.specs.List.{AllZip};
ghost use Rattle.core_rules.specs.Cores.{Cores, Does, Line, Move, StoresNone, TakesNext, Written, Go, IsAny, IsCurrent, at_first, lacks, lines_in, with_change};
ghost use Rattle.core_rules.specs.Taking.{AreLawful, FollowsToRead, HasVerb, IsLawfulStart, opened_late, reloaded};
ghost use Rattle.core_rules.specs.Joint.{Answers, AnswersEarlier, IsJointOf, IsTurnOf, Joint, Runs, joint_start, of_core, state_of};

/// Where each core takes what the others have stored before it carries out a line, the lines in their order, with their replies, are a run of
/// one store that has the sessions of all cores. Over a lawful log it is enough that a core does so before a line that looks at the stored
/// world: a reload, a flush, a strip, a clone, a pull and levels. Where cores may be behind, each line is a command of that store as it was before the changes
/// that its core hasn't taken yet; what is stored meanwhile stays, and comes behind what the line does. And then, too, the lines are a run of
/// that store, if in another order: each core's lines are in theirs, and the changes in the one in which they were stored.
pub fn cores_are_one_store()
    ensures follows { (limits : Limits) (n : ℕ) (w : World Name) (payloads : List Payload) (outside : ℕ → Outside) (moves : List Move) (cores : Cores)
        → Go limits n IsCurrent (at_first w payloads outside) moves cores
        → (joint : Joint) × Runs (Answers limits) (joint_start n w payloads outside) (lines_in moves) joint × IsJointOf n w payloads cores joint }
    ensures reading { (limits : Limits) (n : ℕ) (w : World Name) (payloads : List Payload) (outside : ℕ → Outside) (moves : List Move) (cores : Cores)
        → IsLawfulStart limits w payloads outside → Go limits n FollowsToRead (at_first w payloads outside) moves cores
        → (joint : Joint) × Runs (Answers limits) (joint_start n w payloads outside) (lines_in moves) joint × IsJointOf n w payloads cores joint }
    ensures behind { (limits : Limits) (n : ℕ) (w : World Name) (payloads : List Payload) (outside : ℕ → Outside) (moves : List Move) (cores : Cores)
        → Go limits n IsAny (at_first w payloads outside) moves cores
        → (joint : Joint) × Runs (AnswersEarlier limits) (joint_start n w payloads outside) (lines_in moves) joint × IsJointOf n w payloads cores joint }
    ensures ordered { (limits : Limits) (n : ℕ) (w : World Name) (payloads : List Payload) (outside : ℕ → Outside) (moves : List Move) (cores : Cores)
        → Go limits n IsAny (at_first w payloads outside) moves cores
        → (lines : List Line) × (joint : Joint) × ((k : ℕ) → of_core k lines ≡ of_core k (lines_in moves))
        × Runs (Answers limits) (joint_start n w payloads outside) lines joint × IsJointOf n w payloads cores joint }
{}

/// Where no core has a mirror, a run of the one store is one of the definition, turn by turn: from the state that differs from a start
/// in the number of its sessions alone.
pub fn runs_without_mirrors()
    ensures { (limits : Limits) (n : ℕ) (w : World Name) (payloads : List Payload) (out : Outside) (lines : List Line) (joint : Joint) → out.mirrors ≡ []
        → Runs (Answers limits) (joint_start n w payloads (λ i. out)) lines joint
        → (turns : List Turn) × AreTurns limits (state_of (joint_start n w payloads (λ i. out)) 0) turns × AllZip IsTurnOf lines turns }
{}

/// What a session works on, has pending and sees stays when its core takes a change.
pub fn taking_is_unseen()
    ensures base { (st : Stored) (x : Written) (s : ℕ) → IsStore st → base_of (with_change st x) s ≡ base_of st s }
    ensures pending { (st : Stored) (x : Written) (s : ℕ) → pending_of (with_change st x) s ≡ pending_of st s }
    ensures view { (st : Stored) (x : Written) (s : ℕ) → IsStore st → view_of (with_change st x) s ≡ view_of st s }
{}

/// Over a lawful log each core stays in a state of a run, whose payloads hold what it has stored, within the limit; and what it lacks may come
/// behind that: so it may be taken.
pub fn changes_may_be_taken()
    ensures { (limits : Limits) (n : ℕ) (w : World Name) (payloads : List Payload) (outside : ℕ → Outside) (moves : List Move) (cores : Cores)
        → IsLawfulStart limits w payloads outside → Go limits n HasVerb (at_first w payloads outside) moves cores → AreLawful limits n cores }
{}

/// Whatever the definition allows a core to answer, it may carry out, where it lacks nothing, or where nothing is stored; and it may take what it
/// lacks.
pub fn cores_go_on()
    ensures lines { (limits : Limits) (n : ℕ) (cores : Cores) (line : Line) (now : State) → line.core < n → line.session < session_count
        → CommandStep limits (cores.core line.core).state line.session line.verb line.reply now → length (cores.core line.core).state.store.sessions ≡ session_count
        → (lacks cores line.core ≡ []) ⊎ StoresNone (cores.core line.core).state.store now.store → (new : Cores) × Does limits n line cores new }
    ensures takes { (cores : Cores) (i : ℕ) (x : Written) (rest : List Written) → lacks cores i ≡ x ∷ rest → (new : Cores) × TakesNext i cores new }
{}

/// A session without pending rows may be reloaded, with nothing asked: so a core that is opened later is one that has taken all changes since
/// the start, and whose sessions were reloaded.
pub fn new_sessions_reload()
    ensures all { (past : List (World Name)) (w : World Name) (payloads : List Payload)
        → reloaded session_count (record { past = past; stored = w; payloads = payloads; sessions = replicate session_count new_session }) ≡ opened_late past w payloads }
    ensures one { (limits : Limits) (st : State) (s : ℕ) → pending_of st.store s ≡ [] → CommandStep limits st s Reload (Reloaded 0) (record st { store = on_newest st.store s [] }) }
{}

/// A core without mirrors has all that a line's step asks of mirrors: none is wanted that it hasn't.
pub fn lone_cores_are_served()
    ensures { (limits : Limits) (n : ℕ) (cores : Cores) (i : ℕ) → AreLawful limits n cores → i < n → (cores.core i).state.outside.mirrors ≡ [] → IsServed (cores.core i).state }
{}
