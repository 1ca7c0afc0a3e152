//! Sessions over a stored world, and the mirrors that they ask.
#![tactic(auto)]

ghost use Rattle.std.specs.Prelude.{◌≡◌, ◌++◌, ℕ, List, [], ◌∷◌, None, length, true};
ghost use Rattle.id_groups.specs.Name.{Name as NameBytes};
ghost use Rattle.change_rules.specs.declared.Limits.{Limits};
ghost use Rattle.std.specs.List.{AllByRecursion};
ghost use Rattle.commit_graph.specs.World.{World, IsNamedWorld};
ghost use Rattle.batch_codec.specs.Payload.{Payload};
ghost use Rattle.remote_rules.specs.Mirror.{Mirror};
ghost use Rattle.remote_rules.specs.Honest.{IsSoundMirror};
ghost use Rattle.step_rules.specs.State.{State, Stored, IsState, IsHeld, at_start};
ghost use Rattle.step_rules.specs.Verb.{Verb, IsVerb, Status};
ghost use Rattle.step_rules.specs.Reply.{Reply, Refused, IsMismatch};
ghost use Rattle.step_rules.specs.Step.{CommandStep};
ghost use Rattle.step_rules.specs.Plain.{IsInside, HasAllNames, PlainStep};
ghost use Rattle.step_rules.specs.Lone.{LoneStep};
ghost use Rattle.step_rules.specs.Isolation.{IsIsolated};
ghost use Rattle.step_rules.specs.Served.{IsServed};
ghost use Rattle.step_rules.specs.Stands.{StandsFor, loaded_store};
ghost use Rattle.change_rules.specs.Holding.{HoldPayloads};
ghost use Rattle.step_rules.specs.Rises.{ArePrinted, HaveRisen, EachWas, HasFailed};
ghost use Rattle.remote_rules.specs.Serving.{NeverFail};
ghost use Rattle.change_rules.specs.Standard.{AreLimits};
ghost use Rattle.step_rules.specs.declared.Refusal.{Refusal};
ghost use Rattle.step_rules.specs.declared.Refusal.TheVariants as why;

use change_rules::Limit;
use id_groups::Name;

/// Why a command is refused.
#[derive(Clone, Copy)]
pub enum Refusal {
    /// The commit isn't there, where the command looks for it.
    Unknown(Name),
    /// The parent is given twice.
    Twice(Name),
    /// The commit is there with other parents.
    Differs(Name),
    /// A row of the session, or of a remote, is stored with other parents.
    Conflict(Name),
    /// What is counted would exceed this limit.
    Full(Limit, u64),
    /// A query has so many names, more than an answer may have.
    Answer(u64),
    /// A clone over a stored world with so many rows of master and so many others.
    NotEmpty(u64, u64),
    /// The session has so many rows that aren't stored.
    Pending(u32),
    /// A mirror was needed and there is none; or there is none at the place to be dropped.
    NoRemote,
    /// All of so many mirrors failed in one ask.
    Remote(u32),
    /// A mirror's path for a name, so far back from a commit, disagrees with the log.
    MismatchPath(Name, u64),
    /// So many names were asked of a mirror, and fewer came.
    MismatchNames(u32, u32),
    /// A mirror's clone data break a rule at the item with this number.
    MismatchClone(u64),
    /// The name that a mirror gave for this id can't be that of a new row.
    MismatchRow(u64),
    /// A commit to be stripped is one of master.
    InMaster(Name),
    /// A row of the session would lose this parent.
    Lost(Name),
    /// A strip would leave nothing of so many rows.
    Emptied(u64),
    /// There is no memory.
    Memory,
}

/// The sizes are told even where there is no memory.
pub fn status_told()
    ensures { (limits : Limits) (st st' : State) (s : ℕ) → CommandStep limits st s Status (Refused why.Memory) st' → ⊥ }
{}

/// Where the log has a name for each commit, a command is decided by what is stored alone, and changes nothing outside.
pub fn nothing_asked()
    ensures from { (limits : Limits) (st : State) (now : Stored) (s : ℕ) (verb : Verb) (reply : Reply) → IsInside verb → HasAllNames st.store s
        → PlainStep limits st.store s verb reply now → CommandStep limits st s verb reply (record st { store = now }) }
    ensures back { (limits : Limits) (st st' : State) (s : ℕ) (verb : Verb) (reply : Reply) → IsInside verb → HasAllNames st.store s
        → CommandStep limits st s verb reply st' → PlainStep limits st.store s verb reply st'.store × (st'.outside ≡ st.outside) }
{}

/// Where there are no mirrors and nothing was found, a command may go as what is stored alone decides it: what has to be asked
/// is refused. It changes nothing outside.
pub fn lone_steps()
    ensures { (limits : Limits) (st : State) (now : Stored) (s : ℕ) (verb : Verb) (reply : Reply) → IsInside verb → st.outside.mirrors ≡ [] → ((id : ℕ) → st.outside.cache id ≡ None)
        → LoneStep limits st.store s verb reply now → CommandStep limits st s verb reply (record st { store = now }) }
{}

/// A session sees the others only where it looks at the stored world, or at a mirror's master.
pub fn isolation_law()
    ensures { IsIsolated }
{}

/// What holds of each state of a run holds at its start, and after each command: worlds are stored, of which each goes on from
/// the master of the one before, each session sees a world, the cache has the names of rows, and the mirrors are sound.
pub fn states_kept()
    ensures start { (w : World NameBytes) (payloads : List Payload) (room : ℕ) (mirrors : List Mirror) → IsNamedWorld w → AllByRecursion IsSoundMirror mirrors → IsState (at_start w payloads room mirrors) }
    ensures step { (limits : Limits) (st st' : State) (s : ℕ) (verb : Verb) (reply : Reply) → IsState st → IsVerb verb → CommandStep limits st s verb reply st' → IsState st' }
{}

/// A refusal leaves all that is stored as it was.
pub fn refusals_keep()
    ensures { (limits : Limits) (st st' : State) (s : ℕ) (verb : Verb) (refusal : Refusal) → CommandStep limits st s verb (Refused refusal) st' → st'.store ≡ st.store }
{}

/// Mirrors that serve what is stored serve it after each command, also after a clone and a pull.
pub fn mirrors_serve()
    ensures { (limits : Limits) (st st' : State) (s : ℕ) (verb : Verb) (reply : Reply) → IsState st → IsServed st → CommandStep limits st s verb reply st' → IsServed st' }
{}

/// The payloads of the log hold the world that is stored, within the limit, after each command.
pub fn payloads_hold()
    ensures { (limits : Limits) (st st' : State) (s : ℕ) (verb : Verb) (reply : Reply) → AreLimits limits → IsState st → IsHeld limits st.store
        → CommandStep limits st s verb reply st' → IsHeld limits st'.store }
{}

/// Where the mirrors tell that they never fail again, no line is refused for that, and they tell it afterwards.
pub fn steady_mirrors()
    ensures { (limits : Limits) (st st' : State) (s : ℕ) (verb : Verb) (reply : Reply) → NeverFail st.outside.mirrors → CommandStep limits st s verb reply st'
        → NeverFail st'.outside.mirrors × ((n : ℕ) → reply ≡ Refused (why.Remote n) → ⊥) }
{}

/// By how much the mirrors' counts rise in a command's line: no count of faults falls, and each mirror is asked for no more names
/// than have to be asked, those of a query twice and its printed ones beside them; in a pull for no more than it has rows from the
/// cloned ones on. A clone asks for none.
pub fn asks_are_few()
    ensures { (limits : Limits) (st st' : State) (s : ℕ) (verb : Verb) (reply : Reply) (printed : List NameBytes) → ArePrinted st s verb printed → CommandStep limits st s verb reply st'
        → HaveRisen limits st s verb printed st.outside.mirrors st'.outside.mirrors }
{}

/// Where a line is refused because all mirrors failed, the count of each of them rose.
pub fn failures_are_matched()
    ensures { (limits : Limits) (st st' : State) (s : ℕ) (verb : Verb) (n : ℕ) → CommandStep limits st s verb (Refused (why.Remote n)) st' → EachWas HasFailed st.outside.mirrors st'.outside.mirrors }
{}

/// No command is refused because a remote's answer disagrees with the log: such a refusal is for remotes that lie.
pub fn mirrors_agree()
    ensures { (limits : Limits) (st st' : State) (s : ℕ) (verb : Verb) (reply : Reply) → CommandStep limits st s verb reply st' → IsMismatch reply → ⊥ }
{}

/// A store that was loaded from payloads that hold a world stands for the start of a run over it, whatever the mirrors.
pub fn loaded_stores_stand()
    ensures { (w : World NameBytes) (payloads : List Payload) (room : ℕ) (mirrors : List Mirror) → HoldPayloads payloads w → StandsFor (length payloads) (loaded_store payloads room) (at_start w payloads room mirrors) }
{}
