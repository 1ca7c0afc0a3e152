//! Laws of the definitions.

ghost use Rattle.std.specs.Prelude.{◌≡◌, ◌⊎◌, ◌↔◌, ⊤, ℕ, List, [], length, map, Option, None, Ok};
ghost use Rattle.id_groups.specs.Name.{Name};
ghost use Rattle.commit_graph.specs.World.{World};
ghost use Rattle.disk_trait.specs.Images.{Told};
ghost use Rattle.call_disk.specs.Awaited.{awaited};
ghost use Rattle.call_disk.specs.Performed.{Performs, Stops};
ghost use Rattle.batch_codec.specs.Payload.{Payload};
ghost use Rattle.change_rules.specs.Change.{text_of};
ghost use Rattle.change_rules.specs.Holding.{HoldAs};
ghost use Rattle.change_rules.specs.Standard.{standard};
ghost use Rattle.step_rules.specs.State.{State, at_start};
ghost use Rattle.segdag_c.specs.declared.held.Held.{Held};
ghost use Rattle.segdag_c.specs.Answers.{LineCame};
ghost use Rattle.segdag_c.specs.Calls.{IsNoExpr, IsNoSession, TextQueryCame};
ghost use Rattle.segdag_c.specs.Client.{Act, ActRun, AreEnoughAlong, Happened, IsAt, IsCleared, StopsIn};
ghost use Rattle.segdag_c.specs.Handles.{HasStore, IsLost, SlotAnswers};
ghost use Rattle.segdag_c.specs.Loads.{HoldsOpened};

/// A load leaves the start of a run over each world that the bytes hold, once all that it noted is performed on a disk that has them.
pub fn clients_begin()
    ensures { (bytes : List ℕ) (cache : ℕ) (disk new : Told) (held after : Held) (payloads : List Payload) (w : World Name) → HoldsOpened bytes cache disk held → disk.bytes ≡ bytes
        → HoldAs standard.log bytes payloads w → Performs (awaited held.log) disk new → IsCleared held after → IsAt (length payloads) after new (at_start w payloads cache []) }
{}

/// Whatever a client does with an open log, where it performs what a line noted before it goes on: its typed calls, its lines and what they
/// are told are one run of the definition, from each state that the store stood for, and the disk has the log in the end.
pub fn clients_run()
    ensures { (began : ℕ) (st : State) (acts : List Act) (before after : Held) (disk new : Told) → IsAt began before disk st → AreEnoughAlong st acts → Happened before disk acts after new
        → (last : State) × ActRun st acts last × IsAt began after new last }
{}

/// Whatever a client did, where the disk stops within what a next line noted, in any call, at one that fails, or between two: it holds what the
/// acts before had stored, or that with the one change more, at each moment.
pub fn clients_stop()
    ensures { (began : ℕ) (st : State) (acts : List Act) (before mid after : Held) (disk between new : Told) (line : List ℕ) → IsAt began before disk st → AreEnoughAlong st acts
        → Happened before disk acts mid between → LineCame line between mid after (Ok tt) → Stops (awaited after.log) between new
        → (last : State) × ActRun st acts last × StopsIn (map text_of last.store.payloads) (awaited after.log) between new }
{}

/// What the code of a query tells, both ways: 17 where no log is open; 3 where a failed change took the store, and then 0 and refusals are
/// never told; 19 where there is no such session; 32 where the text is no expression. And what a line's tells: but for 3 and 6 the store stays.
pub fn codes_tell()
    ensures closed { (old new : Option Held) (code s : ℕ) (text : List ℕ) → SlotAnswers old new code (TextQueryCame s text) (λ answer. ⊤) → (code ≡ 17) ↔ (old ≡ None) }
    ensures causes { (old new : Option Held) (code s : ℕ) (text : List ℕ) → SlotAnswers old new code (TextQueryCame s text) (λ answer. ⊤)
        → (code ≡ 3 → IsLost old) × (IsLost old → (code ≡ 3) ⊎ ((code ≡ 7) ⊎ ((code ≡ 19) ⊎ (code ≡ 32)))) × (code ≡ 19 → IsNoSession s) × (code ≡ 32 → IsNoExpr text) }
    ensures lines { (old new : Option Held) (code : ℕ) (line : List ℕ) (disk : Told) → SlotAnswers old new code (λ before after answer. LineCame line disk before after answer) (λ answer. ⊤)
        → HasStore old → (code ≡ 3) ⊎ ((code ≡ 6) ⊎ HasStore new) }
{}
