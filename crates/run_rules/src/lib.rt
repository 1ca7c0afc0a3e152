//! Runs over lines: which lines are commands, what a run answers, how it may end, and what a crash leaves of it.
#![tactic(auto)]

ghost use Rattle.std.specs.Prelude.{◌≡◌, ◌<◌, ◌≤◌, ◌⊎◌, ◌++◌, ◌+◌, ℕ, List, [], ◌∷◌, length, map, take};
ghost use Rattle.line_io.specs.Streams.{Streams};
ghost use Rattle.change_rules.specs.declared.Limits.{Limits};
ghost use Rattle.step_rules.specs.State.{State, Stored, IsState, IsHeld, at_start, base_of, view_of, world_at};
ghost use Rattle.step_rules.specs.Isolation.{moves_session, changes_view};
ghost use Rattle.run_rules.specs.Alone.{HasNone};
ghost use Rattle.step_rules.specs.Served.{IsServed};
ghost use Rattle.change_rules.specs.Standard.{AreLimits};
ghost use Rattle.change_rules.specs.Tables.{cloned_count};
ghost use Rattle.remote_rules.specs.Serving.{AllServe, NeverFail};
ghost use Rattle.step_rules.specs.Reply.{Reply, Refused};
ghost use Rattle.step_rules.specs.Verb.{Pull};
ghost use Rattle.step_rules.specs.declared.Refusal.TheVariants.{Remote};
ghost use Rattle.step_rules.specs.Rises.{EachWas, HasFailed};
ghost use Rattle.id_groups.specs.Lists.{IsIn};
ghost use Rattle.run_rules.specs.Run.{Run, output_of};
ghost use Rattle.run_rules.specs.Ends.{End, Done, NoMemory, NoLog};
ghost use Rattle.run_rules.specs.Means.{Means, RefusesLog};
ghost use Rattle.run_rules.specs.Stopped.{Stopped, ArePrefixes, acknowledged};
ghost use Rattle.run_rules.specs.Premises.{AllBegin, BeginAtPulls, HasCommand, Start};
ghost use Rattle.line_io.specs.Lines.{lines_of};
ghost use Rattle.gated_log.specs.Holding.{HasPayloads, KeepsOldOrNew};
ghost use Rattle.gated_log.specs.Held.{Held};
ghost use Rattle.change_rules.specs.Change.{text_of};
ghost use Rattle.id_groups.specs.Name.{Name};
ghost use Rattle.commit_graph.specs.World.{World, rows_of};
ghost use Rattle.batch_codec.specs.Payload.{Payload};
ghost use Rattle.remote_rules.specs.Mirror.{Mirror};
ghost use Rattle.disk_trait.specs.Images.{Told, LeftAt, fresh_disk, moment_of};
ghost use Rattle.change_rules.specs.Holding.{HoldAs, HoldsNow};

/// A run goes on with what is left.
pub fn runs_join()
    ensures { (limits : Limits) (a b c : State) (v w : List (List ℕ)) (r s : List Reply) → Run limits a v r b → Run limits b w s c → Run limits a (v ++ w) (r ++ s) c }
{}

/// A run that found no memory before its first line, and did nothing, means what a run has to.
pub fn nothing_done()
    ensures { (limits : Limits) (w : World Name) (payloads : List Payload) (room : ℕ) (mirrors : List Mirror) (disk : Told) (io : Streams)
        → HoldsNow limits.log disk w → HoldAs limits.log disk.bytes payloads w → io.now ≡ io.taken → io.left ≡ io.input
        → Means limits w payloads room mirrors mirrors io ⊥ disk disk NoMemory [] }
{}

/// A run over bytes that hold a world, with mirrors that serve it, leads to a state of worlds and views whose payloads hold the
/// stored world, within the limit, and whose mirrors serve it.
pub fn runs_keep_all()
    ensures states { (limits : Limits) (st st' : State) (lines : List (List ℕ)) (replies : List Reply) → IsState st → Run limits st lines replies st' → IsState st' }
    ensures all { (limits : Limits) (log : List ℕ) (w : World Name) (payloads : List Payload) (room : ℕ) (mirrors : List Mirror) (lines : List (List ℕ)) (replies : List Reply) (st : State)
        → AreLimits limits → HoldAs limits.log log payloads w → AllServe (cloned_count payloads) w mirrors → Run limits (at_start w payloads room mirrors) lines replies st
        → IsState st × IsHeld limits st.store × IsServed st }
{}

/// What a session works on after a run is what it worked on before, unless one of its own lines was a flush, a strip, a reload, a clone
/// or a pull; and it sees the same, unless one of its own lines was one of these, an add or a discard. What the others do meanwhile
/// changes neither.
pub fn sessions_are_alone()
    ensures base { (limits : Limits) (st st' : State) (lines : List (List ℕ)) (replies : List Reply) (s : ℕ) → IsState st → Run limits st lines replies st'
        → HasNone moves_session s lines → base_of st'.store s ≡ base_of st.store s }
    ensures view { (limits : Limits) (st st' : State) (lines : List (List ℕ)) (replies : List Reply) (s : ℕ) → IsState st → Run limits st lines replies st'
        → HasNone changes_view s lines → view_of st'.store s ≡ view_of st.store s }
{}

/// The payloads of each prefix of a run's changes hold the world that was stored by the last of them.
pub fn prefixes_hold()
    ensures { (limits : Limits) (log : List ℕ) (w : World Name) (payloads : List Payload) (room : ℕ) (mirrors : List Mirror) (lines : List (List ℕ)) (replies : List Reply) (st : State)
        → AreLimits limits → HoldAs limits.log log payloads w → AllServe (cloned_count payloads) w mirrors → Run limits (at_start w payloads room mirrors) lines replies st
        → ArePrefixes payloads st.store }
{}

/// Each run over all lines of an input that stores nothing means what a run that was answered to its end has to, where its replies are written
/// and its disk is sure of its log and stays as it was.
pub fn reads_alone()
    ensures { (limits : Limits) (w : World Name) (payloads : List Payload) (room : ℕ) (mirrors : List Mirror) (disk : Told) (io : Streams) (replies : List Reply) (last : State)
        → AreLimits limits → HoldAs limits.log disk.bytes payloads w → HasPayloads limits.log disk (map text_of payloads) → AllServe (cloned_count payloads) w mirrors
        → Run limits (at_start w payloads room mirrors) (lines_of limits.input io.input) replies last → last.store.past ≡ [] → length io.input ≤ limits.input → io.left ≡ [] → io.now ≡ io.taken ++ output_of replies
        → Means limits w payloads room mirrors last.outside.mirrors io ⊥ disk disk Done [] }
{}

/// What a crash leaves of a run goes on by one more change, by what the log promises of an append.
pub fn stopped_goes_on()
    ensures { (limit : ℕ) (w : World Name) (payloads : List Payload) (changes : List ℕ) (final next : Stored) (p : Payload) (log : Held) (old mid new : Told) (s : Stopped limit w payloads changes final old mid)
        → length changes ≡ length final.past → s.sure ≤ moment_of mid → moment_of old ≤ moment_of mid → ArePrefixes payloads final → ArePrefixes payloads next
        → next.past ≡ final.past ++ final.stored ∷ [] → next.payloads ≡ final.payloads ++ p ∷ [] → log.limit ≡ limit → log.payloads ≡ map text_of final.payloads
        → KeepsOldOrNew log (text_of p) mid new → moment_of mid < moment_of new → HasPayloads limit new (map text_of next.payloads)
        → Stopped limit w payloads (changes ++ moment_of new ∷ []) next old new }
{}

/// What a crash leaves of a run whose last change met a fault of the disk has the change, or hasn't.
pub fn stopped_cut_short()
    ensures { (limit : ℕ) (w : World Name) (payloads : List Payload) (changes : List ℕ) (final next : Stored) (p : Payload) (log : Held) (old mid new : Told) (s : Stopped limit w payloads changes final old mid)
        → length changes ≡ length final.past → s.sure ≤ moment_of mid → moment_of old ≤ moment_of mid → ArePrefixes payloads final → ArePrefixes payloads next
        → next.past ≡ final.past ++ final.stored ∷ [] → next.payloads ≡ final.payloads ++ p ∷ [] → log.limit ≡ limit → log.payloads ≡ map text_of final.payloads
        → KeepsOldOrNew log (text_of p) mid new → moment_of mid ≤ moment_of new
        → Stopped limit w payloads changes next old new }
{}

/// What a crash leaves of a run is what another run may begin on. Until loading made its bytes sure it holds the world of the start;
/// from then on the world that was stored by the last of the changes acknowledged up to then, or by one more.
pub fn stopped_runs_begin()
    ensures loading { (limits : Limits) (w : World Name) (payloads : List Payload) (changes : List ℕ) (final : Stored) (old new : Told) (s : Stopped limits.log w payloads changes final old new)
        (moment : ℕ) (image : List ℕ) → moment_of old ≤ moment → moment < s.sure → moment ≤ moment_of new → LeftAt new moment image
        → (others : List Payload) × Start limits (fresh_disk image) w others }
    ensures loaded { (limits : Limits) (w : World Name) (payloads : List Payload) (changes : List ℕ) (final : Stored) (old new : Told) (s : Stopped limits.log w payloads changes final old new)
        (moment : ℕ) (image : List ℕ) → moment_of old ≤ moment → s.sure ≤ moment → moment ≤ moment_of new → LeftAt new moment image
        → (count : ℕ) × (count ≤ length final.past) × ((count ≡ acknowledged changes moment) ⊎ (count ≡ acknowledged changes moment + 1))
        × Start limits (fresh_disk image) (world_at final count) (take (length payloads + count) final.payloads) }
{}

/// What a run asks of its mirrors at each pull is met where the masters of all begin so from the start.
pub fn mirrors_begin_at_pulls()
    ensures { (limits : Limits) (log : List ℕ) (w : World Name) (payloads : List Payload) (room : ℕ) (mirrors : List Mirror) (lines : List (List ℕ))
        → AreLimits limits → HoldAs limits.log log payloads w → (length (rows_of w) ≡ 0 → AllServe (cloned_count payloads) w mirrors)
        → (HasCommand Pull lines → AllBegin (cloned_count payloads) w mirrors lines) → BeginAtPulls limits (at_start w payloads room mirrors) lines }
{}

/// A disk that holds a world is never refused.
pub fn held_disks_load()
    ensures { (limit : ℕ) (w : World Name) (payloads : List Payload) (io : Streams) (old new : Told) (end : End) → HoldAs limit old.bytes payloads w → RefusesLog limit io old new end → end ≡ NoLog → ⊥ }
{}

/// Each refusal for failed mirrors in a run is matched by a rise in the count of every mirror that is left.
pub fn run_failures_matched()
    ensures { (limits : Limits) (st st' : State) (lines : List (List ℕ)) (replies : List Reply) (n : ℕ) → Run limits st lines replies st' → IsIn (Refused (Remote n)) replies
        → EachWas HasFailed st.outside.mirrors st'.outside.mirrors }
{}

/// Where the mirrors never fail, or the count of some mirror that is left didn't rise, no line of a run is refused for failed mirrors.
pub fn runs_are_answered()
    ensures { (limits : Limits) (st st' : State) (lines : List (List ℕ)) (replies : List Reply) (n : ℕ) → Run limits st lines replies st'
        → NeverFail st.outside.mirrors ⊎ (EachWas HasFailed st.outside.mirrors st'.outside.mirrors → ⊥) → IsIn (Refused (Remote n)) replies → ⊥ }
{}
