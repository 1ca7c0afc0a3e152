//! Changes of what is stored, asked for without a text: flush, strip, clone, pull.

ghost use Rattle.std.specs.Prelude.{◌≡◌, ◌≤◌, ◌<◌, ◌⊎◌, ◌%◌, [], IfOk, IfErr, IfSome, length};
ghost use Rattle.call_disk.specs.Awaited.{awaited};
ghost use Rattle.call_disk.specs.Performed.{HonestDisk};
ghost use Rattle.change_rules.specs.Standard.{standard};
ghost use Rattle.gated_log.specs.Holding.{IsOnDisk};
ghost use Rattle.step_rules.specs.Verb.{Clone as ToClone, Pull as ToPull};
ghost use Rattle.dag_store.specs.Asks.{MayBeAsked, verb_of};
ghost use Rattle.segdag_c.specs.Changing.{ChangeCame, ChangesOn, ChangesOver, FlushCame, Keeps, LeavesTold, MirrorChangeCame, StripCame, HasLimits};
ghost use Rattle.segdag_c.specs.Mirrors.{shown_all};
ghost use Rattle.segdag_c.specs.Names.{AreJoined};

use crate::answering::{note_behind, take_store};
use crate::calls::SESSIONS;
use crate::codes::Failure;
use crate::held::Held;
use crate::mirror::Mirror;
use crate::names::{NAME_SIZE, names_in};
use call_disk::{Beneath, NotedCalls, NotedDisk};
use dag_store::{Ask, Changed, Counts, Store};
use id_groups::Name;
use mirror_set::Mirrors;
use std::alloc::Global;
use std::marker::Brand;

/// Does a change of a store beside these mirrors. What is to be performed of it is noted, for a disk that has the store's log.
fn change_on<B: Beneath>(
    alloc: Global,
    store: Store,
    mirrors: &mut Mirrors<Mirror>,
    session: u8,
    ask: Ask<'_>,
) -> (Changed, NotedCalls)
    requires session { session < 16 }
    requires asked { MayBeAsked (verb_of ask) }
    requires limits { store.limits ≡ standard }
    requires on_disk { IfSome B.disk (λ disk. IsOnDisk store.log disk.told) }
    ensures changes { ChangesOn (shown_all mirrors.old.list.items) store session (verb_of ask.entry) (shown_all mirrors.new.list.items) (awaited result.1) result.0 B.disk }
    ensures limits { HasLimits result.0 }
{
    let _limit = store.log_limit();
    let mut log = NotedDisk::<B>::new(alloc);
    let changed = store.change(&mut log, session, mirrors, ask);
    (changed, log.into_noted())
}

/// Does a change of a store beside these mirrors, over any disk.
fn change_over(
    alloc: Global,
    store: Store,
    mirrors: &mut Mirrors<Mirror>,
    session: u8,
    ask: Ask<'_>,
) -> (Changed, NotedCalls)
    ghost disk: { HonestDisk }
    requires session { session < 16 }
    requires asked { MayBeAsked (verb_of ask) }
    requires limits { store.limits ≡ standard }
    ensures changes { ChangesOver (shown_all mirrors.old.list.items) store session (verb_of ask.entry) (shown_all mirrors.new.list.items) (awaited result.1) result.0 disk.told }
    ensures limits { HasLimits result.0 }
{
    change_on::<Brand>(alloc, store, mirrors, session, ask)
}

/// Keeps what a change left, and notes what is to be performed.
fn keep_changed(held: &mut Held, changed: Changed, calls: NotedCalls) -> Result<Counts, Failure>
    requires limits { HasLimits changed }
    requires gone { held.old.store ≡ None }
    ensures keeps { Keeps (awaited held.old.log) changed (awaited calls) held.new result }
    ensures told { LeavesTold held.old held.new }
    ensures mirrors { held.new.mirrors ≡ held.old.mirrors }
{
    match changed {
        Changed::Done(next, counts, _clock) => match note_behind(&mut held.log, calls, next) {
            Ok(next) => {
                held.store = Some(next);
                Ok(counts)
            }
            Err(_) => Err(Failure::Disk),
        },
        Changed::Refused(same, refusal) => {
            held.store = Some(same);
            Err(Failure::Refused(refusal))
        }
        Changed::Disk(_) => Err(Failure::Disk),
    }
}

/// Does a change that a session asks for.
fn change(alloc: Global, held: &mut Held, session: u8, ask: Ask<'_>) -> Result<Counts, Failure>
    ghost disk: { HonestDisk }
    requires session { session < 16 }
    requires asked { MayBeAsked (verb_of ask) }
    ensures { ChangeCame ⊥ (λ verb. verb ≡ verb_of ask.entry) session disk.told held.old held.new result }
{
    let Some(store) = take_store(held) else {
        return Err(Failure::Disk);
    };
    let (changed, calls) = change_over(alloc, store, &mut held.mirrors, session, ask);
    keep_changed(held, changed, calls)
}

/// The names that these bytes are, 20 each.
fn heads_in(alloc: Global, session: u8, bytes: &[u8]) -> Result<Vec<Name>, Failure>
    ensures session { IfOk result (λ names. session < 16) }
    ensures joined { IfOk result (λ names. AreJoined names.items bytes.now) }
    ensures fault { IfErr result (λ failure. ((failure ≡ Failure.Argument) × ((16 ≤ session) ⊎ (length bytes.now % 20 ≡ 0 → ⊥))) ⊎ (failure ≡ Failure.Memory)) }
{
    if session >= SESSIONS {
        return Err(Failure::Argument);
    }
    if bytes.len() % NAME_SIZE != 0 {
        return Err(Failure::Argument);
    }
    match names_in(alloc, bytes) {
        Ok(names) => Ok(names),
        Err(_) => Err(Failure::Memory),
    }
}

/// Stores what a session added behind the stored world, and moves these heads, 20 bytes each, and all that they reach into master.
pub(crate) fn flush(
    alloc: Global,
    held: &mut Held,
    session: u8,
    heads: &[u8],
) -> Result<Counts, Failure>
    ghost disk: { HonestDisk }
    ensures { FlushCame session heads.now disk.told held.old held.new result }
{
    match heads_in(alloc, session, heads) {
        Ok(names) => change(alloc, held, session, Ask::Flush(&names)),
        Err(failure) => Err(failure),
    }
}

/// Takes these commits, 20 bytes each, with all that descend from them out of the stored world.
pub(crate) fn strip(
    alloc: Global,
    held: &mut Held,
    session: u8,
    bytes: &[u8],
) -> Result<Counts, Failure>
    ghost disk: { HonestDisk }
    ensures { StripCame session bytes.now disk.told held.old held.new result }
{
    if bytes.is_empty() {
        return Err(Failure::Argument);
    }
    match heads_in(alloc, session, bytes) {
        Ok(names) => change(alloc, held, session, Ask::Strip(&names)),
        Err(failure) => Err(failure),
    }
}

/// Stores the master of a mirror, where nothing is stored yet.
pub(crate) fn clone(alloc: Global, held: &mut Held, session: u8) -> Result<Counts, Failure>
    ghost disk: { HonestDisk }
    ensures { MirrorChangeCame ToClone session disk.told held.old held.new result }
{
    if session >= SESSIONS {
        return Err(Failure::Argument);
    }
    change(alloc, held, session, Ask::Clone)
}

/// Stores the new master rows of a mirror behind those of the stored world.
pub(crate) fn pull(alloc: Global, held: &mut Held, session: u8) -> Result<Counts, Failure>
    ghost disk: { HonestDisk }
    ensures { MirrorChangeCame ToPull session disk.told held.old held.new result }
{
    if session >= SESSIONS {
        return Err(Failure::Argument);
    }
    change(alloc, held, session, Ask::Pull)
}
