//! Typed calls of a session as a whole: its sizes, and its pending rows.

ghost use Rattle.std.specs.Prelude.{◌≡◌, ◌<◌, List, MatchOption};
ghost use Rattle.remote_rules.specs.Mirror.{Mirror as Shown};
ghost use Rattle.step_rules.specs.Verb.{Discard as ToDiscard, Reload as ToReload, Status};
ghost use Rattle.step_rules.specs.Reply.{Discarded, Sizes};
ghost use Rattle.segdag_c.specs.Calls.{DiscardCame, ReloadCame, SizesCame};
ghost use Rattle.segdag_c.specs.Does.{Does};
ghost use Rattle.segdag_c.specs.Mirrors.{shown_all};
ghost use Rattle.segdag_c.specs.Typed.{reloaded_reply};

use crate::calls::SESSIONS;
use crate::codes::Failure;
use crate::held::Held;
use crate::mirror::Mirror;
use dag_store::{Counts, Store};
use mirror_set::Mirrors;

/// How many rows a session of the store works on.
fn sizes_in(store: &Store, session: u8) -> Counts
    requires { session < 16 }
    ensures { (mirrors : List Shown) → Does mirrors store.now session Status (Sizes result.master result.others result.pending) store.now mirrors }
{
    store.status(session)
}

/// How many rows a session works on.
pub(crate) fn sizes(held: &Held, session: u8) -> Result<Counts, Failure>
    ensures { SizesCame session held.now held.now result }
{
    if session >= SESSIONS {
        return Err(Failure::Argument);
    }
    match &held.store {
        Some(store) => Ok(sizes_in(store, session)),
        None => Err(Failure::Disk),
    }
}

/// Takes a session of the store to the newest version, and tells how many pending rows it keeps.
fn reload_in(store: &mut Store, mirrors: &mut Mirrors<Mirror>, session: u8) -> Result<u32, Failure>
    requires { session < 16 }
    ensures does { MatchOption (reloaded_reply result) ⊥ (λ reply. Does (shown_all mirrors.old.list.items) store.old session ToReload reply store.new (shown_all mirrors.new.list.items)) }
    ensures limits { store.new.limits ≡ store.old.limits }
{
    match store.reload(session, mirrors) {
        Ok(kept) => Ok(kept),
        Err(refusal) => Err(Failure::Refused(refusal)),
    }
}

/// Takes a session to the newest version, and tells how many pending rows it keeps.
pub(crate) fn reload(held: &mut Held, session: u8) -> Result<u32, Failure>
    ensures { ReloadCame session held.old held.new result }
{
    if session >= SESSIONS {
        return Err(Failure::Argument);
    }
    let Some(store) = &mut held.store else {
        return Err(Failure::Disk);
    };
    reload_in(store, &mut held.mirrors, session)
}

/// Lets the pending rows of a session of the store go, and tells how many they were.
fn discard_in(store: &mut Store, session: u8) -> u32
    requires { session < 16 }
    ensures does { (mirrors : List Shown) → Does mirrors store.old session ToDiscard (Discarded result) store.new mirrors }
    ensures limits { store.new.limits ≡ store.old.limits }
{
    store.discard(session)
}

/// Lets the pending rows of a session go, and tells how many they were.
pub(crate) fn discard(held: &mut Held, session: u8) -> Result<u32, Failure>
    ensures { DiscardCame session held.old held.new result }
{
    if session >= SESSIONS {
        return Err(Failure::Argument);
    }
    let Some(store) = &mut held.store else {
        return Err(Failure::Disk);
    };
    Ok(discard_in(store, session))
}
