//! What is asked of a store that may change what is stored, and how it is prepared.

ghost use Rattle.std.specs.Prelude.{◌≡◌, ◌<◌, ◌^◌, ℕ, List, length, map, IfOk, OnErr};
ghost use Rattle.gated_log.specs.Held.{log_bytes};
ghost use Rattle.name_map.specs.Added.{Placed};
ghost use Rattle.change_rules.specs.Standard.{AreLimits};
ghost use Rattle.step_rules.specs.State.{Stored};
ghost use Rattle.store_plans.specs.Sessions.{IsSessionOf};
ghost use Rattle.store_plans.specs.Looking.{IsSoundCache};
ghost use Rattle.store_plans.specs.Changes.{AreOver, IsOn, IsPrepared, HasRoom};
ghost use Rattle.dag_store.specs.Asks.{verb_of, HasNames, KeepsCache, PreparesAsk};

use change_rules::Limits;
use gated_log::Log;
use id_groups::Name;
use payload_tables::Tables;
use remote_trait::Remote;
use std::alloc::Global;
use step_rules::Refusal;
use store_plans::{
    NameSources, Next, Session, are_names, prepare_clone, prepare_flush, prepare_pull,
    prepare_strip,
};

/// What a session asks of a store that may change what is stored.
#[derive(Clone, Copy)]
pub enum Ask<'a> {
    /// To put its rows behind the stored world, and to move these heads and all that they reach into master.
    ///
    /// A name that isn't stored is asked of a mirror: `NoRemote` where there is none, `Remote` where all failed, and `MismatchPath`
    /// where the answer disagrees with the log. `Unknown` for the first head that is nowhere; `Conflict` for the first row that is
    /// stored with other parents, `Lost` for the first parent of a row that is left which the newest world doesn't have, and `Full`
    /// where a limit is reached.
    Flush(&'a [Name]),
    /// To take these commits, which aren't in master, with all that descend from them out of the stored world. The session has no
    /// rows.
    ///
    /// `Pending` where the session has rows. Then the names are looked up in the stored world, from left to right: `NoRemote`, `Remote`
    /// and `MismatchPath` where one has to be asked and isn't found out, `Unknown` for the first that isn't there, and `InMaster` for
    /// the first of master. `Emptied` where nothing would be left.
    Strip(&'a [Name]),
    /// To store the master of a mirror, where nothing is stored yet. One mirror is asked, for its clone data behind a refresh, and for
    /// no name; one that fails moves to the back, and the next is asked.
    Clone,
    /// To store the new master rows of a mirror behind those of the stored world, in the mirror's order. The session has no rows. One
    /// mirror is asked, behind a refresh, for its clone data and for the names of its rows from the cloned ones on; one that fails in
    /// any of these moves to the back, and the next is asked.
    ///
    /// `Pending` where the session has rows. `MismatchClone` and `MismatchRow` where what a mirror told can't be so beside the log, and
    /// `MismatchNames` where it gave too few names; `Conflict` names the first row that is stored with other parents.
    Pull,
}

/// Plans what is asked for, and takes all memory for it.
pub(crate) fn prepare_ask<R: Remote>(
    alloc: Global,
    log: &mut Log,
    tables: &mut Tables,
    session: &Session,
    sources: NameSources<'_, '_, R>,
    ask: Ask<'_>,
    limits: Limits,
) -> Result<Next, Refusal>
    requires mirrors { length sources.mirrors.now.items < 2 ^ 32 }
    requires limits { AreLimits limits }
    requires limit { log.old.limit ≡ limits.log }
    requires kept { (added : List Placed) × AreOver log.old tables.old added × IsSessionOf added session.now }
    ensures room { HasRoom log.old log.new }
    ensures refused { OnErr result (tables.new ≡ tables.old) }
    ensures ready { (added : List Placed) → AreOver log.old tables.old added → IsSessionOf added session.now
        → IfOk result (λ next. IsPrepared limits log.old log.new tables.old tables.new added next.change next.session) }
    ensures prepares { (began s : ℕ) (added : List Placed) (st : Stored) → AreOver log.old tables.old added → IsSessionOf added session.now
        → IsOn began added session.now st s
        → PreparesAsk limits st s (length (log_bytes log.old)) (verb_of ask.entry) (map R.shown sources.entry.mirrors.now.items) (map R.shown sources.exit.1.0.now.items) sources.entry.cache.now sources.exit.0.now result }
    ensures sound { IsSoundCache sources.entry.cache.now → IsSoundCache sources.exit.0.now }
    ensures keeps { KeepsCache (verb_of ask.entry) sources.entry.cache.now sources.exit.0.now }
    ensures named { HasNames (verb_of ask.entry) }
    ensures len { length sources.exit.1.0.now.items ≡ length sources.entry.mirrors.now.items }
{
    match ask {
        Ask::Flush(heads) => {
            are_names(heads);
            prepare_flush(alloc, log, tables, session, sources, heads, limits)
        }
        Ask::Strip(names) => prepare_strip(alloc, log, tables, session, sources, names, limits),
        Ask::Clone => prepare_clone(alloc, log, tables, session, sources.mirrors, limits),
        Ask::Pull => prepare_pull(alloc, log, tables, session, sources.mirrors, limits),
    }
}
