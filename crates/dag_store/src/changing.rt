//! Going to the newest world, and making another one.

ghost use Rattle.std.specs.Prelude.{◌≡◌, ◌<◌, ◌≤◌, ℕ, List, length, map, IfSome, OnErr, OnOk};
ghost use Rattle.outside.specs.Counts.{Rose};
ghost use Rattle.disk_trait.specs.Calls.{Goes};
ghost use Rattle.gated_log.specs.Held.{log_bytes};
ghost use Rattle.gated_log.specs.Holding.{IsOnDisk};
ghost use Rattle.step_rules.specs.State.{State, Stored};
ghost use Rattle.step_rules.specs.Tests.{tests};
ghost use Rattle.step_rules.specs.Verb.{Reload as ToReload};
ghost use Rattle.dag_store.specs.Stands.{IsAnswerable, Stands, StandsBeside};
ghost use Rattle.store_plans.specs.Looking.{AsksAlike, refusal_in};
ghost use Rattle.dag_store.specs.Steps.{ChangesOnly, KeepsAll, Leads, reload_reply};
ghost use Rattle.dag_store.specs.Changes.{ChangeLeaves, IsQuiet, LeavesStore};
ghost use Rattle.dag_store.specs.Asks.{verb_of, MayBeAsked, MayChange, AskStep, AskAnswers};

use crate::asks::{Ask, prepare_ask};
use crate::finishing::{Parts, finish};
use crate::replies::Changed;
use crate::store::Store;
use disk_trait::Disk;
use mirror_set::Mirrors;
use remote_trait::Remote;
use step_rules::Refusal;
use store_plans::{NameSources, reloaded};

impl Store {
    /// Puts a session on the newest world, with its rows that this doesn't have, and answers how many these are.
    ///
    /// `Conflict` for the first row that is stored with other parents; else `Lost` for the first parent of a row that is left which
    /// the newest world doesn't have. Where the name of a row has to be asked, `NoRemote` where there is no mirror, `Remote` where all
    /// failed, and `MismatchPath` where the answer disagrees with the log.
    pub fn reload<R: Remote>(&mut self, s: u8, mirrors: &mut Mirrors<R>) -> Result<u32, Refusal>
        requires { s < 16 }
        ensures step { let first = map R.shown mirrors.old.list.items in let left = map R.shown mirrors.new.list.items in
            (began : ℕ) (st : State) → StandsBeside began self.old first st → IsAnswerable st → Leads began self.old.limits st s ToReload (reload_reply result) self.new left }
        ensures asks { let first = map R.shown mirrors.old.list.items in let left = map R.shown mirrors.new.list.items in
            (began : ℕ) (st : Stored) → Stands began self.old st → AsksAlike st.payloads st.stored (tests self.old.limits st s ToReload) first left (refusal_in result) }
        ensures alone { OnOk result (ChangesOnly s self.old self.new) }
        ensures refused { OnErr result (KeepsAll self.old self.new) }
    {
        let alloc = self.alloc;
        let at = usize::from(s);
        let next = reloaded(
            alloc,
            &self.log,
            &self.tables,
            &self.sessions[at],
            &mut self.cache,
            &mut mirrors.list,
        )?;
        let left = next.pending.len();
        self.sessions[at] = next;
        Ok(left)
    }

    /// Does what a session asks for, and stores the new world, if it is another one. The session is on it then, without rows. Why each
    /// is refused is said where it is asked for; nothing is stored then.
    ///
    /// All memory is taken before the first call of the disk. At each moment a crash leaves the payloads from before or, from the
    /// opening of the gate on, those with the new one.
    pub fn change<D: Disk, R: Remote>(
        self,
        disk: &mut D,
        s: u8,
        mirrors: &mut Mirrors<R>,
        ask: Ask<'_>,
    ) -> Changed
        requires session { s < 16 }
        requires asked { MayBeAsked (verb_of ask) }
        requires begins { IfSome (D.told disk.old) (IsOnDisk self.log) }
        ensures step { let first = map R.shown mirrors.old.list.items in let left = map R.shown mirrors.new.list.items in
            (payload : List ℕ) × Goes (ChangeLeaves self payload result) (D.told disk.old) (D.told disk.new)
            × ((began : ℕ) (st : State) → StandsBeside began self first st → MayChange (verb_of ask.entry) st first → AskStep began self left st s (verb_of ask.entry) payload result)
            × ((began : ℕ) (st : Stored) → Stands began self st → AskAnswers self.limits st s (length (log_bytes self.log)) (verb_of ask.entry) first left payload result) }
        ensures leaves { LeavesStore self s result }
        ensures quiet { IsQuiet result → disk.new ≡ disk.old }
        ensures later { D.faults disk.old ≤ D.faults disk.new }
        ensures cause { (fault : _) → result ≡ Changed.Disk fault → Rose (D.faults disk.old) (D.faults disk.new) }
    {
        let Store {
            alloc,
            mut log,
            mut tables,
            sessions,
            limits,
            cache: mut names,
        } = self;
        let at = usize::from(s);
        let sources = NameSources {
            cache: &mut names,
            mirrors: &mut mirrors.list,
        };
        let next = prepare_ask(
            alloc,
            &mut log,
            &mut tables,
            &sessions[at],
            sources,
            ask,
            limits,
        );
        let parts = Parts {
            log,
            tables,
            sessions,
            limits,
            names,
        };
        finish(disk, alloc, parts, at, next)
    }
}
