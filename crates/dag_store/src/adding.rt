//! Adding a row, and the id of a name.

ghost use Rattle.std.specs.Prelude.{◌<◌, ◌≤◌, ◌+◌, ℕ, map, length, take, OnErr, OnOk};
ghost use Rattle.step_rules.specs.State.{State, Stored, base_of, session};
ghost use Rattle.step_rules.specs.Tests.{tests};
ghost use Rattle.step_rules.specs.Verb.{Add as ToAdd, IdOf};
ghost use Rattle.store_plans.specs.Looking.{AsksAlike, refusal_in};
ghost use Rattle.dag_store.specs.Stands.{IsAnswerable, Stands, StandsBeside};
ghost use Rattle.dag_store.specs.Steps.{ChangesOnly, KeepsAll, Leads, add_reply, id_reply};

use crate::store::Store;
use id_groups::{Id, Name};
use mirror_set::Mirrors;
use remote_trait::Remote;
use step_rules::Refusal;
use store_plans::{are_names, find_seen};
use store_queries::{Added, add_sought, seek};

impl Store {
    /// Adds a commit to the pending rows of a session; one that the session sees with the same parents stays as it is.
    ///
    /// `Unknown` for the first parent that the session doesn't see, `Twice` for the first parent that equals an earlier one, `Differs`
    /// where the commit is there with other parents, and `Full` where the session has as many rows as it may. Where a name has to be
    /// asked, `NoRemote` where there is no mirror, `Remote` where all failed, and `MismatchPath` where the answer disagrees with the log.
    pub fn add<R: Remote>(
        &mut self,
        s: u8,
        mirrors: &mut Mirrors<R>,
        name: &Name,
        parents: &[Name],
    ) -> Result<Added, Refusal>
        requires session { s < 16 }
        requires few { length parents.now ≤ 8 }
        ensures step { let first = map R.shown mirrors.old.list.items in let left = map R.shown mirrors.new.list.items in
            (began : ℕ) (st : State) → StandsBeside began self.old first st → IsAnswerable st → Leads began self.old.limits st s (ToAdd name.now parents.now) (add_reply result) self.new left }
        ensures asks { let first = map R.shown mirrors.old.list.items in let left = map R.shown mirrors.new.list.items in
            (began : ℕ) (st : Stored) → Stands began self.old st
            → AsksAlike (take (began + (session st s).base) st.payloads) (base_of st s) (tests self.old.limits st s (ToAdd name.now parents.now)) first left (refusal_in result) }
        ensures alone { OnOk result (ChangesOnly s self.old self.new) }
        ensures refused { OnErr result (KeepsAll self.old self.new) }
    {
        let _name = name.lend();
        are_names(parents);
        let session = &mut self.sessions[usize::from(s)];
        let seen = session.seen(self.log.bytes(), &self.tables);
        let cache = &mut self.cache;
        let sought = seek(self.alloc, &seen, cache, &mut mirrors.list, name, parents)?;
        add_sought(session, self.limits.pending, name, sought)
    }

    /// The id of a commit that a session sees. `Unknown` where the session doesn't see it. Where the name has to be asked, `NoRemote`
    /// where there is no mirror, `Remote` where all failed, and `MismatchPath` where the answer disagrees with the log.
    pub fn id<R: Remote>(
        &mut self,
        s: u8,
        mirrors: &mut Mirrors<R>,
        name: &Name,
    ) -> Result<Id, Refusal>
        requires { s < 16 }
        ensures step { let first = map R.shown mirrors.old.list.items in let left = map R.shown mirrors.new.list.items in
            (began : ℕ) (st : State) → StandsBeside began self.old first st → IsAnswerable st → Leads began self.old.limits st s (IdOf name.now) (id_reply result) self.new left }
        ensures asks { let first = map R.shown mirrors.old.list.items in let left = map R.shown mirrors.new.list.items in
            (began : ℕ) (st : Stored) → Stands began self.old st
            → AsksAlike (take (began + (session st s).base) st.payloads) (base_of st s) (tests self.old.limits st s (IdOf name.now)) first left (refusal_in result) }
        ensures kept { KeepsAll self.old self.new }
    {
        let session = &self.sessions[usize::from(s)];
        let seen = session.seen(self.log.bytes(), &self.tables);
        let cache = &mut self.cache;
        find_seen(self.alloc, &seen, cache, &mut mirrors.list, name)
    }
}
