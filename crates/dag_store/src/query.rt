//! The answers of expressions in a session's view.

ghost use Rattle.std.specs.Prelude.{◌≡◌, ◌<◌, ◌≤◌, ◌+◌, ℕ, List, map, take, IfOk};
ghost use Rattle.id_groups.specs.Name.{Name as NameBytes, same_name};
ghost use Rattle.commit_graph.specs.Ids.{id_in};
ghost use Rattle.span_set.specs.Members.{ids_of};
ghost use Rattle.set_expr.specs.Whole.{tree_of};
ghost use Rattle.step_rules.specs.State.{State, Stored, base_of, pending_of, session, view_of};
ghost use Rattle.step_rules.specs.Tests.{tests};
ghost use Rattle.step_rules.specs.Verb.{Query as ToQuery, Count as ToCount};
ghost use Rattle.store_plans.specs.Looking.{AsksAlike, refusal_in};
ghost use Rattle.store_queries.specs.Bounds.{EndsWithoutParents, ancestors_of, most_looks};
ghost use Rattle.store_queries.specs.Names.{known_name, names_left};
ghost use Rattle.store_queries.specs.Querying.{AsksQuery};
ghost use Rattle.dag_store.specs.Stands.{IsAnswerable, Stands, StandsBeside};
ghost use Rattle.dag_store.specs.Steps.{AreIdsOf, CountStep, KeepsAll, QueryStep};

use crate::indexing::index_for;
use crate::store::Store;
use mirror_set::Mirrors;
use remote_trait::Remote;
use set_query::{Answer, Expr};
use step_rules::Refusal;
use store_queries::{Found, Names, found_in, members};

impl Store {
    /// The members of an expression in a session's view.
    ///
    /// `Unknown` for the first name of the expression that the session doesn't see, and `Answer` where there are more members than an
    /// answer may have. Where a name has to be asked, of the expression or of a member, `NoRemote` where there is no mirror, `Remote`
    /// where all failed, and `MismatchPath` or `MismatchNames` where the answer disagrees with the log.
    ///
    /// For `ancestors` of one name the answer takes at most eight look-ups more than eight for each flat segment of the session's
    /// base and each pending row that it has, and at most eight where a segment of master without parents, of any level, ends at
    /// the name's id. The first expression that asks for children makes an index of edges, later ones bring it on.
    pub fn query<R: Remote>(
        &mut self,
        s: u8,
        mirrors: &mut Mirrors<R>,
        expr: &Expr,
    ) -> Result<Found, Refusal>
        requires { s < 16 }
        ensures step { let first = map R.shown mirrors.old.list.items in let left = map R.shown mirrors.new.list.items in
            (began : ℕ) (st : State) → StandsBeside began self.old first st → IsAnswerable st → QueryStep began self.old.limits st s (tree_of expr.now) result self.new left }
        ensures asks { let first = map R.shown mirrors.old.list.items in let left = map R.shown mirrors.new.list.items in
            (began : ℕ) (st : Stored) → Stands began self.old st
            → AsksQuery self.old.limits.answer (take (began + (session st s).base) st.payloads) (base_of st s) (tests self.old.limits st s (ToQuery (tree_of expr.now))) first left result }
        ensures kept { KeepsAll self.old self.new }
        ensures few { (began : ℕ) (st : Stored) (name : NameBytes) → Stands began self.old st → tree_of expr.now ≡ ancestors_of name
            → IfOk result (λ found. found.answer.steps ≤ most_looks (base_of st s) (pending_of st s) found.answer.set) }
        ensures one { let first = map R.shown mirrors.old.list.items in
            (began : ℕ) (st : State) (name : NameBytes) → StandsBeside began self.old first st → IsAnswerable st → tree_of expr.now ≡ ancestors_of name
            → EndsWithoutParents (base_of st.store s) (id_in same_name (view_of st.store s) name) → IfOk result (λ found. found.answer.steps ≤ 8) }
    {
        index_for(&mut self.tables, self.log.bytes(), expr);
        let session = &self.sessions[usize::from(s)];
        let seen = session.seen(self.log.bytes(), &self.tables);
        let cache = &mut self.cache;
        let list = &mut mirrors.list;
        let answer = members(self.alloc, &seen, cache, list, expr)?;
        found_in(self.alloc, &seen, self.limits.answer, cache, list, answer)
    }

    /// How many members an expression has in a session's view. It is refused for the names of the expression as a query is, and takes
    /// as few look-ups.
    pub fn count<R: Remote>(
        &mut self,
        s: u8,
        mirrors: &mut Mirrors<R>,
        expr: &Expr,
    ) -> Result<Answer, Refusal>
        requires { s < 16 }
        ensures step { let first = map R.shown mirrors.old.list.items in let left = map R.shown mirrors.new.list.items in
            (began : ℕ) (st : State) → StandsBeside began self.old first st → IsAnswerable st → CountStep began self.old.limits st s (tree_of expr.now) result self.new left }
        ensures asks { let first = map R.shown mirrors.old.list.items in let left = map R.shown mirrors.new.list.items in
            (began : ℕ) (st : Stored) → Stands began self.old st
            → AsksAlike (take (began + (session st s).base) st.payloads) (base_of st s) (tests self.old.limits st s (ToCount (tree_of expr.now))) first left (refusal_in result) }
        ensures kept { KeepsAll self.old self.new }
        ensures few { (began : ℕ) (st : Stored) (name : NameBytes) → Stands began self.old st → tree_of expr.now ≡ ancestors_of name
            → IfOk result (λ answer. answer.steps ≤ most_looks (base_of st s) (pending_of st s) answer.set) }
        ensures one { let first = map R.shown mirrors.old.list.items in
            (began : ℕ) (st : State) (name : NameBytes) → StandsBeside began self.old first st → IsAnswerable st → tree_of expr.now ≡ ancestors_of name
            → EndsWithoutParents (base_of st.store s) (id_in same_name (view_of st.store s) name) → IfOk result (λ answer. answer.steps ≤ 8) }
    {
        index_for(&mut self.tables, self.log.bytes(), expr);
        let session = &self.sessions[usize::from(s)];
        let seen = session.seen(self.log.bytes(), &self.tables);
        let cache = &mut self.cache;
        members(self.alloc, &seen, cache, &mut mirrors.list, expr)
    }

    /// The names of an answer in the view of the session that was asked, lent.
    pub fn names<'a>(&'a self, s: u8, found: &'a Found) -> Names<'a>
        requires { s < 16 }
        ensures { (began : ℕ) (st : Stored) (names : List NameBytes) → Stands began self.now st
            → AreIdsOf st s (ids_of found.now.answer.set) (map known_name found.now.fetched) names → names_left result ≡ names }
    {
        let session = &self.sessions[usize::from(s)];
        found.names(&session.seen(self.log.bytes(), &self.tables))
    }
}
