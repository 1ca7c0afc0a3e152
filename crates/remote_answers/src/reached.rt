//! What some heads reach.

ghost use Rattle.std.specs.Prelude.{◌≡◌, ◌↔◌, ◌⊎◌, ℕ, List, [], IfOk, OnOk, IsTrue};
ghost use Rattle.id_groups.specs.Name.{Name as NameBytes};
ghost use Rattle.commit_graph.specs.World.{Row};
ghost use Rattle.span_set.specs.Members.{IsMember};
ghost use Rattle.remote_trait.specs.Calls.{AreMaster};
ghost use Rattle.remote_trait.specs.Honest.{IsNamed};
ghost use Rattle.remote_answers.specs.Master.{IsMasterIn, IsMasterOf};
ghost use Rattle.remote_answers.specs.Paths.{AreReached, IsHeadId, IsReachedBy};

use crate::names::MasterNames;
use ancestor_query::ancestors;
use id_groups::{IdSpan, Name};
use segment_codec::{SegmentTable, Steps};
use span_set::IdSet;
use std::alloc::{AllocError, Global};

/// Some heads, the ids of those that are there, and the ids that these reach.
#[derive(Drop)]
pub struct Reached {
    pub(crate) heads: Vec<Name>,
    pub(crate) tops: IdSet,
    pub(crate) ids: IdSet,
}

impl Reached {
    /// Of no heads. It takes no memory.
    pub fn nothing(alloc: Global) -> Reached
        ensures heads { result.heads.items ≡ [] }
        ensures tops { result.tops ≡ [] }
        ensures ids { result.ids ≡ [] }
    {
        Reached {
            heads: Vec::new(alloc),
            tops: IdSet::empty(alloc),
            ids: IdSet::empty(alloc),
        }
    }

    /// Of these heads.
    pub fn from<T: SegmentTable, N: MasterNames>(
        alloc: Global,
        table: &T,
        names: &N,
        heads: &[Name],
    ) -> Result<Reached, AllocError>
        requires { (rows : List (Row NameBytes)) × IsMasterOf (T.flats table.now) (N.are_of names.now) rows }
        ensures heads { IfOk result (λ r. r.heads.items ≡ heads.now) }
        ensures reached { IfOk result (λ r. (rows : List (Row NameBytes)) → IsMasterOf (T.flats table.now) (N.are_of names.now) rows → IsReachedBy (T.flats table.now) rows r) }
    {
        let tops = ids_of(alloc, names, heads)?;
        let ids = ancestors(alloc, table, &tops, &mut Steps::new())?;
        Ok(Reached {
            heads: Vec::from_slice(alloc, heads)?,
            tops,
            ids,
        })
    }

    /// Goes over to what these heads reach. Want of memory changes nothing.
    pub fn go_to<T: SegmentTable, N: MasterNames>(
        &mut self,
        alloc: Global,
        table: &T,
        names: &N,
        heads: &[Name],
    ) -> Result<(), AllocError>
        requires { (rows : List (Row NameBytes)) × IsMasterOf (T.flats table.now) (N.are_of names.now) rows }
        ensures heads { OnOk result (self.new.heads.items ≡ heads.now) }
        ensures reached { (rows : List (Row NameBytes)) → IsMasterOf (T.flats table.now) (N.are_of names.now) rows
            → IsReachedBy (T.flats table.now) rows self.old → IsReachedBy (T.flats table.now) rows self.new }
    {
        if !are_same(&self.heads, heads) {
            *self = Reached::from(alloc, table, names, heads)?;
        }
        Ok(())
    }
}

/// Whether the names are the same, in the same order.
fn are_same(a: &[Name], b: &[Name]) -> bool
    ensures { IsTrue result → a.now ≡ b.now }
{
    if a.len() != b.len() {
        return false;
    }
    'names: for k in 0..a.len() {
        if !a[k].is(&b[k]) {
            return false;
        }
    }
    true
}

/// The ids of the names that are there. Names by ascending id are put in one by one below the others.
fn ids_of<N: MasterNames>(alloc: Global, names: &N, heads: &[Name]) -> Result<IdSet, AllocError>
    ensures { IfOk result (λ ids. (rows : List (Row NameBytes)) → AreMaster rows → N.are_of names.now rows → (x : ℕ) → IsMember ids x ↔ IsHeadId rows heads.now x) }
{
    let mut ids = IdSet::empty(alloc);
    'heads: for k in (0..heads.len()).rev() {
        add_id(names, &heads[k], &mut ids)?;
    }
    Ok(ids)
}

/// Adds the id of the name, if it is there.
fn add_id<N: MasterNames>(names: &N, name: &Name, ids: &mut IdSet) -> Result<(), AllocError>
    ensures { OnOk result ((rows : List (Row NameBytes)) → AreMaster rows → N.are_of names.now rows → (x : ℕ) → IsMember ids.new x ↔ (IsMember ids.old x ⊎ IsNamed rows x name.now)) }
{
    let Some(id) = names.id(name) else {
        return Ok(());
    };
    ids.insert_span(IdSpan::single(id))
}
