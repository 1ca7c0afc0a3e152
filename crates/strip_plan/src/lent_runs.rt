//! Rows of other ids that are numbered anew, as flat segments of a payload: parents that are all of master are copied as they
//! are spelled.

ghost use Rattle.std.specs.Prelude.{◌≡◌, ◌<◌, ◌≤◌, ◌+◌, ◌^◌, ◌++◌, ◌∷◌, [], ℕ, List, map, length, slice_index_or, OnOk, false, IfSome, nat_eq};
ghost use Rattle.std.specs.List.{AllByRecursion};
ghost use Rattle.segment_codec.specs.Record.{IsSegment};
ghost use Rattle.batch_codec.specs.Payload.{Payload as PlainPayload};
ghost use Rattle.batch_codec.specs.Building.{IsBuilt};
ghost use Rattle.assign_ids.specs.Numbers.{AreBelow};
ghost use Rattle.change_parts.specs.Moves.{flat_record, name_at, new_id, grown};
ghost use Rattle.change_parts.specs.Flat.{flat_segments, Span, single_span};
ghost use Rattle.change_parts.specs.Rows.{AreRowsBelow};
ghost use Rattle.std.specs.Cmp.Lexicographic.{pointwise};
ghost use Rattle.id_groups.specs.declared.id.Group.TheVariants.{Others};
ghost use Rattle.segment_codec.specs.Lent.{parents_left};
ghost use Rattle.strip_plan.specs.LentRows.{lent_row};
ghost use Rattle.change_parts.specs.Sections.{with_spans};

use crate::lent::{LentGraph, Row, before};
use batch_codec::BatchBuild;
use change_parts::{Names, add_other_names, moved};
use id_groups::Id;
use segment_codec::Parents;
use std::alloc::{AllocError, Global};
use std::marker::Model;

/// Adds the records and the names of these numbers, which are all that stay of the others, and counts them, where parents are
/// lent. `ids` has the new id of each number.
pub(crate) fn add_lent_section<'a>(
    alloc: Global,
    build: &mut BatchBuild,
    graph: &LentGraph<'a>,
    names: &Names<'_>,
    ids: &[Id],
    rest: &[u32],
) -> Result<(), AllocError>
    requires rows { AreRowsBelow (length ids.now) graph.now }
    requires names { AreBelow (names.now.count + names.now.more) rest.now }
    requires few { length rest.now < 2 ^ 32 }
    requires records { AllByRecursion (λ s. IsSegment (flat_record s)) (flat_segments (2 ^ 56) (map (λ k. map (new_id ids.now) (slice_index_or graph.now k [])) rest.now)) }
    ensures built { OnOk result ((p : PlainPayload) → IsBuilt build.old p → IsBuilt build.new (record p {
      others = p.others ++ map flat_record (flat_segments (2 ^ 56) (map (λ k. map (new_id ids.now) (slice_index_or graph.now k [])) rest.now));
      other_names = p.other_names ++ map (name_at (names.now.stored.now ++ names.now.pending.now)) rest.now;
    })) }
    ensures count { OnOk result (build.new.other_count ≡ length rest.now) }
{
    let mut run = LentRun::blank(alloc);
    let mut new = Vec::new(alloc);
    add_lent_runs(build, graph, ids, rest, &mut run, &mut new)?;
    add_other_names(build, names, rest)?;
    build.other_count(rest.len() as u32)?;
    Ok(())
}

/// A flat segment of other ids that is being made. Its parents are lent, or kept by their new ids.
#[derive(Drop)]
pub(crate) struct LentRun<'a> {
    low: Id,
    high: Id,
    lent: Option<Parents<'a>>,
    parents: Vec<Id>,
}

impl<'a> Model for LentRun<'a> {
    ghost use Rattle.std.specs.Option.{option_map_or};
    ghost use Rattle.segment_codec.specs.Lent.{parents_left};
    ghost use Rattle.change_parts.specs.Flat.{Span};

    ghost Value = { Span };

    ghost view = { λ r. record { low = r.low; high = r.high; parents = option_map_or parents_left r.lent r.parents.items } };
}

/// These parents, where all are known to be of master.
fn known_masters(parents: Parents<'_>) -> Option<Parents<'_>>
    ensures { IfSome result (λ ps. AllByRecursion (λ p. p < 2 ^ 56) (parents_left ps) × (parents_left parents.entry ≡ parents_left ps)) }
{
    if parents.are_masters() {
        Some(parents)
    } else {
        None
    }
}

/// The parents of a number, where they are lent and all are known to be of master.
fn masters_of<'a>(row: Row<'a>) -> Option<Parents<'a>>
    ensures { IfSome result (λ ps. AllByRecursion (λ p. p < 2 ^ 56) (parents_left ps) × ((k : ℕ) → lent_row k row.entry ≡ parents_left ps)) }
{
    match row {
        Row::Begins(parents) => known_masters(parents),
        _ => None,
    }
}

/// Adds the new ids of these parents.
fn add_moved(new: &mut Vec<Id>, parents: Parents<'_>, ids: &[Id]) -> Result<(), AllocError>
    requires { AllByRecursion (λ p. p < 2 ^ 56 + length ids.now) (parents_left parents) }
    ensures { OnOk result (new.new.items ≡ new.old.items ++ map (new_id ids.now) (parents_left parents.entry)) }
{
    'parents: for parent in parents {
        new.push(moved(parent, ids))?;
    }
    Ok(())
}

/// Adds one id.
fn add_one(new: &mut Vec<Id>, id: Id) -> Result<(), AllocError>
    ensures { OnOk result (new.new.items ≡ new.old.items ++ id ∷ []) }
{
    new.push(id)?;
    Ok(())
}

/// A number, the id that it has now, and its parents.
#[derive(Clone, Copy)]
struct Numbered<'a> {
    id: Id,
    k: u32,
    row: Row<'a>,
}

/// The new ids of the parents of the number, in place of what was there.
fn moved_row(new: &mut Vec<Id>, numbered: &Numbered<'_>, ids: &[Id]) -> Result<(), AllocError>
    requires { AllByRecursion (λ p. p < 2 ^ 56 + length ids.now) (lent_row numbered.now.k numbered.now.row) }
    ensures { OnOk result (new.new.items ≡ map (new_id ids.now) (lent_row numbered.now.k numbered.now.row)) }
{
    new.clear();
    match numbered.row {
        Row::Root => Ok(()),
        Row::Follows => add_one(new, moved(before(numbered.k), ids)),
        Row::Begins(parents) => add_moved(new, parents, ids),
    }
}

/// Whether this is the only parent.
fn is_only(parents: &[Id], parent: Id) -> bool
    ensures { result ≡ pointwise nat_eq parents.now (parent ∷ []) }
{
    match parents {
        [only] => only.number() == parent.number(),
        _ => false,
    }
}

impl<'a> LentRun<'a> {
    /// A run with room for parents, to begin anew.
    pub(crate) fn blank(alloc: Global) -> LentRun<'a> {
        LentRun {
            low: Id::master(0),
            high: Id::master(0),
            lent: None,
            parents: Vec::new(alloc),
        }
    }

    /// Begins anew with this id alone, which has these parents by their new ids.
    fn begin(&mut self, id: Id, parents: &[Id]) -> Result<(), AllocError>
        ensures { OnOk result (self.new ≡ single_span id parents.now) }
    {
        self.low = id;
        self.high = id;
        self.lent = None;
        self.parents.clear();
        self.parents.extend_from_slice(parents)
    }

    /// Begins anew with this id alone, whose parents are lent.
    fn begin_lent(&mut self, id: Id, parents: Parents<'a>)
        ensures { self.new ≡ single_span id (parents_left parents.entry) }
    {
        self.low = id;
        self.high = id;
        self.lent = Some(parents);
    }

    /// Puts the run into the section of the others.
    fn put(&self, build: &mut BatchBuild) -> Result<(), AllocError>
        requires { IsSegment (flat_record self.now) }
        ensures built { OnOk result ((p : PlainPayload) (done : List Span) → IsBuilt build.old (with_spans Others p done) → IsBuilt build.new (with_spans Others p (done ++ self.now ∷ []))) }
        ensures count { build.new.other_count ≡ build.old.other_count }
    {
        match self.lent {
            Some(parents) => build.other_lent(self.low, self.high, parents),
            None => build.other_segment(self.low, self.high, &self.parents),
        }
    }

    /// Goes on by the id where that has the last id as its only parent, by its new id; else puts the run away and begins anew
    /// with the id.
    fn go_on_moved(
        &mut self,
        build: &mut BatchBuild,
        id: Id,
        parents: &[Id],
    ) -> Result<(), AllocError>
        requires { pointwise nat_eq parents.now (self.old.high ∷ []) ≡ false → IsSegment (flat_record self.old) }
        ensures grows { OnOk result ((done : List Span) → (next : List Span) × (grown (done ++ self.old ∷ []) id parents.now ≡ next ++ self.new ∷ [])
            × ((p : PlainPayload) → IsBuilt build.old (with_spans Others p done) → IsBuilt build.new (with_spans Others p next))) }
        ensures count { build.new.other_count ≡ build.old.other_count }
        ensures high { OnOk result (self.new.high ≡ id) }
    {
        if is_only(parents, self.high) {
            self.high = id;
            return Ok(());
        }
        self.put(build)?;
        self.begin(id, parents)?;
        Ok(())
    }

    /// Puts the run away and begins anew with the id, whose parents are lent and all of master.
    fn go_on_lent(
        &mut self,
        build: &mut BatchBuild,
        id: Id,
        parents: Parents<'a>,
        ids: &[Id],
    ) -> Result<(), AllocError>
        requires high { 2 ^ 56 ≤ self.old.high }
        requires masters { AllByRecursion (λ p. p < 2 ^ 56) (parents_left parents) }
        requires segment { pointwise nat_eq (map (new_id ids.now) (parents_left parents)) (self.old.high ∷ []) ≡ false → IsSegment (flat_record self.old) }
        ensures grows { OnOk result ((done : List Span) → (next : List Span) × (grown (done ++ self.old ∷ []) id (map (new_id ids.now) (parents_left parents.entry)) ≡ next ++ self.new ∷ [])
            × ((p : PlainPayload) → IsBuilt build.old (with_spans Others p done) → IsBuilt build.new (with_spans Others p next))) }
        ensures count { build.new.other_count ≡ build.old.other_count }
        ensures high { OnOk result (self.new.high ≡ id) }
    {
        self.put(build)?;
        self.begin_lent(id, parents);
        Ok(())
    }

    /// Goes on by the number. `ids` has the new ids of its parents, `new` is what is used to tell them.
    fn go_on(
        &mut self,
        build: &mut BatchBuild,
        numbered: &Numbered<'a>,
        ids: &[Id],
        new: &mut Vec<Id>,
    ) -> Result<(), AllocError>
        requires high { 2 ^ 56 ≤ self.old.high }
        requires parents { AllByRecursion (λ p. p < 2 ^ 56 + length ids.now) (lent_row numbered.now.k numbered.now.row) }
        requires segment { pointwise nat_eq (map (new_id ids.now) (lent_row numbered.now.k numbered.now.row)) (self.old.high ∷ []) ≡ false → IsSegment (flat_record self.old) }
        ensures grows { OnOk result ((done : List Span) → (next : List Span) × (grown (done ++ self.old ∷ []) numbered.now.id (map (new_id ids.now) (lent_row numbered.now.k numbered.now.row)) ≡ next ++ self.new ∷ [])
            × ((p : PlainPayload) → IsBuilt build.old (with_spans Others p done) → IsBuilt build.new (with_spans Others p next))) }
        ensures count { build.new.other_count ≡ build.old.other_count }
        ensures high { OnOk result (self.new.high ≡ numbered.now.id) }
    {
        let Some(parents) = masters_of(numbered.row) else {
            return self.go_on_row(build, numbered, ids, new);
        };
        self.go_on_lent(build, numbered.id, parents, ids)
    }

    /// Goes on by the number as `go_on` does, whatever its parents are.
    fn go_on_row(
        &mut self,
        build: &mut BatchBuild,
        numbered: &Numbered<'a>,
        ids: &[Id],
        new: &mut Vec<Id>,
    ) -> Result<(), AllocError>
        requires parents { AllByRecursion (λ p. p < 2 ^ 56 + length ids.now) (lent_row numbered.now.k numbered.now.row) }
        requires segment { pointwise nat_eq (map (new_id ids.now) (lent_row numbered.now.k numbered.now.row)) (self.old.high ∷ []) ≡ false → IsSegment (flat_record self.old) }
        ensures grows { OnOk result ((done : List Span) → (next : List Span) × (grown (done ++ self.old ∷ []) numbered.now.id (map (new_id ids.now) (lent_row numbered.now.k numbered.now.row)) ≡ next ++ self.new ∷ [])
            × ((p : PlainPayload) → IsBuilt build.old (with_spans Others p done) → IsBuilt build.new (with_spans Others p next))) }
        ensures count { build.new.other_count ≡ build.old.other_count }
        ensures high { OnOk result (self.new.high ≡ numbered.now.id) }
    {
        moved_row(new, numbered, ids)?;
        self.go_on_moved(build, numbered.id, new)
    }

    /// Begins with the number. `ids` has the new ids of its parents, `new` is what is used to tell them.
    fn begin_row(
        &mut self,
        numbered: &Numbered<'a>,
        ids: &[Id],
        new: &mut Vec<Id>,
    ) -> Result<(), AllocError>
        requires { AllByRecursion (λ p. p < 2 ^ 56 + length ids.now) (lent_row numbered.now.k numbered.now.row) }
        ensures { OnOk result (self.new ≡ single_span numbered.now.id (map (new_id ids.now) (lent_row numbered.now.k numbered.now.row))) }
    {
        moved_row(new, numbered, ids)?;
        self.begin(numbered.id, new)
    }
}

/// Puts the flat segments of these numbers, which have the first ids of the others now, into their section. `ids` has the new
/// id of each number; `run` and `new` are what is used to make them.
fn add_lent_runs<'a>(
    build: &mut BatchBuild,
    graph: &LentGraph<'a>,
    ids: &[Id],
    numbers: &[u32],
    run: &mut LentRun<'a>,
    new: &mut Vec<Id>,
) -> Result<(), AllocError>
    requires rows { AreRowsBelow (length ids.now) graph.now }
    requires room { length numbers.now ≤ 2 ^ 56 }
    requires records { AllByRecursion (λ s. IsSegment (flat_record s)) (flat_segments (2 ^ 56) (map (λ k. map (new_id ids.now) (slice_index_or graph.now k [])) numbers.now)) }
    ensures built { OnOk result ((p : PlainPayload) → IsBuilt build.old (with_spans Others p [])
        → IsBuilt build.new (with_spans Others p (flat_segments (2 ^ 56) (map (λ k. map (new_id ids.now) (slice_index_or graph.now k [])) numbers.now)))) }
    ensures count { build.new.other_count ≡ build.old.other_count }
{
    if numbers.is_empty() {
        return Ok(());
    }
    let first = Numbered {
        id: Id::other(0),
        k: numbers[0],
        row: graph.row(numbers[0]),
    };
    run.begin_row(&first, ids, new)?;
    'numbers: for i in 1..numbers.len() {
        let next = Numbered {
            id: Id::other(i as u64),
            k: numbers[i],
            row: graph.row(numbers[i]),
        };
        run.go_on(build, &next, ids, new)?;
    }
    run.put(build)?;
    Ok(())
}
