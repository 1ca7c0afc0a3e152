//! Rows that are numbered anew, as flat segments of a payload.

ghost use Rattle.std.specs.Prelude.{◌≡◌, ◌<◌, ◌≤◌, ◌+◌, ◌^◌, ◌++◌, ◌∷◌, [], List, false, map, length, slice_index_or, OnOk, nat_eq};
ghost use Rattle.std.specs.Cmp.Lexicographic.{pointwise};
ghost use Rattle.std.specs.List.{AllByRecursion};
ghost use Rattle.segment_codec.specs.Record.{IsSegment};
ghost use Rattle.batch_codec.specs.Payload.{Payload as PlainPayload};
ghost use Rattle.batch_codec.specs.Building.{IsBuilt};
ghost use Rattle.change_parts.specs.Flat.{Span, single_span, flat_segments};
ghost use Rattle.change_parts.specs.Moves.{flat_record, grown, new_id};
ghost use Rattle.change_parts.specs.Rows.{AreRowsBelow};
ghost use Rattle.change_parts.specs.Sections.{with_spans};

use crate::graph::Graph;
use batch_codec::BatchBuild;
use change_parts::moved;
use id_groups::{Group, Id};
use std::alloc::{AllocError, Global};
use std::marker::Model;

/// A flat segment that is being made.
#[derive(Drop)]
pub(crate) struct Run {
    low: Id,
    high: Id,
    parents: Vec<Id>,
}

impl Model for Run {
    ghost use Rattle.change_parts.specs.Flat.{Span};

    ghost Value = { Span };

    ghost view = { λ r. record { low = r.low; high = r.high; parents = r.parents.items } };
}

/// Adds the new ids of these parents.
fn add_moved(new: &mut Vec<Id>, parents: &[Id], ids: &[Id]) -> Result<(), AllocError>
    requires { AllByRecursion (λ p. p < 2 ^ 56 + length ids.now) parents.now }
    ensures { OnOk result (new.new.items ≡ new.old.items ++ map (new_id ids.now) parents.now) }
{
    'parents: for parent in parents {
        new.push(moved(*parent, ids))?;
    }
    Ok(())
}

/// Whether this is the only parent, by its new id.
fn is_only(parents: &[Id], ids: &[Id], parent: Id) -> bool
    requires { AllByRecursion (λ p. p < 2 ^ 56 + length ids.now) parents.now }
    ensures { result ≡ pointwise nat_eq (map (new_id ids.now) parents.now) (parent ∷ []) }
{
    match parents {
        [only] => moved(*only, ids).number() == parent.number(),
        _ => false,
    }
}

impl Run {
    /// A run with room for parents, to begin anew.
    pub(crate) fn blank(alloc: Global) -> Run {
        Run {
            low: Id::master(0),
            high: Id::master(0),
            parents: Vec::new(alloc),
        }
    }

    /// Begins anew with this id alone. `ids` has the new ids of its parents.
    fn begin(&mut self, id: Id, parents: &[Id], ids: &[Id]) -> Result<(), AllocError>
        requires { AllByRecursion (λ p. p < 2 ^ 56 + length ids.now) parents.now }
        ensures { OnOk result (self.new ≡ single_span id (map (new_id ids.now) parents.now)) }
    {
        self.low = id;
        self.high = id;
        self.parents.clear();
        add_moved(&mut self.parents, parents, ids)?;
        Ok(())
    }

    /// Puts the run into the section of its group.
    fn put(&self, build: &mut BatchBuild, group: Group) -> Result<(), AllocError>
        requires { IsSegment (flat_record self.now) }
        ensures built { OnOk result ((p : PlainPayload) (done : List Span) → IsBuilt build.old (with_spans group p done) → IsBuilt build.new (with_spans group p (done ++ self.now ∷ []))) }
        ensures count { build.new.other_count ≡ build.old.other_count }
    {
        match group {
            Group::Master => build.segment(self.low, self.high, &self.parents),
            Group::Others => build.other_segment(self.low, self.high, &self.parents),
        }
    }

    /// Goes on by the id where that has the last id as its only parent; else puts the run away and begins anew with the id.
    fn go_on(
        &mut self,
        build: &mut BatchBuild,
        group: Group,
        id: Id,
        parents: &[Id],
        ids: &[Id],
    ) -> Result<(), AllocError>
        requires parents { AllByRecursion (λ p. p < 2 ^ 56 + length ids.now) parents.now }
        requires segment { pointwise nat_eq (map (new_id ids.now) parents.now) (self.old.high ∷ []) ≡ false → IsSegment (flat_record self.old) }
        ensures grows { OnOk result ((done : List Span) → (next : List Span) × (grown (done ++ self.old ∷ []) id (map (new_id ids.now) parents.now) ≡ next ++ self.new ∷ [])
            × ((p : PlainPayload) → IsBuilt build.old (with_spans group p done) → IsBuilt build.new (with_spans group p next))) }
        ensures count { build.new.other_count ≡ build.old.other_count }
    {
        if is_only(parents, ids, self.high) {
            self.high = id;
            return Ok(());
        }
        self.put(build, group)?;
        self.begin(id, parents, ids)?;
        Ok(())
    }
}

/// Numbers that have the ids of a group from the first on.
#[derive(Clone, Copy)]
pub(crate) struct Numbered<'a> {
    pub(crate) group: Group,
    pub(crate) first: u64,
    pub(crate) numbers: &'a [u32],
}

/// Puts the flat segments of these numbers into the section of their group. `ids` has the new id of each number; `run` is what
/// is used to make them.
pub(crate) fn add_runs(
    build: &mut BatchBuild,
    graph: &Graph,
    ids: &[Id],
    numbered: &Numbered<'_>,
    run: &mut Run,
) -> Result<(), AllocError>
    requires rows { AreRowsBelow (length ids.now) graph.now }
    requires room { numbered.now.first + length numbered.now.numbers.now ≤ 2 ^ 57 }
    requires records { AllByRecursion (λ s. IsSegment (flat_record s)) (flat_segments numbered.now.first (map (λ k. map (new_id ids.now) (slice_index_or graph.now k [])) numbered.now.numbers.now)) }
    ensures built { OnOk result ((p : PlainPayload) → IsBuilt build.old (with_spans numbered.now.group p [])
        → IsBuilt build.new (with_spans numbered.now.group p (flat_segments numbered.now.first (map (λ k. map (new_id ids.now) (slice_index_or graph.now k [])) numbered.now.numbers.now)))) }
    ensures count { build.new.other_count ≡ build.old.other_count }
{
    let Numbered {
        group,
        first,
        numbers,
    } = *numbered;
    if numbers.is_empty() {
        return Ok(());
    }
    run.begin(Id::from_number(first), graph.parents(numbers[0]), ids)?;
    'numbers: for i in 1..numbers.len() {
        let id = Id::from_number(first + i as u64);
        let parents = graph.parents(numbers[i]);
        run.go_on(build, group, id, parents, ids)?;
    }
    run.put(build, group)?;
    Ok(())
}
