//! The commits of a store as two lists of rows.

ghost use Rattle.std.specs.Prelude.{◌≡◌, ◌<◌, ◌≤◌, ◌^◌, ◌↔◌, [], ◌∷◌, length, slice_get, Some, IsSome, IfSome, IsTrue, IfOk, OnOk, OnErr, MatchOption};
ghost use Rattle.std.specs.List.{AllByRecursion};
ghost use Rattle.id_groups.specs.Lists.{IsIn, AreAllIn};
ghost use Rattle.id_groups.specs.Name.{Name as NameBytes, IsName, same_name};
ghost use Rattle.commit_graph.specs.World.{Row as PlainRow, IsNext, IsHistory, IsWorld, IsNamedWorld, empty_world, rows_of, names_of, row_named, with_pending};
ghost use Rattle.commit_graph.specs.Ids.{row_at, id_in};

use crate::Row;
use id_groups::{Group, Id, Name};
use std::alloc::{AllocError, Global};
use std::marker::Model;

/// The rows of the master group and the others, each in the order of their ids.
#[derive(Drop)]
pub struct World {
    master: Vec<Row>,
    others: Vec<Row>,
}

impl Model for World {
    ghost use Rattle.std.specs.Prelude.{length, ◌≤◌, ◌^◌};
    ghost use Rattle.id_groups.specs.Name.{Name as NameBytes};
    ghost use Rattle.commit_graph.specs.World.{World as PlainWorld, IsNamedWorld};
    ghost use Rattle.commit_graph.specs.Codes.{coded_world};

    ghost Value = { PlainWorld NameBytes };

    ghost coded = { coded_world };

    ghost view = { λ world. record { master = world.master.items; others = world.others.items } };

    ghost invariant = { λ world. IsNamedWorld (record { master = world.master.items; others = world.others.items })
        × (length world.master.items ≤ 2 ^ 32) × (length world.others.items ≤ 2 ^ 32) };
}

impl World {
    /// The world without commits. It takes no memory.
    pub fn empty(alloc: Global) -> World
        ensures { result ≡ empty_world }
    {
        World {
            master: Vec::new(alloc),
            others: Vec::new(alloc),
        }
    }

    /// The world with these rows as master and no others; `None` exactly where there is none: where a name comes
    /// twice, or a parent doesn't stand before its child. It is made without more memory than the rows have.
    pub fn of_master(alloc: Global, rows: Vec<Row>) -> Result<Option<World>, AllocError>
        requires { length rows.items < 2 ^ 32 }
        ensures { IfOk result (λ found. MatchOption found
            (¬ (IsWorld (record { master = rows.items; others = [] })))
            (λ world. world ≡ record { master = rows.items; others = [] })) }
    {
        if !are_history(rows.as_slice()) {
            return Ok(None);
        }
        Ok(Some(World {
            master: rows,
            others: Vec::new(alloc),
        }))
    }

    /// The world with this one's master and no others.
    pub fn master_alone(self) -> World
        ensures { result ≡ record { master = self.master; others = [] } }
    {
        let World { master, mut others } = self;
        others.clear();
        World { master, others }
    }

    /// How many commits master has: at most 2^32.
    pub fn master_count(&self) -> u64
        ensures count { result ≡ length self.now.master }
        ensures small { result ≤ 2 ^ 32 }
        ensures world { IsNamedWorld self.now }
    {
        self.master.len() as u64
    }

    /// How many other commits there are: at most 2^32.
    pub fn others_count(&self) -> u64
        ensures count { result ≡ length self.now.others }
        ensures small { result ≤ 2 ^ 32 }
        ensures world { IsNamedWorld self.now }
    {
        self.others.len() as u64
    }

    /// The row with this id, which is an id of the world.
    pub fn row(&self, id: Id) -> &Row
        requires { IsSome (row_at self.now id) }
        ensures { row_at self.now id ≡ Some result.now }
    {
        let place = id.place() as usize;
        match id.group() {
            Group::Master => &self.master[place],
            Group::Others => &self.others[place],
        }
    }

    /// The id of the commit with this name; `None` exactly where the world has no such commit.
    pub fn find(&self, name: &Name) -> Option<Id>
        ensures id { MatchOption result (¬ (IsIn name.now (names_of (rows_of self.now))))
            (λ id. IsIn name.now (names_of (rows_of self.now)) × (id ≡ id_in same_name self.now name.now)) }
        ensures row { IfSome result (λ id. (row : PlainRow NameBytes)
            × (row_at self.now id ≡ Some row) × (row.name ≡ name.now)) }
        ensures named { IfSome result (λ id.
            row_at self.now id ≡ row_named same_name (rows_of self.now) name.now) }
    {
        if let Some(place) = position_of(self.master.as_slice(), name) {
            return Some(Id::master(place as u64));
        }
        let place = position_of(self.others.as_slice(), name)?;
        Some(Id::other(place as u64))
    }

    /// That the world is one, for proofs of what is done with it.
    pub(crate) fn is_world(&self)
        ensures { IsNamedWorld self.now }
    {
        let _rows = &self.master;
    }

    /// How many commits there are, in both groups.
    pub(crate) fn len(&self) -> usize
        ensures { result ≡ length (rows_of self.now) }
    {
        self.master.len() + self.others.len()
    }

    /// The row at this place of all rows, master's first.
    pub(crate) fn nth(&self, place: usize) -> &Row
        requires { place < length (rows_of self.now) }
        ensures { slice_get (rows_of self.now) place ≡ Some result.now }
    {
        let masters = self.master.len();
        if place < masters {
            &self.master[place]
        } else {
            &self.others[place - masters]
        }
    }

    /// Puts a row behind the others: its name is new, and its parents are of the world. `AllocError`, with the world
    /// as it was, only for want of memory.
    pub fn push_other(&mut self, row: Row) -> Result<(), AllocError>
        requires fresh { ¬ (IsIn row.name (names_of (rows_of self.old))) }
        requires known { AreAllIn row.parents (names_of (rows_of self.old)) }
        requires few { length self.old.others < 2 ^ 32 }
        ensures ok { OnOk result (self.new ≡ with_pending self.old (row ∷ [])) }
        ensures err { OnErr result (self.new ≡ self.old) }
    {
        row.is_row();
        self.others.push(row)?;
        Ok(())
    }
}

/// The place of a row with this name.
fn position_of(rows: &[Row], name: &Name) -> Option<usize>
    ensures { MatchOption result (¬ (IsIn name.now (names_of rows.now)))
        (λ place. (row : PlainRow NameBytes) × (slice_get rows.now place ≡ Some row) × (row.name ≡ name.now)) }
{
    for (place, row) in rows.iter().enumerate() {
        if row.name().is(name) {
            return Some(place);
        }
    }
    None
}

/// Whether the row may come behind those before it.
fn may_follow(before: &[Row], row: &Row) -> bool
    ensures next { IsTrue result ↔ IsNext (names_of before.now) row.now }
    ensures bytes { IsName row.now.name }
{
    row.is_row();
    if position_of(before, row.name()).is_some() {
        return false;
    }
    for parent in row.parents() {
        if position_of(before, parent).is_none() {
            return false;
        }
    }
    true
}

/// Whether each row may come behind those before it.
fn are_history(rows: &[Row]) -> bool
    ensures history { IsTrue result ↔ IsHistory [] rows.now }
    ensures names { IsTrue result → AllByRecursion IsName (names_of rows.now) }
{
    for place in 0..rows.len() {
        if !may_follow(&rows[..place], &rows[place]) {
            return false;
        }
    }
    true
}
