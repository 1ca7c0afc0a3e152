//! The queries over a table, with sets as the bits of a number.

ghost use Rattle.std.specs.Prelude.{ℕ, IfOk};
ghost use Rattle.segment_codec.specs.Table.{IsHeld};
ghost use Rattle.span_set.specs.Members.{IsMember};

use crate::plain::{PairQuery, Query, bit, has};
use ancestor_query::{ancestors, first_ancestor, is_ancestor, parents};
use common_ancestor::{common, gca, only, tips};
use id_groups::{Group, Id};
use range_query::{children, descendants, heads, merges, range, roots};
use sample_tables::{held_id, held_ids};
use segment_codec::{SegmentTable, Steps};
use set_query::{Answer, Expr, ExprFault, eval};
use span_set::IdSet;
use std::alloc::{AllocError, Global};

/// A table of a graph, whose first places are the master ids in turn, and the others the other ids.
#[derive(Clone, Copy)]
pub struct Asked<'a, T> {
    pub alloc: Global,
    pub table: &'a T,
    pub masters: u64,
}

/// The id of a place of a graph with so many master ids; it is no id of the graph where the place is none.
pub fn id_of(masters: u64, place: u64) -> Id {
    if place < masters && place < 64 {
        return Id::master(place);
    }
    Id::other(place.saturating_sub(masters) % 64)
}

/// The ids of these places.
pub fn ids_of(alloc: Global, masters: u64, places: &[u64]) -> Result<Vec<Id>, AllocError> {
    let mut ids = Vec::new(alloc);
    for place in places {
        ids.push(id_of(masters, *place))?;
    }
    Ok(ids)
}

impl<'a, T: SegmentTable> Asked<'a, T> {
    fn id_at(&self, place: u64) -> Id {
        id_of(self.masters, place)
    }

    /// The place of an id.
    fn place_of(&self, id: Id) -> u64 {
        match id.group() {
            Group::Master => id.place(),
            Group::Others => self.masters.saturating_add(id.place()),
        }
    }

    /// The set of the ids at these places.
    fn set_of(&self, places: u64) -> Result<IdSet, AllocError>
        ensures { IfOk result (λ r. (x : ℕ) → IsMember r x → IsHeld (T.flats self.now.table.now) x) }
    {
        let mut ids = Vec::new(self.alloc);
        for place in 0..64u64 {
            if has(places, place) {
                ids.push(self.id_at(place))?;
            }
        }
        held_ids(self.alloc, self.table, &ids)
    }

    /// The places of the members.
    fn places_of(&self, set: &IdSet) -> u64 {
        let mut places = 0;
        for id in set.ids_down() {
            places |= bit(self.place_of(id));
        }
        places
    }

    /// What the query gives.
    pub fn made(&self, query: Query, places: u64) -> Result<u64, AllocError> {
        let set = self.set_of(places)?;
        let mut steps = Steps::new();
        let made = self.queried(query, &set, &mut steps)?;
        Ok(self.places_of(&made))
    }

    fn queried(&self, query: Query, set: &IdSet, steps: &mut Steps) -> Result<IdSet, AllocError>
        requires { (x : ℕ) → IsMember set.now x → IsHeld (T.flats self.now.table.now) x }
    {
        match query {
            Query::Parents => parents(self.alloc, self.table, set, steps),
            Query::Children => children(self.alloc, self.table, set, steps),
            Query::Ancestors => ancestors(self.alloc, self.table, set, steps),
            Query::Descendants => descendants(self.alloc, self.table, set, steps),
            Query::Heads => heads(self.alloc, self.table, set, steps),
            Query::Roots => roots(self.alloc, self.table, set, steps),
            Query::Merges => merges(self.alloc, self.table, set, steps),
            Query::Tips => tips(self.alloc, self.table, set, steps),
            Query::Common => common(self.alloc, self.table, set, steps),
            Query::Gca => gca(self.alloc, self.table, set, steps),
        }
    }

    /// What the query gives of two sets.
    pub fn made_of_two(
        &self,
        query: PairQuery,
        first: u64,
        second: u64,
    ) -> Result<u64, AllocError> {
        let one = self.set_of(first)?;
        let other = self.set_of(second)?;
        self.places_made(query, &one, &other)
    }

    fn places_made(&self, query: PairQuery, one: &IdSet, other: &IdSet) -> Result<u64, AllocError>
        requires one { (x : ℕ) → IsMember one.now x → IsHeld (T.flats self.now.table.now) x }
        requires other { (x : ℕ) → IsMember other.now x → IsHeld (T.flats self.now.table.now) x }
    {
        let mut steps = Steps::new();
        let made = match query {
            PairQuery::Range => range(self.alloc, self.table, one, other, &mut steps)?,
            PairQuery::Only => only(self.alloc, self.table, one, other, &mut steps)?,
        };
        Ok(self.places_of(&made))
    }

    /// Whether the commit at place `y` reaches that at place `x`; `None` where the table hasn't both.
    pub fn is_ancestor(&self, x: u64, y: u64) -> Result<Option<bool>, AllocError> {
        let Some(from) = held_id(self.table, self.id_at(y)) else {
            return Ok(None);
        };
        let Some(to) = held_id(self.table, self.id_at(x)) else {
            return Ok(None);
        };
        let mut steps = Steps::new();
        let found = is_ancestor(self.alloc, self.table, to, from, &mut steps)?;
        Ok(Some(found))
    }

    /// The place of the first-parent ancestor; `None` where there is none, or the table hasn't the id.
    pub fn first_ancestor(&self, place: u64, n: u64) -> Option<u64> {
        let id = held_id(self.table, self.id_at(place))?;
        let mut steps = Steps::new();
        let found = first_ancestor(self.table, id, n, &mut steps)?;
        Some(self.place_of(found))
    }

    /// The members of the expression and the look-ups that it took; `None` where the text spells none, it has more than one
    /// name, or the table hasn't the id at the place, which stands for the name.
    pub fn evaluated(&self, text: &[u8], place: u64) -> Result<Option<(u64, u64)>, AllocError> {
        match Expr::parse(self.alloc, text) {
            Ok(expr) => self.evaluated_at(&expr, place),
            Err(ExprFault::Syntax) => Ok(None),
            Err(ExprFault::Memory) => Err(AllocError),
        }
    }

    fn evaluated_at(&self, expr: &Expr, place: u64) -> Result<Option<(u64, u64)>, AllocError> {
        match expr.name_count() {
            0 => Ok(Some(self.read(&eval(self.alloc, self.table, expr, &[])?))),
            1 => match held_id(self.table, self.id_at(place)) {
                Some(id) => Ok(Some(self.read(&eval(self.alloc, self.table, expr, &[id])?))),
                None => Ok(None),
            },
            _ => Ok(None),
        }
    }

    /// The places of the answer's members, and its look-ups.
    fn read(&self, answer: &Answer) -> (u64, u64) {
        (self.places_of(answer.set()), answer.steps())
    }
}
