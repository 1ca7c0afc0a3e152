//! The queries that are timed.

use super::draws::{Apart, Draws};
use ancestor_query::{ancestors, first_ancestor, is_ancestor};
use common_ancestor::{common, gca, only, tips};
use id_groups::Id;
use range_query::{children, descendants, range};
use sample_tables::{held_id, held_ids};
use segment_codec::{SegmentTable, Steps};
use set_query::{Expr, ExprFault, eval};
use std::alloc::{AllocError, Global};

/// What is asked. A place stands for the master id there; of pairs and random ids there are so many.
#[derive(Clone, Copy)]
pub enum Query {
    SegmentsFrom(u64),
    ParentsFrom(u64),
    RandomIds,
    Ancestors,
    FirstAncestor(u64),
    IsAncestor(u64),
    InterAncestors(u64),
    OfAll(OfAll),
    Children(u64),
    Descendants(u64),
    RangeToHead(u64),
    Sets(Apart, u64),
    Only(Apart, u64),
    Gca(Apart, u64),
    CommonOfTen,
    TipsOfTen,
}

/// What is asked of all commits.
#[derive(Clone, Copy)]
pub enum OfAll {
    Parents,
    Heads,
    Roots,
    Merges,
}

impl OfAll {
    /// The expression.
    fn text(self) -> &'static [u8] {
        match self {
            OfAll::Parents => b"parents(all)",
            OfAll::Heads => b"heads(all)",
            OfAll::Roots => b"roots(all)",
            OfAll::Merges => b"merges(all)",
        }
    }
}

/// A table that is asked.
#[derive(Clone, Copy)]
pub struct Queries<'a, T> {
    alloc: Global,
    table: &'a T,
}

/// The first commit, where the second reaches it.
const MET: &[u8] =
    b"inter(00000000000000000000000000000000000000a1,ancestors(00000000000000000000000000000000000000b1))";

/// What was counted, and nothing for a text that spells no expression.
fn without_syntax(counted: Result<u64, ExprFault>) -> Result<u64, AllocError> {
    match counted {
        Ok(count) => Ok(count),
        Err(ExprFault::Syntax) => Ok(0),
        Err(ExprFault::Memory) => Err(AllocError),
    }
}

/// The master id at a place.
fn id_at(place: u64) -> Id {
    Id::master(place % (1 << 32))
}

impl<'a, T: SegmentTable> Queries<'a, T> {
    pub fn new(alloc: Global, table: &'a T) -> Queries<'a, T> {
        Queries { alloc, table }
    }

    /// How many commits there are.
    pub fn count(&self) -> u64 {
        self.table.bounds().master
    }

    /// What the answer to the query counts.
    pub fn counted(&self, query: Query) -> Result<u64, AllocError> {
        match query {
            Query::SegmentsFrom(place) => Ok(self.scanned(place)),
            Query::ParentsFrom(place) => Ok(self.parents_scanned(place)),
            Query::RandomIds => Ok(self.looked_up(self.count())),
            Query::Ancestors => self.ancestors_of(self.head()),
            Query::FirstAncestor(n) => Ok(self.first_of(self.head(), n)),
            Query::IsAncestor(times) => self.reached(times),
            Query::InterAncestors(times) => without_syntax(self.met(times)),
            Query::OfAll(of) => self.of_all(of),
            Query::Children(place) => self.children_of(id_at(place)),
            Query::Descendants(place) => self.descendants_of(id_at(place)),
            Query::RangeToHead(place) => self.between(id_at(place), self.head()),
            Query::Sets(apart, times) => self.paired(apart, times),
            Query::Only(apart, times) => self.only_of(apart, times),
            Query::Gca(apart, times) => self.gca_of(apart, times),
            Query::CommonOfTen => self.common_of_ten(),
            Query::TipsOfTen => self.tips_of_ten(),
        }
    }

    /// The id of the last commit.
    fn head(&self) -> Id {
        id_at(self.count().saturating_sub(1))
    }

    /// How many segments stand from the id's one on, each of which is looked up.
    fn scanned(&self, place: u64) -> u64 {
        let mut steps = Steps::new();
        let mut above = 0u64;
        for k in (0..self.table.flat_count()).rev() {
            let segment = self.table.flat_at(k, &mut steps);
            if segment.high().number() < place {
                return above;
            }
            above = above.saturating_add(1);
        }
        above
    }

    /// How many parents the segments from the id's one on have, each of which is looked up and read whole.
    fn parents_scanned(&self, place: u64) -> u64 {
        let mut steps = Steps::new();
        let mut parents = 0u64;
        for k in (0..self.table.flat_count()).rev() {
            let segment = self.table.flat_at(k, &mut steps);
            if segment.high().number() < place {
                return parents;
            }
            for _parent in segment.parents() {
                parents = parents.saturating_add(1);
            }
        }
        parents
    }

    /// How many of so many random ids begin a segment.
    fn looked_up(&self, times: u64) -> u64 {
        let mut draws = Draws::new();
        let mut steps = Steps::new();
        let count = self.count();
        let mut found = 0u64;
        for _id in 0..times {
            let id = draws.id(count);
            if let Some(segment) = self.table.flat(id, &mut steps) {
                if segment.low() == id {
                    found = found.saturating_add(1);
                }
            }
        }
        found
    }

    fn ancestors_of(&self, id: Id) -> Result<u64, AllocError> {
        let set = held_ids(self.alloc, self.table, &[id])?;
        let mut steps = Steps::new();
        let found = ancestors(self.alloc, self.table, &set, &mut steps)?;
        Ok(found.count())
    }

    fn first_of(&self, id: Id, n: u64) -> u64 {
        let mut steps = Steps::new();
        match held_id(self.table, id) {
            Some(x) => match first_ancestor(self.table, x, n, &mut steps) {
                Some(found) => found.number(),
                None => 0,
            },
            None => 0,
        }
    }

    /// In how many of so many random pairs the later commit reaches the earlier one.
    fn reached(&self, times: u64) -> Result<u64, AllocError> {
        let mut draws = Draws::new();
        let mut steps = Steps::new();
        let count = self.count();
        let mut reached = 0u64;
        for _pair in 0..times {
            let (later, earlier) = draws.pair(count, Apart::Anywhere);
            let Some(y) = held_id(self.table, later) else {
                return Ok(0);
            };
            let Some(x) = held_id(self.table, earlier) else {
                return Ok(0);
            };
            if is_ancestor(self.alloc, self.table, x, y, &mut steps)? {
                reached = reached.saturating_add(1);
            }
        }
        Ok(reached)
    }

    /// The same, asked as the members of an expression.
    fn met(&self, times: u64) -> Result<u64, ExprFault> {
        let expr = Expr::parse(self.alloc, MET)?;
        self.met_in_pairs(&expr, times)
    }

    /// How many members an expression of two names has for so many random pairs.
    fn met_in_pairs(&self, expr: &Expr, times: u64) -> Result<u64, ExprFault> {
        let mut draws = Draws::new();
        let count = self.count();
        let mut met = 0u64;
        for _pair in 0..times {
            let (later, earlier) = draws.pair(count, Apart::Anywhere);
            met = met.saturating_add(self.met_by(expr, earlier, later)?);
        }
        Ok(met)
    }

    /// How many members an expression of two names has.
    fn met_by(&self, expr: &Expr, one: Id, other: Id) -> Result<u64, ExprFault> {
        let Some(x) = held_id(self.table, one) else {
            return Ok(0);
        };
        let Some(y) = held_id(self.table, other) else {
            return Ok(0);
        };
        if expr.name_count() != 2 {
            return Ok(0);
        }
        let answer = eval(self.alloc, self.table, expr, &[x, y])?;
        Ok(answer.count())
    }

    /// How many members an expression of all commits has.
    fn of_all(&self, of: OfAll) -> Result<u64, AllocError> {
        without_syntax(self.evaluated(of.text()))
    }

    /// How many members an expression without names has.
    fn evaluated(&self, text: &[u8]) -> Result<u64, ExprFault> {
        let expr = Expr::parse(self.alloc, text)?;
        self.count_of(&expr)
    }

    /// How many members the expression has, if it has no names.
    fn count_of(&self, expr: &Expr) -> Result<u64, ExprFault> {
        if expr.name_count() > 0 {
            return Ok(0);
        }
        let answer = eval(self.alloc, self.table, expr, &[])?;
        Ok(answer.count())
    }

    fn children_of(&self, id: Id) -> Result<u64, AllocError> {
        let set = held_ids(self.alloc, self.table, &[id])?;
        let mut steps = Steps::new();
        let found = children(self.alloc, self.table, &set, &mut steps)?;
        Ok(found.count())
    }

    fn descendants_of(&self, id: Id) -> Result<u64, AllocError> {
        let set = held_ids(self.alloc, self.table, &[id])?;
        let mut steps = Steps::new();
        let found = descendants(self.alloc, self.table, &set, &mut steps)?;
        Ok(found.count())
    }

    fn between(&self, from: Id, to: Id) -> Result<u64, AllocError> {
        let one = held_ids(self.alloc, self.table, &[from])?;
        let other = held_ids(self.alloc, self.table, &[to])?;
        let mut steps = Steps::new();
        let found = range(self.alloc, self.table, &one, &other, &mut steps)?;
        Ok(found.count())
    }

    /// The sets of so many pairs alone: what the times of the pairs contain beside the queries.
    fn paired(&self, apart: Apart, times: u64) -> Result<u64, AllocError> {
        let mut draws = Draws::new();
        let count = self.count();
        let mut total = 0u64;
        for _pair in 0..times {
            let (later, earlier) = draws.pair(count, apart);
            let set = held_ids(self.alloc, self.table, &[later])?;
            let other = held_ids(self.alloc, self.table, &[earlier])?;
            total = total
                .saturating_add(set.count())
                .saturating_add(other.count());
        }
        Ok(total)
    }

    fn only_of(&self, apart: Apart, times: u64) -> Result<u64, AllocError> {
        let mut draws = Draws::new();
        let count = self.count();
        let mut total = 0u64;
        for _pair in 0..times {
            let (later, earlier) = draws.pair(count, apart);
            total = total.saturating_add(self.only_between(later, earlier)?);
        }
        Ok(total)
    }

    fn only_between(&self, later: Id, earlier: Id) -> Result<u64, AllocError> {
        let set = held_ids(self.alloc, self.table, &[later])?;
        let other = held_ids(self.alloc, self.table, &[earlier])?;
        let found = only(self.alloc, self.table, &set, &other, &mut Steps::new())?;
        Ok(found.count())
    }

    fn gca_of(&self, apart: Apart, times: u64) -> Result<u64, AllocError> {
        let mut draws = Draws::new();
        let mut steps = Steps::new();
        let count = self.count();
        let mut total = 0u64;
        for _pair in 0..times {
            let (later, earlier) = draws.pair(count, apart);
            let set = held_ids(self.alloc, self.table, &[later, earlier])?;
            let found = gca(self.alloc, self.table, &set, &mut steps)?;
            total = total.saturating_add(found.count());
        }
        Ok(total)
    }

    /// Ten random ids.
    fn ten(&self) -> Result<Vec<Id>, AllocError> {
        let mut draws = Draws::new();
        let count = self.count();
        let mut ids = Vec::new(self.alloc);
        for _id in 0..10 {
            ids.push(draws.id(count))?;
        }
        Ok(ids)
    }

    fn common_of_ten(&self) -> Result<u64, AllocError> {
        let ids = self.ten()?;
        let set = held_ids(self.alloc, self.table, &ids)?;
        let mut steps = Steps::new();
        let found = common(self.alloc, self.table, &set, &mut steps)?;
        Ok(found.count())
    }

    fn tips_of_ten(&self) -> Result<u64, AllocError> {
        let ids = self.ten()?;
        let set = held_ids(self.alloc, self.table, &ids)?;
        let mut steps = Steps::new();
        let found = tips(self.alloc, self.table, &set, &mut steps)?;
        Ok(found.count())
    }
}
