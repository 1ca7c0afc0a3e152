//! Graphs of at most 64 commits, with what each one reaches as the bits of a number.

use std::alloc::{AllocError, Global};

/// What a commit has.
#[derive(Clone, Copy)]
pub struct Row {
    /// The bits of its parents.
    pub parents: u64,
    /// The place of its first parent.
    pub first: Option<u64>,
    /// The bits of what it reaches, itself among them.
    pub reach: u64,
}

/// Commits, each behind its parents.
#[derive(Drop)]
pub struct Graph {
    pub rows: Vec<Row>,
}

/// The bit of a place below 64.
pub fn bit(place: u64) -> u64 {
    if place < 64 { 1 << place } else { 0 }
}

/// Whether the place is one of the set's.
pub fn has(set: u64, place: u64) -> bool {
    set & bit(place) != 0
}

/// How many bits are set.
fn count_bits(set: u64) -> u32 {
    let mut count = 0u32;
    for place in 0..64u64 {
        if has(set, place) {
            count = count.saturating_add(1);
        }
    }
    count
}

impl Graph {
    /// No commits.
    pub fn empty(alloc: Global) -> Graph {
        Graph {
            rows: Vec::new(alloc),
        }
    }

    /// How many commits there are.
    pub fn count(&self) -> u64 {
        self.rows.len() as u64
    }

    /// Adds a commit with these parents.
    pub fn push(&mut self, parents: &[u64]) -> Result<(), AllocError> {
        let mut row = Row {
            parents: 0,
            first: None,
            reach: bit(self.count()),
        };
        for parent in parents {
            row.parents |= bit(*parent);
            row.reach |= self.reach(*parent);
            if row.first == None {
                row.first = Some(*parent);
            }
        }
        self.rows.push(row)?;
        Ok(())
    }

    /// What the commit at a place reaches.
    pub fn reach(&self, place: u64) -> u64 {
        match self.rows.get(place as usize) {
            Some(row) => row.reach,
            None => 0,
        }
    }

    /// The graph's first commits.
    pub fn cut(&self, alloc: Global, count: usize) -> Result<Graph, AllocError> {
        let mut rows = Vec::new(alloc);
        for row in self.rows.iter().take(count) {
            rows.push(*row)?;
        }
        Ok(Graph { rows })
    }

    fn parents_of(&self, set: u64) -> u64 {
        let mut found = 0;
        for (place, row) in self.rows.iter().enumerate() {
            if has(set, place as u64) {
                found |= row.parents;
            }
        }
        found
    }

    fn children_of(&self, set: u64) -> u64 {
        let mut found = 0;
        for (place, row) in self.rows.iter().enumerate() {
            if row.parents & set != 0 {
                found |= bit(place as u64);
            }
        }
        found
    }

    fn ancestors_of(&self, set: u64) -> u64 {
        let mut found = 0;
        for (place, row) in self.rows.iter().enumerate() {
            if has(set, place as u64) {
                found |= row.reach;
            }
        }
        found
    }

    fn descendants_of(&self, set: u64) -> u64 {
        let mut found = 0;
        for (place, row) in self.rows.iter().enumerate() {
            if row.reach & set != 0 {
                found |= bit(place as u64);
            }
        }
        found
    }

    fn merges_of(&self, set: u64) -> u64 {
        let mut found = 0;
        for (place, row) in self.rows.iter().enumerate() {
            if has(set, place as u64) && count_bits(row.parents) >= 2 {
                found |= bit(place as u64);
            }
        }
        found
    }

    fn tips_of(&self, set: u64) -> u64 {
        let mut reached = 0;
        for (place, row) in self.rows.iter().enumerate() {
            if has(set, place as u64) {
                reached |= row.reach & !bit(place as u64);
            }
        }
        set & !reached
    }

    fn common_of(&self, set: u64) -> u64 {
        let mut found = if set == 0 { 0 } else { u64::MAX };
        for (place, row) in self.rows.iter().enumerate() {
            if has(set, place as u64) {
                found &= row.reach;
            }
        }
        found
    }

    /// The place that so many steps to the first parent lead to.
    pub fn first_ancestor(&self, place: u64, steps: u64) -> Option<u64> {
        let mut at = place;
        for _step in 0..steps {
            at = self.rows.get(at as usize)?.first?;
        }
        Some(at)
    }

    /// What the query makes of the set.
    pub fn made(&self, query: Query, set: u64) -> u64 {
        match query {
            Query::Parents => self.parents_of(set),
            Query::Children => self.children_of(set),
            Query::Ancestors => self.ancestors_of(set),
            Query::Descendants => self.descendants_of(set),
            Query::Heads => set & !self.parents_of(set),
            Query::Roots => set & !self.children_of(set),
            Query::Merges => self.merges_of(set),
            Query::Tips => self.tips_of(set),
            Query::Common => self.common_of(set),
            Query::Gca => {
                let common = self.common_of(set);
                common & !self.parents_of(common)
            }
        }
    }

    /// What the query makes of two sets.
    pub fn made_of_two(&self, query: PairQuery, first: u64, second: u64) -> u64 {
        match query {
            PairQuery::Range => self.descendants_of(first) & self.ancestors_of(second),
            PairQuery::Only => self.ancestors_of(first) & !self.ancestors_of(second),
        }
    }
}

/// The queries that take one set.
#[derive(Clone, Copy, Debug)]
pub enum Query {
    Parents,
    Children,
    Ancestors,
    Descendants,
    Heads,
    Roots,
    Merges,
    Tips,
    Common,
    Gca,
}

/// All of them.
pub const QUERIES: [Query; 10] = [
    Query::Parents,
    Query::Children,
    Query::Ancestors,
    Query::Descendants,
    Query::Heads,
    Query::Roots,
    Query::Merges,
    Query::Tips,
    Query::Common,
    Query::Gca,
];

/// The queries that take two sets.
#[derive(Clone, Copy, Debug)]
pub enum PairQuery {
    Range,
    Only,
}

/// Both of them.
pub const PAIR_QUERIES: [PairQuery; 2] = [PairQuery::Range, PairQuery::Only];
