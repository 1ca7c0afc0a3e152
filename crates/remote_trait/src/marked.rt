//! Sets of ids most of which are small.

ghost use Rattle.std.specs.Prelude.{◌≡◌, ◌||◌, ℕ, false, map, nat_eq, IfOk, OnOk};
ghost use Rattle.id_groups.specs.Lists.{is_in};
ghost use Rattle.remote_trait.specs.Marked.{has};

use crate::clone::KnownName;
use std::alloc::{AllocError, Global};
use std::collections::BTreeSet;

/// At most so many ids have a mark, of a byte each.
const MOST: u128 = 1 << 24;

/// A set of ids: a mark for each of the first ones, and the others in a tree.
#[derive(Drop)]
pub(crate) struct MarkedIds {
    marks: Vec<bool>,
    others: BTreeSet<u64>,
}

impl MarkedIds {
    /// No ids. Those that will come are quick to put in and to find below this number, if it isn't too large.
    pub(crate) fn new(alloc: Global, end: u128) -> Result<MarkedIds, AllocError>
        ensures { IfOk result (λ ids. (q : ℕ) → has ids q ≡ false) }
    {
        let count = end.min(MOST) as usize;
        let marks = vec![in alloc; false; count]?;
        Ok(MarkedIds {
            marks,
            others: BTreeSet::new(alloc),
        })
    }

    /// Puts an id into the set.
    pub(crate) fn insert(&mut self, id: u64) -> Result<(), AllocError>
        ensures { OnOk result ((q : ℕ) → has self.new q ≡ (has self.old q || nat_eq q id)) }
    {
        let place = id as usize;
        if place < self.marks.len() {
            self.marks[place] = true;
            return Ok(());
        }
        self.others.insert(id)?;
        Ok(())
    }

    /// Whether the id is in the set.
    pub(crate) fn contains(&self, id: u64) -> bool
        ensures { result ≡ has self.now id }
    {
        let place = id as usize;
        if place < self.marks.len() {
            return self.marks[place];
        }
        self.others.contains(&id)
    }
}

/// The ids that have a name, of segments that end here.
pub(crate) fn named_ids(
    alloc: Global,
    names: &[KnownName],
    end: u128,
) -> Result<MarkedIds, AllocError>
    ensures { IfOk result (λ ids. (q : ℕ) → has ids q ≡ is_in nat_eq q (map (λ k. k.id) names.now)) }
{
    let mut ids = MarkedIds::new(alloc, end)?;
    'names: for k in 0..names.len() {
        let known = &names[k];
        ids.insert(known.id)?;
    }
    Ok(ids)
}
