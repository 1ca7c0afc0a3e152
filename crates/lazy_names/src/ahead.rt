//! Telling a mirror which names it is asked for next.

ghost use Rattle.std.specs.Prelude.{◌≡◌, ◌⊎◌, ◌<◌, ◌≤◌, ◌+◌, ◌^◌, ℕ, List, length, map, MatchOption, IfSome};
ghost use Rattle.id_groups.specs.Lists.{IsIn};
ghost use Rattle.segment_codec.specs.Table.{IsHeld};
ghost use Rattle.name_map.specs.Added.{Placed, AllStand, known_of};
ghost use Rattle.name_map.specs.Map.{IsMapOf};
ghost use Rattle.remote_trait.specs.Runs.{Run as PlainRun};
ghost use Rattle.lazy_names.specs.Ahead.{AreAhead, AddsTurn, AreTold, most_told};

use crate::anchor::anchor_of;
use crate::lazy::LazyNames;
use crate::stored::Stored;
use id_groups::Id;
use mirror_set::{expect_names, may_expect};
use name_map::NameMap;
use remote_trait::{Remote, Run};
use segment_codec::SegmentTable;
use std::alloc::Global;

/// How many runs are told at once.
const MOST_AHEAD: usize = 64;

/// Some runs of the first ids, so many.
#[derive(Drop)]
struct Ahead {
    runs: Vec<Run>,
    ids: usize,
}

impl LazyNames {
    /// Tells the first mirror which runs of these ids it is asked for next, unless the first of them, so many, were told already or
    /// that isn't worth its while. It answers how many are told then.
    pub(crate) fn tell_next<T: SegmentTable, R: Remote>(
        &self,
        alloc: Global,
        stored: Stored<'_, T>,
        mirrors: &mut Vec<R>,
        ids: &[Id],
        told: usize,
    ) -> usize
        requires few { length ids.now < 2 ^ 32 }
        requires held { (id : ℕ) → IsIn id ids.now → IsHeld (T.flats stored.table.now) id }
        requires ahead { (added : List Placed) → IsMapOf stored.known.now added → AllStand stored.bytes.now added → AreTold (T.flats stored.table.now) (known_of added) self.now.entries ids.now told }
        ensures shown { map R.shown mirrors.new.items ≡ map R.shown mirrors.old.items }
        ensures len { length mirrors.new.items ≡ length mirrors.old.items }
        ensures ahead { (added : List Placed) → IsMapOf stored.entry.known.now added → AllStand stored.entry.bytes.now added
            → AreTold (T.flats stored.entry.table.now) (known_of added) self.now.entries ids.now result }
        ensures next { (result ≡ told) ⊎ ((told ≡ 0) × (runs : List PlainRun) × (length runs ≤ most_told)
            × ((added : List Placed) → IsMapOf stored.entry.known.now added → AllStand stored.entry.bytes.now added
            → AreAhead (T.flats stored.entry.table.now) (known_of added) self.now.entries ids.now runs result)) }
    {
        if 0 < told || !may_expect(mirrors) {
            return told;
        }
        let ahead = self.runs_ahead(alloc, stored, ids);
        self.tell(alloc, stored, mirrors, ids, &ahead.runs, ahead.ids)
    }

    /// Tells the first mirror these runs, which are what is asked for the first ids, so many, and answers how many these are.
    fn tell<T: SegmentTable, R: Remote>(
        &self,
        alloc: Global,
        _stored: Stored<'_, T>,
        mirrors: &mut Vec<R>,
        _ids: &[Id],
        runs: &[Run],
        count: usize,
    ) -> usize
        requires few { length runs.now ≤ most_told }
        requires next { (added : List Placed) → IsMapOf _stored.known.now added → AllStand _stored.bytes.now added
            → AreAhead (T.flats _stored.table.now) (known_of added) self.now.entries _ids.now runs.now count }
        ensures shown { map R.shown mirrors.new.items ≡ map R.shown mirrors.old.items }
        ensures len { length mirrors.new.items ≡ length mirrors.old.items }
        ensures count { result ≡ count }
    {
        expect_names(alloc, mirrors, runs);
        count
    }

    /// The runs of the first ids, as they are asked for one after another.
    fn runs_ahead<T: SegmentTable>(&self, alloc: Global, stored: Stored<'_, T>, ids: &[Id]) -> Ahead
        requires few { length ids.now < 2 ^ 32 }
        requires held { (id : ℕ) → IsIn id ids.now → IsHeld (T.flats stored.table.now) id }
        ensures within { result.ids ≤ length ids.now }
        ensures few { length result.runs.items ≤ most_told }
        ensures ahead { (added : List Placed) → IsMapOf stored.entry.known.now added → AllStand stored.entry.bytes.now added
            → AreAhead (T.flats stored.entry.table.now) (known_of added) self.now.entries ids.now result.runs.items result.ids }
    {
        let mut runs = Vec::new(alloc);
        let mut at = 0;
        'runs: while at < ids.len() && runs.len() < MOST_AHEAD {
            let (_, rest) = ids.split_at(at);
            match self.add_run(stored, rest, &mut runs) {
                Some(count) => at += count,
                None => return Ahead { runs, ids: at },
            }
        }
        Ahead { runs, ids: at }
    }

    /// Puts the run that is asked for the first of the ids behind the others, unless the cache has its name, and answers how many of the
    /// ids have names then; `None` where there is nothing to ask, and for want of memory.
    fn add_run<T: SegmentTable>(
        &self,
        stored: Stored<'_, T>,
        ids: &[Id],
        runs: &mut Vec<Run>,
    ) -> Option<usize>
        requires some { 0 < length ids.now }
        requires few { length ids.now < 2 ^ 32 }
        requires held { (id : ℕ) → IsIn id ids.now → IsHeld (T.flats stored.table.now) id }
        ensures some { IfSome result (λ count. (0 < count) × (count ≤ length ids.now)) }
        ensures one { length runs.new.items ≤ length runs.old.items + 1 }
        ensures turn { MatchOption result (runs.new.items ≡ runs.old.items)
            (λ count. (added : List Placed) → IsMapOf stored.entry.known.now added → AllStand stored.entry.bytes.now added
            → AddsTurn (T.flats stored.entry.table.now) (known_of added) self.now.entries ids.now count runs.old.items runs.new.items) }
    {
        if self.cached(ids[0]).is_some() {
            return Some(1);
        }
        let anchor = anchor_of(stored, ids[0])?;
        let count = self.run_len(ids, anchor.low);
        let run = Run {
            x: anchor.name,
            back: anchor.back,
            count: count as u32,
        };
        match runs.push(run) {
            Ok(()) => Some(count),
            Err(_) => None,
        }
    }
}
