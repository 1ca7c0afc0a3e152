//! The index: its runs, look-ups and inserts.

ghost use Rattle.std.specs.Prelude.{◌≡◌, ◌<◌, ◌≤◌, ◌+◌, ◌*◌, ◌^◌, ◌↔◌, ◌++◌, ℕ, List, [], ◌∷◌, length, take, drop, map, IfOk, IfSome, OnOk, OnErr, Err, IsTrue, true, false};
ghost use Rattle.std.specs.List.{AllByRecursion};
ghost use Rattle.id_groups.specs.Lists.{AreDistinct, IsIn};
ghost use Rattle.name_index.specs.Index.{IsIndexOf, Finds};
ghost use Rattle.name_index.specs.Runs.{AreRuns, Holds, HaveCommon, entry_of, front_of, joined};
ghost use Rattle.name_index.specs.declared.index.IndexFault.{IndexFault as Fault};
ghost use Rattle.name_index.specs.Named.{NamedPlace, NamesStand, StandFrom, named_in, names_in, places_in};

use crate::entry::{Entry, NAME_BYTES, Stretch, front_of_name, name_at};
use crate::moved::moves_of;
use crate::run::Run;
use id_groups::NameRef;
use std::alloc::{AllocError, AllocFailed, Global};
use std::marker::Model;

/// A last run is merged with what is added behind it, unless it is more than about so many times as long. Smaller
/// means fewer merges, but more runs to look through.
const GROWTH: usize = 4;

/// A name alone is put into the last run, while that has fewer entries.
const SMALL: usize = 128;

/// Why names weren't inserted.
#[derive(Clone, Copy, PartialEq, Eq, Debug)]
pub enum IndexFault {
    /// A name is held already, or stands twice among the new ones.
    Double,
    /// There was no memory.
    Memory,
}

/// An index of names by place. Contracts see the list of its runs, and speak of it by `IsIndexOf` alone.
#[derive(Drop)]
pub struct NameIndex {
    alloc: Global,
    runs: Vec<Run>,
}

impl Model for NameIndex {
    ghost use Rattle.std.specs.Prelude.{List};
    ghost use Rattle.name_index.specs.declared.entry.Entry.{Entry};

    ghost Value = { List (List Entry) };

    ghost view = { λ index. index.runs.items };
}

impl From<AllocError> for IndexFault {
    ghost use Rattle.std.specs.Prelude.{◌≡◌};
    ghost use Rattle.name_index.specs.declared.index.IndexFault.TheVariants.{Memory};

    ghost from_gives = { λ _ fault. fault ≡ Memory };

    fn from(_refused: AllocError) -> IndexFault {
        IndexFault::Memory
    }
}

impl<T: Drop> From<AllocFailed<T>> for IndexFault {
    ghost use Rattle.std.specs.Prelude.{◌≡◌};
    ghost use Rattle.name_index.specs.declared.index.IndexFault.TheVariants.{Memory};

    ghost from_gives = { λ _ fault. fault ≡ Memory };

    fn from(_refused: AllocFailed<T>) -> IndexFault {
        IndexFault::Memory
    }
}

/// The place of the name, whose front is given, in one of the runs.
fn find_in(runs: &[Run], stretch: &Stretch<'_>, front: u64, name: &[u8]) -> Option<u64>
    requires { front ≡ front_of name.now }
    ensures { (held : List (List NamedPlace)) → AreRuns runs.now held → AllByRecursion (StandFrom stretch.now.at stretch.now.bytes.now) held → Finds (joined held) name.now result }
{
    let (run, others) = runs.split_first()?;
    match run.find(stretch, front, name) {
        Some(place) => Some(place),
        None => find_in(others, stretch, front, name),
    }
}

/// Whether one of the entries has a name that one of the runs holds.
fn has_held(runs: &[Run], old: &Stretch<'_>, entries: &[Entry], new: &Stretch<'_>) -> bool
    ensures { (held : List (List NamedPlace)) (named : List NamedPlace) → AreRuns runs.now held → AllByRecursion (StandFrom old.now.at old.now.bytes.now) held
        → entries.now ≡ map entry_of named → StandFrom new.now.at new.now.bytes.now named
        → IsTrue result ↔ HaveCommon (names_in named) (names_in (joined held)) }
{
    let mut rest = entries;
    'each: while let Some((entry, others)) = rest.split_first() {
        let name = name_at(new, entry.place);
        if find_in(runs, old, front_of_name(name), name).is_some() {
            return true;
        }
        rest = others;
    }
    false
}

/// How many of the first runs stay as they are, where a run of so many entries is added behind them.
fn count_kept(runs: &[Run], added: usize) -> usize
    ensures { result ≤ length runs.now }
{
    let mut kept = runs.len();
    let mut size = added;
    'due: while kept > 0 && runs[kept - 1].len() / GROWTH <= size {
        kept -= 1;
        size = size.saturating_add(runs[kept].len());
    }
    kept
}

/// How many runs stand before the last one, if that has room for a name alone.
fn room_in(runs: &[Run]) -> Option<usize>
    ensures { IfSome result (λ before. length runs.now ≡ before + 1) }
{
    let (last, front) = runs.split_last()?;
    if last.len() < SMALL {
        return Some(front.len());
    }
    None
}

/// How many of the first runs stay as they are, where the last one is full and a further one begins.
fn count_settled(runs: &[Run]) -> usize
    ensures { result ≤ length runs.now }
{
    match runs.split_last() {
        None => 0,
        Some((last, front)) => count_kept(front, last.len()),
    }
}

/// The runs as one, the last and shortest merged first.
fn merge_all(alloc: Global, stretch: &Stretch<'_>, runs: &[Run]) -> Result<Run, AllocError>
    ensures { IfOk result (λ run. (held : List (List NamedPlace)) → AreRuns runs.now held → AllByRecursion (StandFrom stretch.now.at stretch.now.bytes.now) held → Holds run (joined held)) }
{
    match runs.split_first() {
        None => Ok(Run::empty(alloc)),
        Some((first, others)) => {
            let later = merge_all(alloc, stretch, others)?;
            let merged = Run::merge(alloc, stretch, first, stretch, &later)?;
            Ok(merged)
        }
    }
}

/// These runs and the new run as one.
fn merge_new(
    alloc: Global,
    old: &Stretch<'_>,
    runs: &[Run],
    new: &Stretch<'_>,
    run: &Run,
) -> Result<Run, AllocError>
    ensures { IfOk result (λ merged. (held : List (List NamedPlace)) (named : List NamedPlace) → AreRuns runs.now held → AllByRecursion (StandFrom old.now.at old.now.bytes.now) held → Holds run.now named → StandFrom new.now.at new.now.bytes.now named → Holds merged (joined held ++ named)) }
{
    if let [only] = runs {
        let merged = Run::merge(alloc, old, only, new, run)?;
        return Ok(merged);
    }
    let due = merge_all(alloc, old, runs)?;
    let merged = Run::merge(alloc, old, &due, new, run)?;
    Ok(merged)
}

/// The runs behind the first `kept` ones and the new run as one.
fn merge_last(
    alloc: Global,
    old: &Stretch<'_>,
    runs: &[Run],
    kept: usize,
    new: &Stretch<'_>,
    run: Run,
) -> Result<Run, AllocError>
    requires { kept ≤ length runs.now }
    ensures { IfOk result (λ merged. (held : List (List NamedPlace)) (named : List NamedPlace) → AreRuns (drop kept runs.now) held → AllByRecursion (StandFrom old.now.at old.now.bytes.now) held → Holds run named → StandFrom new.now.at new.now.bytes.now named → Holds merged (joined held ++ named)) }
{
    let (_front, last) = runs.split_at(kept);
    if last.is_empty() {
        return Ok(run);
    }
    let merged = merge_new(alloc, old, last, new, &run)?;
    Ok(merged)
}

/// Whether a name of the run stands twice in it, or is held.
fn are_double(runs: &[Run], old: &Stretch<'_>, run: &Run, new: &Stretch<'_>) -> bool
    ensures double { result ≡ true → (held : List (List NamedPlace)) (named : List NamedPlace) → AreRuns runs.now held → AllByRecursion (StandFrom old.now.at old.now.bytes.now) held → Holds run.now named → StandFrom new.now.at new.now.bytes.now named → ¬ AreDistinct (names_in (joined held ++ named)) }
    ensures once { result ≡ false → (held : List (List NamedPlace)) (named : List NamedPlace) → AreRuns runs.now held → AllByRecursion (StandFrom old.now.at old.now.bytes.now) held → Holds run.now named → StandFrom new.now.at new.now.bytes.now named → AreDistinct (names_in (joined held)) → AreDistinct (names_in (joined held ++ named)) }
{
    if run.has_double(new) {
        return true;
    }
    has_held(runs, old, run.entries(), new)
}

/// The names at these places as a run, where none of them stands twice or is held.
fn run_of_new(
    alloc: Global,
    runs: &[Run],
    old: &Stretch<'_>,
    new: &Stretch<'_>,
    places: &[u64],
) -> Result<Run, IndexFault>
    ensures ok { IfOk result (λ run. (held : List (List NamedPlace)) (named : List NamedPlace) → AreRuns runs.now held → AllByRecursion (StandFrom old.now.at old.now.bytes.now) held → StandFrom new.now.at new.now.bytes.now named → places_in named ≡ places.now → Holds run named × (AreDistinct (names_in (joined held)) → AreDistinct (names_in (joined held ++ named)))) }
    ensures double { (held : List (List NamedPlace)) (named : List NamedPlace) → AreRuns runs.now held → AllByRecursion (StandFrom old.now.at old.now.bytes.now) held → StandFrom new.now.at new.now.bytes.now named → places_in named ≡ places.now → result ≡ Err Fault.Double → ¬ AreDistinct (names_in (joined held ++ named)) }
{
    let run = Run::of_places(alloc, new, places)?;
    if are_double(runs, old, &run, new) {
        return Err(IndexFault::Double);
    }
    Ok(run)
}

/// The run, where there is one alone.
fn only_run(runs: &[Run]) -> Option<&Run>
    ensures { IfSome result (λ run. runs.now ≡ run.now ∷ []) }
{
    match runs {
        [only] => Some(only),
        _ => None,
    }
}

impl NameIndex {
    /// The index of no names. It takes no memory yet, and keeps the allocator.
    pub fn empty(alloc: Global) -> NameIndex
        ensures { IsIndexOf result [] }
    {
        NameIndex {
            alloc,
            runs: Vec::new(alloc),
        }
    }

    /// The same index once more.
    pub fn copy(&self, alloc: Global) -> Result<NameIndex, AllocError>
        ensures { IfOk result (λ copy. copy ≡ self.now) }
    {
        let mut runs = Vec::with_capacity(alloc, self.runs.len())?;
        'runs: for run in &self.runs {
            runs.push(run.copy(alloc)?)?;
        }
        Ok(NameIndex { alloc, runs })
    }

    /// The place of the name, read from the bytes in which the names of the index stand; `None` exactly where it is
    /// not held. A search in each run whose filter lets the name pass; places outside the bytes are read as no name.
    pub fn find(&self, bytes: &[u8], name: NameRef<'_>) -> Option<u64>
        ensures { (all : List NamedPlace) → IsIndexOf self.now all → NamesStand bytes.now all → Finds all name.entry.bytes.now result }
    {
        let front = front_of_name(name.bytes);
        find_in(&self.runs, &Stretch { bytes, at: 0 }, front, name.bytes)
    }

    /// Puts the run in place of those behind the first `kept` ones. On want of memory all stay.
    fn replace(&mut self, kept: usize, run: Run) -> Result<(), AllocError>
        requires { kept ≤ length self.old }
        ensures replaced { OnOk result (self.new ≡ take kept self.old ++ run ∷ []) }
        ensures unchanged { OnErr result (self.new ≡ self.old) }
    {
        let filtered = run.with_filter(self.alloc);
        if kept == self.runs.len() {
            self.runs.push(filtered)?;
            return Ok(());
        }
        self.runs[kept] = filtered;
        self.runs.truncate(kept + 1);
        Ok(())
    }

    /// Puts both runs in place of those behind the first `kept` ones, of which there are two or more.
    fn replace_by_two(&mut self, kept: usize, merged: Run, run: Run)
        requires { kept + 2 ≤ length self.old }
        ensures { self.new ≡ take kept self.old ++ merged ∷ run ∷ [] }
    {
        self.runs[kept] = merged.with_filter(self.alloc);
        self.runs[kept + 1] = run;
        self.runs.truncate(kept + 2);
    }

    /// The index that holds this run alone.
    fn of_run(alloc: Global, run: Run) -> Result<NameIndex, AllocError>
        ensures { IfOk result (λ index. index ≡ run ∷ []) }
    {
        let mut runs = Vec::new(alloc);
        runs.push(run)?;
        Ok(NameIndex { alloc, runs })
    }

    /// The index of the names that stand at these places in the bytes, made at once. `Double` comes only where they aren't
    /// distinct.
    pub fn of_places(alloc: Global, bytes: &[u8], places: &[u64]) -> Result<NameIndex, IndexFault>
        ensures made { IfOk result (λ index. (new : List NamedPlace) → NamesStand bytes.now new → places_in new ≡ places.now → IsIndexOf index new) }
        ensures double { (new : List NamedPlace) → NamesStand bytes.now new → places_in new ≡ places.now → result ≡ Err Fault.Double → ¬ AreDistinct (names_in new) }
    {
        let stretch = Stretch { bytes, at: 0 };
        let run = Run::of_places(alloc, &stretch, places)?;
        if run.has_double(&stretch) {
            return Err(IndexFault::Double);
        }
        let index = NameIndex::of_run(alloc, run.with_filter(alloc))?;
        Ok(index)
    }

    /// The index of the names that stand, or will stand, one behind another from the place `at` on.
    pub fn of_names(alloc: Global, at: u64, names: &[u8]) -> Result<NameIndex, AllocError>
        requires { at + length names.now < 2 ^ 64 }
        ensures { IfOk result (λ index. (n : ℕ) → length names.now ≡ 20 * n → AreDistinct (names_in (named_in n at names.now)) → IsIndexOf index (named_in n at names.now)) }
    {
        let run = Run::of_names(alloc, &Stretch { bytes: names, at })?;
        let index = NameIndex::of_run(alloc, run.with_filter(alloc))?;
        Ok(index)
    }

    /// The index of those of its names that stand elsewhere now, one behind another from the place `to` on, in the order in which
    /// they stood one behind another from the place `from` on; `None` where the index has several runs, or where
    /// some new name isn't found among the old ones in this order, as where there are more of them.
    fn thinned(
        &self,
        from: u64,
        old: &[u8],
        to: u64,
        new: &[u8],
    ) -> Result<Option<NameIndex>, AllocError>
        requires { to < 2 ^ 63 }
        ensures { IfOk result (λ found. IfSome found (λ index. (all : List NamedPlace) (n : ℕ) → IsIndexOf self.now all → StandFrom from old.now all → length new.now ≡ 20 * n
            → IsIndexOf index (named_in n to new.now))) }
    {
        let Some(only) = only_run(&self.runs) else {
            return Ok(None);
        };
        if new.len() > old.len() {
            return Ok(None);
        }
        let moves = moves_of(self.alloc, old, new)?;
        let run = only.moved(self.alloc, from, &moves, to)?;
        if run.len() != new.len() / NAME_BYTES {
            return Ok(None);
        }
        let index = NameIndex::of_run(self.alloc, run)?;
        Ok(Some(index))
    }

    /// The index of the names that stand, or will stand, one behind another from the place `to` on, where many of them are those of this
    /// index, which stand in `old` one behind another from the place `from` on. Where all of them are some of these in their
    /// order, as behind a strip, one walk over both finds each, and nothing is sorted.
    pub fn moved(&self, from: u64, old: &[u8], to: u64, new: &[u8]) -> Result<NameIndex, AllocError>
        requires { to + length new.now < 2 ^ 63 }
        ensures { IfOk result (λ index. (all : List NamedPlace) (n : ℕ) → IsIndexOf self.now all → StandFrom from old.now all → length new.now ≡ 20 * n
            → AreDistinct (names_in (named_in n to new.now)) → IsIndexOf index (named_in n to new.now)) }
    {
        match self.thinned(from, old, to, new)? {
            Some(index) => Ok(index),
            None => NameIndex::of_names(self.alloc, to, new),
        }
    }

    /// Puts an entry into the last run, the one behind the first `before`. Want of memory changes nothing.
    fn put_last(
        &mut self,
        before: usize,
        bytes: &[u8],
        name: &[u8],
        entry: Entry,
    ) -> Result<(), AllocError>
        requires { length self.old ≡ before + 1 }
        ensures added { (all : List NamedPlace) (n : NamedPlace) → IsIndexOf self.old all → NamesStand bytes.now all → entry ≡ entry_of n → n.name ≡ name.now
            → (IsIn name.now (names_in all) → ⊥) → OnOk result (IsIndexOf self.new (all ++ n ∷ [])) }
        ensures unchanged { OnErr result (self.new ≡ self.old) }
    {
        let last = &mut self.runs[before];
        last.insert(&Stretch { bytes, at: 0 }, name, entry)?;
        Ok(())
    }

    /// Begins a run of one entry, and merges the runs before it that are due. Want of memory changes nothing.
    fn begin_run(&mut self, bytes: &[u8], entry: Entry) -> Result<(), AllocError>
        ensures added { (all : List NamedPlace) (n : NamedPlace) → IsIndexOf self.old all → NamesStand bytes.now all → entry ≡ entry_of n
            → (IsIn n.name (names_in all) → ⊥) → OnOk result (IsIndexOf self.new (all ++ n ∷ [])) }
        ensures unchanged { OnErr result (self.new ≡ self.old) }
    {
        let run = Run::of_entry(self.alloc, entry)?;
        let kept = count_settled(&self.runs);
        if self.runs.len() - kept < 2 {
            self.runs.push(run)?;
            return Ok(());
        }
        let (_front, due) = self.runs.split_at(kept);
        let merged = merge_all(self.alloc, &Stretch { bytes, at: 0 }, due)?;
        self.replace_by_two(kept, merged, run);
        Ok(())
    }

    /// Adds a name that isn't held, and stands, or will stand, at the place; those that are held already stand in `bytes`. It isn't
    /// sought. Want of memory leaves the index as it was.
    pub fn insert_new_one(
        &mut self,
        bytes: &[u8],
        name: NameRef<'_>,
        place: u64,
    ) -> Result<(), AllocError>
        ensures added { (all : List NamedPlace) → IsIndexOf self.old all → NamesStand bytes.now all → (IsIn name.entry.bytes.now (names_in all) → ⊥)
            → OnOk result (IsIndexOf self.new (all ++ record { place = place; name = name.entry.bytes.now } ∷ [])) }
        ensures unchanged { OnErr result (self.new ≡ self.old) }
    {
        let entry = Entry {
            front: front_of_name(name.bytes),
            place,
        };
        match room_in(&self.runs) {
            Some(before) => self.put_last(before, bytes, name.bytes, entry),
            None => self.begin_run(bytes, entry),
        }
    }

    /// Puts a run of new names, no two of which are the same, behind the others, merged with those that are due. Want of memory
    /// changes nothing.
    fn put_run(&mut self, bytes: &[u8], new: &Stretch<'_>, run: Run) -> Result<(), AllocError>
        ensures added { (all named : List NamedPlace) → IsIndexOf self.old all → NamesStand bytes.now all → StandFrom new.now.at new.now.bytes.now named → Holds run named
            → AreDistinct (names_in (all ++ named)) → OnOk result (IsIndexOf self.new (all ++ named)) }
        ensures unchanged { OnErr result (self.new ≡ self.old) }
    {
        let old = Stretch { bytes, at: 0 };
        let kept = count_kept(&self.runs, run.len());
        let merged = merge_last(self.alloc, &old, &self.runs, kept, new, run)?;
        self.replace(kept, merged)?;
        Ok(())
    }

    /// Adds the names as `insert` does, where it is known that no two of them and of those that are held are the same: none is
    /// sought. Want of memory leaves the index as it was.
    pub fn insert_new(
        &mut self,
        bytes: &[u8],
        at: u64,
        added: &[u8],
        places: Vec<u64>,
    ) -> Result<(), AllocError>
        ensures added { (all named : List NamedPlace) → IsIndexOf self.old all → NamesStand bytes.now all → StandFrom at added.now named → places_in named ≡ places.items
            → AreDistinct (names_in (all ++ named)) → OnOk result (IsIndexOf self.new (all ++ named)) }
        ensures unchanged { OnErr result (self.new ≡ self.old) }
    {
        let stretch = Stretch { bytes: added, at };
        let run = Run::of_places(self.alloc, &stretch, &places)?;
        self.put_run(bytes, &stretch, run)?;
        Ok(())
    }

    /// Adds the names that stand at these places, in bytes `added` that stand, or will stand, at `at`. The names that
    /// are held already stand in `bytes`. `Double` comes only where the names together aren't distinct, and `Memory`
    /// for want of memory; either leaves the index as it was.
    pub fn insert(
        &mut self,
        bytes: &[u8],
        at: u64,
        added: &[u8],
        places: Vec<u64>,
    ) -> Result<(), IndexFault>
        ensures added { (all new : List NamedPlace) → IsIndexOf self.old all → NamesStand bytes.now all → StandFrom at added.now new → places_in new ≡ places.items → OnOk result (IsIndexOf self.new (all ++ new)) }
        ensures double { (all new : List NamedPlace) → IsIndexOf self.old all → NamesStand bytes.now all → StandFrom at added.now new → places_in new ≡ places.items → result ≡ Err Fault.Double → ¬ AreDistinct (names_in (all ++ new)) }
        ensures unchanged { OnErr result (self.new ≡ self.old) }
    {
        let old = Stretch { bytes, at: 0 };
        let new = Stretch { bytes: added, at };
        let run = run_of_new(self.alloc, &self.runs, &old, &new, &places)?;
        self.put_run(bytes, &new, run)?;
        Ok(())
    }
}
