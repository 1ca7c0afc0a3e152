//! The other ids of one payload.

ghost use Rattle.std.specs.Prelude.{◌≡◌, ◌<◌, ◌≤◌, ◌+◌, ◌*◌, ◌^◌, List, [], length, take, drop, IfOk};
ghost use Rattle.segment_codec.specs.Record.{Segment};
ghost use Rattle.flat_segments.specs.Placed.{placed_segments};
ghost use Rattle.payload_tables.specs.Sections.{AreOthers};
ghost use Rattle.flat_segments.specs.Kept.{IsSectionOf};
ghost use Rattle.name_map.specs.Added.{names_from};
ghost use Rattle.name_index.specs.Index.{IsIndexOf};
ghost use Rattle.id_groups.specs.Lists.{AreDistinct};
ghost use Rattle.batch_codec.specs.Lent.{payload_of, lent_names};
ghost use Rattle.name_map.specs.Adding.{placed};
ghost use Rattle.batch_codec.specs.Payload.{names_start, payload_bytes};
ghost use Rattle.payload_tables.specs.Kept.{AreNamed, AreOthersOf, AreNoOthers};

use batch_codec::{BatchRef, NameSlice};
use flat_segments::Section;
use name_index::NameIndex;
use segment_codec::pass_segment;
use std::alloc::{AllocError, Global};
use std::marker::Model;
use std::rc::Rc;

/// The records of other ids, and the index of their names.
#[derive(Drop)]
struct Parts {
    section: Section,
    index: NameIndex,
}

/// The records and the names of one payload's other ids, by their places in the log. Contracts see what is kept; whose it
/// is, `AreOthersOf` says. What was read of a payload is shared by all copies; `own`, which takes no memory, stands where
/// there is none.
pub struct OthersTable {
    own: Parts,
    shared: Option<Rc<Parts>>,
    pub(crate) names: u64,
    pub(crate) count: u32,
}

impl Model for OthersTable {
    ghost use Rattle.std.specs.Option.{option_map_or};
    ghost use Rattle.payload_tables.specs.Kept.{PlainOthers};

    ghost Value = { PlainOthers };

    ghost view = { λ t. record {
      section = option_map_or (λ parts. parts.value.section) t.shared t.own.section;
      names = t.names;
      count = t.count;
      index = option_map_or (λ parts. parts.value.index) t.shared t.own.index;
    } };
}

// Written out, so that a body which owns a table lets it go by one call.
impl Drop for OthersTable {
    fn drop(self) {
        let OthersTable {
            own: _own,
            shared: _shared,
            names: _names,
            count: _count,
        } = self;
    }
}

impl Parts {
    /// The parts without ids. They take no memory yet, and keep the allocator.
    fn empty(alloc: Global) -> Parts
        ensures section { IsSectionOf result.section [] }
        ensures index { IsIndexOf result.index [] }
    {
        Parts {
            section: Section::empty(alloc),
            index: NameIndex::empty(alloc),
        }
    }

    /// The same parts once more.
    fn copy(&self, alloc: Global) -> Result<Parts, AllocError>
        ensures section { IfOk result (λ copy. copy.section ≡ self.now.section) }
        ensures index { IfOk result (λ copy. copy.index ≡ self.now.index) }
    {
        let section = self.section.copy(alloc)?;
        let index = self.index.copy(alloc)?;
        Ok(Parts { section, index })
    }
}

impl OthersTable {
    /// The table without ids. It takes no memory yet, and keeps the allocator.
    pub fn empty(alloc: Global) -> OthersTable
        ensures { AreNoOthers result }
    {
        OthersTable {
            own: Parts::empty(alloc),
            shared: None,
            names: 0,
            count: 0,
        }
    }

    /// The other ids of a payload, by the index of its names.
    fn with_index(
        alloc: Global,
        batch: &BatchRef<'_>,
        at: u64,
        index: NameIndex,
    ) -> Result<OthersTable, AllocError>
        requires { at + length (payload_bytes (payload_of batch.now)) < 2 ^ 63 }
        ensures { IfOk result (λ others. IsIndexOf index (names_from (at + names_start (payload_of batch.now)) (payload_of batch.now).other_names)
            → AreOthersOf others (placed at batch.now)) }
    {
        batch.is_payload();
        let segments = batch.other_segments();
        let count = segments.len();
        let section = section_of(alloc, count, segments.bytes(), at + segments.start())?;
        let names = batch.other_names();
        let start = at + names.start();
        let parts = Rc::new(alloc, Parts { section, index })?;
        Ok(OthersTable {
            own: Parts::empty(alloc),
            shared: Some(parts),
            names: start,
            count: names.len(),
        })
    }

    /// The other ids of a payload that stands, or will stand, at the place `at` in the log. Where two of its names are the
    /// same, it tells nothing of names.
    pub fn read(alloc: Global, batch: &BatchRef<'_>, at: u64) -> Result<OthersTable, AllocError>
        requires { at + length (payload_bytes (payload_of batch.now)) < 2 ^ 63 }
        ensures { IfOk result (λ others. AreDistinct (payload_of batch.now).other_names → AreOthersOf others (placed at batch.now)) }
    {
        batch.is_payload();
        let names = batch.other_names();
        let index = index_of(alloc, &names, at + names.start())?;
        let others = OthersTable::with_index(alloc, batch, at, index)?;
        Ok(others)
    }

    /// The other ids of a payload, as `read` gives them, where these are those of the payload before it, whose names stand in the bytes.
    /// Names that stood there are not sorted anew.
    pub fn next(
        &self,
        alloc: Global,
        bytes: &[u8],
        batch: &BatchRef<'_>,
        at: u64,
    ) -> Result<OthersTable, AllocError>
        requires room { at + length (payload_bytes (payload_of batch.now)) < 2 ^ 63 }
        requires named { AreNamed bytes.now self.now }
        ensures { IfOk result (λ others. AreDistinct (payload_of batch.now).other_names → AreOthersOf others (placed at batch.now)) }
    {
        batch.is_payload();
        let names = batch.other_names();
        let index = index_behind(self, bytes, &names, at + names.start())?;
        let others = OthersTable::with_index(alloc, batch, at, index)?;
        Ok(others)
    }

    /// The same table once more. What was read of a payload is shared and not copied.
    pub fn copy(&self, alloc: Global) -> Result<OthersTable, AllocError>
        ensures { IfOk result (λ copy. copy ≡ self.now) }
    {
        let own = self.own.copy(alloc)?;
        let shared = match &self.shared {
            Some(parts) => Some(parts.clone()?),
            None => None,
        };
        Ok(OthersTable {
            own,
            shared,
            names: self.names,
            count: self.count,
        })
    }

    /// The records.
    pub(crate) fn section(&self) -> &Section
        ensures { result.now ≡ self.now.section }
    {
        match &self.shared {
            Some(parts) => &parts.as_ref().section,
            None => &self.own.section,
        }
    }

    /// The index of the names.
    pub(crate) fn index(&self) -> &NameIndex
        ensures { result.now ≡ self.now.index }
    {
        match &self.shared {
            Some(parts) => &parts.as_ref().index,
            None => &self.own.index,
        }
    }

    /// How many other ids there are.
    pub fn count(&self) -> u32
        ensures { result ≡ self.now.count }
    {
        self.count
    }

    /// Their names one after another, lent from the log's bytes, in which they stand.
    pub fn names<'a>(&self, bytes: &'a [u8]) -> &'a [u8]
        requires { self.now.names + 20 * self.now.count ≤ length bytes.now }
        ensures { result.now ≡ take (20 * self.now.count) (drop self.now.names bytes.now) }
    {
        let (_, rest) = bytes.split_at(self.names as usize);
        let (names, _) = rest.split_at(20 * self.count as usize);
        names
    }
}

/// The index of names that stand, or will stand, at a place. Whether two of them are the same isn't looked at: of such names it tells
/// nothing.
fn index_of(alloc: Global, names: &NameSlice<'_>, at: u64) -> Result<NameIndex, AllocError>
    requires { at + 20 * length (lent_names names.now) < 2 ^ 64 }
    ensures { IfOk result (λ index. AreDistinct (lent_names names.now) → IsIndexOf index (names_from at (lent_names names.now))) }
{
    let index = NameIndex::of_names(alloc, at, names.bytes())?;
    Ok(index)
}

/// The same, where many of the names stand in the bytes as those of these other ids: `index_of` by what is known of them.
fn index_behind(
    old: &OthersTable,
    bytes: &[u8],
    names: &NameSlice<'_>,
    at: u64,
) -> Result<NameIndex, AllocError>
    requires room { at + 20 * length (lent_names names.now) < 2 ^ 63 }
    requires named { AreNamed bytes.now old.now }
    ensures { IfOk result (λ index. AreDistinct (lent_names names.now) → IsIndexOf index (names_from at (lent_names names.now))) }
{
    let stored = old.names(bytes);
    let index = old.index().moved(old.names, stored, at, names.bytes())?;
    Ok(index)
}

/// The section of so many records that stand, or will stand, at a place. They are known to be records, so none is looked at twice.
fn section_of(alloc: Global, count: u32, records: &[u8], at: u64) -> Result<Section, AllocError>
    requires records { (segments : List Segment) × AreOthers segments records.now }
    requires place { at + length records.now < 2 ^ 63 }
    ensures { IfOk result (λ section. (segments : List Segment) → AreOthers segments records.now → IsSectionOf section (placed_segments at segments)) }
{
    let mut section = Section::with_room(alloc, count as usize)?;
    let mut rest = records;
    'records: while !rest.is_empty() {
        let (segment, after) = pass_segment(rest);
        section.push(segment, at + (records.len() - rest.len()) as u64)?;
        rest = after;
    }
    Ok(section)
}
