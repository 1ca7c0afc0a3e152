//! Rows that are pending.

ghost use Rattle.std.specs.Prelude.{◌≡◌, ◌<◌, ◌≤◌, ◌↔◌, ◌++◌, ◌∷◌, [], List, ℕ, length, drop, slice_get, Some, IsTrue, IsSomeAnd, IfOk, OnOk, OnErr};
ghost use Rattle.segment_codec.specs.Lent.{segment_of, parents_left};
ghost use Rattle.segment_codec.specs.Record.{Segment, IsSegment, segment_bytes};
ghost use Rattle.flat_segments.specs.Placed.{PlacedSegment};
ghost use Rattle.flat_segments.specs.Kept.{IsSectionOf, MayPush};
ghost use Rattle.std.specs.List.{AllByRecursion};
ghost use Rattle.segment_rules.specs.Flat.{single};
ghost use Rattle.id_groups.specs.Lists.{IsIn};
ghost use Rattle.id_groups.specs.Name.{Name as NameBytes, IsName};
ghost use Rattle.batch_codec.specs.Payload.{names_bytes};
ghost use Rattle.payload_tables.specs.Pending.{HeldRow, HoldsRows, MayPushRow, FindsRow, FindsNames, IsRecordOf, row_names};

use crate::piece::{copied, piece};
use flat_segments::Section;
use id_groups::{Id, Name, NameRef};
use name_index::NameIndex;
use segment_codec::{Parents, SegmentRef, read_segment, write_segment};
use std::alloc::{AllocError, Global};
use std::marker::Model;

/// The rows that a session has added, as bytes: a record and a name for each. Contracts see what is kept; which rows it
/// holds, `HoldsRows` says.
#[derive(Drop)]
pub struct PendingRows {
    pub(crate) first: u64,
    pub(crate) records: Vec<u8>,
    pub(crate) places: Vec<u64>,
    pub(crate) names: Vec<u8>,
    pub(crate) section: Section,
    pub(crate) index: NameIndex,
}

impl Model for PendingRows {
    ghost use Rattle.payload_tables.specs.Pending.{PlainPending};

    ghost Value = { PlainPending };

    ghost view = { λ p. record { first = p.first; records = p.records.items; places = p.places.items; names = p.names.items; section = p.section; index = p.index } };
}

/// The name of a row that is pushed, and whether one of the rows before it has that name.
#[derive(Clone, Copy)]
struct Pushed<'a> {
    name: &'a Name,
    is_held: bool,
}

/// The segment of a row that is pushed, and the place where its record begins.
#[derive(Clone, Copy)]
struct PlacedRef<'a> {
    segment: SegmentRef<'a>,
    place: u64,
}

/// Puts a name, which stands or will stand behind these, into the index; one that is held already stays where it was. Want
/// of memory changes nothing.
fn add_name(index: &mut NameIndex, names: &[u8], pushed: &Pushed<'_>) -> Result<(), AllocError>
    ensures found { (before : List NameBytes) → FindsNames index.old before → names.now ≡ names_bytes before → AllByRecursion IsName before
        → (IsTrue pushed.now.is_held ↔ IsIn pushed.now.name.now before) → OnOk result (FindsNames index.new (before ++ pushed.now.name.now ∷ [])) }
    ensures unchanged { OnErr result (index.new ≡ index.old) }
{
    if pushed.is_held {
        return Ok(());
    }
    let at = names.len() as u64;
    index.insert_new_one(names, pushed.name.lend(), at)
}

/// Adds a segment and a name. A refusal changes neither.
fn add_found(
    section: &mut Section,
    index: &mut NameIndex,
    names: &[u8],
    placed: PlacedRef<'_>,
    pushed: &Pushed<'_>,
) -> Result<(), AllocError>
    requires segment { MayPush section.old (segment_of placed.segment) }
    requires section { (records : List PlacedSegment) × IsSectionOf section.old records }
    ensures section { OnOk result ((records : List PlacedSegment) → IsSectionOf section.old records → IsSectionOf section.new (records ++ record { place = placed.entry.place; segment = segment_of placed.entry.segment } ∷ [])) }
    ensures found { (before : List NameBytes) → FindsNames index.old before → names.now ≡ names_bytes before → AllByRecursion IsName before
        → (IsTrue pushed.now.is_held ↔ IsIn pushed.now.name.now before) → OnOk result (FindsNames index.new (before ++ pushed.now.name.now ∷ [])) }
    ensures unchanged { OnErr result ((section.new ≡ section.old) × (index.new ≡ index.old)) }
{
    let len = section.len();
    let end = section.end();
    section.push(placed.segment, placed.place)?;
    let added = add_name(index, names, pushed);
    if added.is_err() {
        section.cut_back(len, end);
    }
    added
}

/// Adds a name's bytes, and the parts that are found by it. A refusal changes nothing.
fn add_named(
    names: &mut Vec<u8>,
    section: &mut Section,
    index: &mut NameIndex,
    placed: PlacedRef<'_>,
    pushed: &Pushed<'_>,
) -> Result<(), AllocError>
    requires segment { MayPush section.old (segment_of placed.segment) }
    requires section { (records : List PlacedSegment) × IsSectionOf section.old records }
    ensures section { OnOk result ((records : List PlacedSegment) → IsSectionOf section.old records → IsSectionOf section.new (records ++ record { place = placed.entry.place; segment = segment_of placed.entry.segment } ∷ [])) }
    ensures found { (before : List NameBytes) → FindsNames index.old before → names.old.items ≡ names_bytes before → AllByRecursion IsName before
        → (IsTrue pushed.now.is_held ↔ IsIn pushed.now.name.now before) → OnOk result (FindsNames index.new (before ++ pushed.now.name.now ∷ [])) }
    ensures names { OnOk result (names.new.items ≡ names.old.items ++ pushed.now.name.now) }
    ensures whole { OnOk result (IsName pushed.now.name.now) }
    ensures unchanged { OnErr result ((names.new.items ≡ names.old.items) × (section.new ≡ section.old) × (index.new ≡ index.old)) }
{
    let len = names.len();
    names.extend_from_slice(pushed.name.lend().bytes)?;
    let (before, _) = names.split_at(len);
    let added = add_found(section, index, before, placed, pushed);
    if added.is_err() {
        names.truncate(len);
    }
    added
}

/// Adds the place of a record, a name's bytes, and the parts that are found by them. A refusal changes nothing.
fn add_parts(
    places: &mut Vec<u64>,
    names: &mut Vec<u8>,
    section: &mut Section,
    index: &mut NameIndex,
    placed: PlacedRef<'_>,
    pushed: &Pushed<'_>,
) -> Result<(), AllocError>
    requires segment { MayPush section.old (segment_of placed.segment) }
    requires section { (records : List PlacedSegment) × IsSectionOf section.old records }
    ensures section { OnOk result ((records : List PlacedSegment) → IsSectionOf section.old records → IsSectionOf section.new (records ++ record { place = placed.entry.place; segment = segment_of placed.entry.segment } ∷ [])) }
    ensures found { (before : List NameBytes) → FindsNames index.old before → names.old.items ≡ names_bytes before → AllByRecursion IsName before
        → (IsTrue pushed.now.is_held ↔ IsIn pushed.now.name.now before) → OnOk result (FindsNames index.new (before ++ pushed.now.name.now ∷ [])) }
    ensures names { OnOk result (names.new.items ≡ names.old.items ++ pushed.now.name.now) }
    ensures whole { OnOk result (IsName pushed.now.name.now) }
    ensures places { OnOk result (places.new.items ≡ places.old.items ++ placed.entry.place ∷ []) }
    ensures unchanged { OnErr result ((places.new.items ≡ places.old.items) × (names.new.items ≡ names.old.items) × (section.new ≡ section.old) × (index.new ≡ index.old)) }
{
    let len = places.len();
    places.push(placed.place)?;
    let added = add_named(names, section, index, placed, pushed);
    if added.is_err() {
        places.truncate(len);
    }
    added
}

/// How many bytes of a row's record stand before the numbers of its parents: the flags, the level, its id in eight bytes, the
/// span, and how many parents there are, which is at most eight.
const BEFORE_PARENTS: usize = 12;

/// The segment of a row's record. What is known of it isn't read.
fn segment_of_row<'a>(written: &'a [u8], id: Id) -> SegmentRef<'a>
    requires { (parents : List ℕ) × IsRecordOf id parents written.now }
    ensures { (parents : List ℕ) → IsRecordOf id parents written.now → segment_of result ≡ single id parents }
{
    let (_, numbers) = written.split_at(BEFORE_PARENTS);
    SegmentRef::flat(id, id, numbers)
}

/// The parents of the record at the place.
fn parents_of(records: &[u8], place: u64) -> Option<Parents<'_>>
    requires { place ≤ length records.now }
    ensures { (s : Segment) (rest : List ℕ) → IsSegment s → drop place records.now ≡ segment_bytes s ++ rest → IsSomeAnd result (λ p. parents_left p ≡ s.parents) }
{
    let (segment, _) = read_segment(&records[place as usize..])?;
    Some(segment.parents())
}

impl PendingRows {
    /// No rows yet; the first one will have the place `first` among the other ids. It takes no memory yet, and keeps the
    /// allocator.
    pub fn empty(alloc: Global, first: u64) -> PendingRows
        requires { first ≤ 65536 }
        ensures rows { HoldsRows result [] }
        ensures first { result.first ≡ first }
    {
        PendingRows {
            first,
            records: Vec::new(alloc),
            places: Vec::new(alloc),
            names: Vec::new(alloc),
            section: Section::empty(alloc),
            index: NameIndex::empty(alloc),
        }
    }

    /// Adds a row of which it is known whether one of the rows has its name. Want of memory changes nothing.
    fn push_row(&mut self, pushed: &Pushed<'_>, parents: &[Id]) -> Result<(), AllocError>
        requires row { MayPushRow self.old.first (length self.old.places) parents.now }
        requires rows { (rows : List HeldRow) × HoldsRows self.old rows }
        ensures pushed { (rows : List HeldRow) → HoldsRows self.old rows → (IsTrue pushed.now.is_held ↔ IsIn pushed.now.name.now (row_names rows))
            → OnOk result (HoldsRows self.new (rows ++ record { name = pushed.now.name.now; parents = parents.now } ∷ [])) }
        ensures first { self.new.first ≡ self.old.first }
        ensures unchanged { OnErr result (self.new ≡ self.old) }
    {
        let id = Id::other(self.first + self.places.len() as u64);
        let place = self.records.len();
        write_segment(&mut self.records, id, id, 0, parents)?;
        let (_, written) = self.records.split_at(place);
        let placed = PlacedRef {
            segment: segment_of_row(written, id),
            place: place as u64,
        };
        let added = add_parts(
            &mut self.places,
            &mut self.names,
            &mut self.section,
            &mut self.index,
            placed,
            pushed,
        );
        if added.is_err() {
            self.records.truncate(place);
        }
        added
    }

    /// Adds a row. Want of memory changes nothing.
    pub fn push(&mut self, name: &Name, parents: &[Id]) -> Result<(), AllocError>
        requires row { MayPushRow self.old.first (length self.old.places) parents.now }
        requires rows { (rows : List HeldRow) × HoldsRows self.old rows }
        ensures pushed { (rows : List HeldRow) → HoldsRows self.old rows → OnOk result (HoldsRows self.new (rows ++ record { name = name.now; parents = parents.now } ∷ [])) }
        ensures first { self.new.first ≡ self.old.first }
        ensures unchanged { OnErr result (self.new ≡ self.old) }
    {
        let is_held = self.find(name.lend()).is_some();
        self.push_row(&Pushed { name, is_held }, parents)
    }

    /// Adds a row as `push` does, where it is known that no row has its name: it isn't sought. Want of memory changes nothing.
    pub fn push_new(&mut self, name: &Name, parents: &[Id]) -> Result<(), AllocError>
        requires row { MayPushRow self.old.first (length self.old.places) parents.now }
        requires rows { (rows : List HeldRow) × HoldsRows self.old rows }
        ensures pushed { (rows : List HeldRow) → HoldsRows self.old rows → (IsIn name.now (row_names rows) → ⊥)
            → OnOk result (HoldsRows self.new (rows ++ record { name = name.now; parents = parents.now } ∷ [])) }
        ensures first { self.new.first ≡ self.old.first }
        ensures unchanged { OnErr result (self.new ≡ self.old) }
    {
        let pushed = Pushed {
            name,
            is_held: false,
        };
        self.push_row(&pushed, parents)
    }

    /// What the rows are found by once more: the section and the index.
    fn copy_found(&self, alloc: Global) -> Result<(Section, NameIndex), AllocError>
        ensures { IfOk result (λ copy. (copy.0 ≡ self.now.section) × (copy.1 ≡ self.now.index)) }
    {
        let section = self.section.copy(alloc)?;
        let index = self.index.copy(alloc)?;
        Ok((section, index))
    }

    /// The same rows once more.
    pub fn copy(&self, alloc: Global) -> Result<PendingRows, AllocError>
        ensures { IfOk result (λ copy. copy ≡ self.now) }
    {
        let records = copied(alloc, &self.records)?;
        let places = copied(alloc, &self.places)?;
        let names = copied(alloc, &self.names)?;
        let (section, index) = self.copy_found(alloc)?;
        Ok(PendingRows {
            first: self.first,
            records,
            places,
            names,
            section,
            index,
        })
    }

    /// The place of the first row among the other ids.
    pub fn first(&self) -> u64
        ensures { result ≡ self.now.first }
    {
        self.first
    }

    /// The rows' names, one after another.
    pub fn names(&self) -> &[u8]
        ensures { result.now ≡ self.now.names }
    {
        &self.names
    }

    /// How many rows there are.
    pub fn len(&self) -> u32
        requires { (rows : List HeldRow) × HoldsRows self.now rows }
        ensures len { (rows : List HeldRow) → HoldsRows self.now rows → result ≡ length rows }
        ensures places { result ≡ length self.now.places }
    {
        self.places.len() as u32
    }

    /// The name of row `i`, which is below `len`.
    pub fn name(&self, i: u32) -> NameRef<'_>
        requires { (rows : List HeldRow) × HoldsRows self.now rows × (i < length rows) }
        ensures { (rows : List HeldRow) (row : HeldRow) → HoldsRows self.now rows → slice_get rows i ≡ Some row → result.bytes.now ≡ row.name }
    {
        piece(&self.names, 20 * i as usize)
    }

    /// The ids of the parents of row `i`, which is below `len`, in order.
    pub fn parents(&self, i: u32) -> Option<Parents<'_>>
        requires { (rows : List HeldRow) × HoldsRows self.now rows × (i < length rows) }
        ensures { (rows : List HeldRow) (row : HeldRow) → HoldsRows self.now rows → slice_get rows i ≡ Some row → IsSomeAnd result (λ p. parents_left p ≡ row.parents) }
    {
        let place = self.places[i as usize];
        parents_of(&self.records, place)
    }

    /// The row with the name; `None` exactly where none has it. A name that was pushed twice finds one of its rows.
    pub fn find(&self, name: NameRef<'_>) -> Option<u32>
        requires { (rows : List HeldRow) × HoldsRows self.now rows }
        ensures { (rows : List HeldRow) → HoldsRows self.now rows → FindsRow rows name.entry.bytes.now result }
    {
        let place = self.index.find(&self.names, name)?;
        Some((place / 20) as u32)
    }
}
