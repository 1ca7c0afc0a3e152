//! The master ids of payloads: their table of segments, its levels, and the map of their names.

ghost use Rattle.std.specs.Prelude.{◌≡◌, ◌<◌, ◌+◌, ◌^◌, ◌++◌, ◌∷◌, [], List, flat_map, length, ◌↔◌, IsTrue, IfOk, OnOk, OnErr, Err};
ghost use Rattle.id_groups.specs.Lists.{AreDistinct};
ghost use Rattle.segment_codec.specs.Record.{Segment};
ghost use Rattle.batch_codec.specs.Lent.{payload_of};
ghost use Rattle.batch_codec.specs.Payload.{Payload, payload_bytes};
ghost use Rattle.payload_tables.specs.Places.{BringsMasters};
ghost use Rattle.flat_segments.specs.Kept.{IsTableOf};
ghost use Rattle.flat_segments.specs.Placed.{PlacedSegment, placed_segments};
ghost use Rattle.segment_levels.specs.Flats.{flats_of};
ghost use Rattle.segment_codec.specs.Record.{segment_bytes};
ghost use Rattle.segment_levels.specs.Kept.{AreLevelsOf};
ghost use Rattle.high_segments.specs.Extending.{MayExtendLevels, MayGrowBy};
ghost use Rattle.high_segments.specs.Growing.{AllFront};
ghost use Rattle.high_segments.specs.Storing.{CameSince};
ghost use Rattle.segment_rules.specs.NewLevels.{new_levels};
ghost use Rattle.change_rules.specs.Lawful.{levels_with};
ghost use Rattle.name_map.specs.Added.{Placed, AllStand, payloads_of};
ghost use Rattle.name_map.specs.Adding.{placed};
ghost use Rattle.name_map.specs.Map.{IsMapOf, names_with};
ghost use Rattle.payload_tables.specs.declared.fault.TableFault.TheVariants.{Unlawful};
ghost use Rattle.flat_segments.specs.Kept.{KeptFlats};
ghost use Rattle.segment_levels.specs.Kept.{KeptLevels};
ghost use Rattle.payload_tables.specs.Kept.{AreMastersOf, HaveMasters, master_records};
ghost use Rattle.payload_tables.specs.Extents.{IsExtentOf, IsFront};

use crate::fault::TableFault;
use crate::heads::FIRST_VERSION;
use batch_codec::BatchRef;
use flat_segments::{FlatFault, FlatTable};
use high_segments::{Levels, LevelsMark};
use name_map::NameMap;
use std::alloc::AllocError;

/// Adds records to the table and brings its levels to those of the table with them. The levels come first, since they are
/// brought on from the table as it was. Want of memory changes neither.
fn extend_table(
    flat: &mut FlatTable,
    levels: &mut Levels,
    bytes: &[u8],
    records: &[u8],
    at: u64,
) -> Result<(), AllocError>
    requires records { MayExtendLevels levels.old flat.old bytes.now records.now }
    requires place { at + length records.now < 2 ^ 63 }
    ensures table { OnOk result ((before : List PlacedSegment) (segments : List Segment) → MayGrowBy flat.old bytes.now records.now before segments
        → IsTableOf flat.new (before ++ placed_segments at segments)) }
    ensures levels { OnOk result ((before : List PlacedSegment) (segments : List Segment) → MayGrowBy flat.old bytes.now records.now before segments
        → AreLevelsOf levels.old (flats_of flat.old before) → AreLevelsOf levels.new (flats_of flat.new (before ++ placed_segments at segments))) }
    ensures front { OnOk result (AllFront levels.old.levels levels.new.levels) }
    ensures unchanged { OnErr result ((flat.new ≡ flat.old) × (levels.new ≡ levels.old)) }
{
    let mark = levels.mark();
    levels.extend(flat, bytes, records)?;
    match flat.extend(bytes, records, at) {
        Ok(()) => Ok(()),
        Err(FlatFault::Memory) => {
            levels.cut_back(&mark);
            Err(AllocError)
        }
        Err(FlatFault::BadSegment(_)) => unreachable!(),
    }
}

/// Adds the master records of a payload, which begin with the id behind those of the table, to the table and its levels, where the
/// payloads that were added before stand in `bytes`. Want of memory changes neither.
pub(crate) fn extend_segments(
    flat: &mut FlatTable,
    levels: &mut Levels,
    bytes: &[u8],
    batch: &BatchRef<'_>,
    at: u64,
) -> Result<(), AllocError>
    requires room { at + length (payload_bytes (payload_of batch.now)) < 2 ^ 63 }
    requires table { (added : List Placed) × HaveMasters flat.old levels.old added × AllStand bytes.now added }
    requires follows { (payload_of batch.now).before ≡ flat.old.end }
    ensures rows { (added : List Placed) → HaveMasters flat.old levels.old added → AllStand bytes.now added → OnOk result (HaveMasters flat.new levels.new (added ++ placed at batch.now ∷ [])) }
    ensures front { OnOk result (IsFront flat.old levels.old flat.new levels.new) }
    ensures unchanged { OnErr result ((flat.new ≡ flat.old) × (levels.new ≡ levels.old)) }
{
    batch.is_payload();
    let masters = batch.master_segments();
    extend_table(flat, levels, bytes, masters.bytes(), at + masters.start())?;
    Ok(())
}

/// Whether the payload lists exactly the segments of levels that came since the levels had so much. One of the first version lists
/// none, and none are asked of it.
fn has_levels(levels: &Levels, mark: &LevelsMark, batch: &BatchRef<'_>) -> bool
    requires { (old : List Segment) × (new : List Segment) × CameSince mark.now.marks levels.now.levels old new }
    ensures { (old new : List Segment) → CameSince mark.now.marks levels.now.levels old new
        → IsTrue result ↔ ((payload_of batch.now).version ≡ 2 → (payload_of batch.now).levels ≡ new_levels old new) }
{
    batch.is_payload();
    if batch.version() == FIRST_VERSION {
        return true;
    }
    let listed = batch.level_segments();
    levels.are_since(mark, listed.bytes())
}

/// Refuses a payload that lists other segments of levels than came since the levels had so much.
pub(crate) fn check_levels(
    levels: &Levels,
    mark: &LevelsMark,
    batch: &BatchRef<'_>,
) -> Result<(), TableFault>
    requires { (old : List Segment) × (new : List Segment) × CameSince mark.now.marks levels.now.levels old new }
    ensures listed { OnOk result ((old new : List Segment) → CameSince mark.now.marks levels.now.levels old new
        → (payload_of batch.now).version ≡ 2 → (payload_of batch.now).levels ≡ new_levels old new) }
    ensures unlawful { result ≡ Err Unlawful → (old new : List Segment) → CameSince mark.now.marks levels.now.levels old new
        → ((payload_of batch.now).version ≡ 2 → (payload_of batch.now).levels ≡ new_levels old new) → ⊥ }
{
    if has_levels(levels, mark, batch) {
        return Ok(());
    }
    Err(TableFault::Unlawful)
}

/// Appends the records of the segments of levels that come with these master records, which are those of a payload, and answers how
/// many they are. The levels stay as they are.
pub(crate) fn write_levels(
    flat: &FlatTable,
    levels: &mut Levels,
    bytes: &[u8],
    records: &[u8],
    out: &mut Vec<u8>,
) -> Result<usize, AllocError>
    requires { (added : List Placed) × (p : Payload) × BringsMasters flat.now levels.old bytes.now records.now added p }
    ensures written { OnOk result ((added : List Placed) (p : Payload) → BringsMasters flat.now levels.old bytes.now records.now added p
        → out.new.items ≡ out.old.items ++ flat_map segment_bytes (levels_with (payloads_of added) p)) }
    ensures count { IfOk result (λ count. (added : List Placed) (p : Payload) → BringsMasters flat.now levels.old bytes.now records.now added p
        → count ≡ length (levels_with (payloads_of added) p)) }
    ensures unchanged { levels.new ≡ levels.old }
{
    let mark = levels.mark();
    levels.extend(flat, bytes, records)?;
    match levels.write_since(&mark, out) {
        Ok(count) => {
            levels.cut_back(&mark);
            Ok(count)
        }
        Err(AllocError) => {
            levels.cut_back(&mark);
            Err(AllocError)
        }
    }
}

/// How much a table and its levels had.
#[derive(Drop)]
pub(crate) struct Extent {
    len: usize,
    count: u64,
    levels: LevelsMark,
}

/// How much the table and its levels have.
fn extent_of(flat: &FlatTable, levels: &Levels) -> Extent
    ensures { IsExtentOf result flat.now levels.now }
{
    Extent {
        len: flat.len(),
        count: flat.count(),
        levels: levels.mark(),
    }
}

/// Takes back what was added to the table and its levels since they had so much.
fn cut_back(flat: &mut FlatTable, levels: &mut Levels, extent: &Extent)
    ensures { (old : KeptFlats) (row : KeptLevels) → IsExtentOf extent.now old row → IsFront old row flat.old levels.old → (flat.new ≡ old) × (levels.new ≡ row) }
{
    flat.cut_back(extent.len, extent.count);
    levels.cut_back(&extent.levels);
}

/// Adds the master records of a payload to the table and its levels, as `extend_segments` does, where the payload lists the segments
/// of levels that come with them. A refusal changes neither.
pub(crate) fn extend_checked(
    flat: &mut FlatTable,
    levels: &mut Levels,
    bytes: &[u8],
    batch: &BatchRef<'_>,
    at: u64,
) -> Result<(), TableFault>
    requires room { at + length (payload_bytes (payload_of batch.now)) < 2 ^ 63 }
    requires table { (added : List Placed) × HaveMasters flat.old levels.old added × AllStand bytes.now added }
    requires follows { (payload_of batch.now).before ≡ flat.old.end }
    ensures rows { (added : List Placed) → HaveMasters flat.old levels.old added → AllStand bytes.now added → OnOk result (HaveMasters flat.new levels.new (added ++ placed at batch.now ∷ [])) }
    ensures sections { (added : List Placed) → HaveMasters flat.old levels.old added → AllStand bytes.now added
        → OnOk result ((payload_of batch.now).version ≡ 2 → (payload_of batch.now).levels ≡ levels_with (payloads_of added) (payload_of batch.now)) }
    ensures front { OnOk result (IsFront flat.old levels.old flat.new levels.new) }
    ensures unlawful { (added : List Placed) → HaveMasters flat.old levels.old added → AllStand bytes.now added → result ≡ Err Unlawful
        → ((payload_of batch.now).version ≡ 2 → (payload_of batch.now).levels ≡ levels_with (payloads_of added) (payload_of batch.now)) → ⊥ }
    ensures unchanged { OnErr result ((flat.new ≡ flat.old) × (levels.new ≡ levels.old)) }
{
    batch.is_payload();
    let extent = extent_of(flat, levels);
    extend_segments(flat, levels, bytes, batch, at)?;
    match check_levels(levels, &extent.levels, batch) {
        Ok(()) => Ok(()),
        Err(fault) => {
            cut_back(flat, levels, &extent);
            Err(fault)
        }
    }
}

/// Adds a payload to all three, where those that were added before stand in `bytes`. A refusal changes none: what the table
/// and the levels took is taken back where the payload lists other segments of levels, and where the map takes nothing.
pub(crate) fn extend_masters(
    flat: &mut FlatTable,
    levels: &mut Levels,
    names: &mut NameMap,
    bytes: &[u8],
    batch: &BatchRef<'_>,
    at: u64,
) -> Result<(), TableFault>
    requires room { at + length (payload_bytes (payload_of batch.now)) < 2 ^ 63 }
    requires tables { (added : List Placed) × AreMastersOf flat.old levels.old names.old added × AllStand bytes.now added }
    requires follows { (payload_of batch.now).before ≡ names.old.masters }
    ensures table { (added : List Placed) → AreMastersOf flat.old levels.old names.old added → AllStand bytes.now added
        → OnOk result (IsTableOf flat.new (master_records (added ++ placed at batch.now ∷ []))) }
    ensures levels { (added : List Placed) → AreMastersOf flat.old levels.old names.old added → AllStand bytes.now added
        → OnOk result (AreLevelsOf levels.new (flats_of flat.new (master_records (added ++ placed at batch.now ∷ [])))) }
    ensures names { (added : List Placed) → AreMastersOf flat.old levels.old names.old added → AllStand bytes.now added
        → OnOk result (IsMapOf names.new (added ++ placed at batch.now ∷ []) × AreDistinct (names_with (payloads_of added) (payload_of batch.now))) }
    ensures sections { (added : List Placed) → AreMastersOf flat.old levels.old names.old added → AllStand bytes.now added
        → OnOk result ((payload_of batch.now).version ≡ 2 → (payload_of batch.now).levels ≡ levels_with (payloads_of added) (payload_of batch.now)) }
    ensures unlawful { (added : List Placed) → AreMastersOf flat.old levels.old names.old added → AllStand bytes.now added → result ≡ Err Unlawful
        → AreDistinct (names_with (payloads_of added) (payload_of batch.now))
        → ((payload_of batch.now).version ≡ 2 → (payload_of batch.now).levels ≡ levels_with (payloads_of added) (payload_of batch.now)) → ⊥ }
    ensures unchanged { OnErr result ((flat.new ≡ flat.old) × (levels.new ≡ levels.old) × (names.new ≡ names.old)) }
{
    let extent = extent_of(flat, levels);
    extend_checked(flat, levels, bytes, batch, at)?;
    match names.add_batch(bytes, batch, at) {
        Ok(()) => Ok(()),
        Err(fault) => {
            cut_back(flat, levels, &extent);
            Err(TableFault::from(fault))
        }
    }
}

/// Adds a payload to all three, as `extend_masters` does, where it is known that its names and those before it are distinct. Want of
/// memory changes none.
pub(crate) fn extend_lawful(
    flat: &mut FlatTable,
    levels: &mut Levels,
    names: &mut NameMap,
    bytes: &[u8],
    batch: &BatchRef<'_>,
    at: u64,
) -> Result<(), AllocError>
    requires room { at + length (payload_bytes (payload_of batch.now)) < 2 ^ 63 }
    requires tables { (added : List Placed) × AreMastersOf flat.old levels.old names.old added × AllStand bytes.now added }
    requires follows { (payload_of batch.now).before ≡ names.old.masters }
    ensures table { (added : List Placed) → AreMastersOf flat.old levels.old names.old added → AllStand bytes.now added
        → OnOk result (IsTableOf flat.new (master_records (added ++ placed at batch.now ∷ []))) }
    ensures levels { (added : List Placed) → AreMastersOf flat.old levels.old names.old added → AllStand bytes.now added
        → OnOk result (AreLevelsOf levels.new (flats_of flat.new (master_records (added ++ placed at batch.now ∷ [])))) }
    ensures names { (added : List Placed) → AreMastersOf flat.old levels.old names.old added → AllStand bytes.now added
        → AreDistinct (names_with (payloads_of added) (payload_of batch.now)) → OnOk result (IsMapOf names.new (added ++ placed at batch.now ∷ [])) }
    ensures unchanged { OnErr result ((flat.new ≡ flat.old) × (levels.new ≡ levels.old) × (names.new ≡ names.old)) }
{
    let extent = extent_of(flat, levels);
    extend_segments(flat, levels, bytes, batch, at)?;
    match names.add_new(bytes, batch, at) {
        Ok(()) => Ok(()),
        Err(AllocError) => {
            cut_back(flat, levels, &extent);
            Err(AllocError)
        }
    }
}
