//! The payload of a whole store, made of the tables of a log.

ghost use Rattle.std.specs.Prelude.{◌≡◌, ◌≤◌, ◌<◌, ◌+◌, ◌*◌, ◌^◌, ◌++◌, ◌∷◌, [], List, take, drop, length, flat_map, IfOk, OnOk};
ghost use Rattle.std.specs.List.{AllByRecursion};
ghost use Rattle.id_groups.specs.Name.{Name as NameBytes, IsName};
ghost use Rattle.commit_graph.specs.World.{World};
ghost use Rattle.segment_codec.specs.Record.{Segment, IsSegment, segment_bytes};
ghost use Rattle.segment_codec.specs.Lent.{segment_of, parents_left};
ghost use Rattle.high_segments.specs.Views.{flats_in};
ghost use Rattle.batch_codec.specs.Payload.{Payload as PlainPayload, Known, names_bytes, payload_bytes};
ghost use Rattle.batch_codec.specs.Grammar.{IsPayload};
ghost use Rattle.batch_codec.specs.Building.{IsBuilt, empty_payload};
ghost use Rattle.name_map.specs.Added.{Placed, payloads_of, known_of, AllStand};
ghost use Rattle.name_map.specs.Map.{IsMapOf};
ghost use Rattle.change_rules.specs.Lawful.{levels_with};
ghost use Rattle.compact_rules.specs.Whole.{whole_change};
ghost use Rattle.log_compact.specs.Sections.{masters_in, others_in, IsKnownOf, AscendWithin, StandsWhole};

use batch_codec::BatchBuild;
use high_segments::View;
use id_groups::{FIRST_OTHER, Id, Name, NameRef};
use name_map::NameMap;
use payload_tables::{PendingRows, Tables};
use segment_codec::{Parents, SegmentRef, SegmentTable, Steps};
use std::alloc::{AllocError, Global};

/// The kind of a whole store's payload.
const WHOLE: u8 = 3;

/// Puts the ids into the list, in place of what it had.
fn take_parents(ids: &mut Vec<Id>, parents: Parents<'_>) -> Result<(), AllocError>
    ensures { OnOk result (ids.new.items ≡ parents_left parents.entry) }
{
    ids.clear();
    'parents: for id in parents {
        ids.push(id)?;
    }
    Ok(())
}

/// Adds the segment, which is a flat one, to the section of its group. The list is what is used to do so.
fn add_flat(
    build: &mut BatchBuild,
    segment: SegmentRef<'_>,
    parents: &mut Vec<Id>,
) -> Result<(), AllocError>
    requires segment { IsSegment (segment_of segment) }
    requires flat { (segment_of segment).level ≡ 0 }
    ensures built { OnOk result ((p : PlainPayload) → IsBuilt build.old p → IsBuilt build.new (record p {
      master = p.master ++ masters_in (segment_of segment.entry ∷ []);
      others = p.others ++ others_in (segment_of segment.entry ∷ []);
    })) }
    ensures count { build.new.other_count ≡ build.old.other_count }
{
    take_parents(parents, segment.parents())?;
    let low = segment.low();
    let high = segment.high();
    if low.number() < FIRST_OTHER {
        return build.segment(low, high, parents);
    }
    build.other_segment(low, high, parents)
}

/// Adds the flat segments, each to the section of its group.
fn add_flats(alloc: Global, build: &mut BatchBuild, view: &View<'_>) -> Result<(), AllocError>
    ensures built { OnOk result ((p : PlainPayload) → IsBuilt build.old p → IsBuilt build.new (record p {
      master = p.master ++ masters_in (flats_in view.now);
      others = p.others ++ others_in (flats_in view.now);
    })) }
    ensures count { build.new.other_count ≡ build.old.other_count }
{
    let mut parents = Vec::new(alloc);
    let mut steps = Steps::new();
    'flats: for k in 0..view.flat_count() {
        let segment = view.flat_at(k, &mut steps);
        add_flat(build, segment, &mut parents)?;
    }
    Ok(())
}

/// Adds the flat segments of all ids.
fn add_segments(
    alloc: Global,
    build: &mut BatchBuild,
    tables: &Tables,
    bytes: &[u8],
) -> Result<(), AllocError>
    requires { (added : List Placed) × (w : World NameBytes) × StandsWhole tables.now bytes.now added w }
    ensures built { OnOk result ((added : List Placed) (w : World NameBytes) → StandsWhole tables.now bytes.now added w
        → (p : PlainPayload) → IsBuilt build.old p → IsBuilt build.new (record p {
          master = p.master ++ (whole_change (payloads_of added) w).master;
          others = p.others ++ (whole_change (payloads_of added) w).others;
        })) }
    ensures count { build.new.other_count ≡ build.old.other_count }
{
    let others = tables.others().count();
    let none = PendingRows::empty(alloc, u64::from(others));
    let view = tables.newest(bytes).view(&none);
    add_flats(alloc, build, &view)
}

/// Adds the segments of levels that come with the master records, which are those of a payload that comes first.
fn add_levels(alloc: Global, build: &mut BatchBuild) -> Result<(), AllocError>
    requires { (p : PlainPayload) × IsPayload p × (p.before ≡ 0) × (build.old.master ≡ flat_map segment_bytes p.master) }
    ensures built { OnOk result ((p q : PlainPayload) → IsPayload p → p.before ≡ 0 → build.old.master ≡ flat_map segment_bytes p.master
        → IsBuilt build.old q → IsBuilt build.new (record q { levels = q.levels ++ levels_with [] p })) }
    ensures count { build.new.other_count ≡ build.old.other_count }
{
    let mut tables = Tables::empty(alloc);
    let mut records = Vec::new(alloc);
    let count = tables.write_levels(&[], build.master_records(), &mut records)?;
    build.level_records(&records, count)
}

/// Adds the id with its name, where that is known.
fn add_name(build: &mut BatchBuild, names: &NameMap, bytes: &[u8], id: Id) -> Result<(), AllocError>
    ensures built { OnOk result ((added : List Placed) → IsMapOf names.now added → AllStand bytes.now added → (found : List Known) × IsKnownOf (known_of added) id found
        × ((p : PlainPayload) → IsBuilt build.old p → IsBuilt build.new (record p { known = p.known ++ found }))) }
    ensures count { build.new.other_count ≡ build.old.other_count }
{
    match names.name(bytes, id) {
        Some(lent) => {
            let name = lent.to_name();
            build.known(id, &name)
        }
        None => Ok(()),
    }
}

/// Adds the known names of so many master ids, which are all.
fn add_known(
    build: &mut BatchBuild,
    names: &NameMap,
    bytes: &[u8],
    count: u64,
) -> Result<(), AllocError>
    requires { count ≤ 2 ^ 56 }
    ensures built { OnOk result ((added : List Placed) → IsMapOf names.now added → AllStand bytes.now added → AscendWithin 0 count (known_of added)
        → (p : PlainPayload) → IsBuilt build.old p → IsBuilt build.new (record p { known = p.known ++ known_of added })) }
    ensures count { build.new.other_count ≡ build.old.other_count }
{
    'ids: for number in 0..count {
        add_name(build, names, bytes, Id::master(number))?;
    }
    Ok(())
}

/// Adds the heads.
fn add_heads(build: &mut BatchBuild, heads: &[Name]) -> Result<(), AllocError>
    ensures built { OnOk result ((p : PlainPayload) → IsBuilt build.old p → IsBuilt build.new (record p { heads = p.heads ++ heads.now })) }
    ensures count { build.new.other_count ≡ build.old.other_count }
{
    'heads: for i in 0..heads.len() {
        build.head(&heads[i])?;
    }
    Ok(())
}

/// 20 bytes at a place.
fn piece<'a>(bytes: &'a [u8], at: usize) -> NameRef<'a>
    requires { at + 20 ≤ length bytes.now }
    ensures { result.bytes.now ≡ take 20 (drop at bytes.now) }
{
    let (_, rest) = bytes.split_at(at);
    let (name, _) = rest.split_at(20);
    NameRef::over(name)
}

/// Adds the names of so many other ids, which stand one after another.
fn add_other_names(build: &mut BatchBuild, names: &[u8], count: u32) -> Result<(), AllocError>
    requires { length names.now ≡ 20 * count }
    ensures built { OnOk result ((list : List NameBytes) → names.now ≡ names_bytes list → AllByRecursion IsName list → count ≡ length list
        → (p : PlainPayload) → IsBuilt build.old p → IsBuilt build.new (record p { other_names = p.other_names ++ list })) }
    ensures count { build.new.other_count ≡ build.old.other_count }
{
    'names: for i in 0..count {
        let name = piece(names, 20 * i as usize).to_name();
        build.other_name(&name)?;
    }
    Ok(())
}

/// Adds the known names and the heads.
fn add_master_names(build: &mut BatchBuild, tables: &Tables, bytes: &[u8]) -> Result<(), AllocError>
    requires { (added : List Placed) × (w : World NameBytes) × StandsWhole tables.now bytes.now added w }
    ensures built { OnOk result ((added : List Placed) (w : World NameBytes) → StandsWhole tables.now bytes.now added w
        → (p : PlainPayload) → IsBuilt build.old p → IsBuilt build.new (record p {
          known = p.known ++ (whole_change (payloads_of added) w).known;
          heads = p.heads ++ (whole_change (payloads_of added) w).heads;
        })) }
    ensures count { build.new.other_count ≡ build.old.other_count }
{
    let count = tables.master_count();
    add_known(build, tables.names(), bytes, count)?;
    add_heads(build, tables.heads())?;
    Ok(())
}

/// Adds the names of the other ids, and says how many they are.
fn add_others(build: &mut BatchBuild, tables: &Tables, bytes: &[u8]) -> Result<(), AllocError>
    requires { (added : List Placed) × (w : World NameBytes) × StandsWhole tables.now bytes.now added w }
    ensures built { OnOk result ((added : List Placed) (w : World NameBytes) → StandsWhole tables.now bytes.now added w
        → (p : PlainPayload) → IsBuilt build.old p → IsBuilt build.new (record p { other_names = p.other_names ++ (whole_change (payloads_of added) w).other_names })) }
    ensures count { OnOk result ((added : List Placed) (w : World NameBytes) → StandsWhole tables.now bytes.now added w
        → build.new.other_count ≡ length (whole_change (payloads_of added) w).other_names) }
{
    let others = tables.others();
    let count = others.count();
    add_other_names(build, others.names(bytes), count)?;
    build.other_count(count)?;
    Ok(())
}

/// Adds all sections of the whole store that the tables are of, whose payloads stand in the bytes.
fn add_sections(
    alloc: Global,
    build: &mut BatchBuild,
    tables: &Tables,
    bytes: &[u8],
) -> Result<(), AllocError>
    requires { (added : List Placed) × (w : World NameBytes) × StandsWhole tables.now bytes.now added w × IsBuilt build.old (empty_payload 3 0 tables.now.flat.end tables.now.cloned) }
    ensures built { OnOk result ((added : List Placed) (w : World NameBytes) → StandsWhole tables.now bytes.now added w
        → IsBuilt build.old (empty_payload 3 0 tables.now.flat.end tables.now.cloned) → IsBuilt build.new (whole_change (payloads_of added) w)) }
    ensures count { OnOk result ((added : List Placed) (w : World NameBytes) → StandsWhole tables.now bytes.now added w
        → build.new.other_count ≡ length (whole_change (payloads_of added) w).other_names) }
{
    add_segments(alloc, build, tables, bytes)?;
    add_levels(alloc, build)?;
    add_master_names(build, tables, bytes)?;
    add_others(build, tables, bytes)?;
    Ok(())
}

/// The payload of the whole store that the tables are of, whose payloads stand in the bytes.
pub(crate) fn whole_payload(
    alloc: Global,
    tables: &Tables,
    bytes: &[u8],
) -> Result<Vec<u8>, AllocError>
    requires { (added : List Placed) × (w : World NameBytes) × StandsWhole tables.now bytes.now added w }
    ensures { (added : List Placed) (w : World NameBytes) → StandsWhole tables.now bytes.now added w
        → IfOk result (λ payload. payload.items ≡ payload_bytes (whole_change (payloads_of added) w)) }
{
    let masters = tables.master_count();
    let cloned = tables.cloned();
    let mut build = BatchBuild::new(alloc, WHOLE, 0, masters, cloned)?;
    add_sections(alloc, &mut build, tables, bytes)?;
    build.finish()
}
