//! The sections of a payload from runs and names.

ghost use Rattle.std.specs.Prelude.{◌≡◌, ◌<◌, ◌≤◌, ◌+◌, ◌^◌, ◌++◌, [], List, map, length, slice_index_or, IfOk, OnOk};
ghost use Rattle.std.specs.List.{AllByRecursion};
ghost use Rattle.segment_codec.specs.Record.{Segment, IsSegment};
ghost use Rattle.batch_codec.specs.Payload.{Payload as PlainPayload, payload_bytes};
ghost use Rattle.batch_codec.specs.Building.{IsBuilt, empty_payload};
ghost use Rattle.assign_ids.specs.Numbers.{AreBelow};
ghost use Rattle.change_parts.specs.Moves.{flat_record, name_at, new_id, rest_of, change_in};
ghost use Rattle.change_rules.specs.Change.{known_from};
ghost use Rattle.segment_codec.specs.Table.{IsLawful};
ghost use Rattle.change_parts.specs.Flat.{flat_segments};
ghost use Rattle.name_map.specs.Added.{Placed, AllStand, payloads_of};
ghost use Rattle.change_rules.specs.Lawful.{MayFollow};
ghost use Rattle.payload_tables.specs.Kept.{AreTablesOf};
ghost use Rattle.change_parts.specs.Rows.{table_rows, AreRowsBelow};

use crate::graph::Graph;
use crate::numbers::{Moved, ids_of};
use crate::runs::{Numbered, Run, add_runs};
use batch_codec::BatchBuild;
use change_parts::{FLUSH, Names, add_levels, add_other_names};
use id_groups::{FIRST_OTHER, Group, Id};
use payload_tables::Tables;
use std::alloc::{AllocError, Global};

/// Adds the master ids from the first on, with the names of these numbers.
fn add_known(
    build: &mut BatchBuild,
    names: &Names<'_>,
    numbers: &[u32],
    first: u64,
) -> Result<(), AllocError>
    requires names { AreBelow (names.now.count + names.now.more) numbers.now }
    requires room { first + length numbers.now ≤ 2 ^ 56 }
    ensures built { OnOk result ((p : PlainPayload) → IsBuilt build.old p
        → IsBuilt build.new (record p { known = p.known ++ known_from first (map (name_at (names.now.stored.now ++ names.now.pending.now)) numbers.now) })) }
    ensures count { build.new.other_count ≡ build.old.other_count }
{
    'numbers: for i in 0..numbers.len() {
        let name = names.at(numbers[i]).to_name();
        build.known(Id::master(first + i as u64), &name)?;
    }
    Ok(())
}

/// Adds the records and the known names of the numbers that move. `ids` has the new id of each number.
fn add_master_section(
    build: &mut BatchBuild,
    graph: &Graph,
    names: &Names<'_>,
    ids: &[Id],
    moved: &Moved<'_>,
    run: &mut Run,
) -> Result<(), AllocError>
    requires rows { AreRowsBelow (length ids.now) graph.now }
    requires names { AreBelow (names.now.count + names.now.more) moved.now.order.now }
    requires room { moved.now.before + length moved.now.order.now ≤ 2 ^ 56 }
    requires records { AllByRecursion (λ s. IsSegment (flat_record s)) (flat_segments moved.now.before (map (λ k. map (new_id ids.now) (slice_index_or graph.now k [])) moved.now.order.now)) }
    ensures built { OnOk result ((p : PlainPayload) → IsBuilt build.old p → IsBuilt build.new (record p {
      master = p.master ++ map flat_record (flat_segments moved.now.before (map (λ k. map (new_id ids.now) (slice_index_or graph.now k [])) moved.now.order.now));
      known = p.known ++ known_from moved.now.before (map (name_at (names.now.stored.now ++ names.now.pending.now)) moved.now.order.now);
    })) }
    ensures count { build.new.other_count ≡ build.old.other_count }
{
    let numbered = Numbered {
        group: Group::Master,
        first: moved.before,
        numbers: moved.order,
    };
    add_runs(build, graph, ids, &numbered, run)?;
    add_known(build, names, moved.order, moved.before)?;
    Ok(())
}

/// Adds the records and the names of these numbers, which are all that stay outside master, and counts them. `ids` has the new
/// id of each number.
fn add_others_section(
    build: &mut BatchBuild,
    graph: &Graph,
    names: &Names<'_>,
    ids: &[Id],
    rest: &[u32],
    run: &mut Run,
) -> Result<(), AllocError>
    requires rows { AreRowsBelow (length ids.now) graph.now }
    requires names { AreBelow (names.now.count + names.now.more) rest.now }
    requires few { length rest.now < 2 ^ 32 }
    requires records { AllByRecursion (λ s. IsSegment (flat_record s)) (flat_segments (2 ^ 56) (map (λ k. map (new_id ids.now) (slice_index_or graph.now k [])) rest.now)) }
    ensures built { OnOk result ((p : PlainPayload) → IsBuilt build.old p → IsBuilt build.new (record p {
      others = p.others ++ map flat_record (flat_segments (2 ^ 56) (map (λ k. map (new_id ids.now) (slice_index_or graph.now k [])) rest.now));
      other_names = p.other_names ++ map (name_at (names.now.stored.now ++ names.now.pending.now)) rest.now;
    })) }
    ensures count { OnOk result (build.new.other_count ≡ length rest.now) }
{
    let numbered = Numbered {
        group: Group::Others,
        first: FIRST_OTHER,
        numbers: rest,
    };
    add_runs(build, graph, ids, &numbered, run)?;
    add_other_names(build, names, rest)?;
    build.other_count(rest.len() as u32)?;
    Ok(())
}

/// Adds the sections of the numbers that move and of the rest. `ids` has the new id of each.
fn add_sections(
    alloc: Global,
    build: &mut BatchBuild,
    graph: &Graph,
    names: &Names<'_>,
    ids: &[Id],
    moved: &Moved<'_>,
) -> Result<(), AllocError>
    requires rows { AreRowsBelow (length ids.now) graph.now }
    requires order { AreBelow (names.now.count + names.now.more) moved.now.order.now }
    requires rest { AreBelow (names.now.count + names.now.more) moved.now.rest.now }
    requires room { moved.now.before + length moved.now.order.now ≤ 2 ^ 56 }
    requires few { length moved.now.rest.now < 2 ^ 32 }
    requires master { AllByRecursion (λ s. IsSegment (flat_record s)) (flat_segments moved.now.before (map (λ k. map (new_id ids.now) (slice_index_or graph.now k [])) moved.now.order.now)) }
    requires others { AllByRecursion (λ s. IsSegment (flat_record s)) (flat_segments (2 ^ 56) (map (λ k. map (new_id ids.now) (slice_index_or graph.now k [])) moved.now.rest.now)) }
    ensures built { OnOk result ((p : PlainPayload) → IsBuilt build.old p → IsBuilt build.new (record p {
      master = p.master ++ map flat_record (flat_segments moved.now.before (map (λ k. map (new_id ids.now) (slice_index_or graph.now k [])) moved.now.order.now));
      known = p.known ++ known_from moved.now.before (map (name_at (names.now.stored.now ++ names.now.pending.now)) moved.now.order.now);
      others = p.others ++ map flat_record (flat_segments (2 ^ 56) (map (λ k. map (new_id ids.now) (slice_index_or graph.now k [])) moved.now.rest.now));
      other_names = p.other_names ++ map (name_at (names.now.stored.now ++ names.now.pending.now)) moved.now.rest.now;
    })) }
    ensures count { OnOk result (build.new.other_count ≡ length moved.now.rest.now) }
{
    let mut run = Run::blank(alloc);
    add_master_section(build, graph, names, ids, moved, &mut run)?;
    add_others_section(build, graph, names, ids, moved.rest, &mut run)?;
    Ok(())
}

/// Adds the sections of a flush in which these numbers move to a payload without sections, and the levels that come with them.
fn add_change(
    alloc: Global,
    tables: &mut Tables,
    bytes: &[u8],
    graph: &Graph,
    names: &Names<'_>,
    moved: &Moved<'_>,
    build: &mut BatchBuild,
) -> Result<(), AllocError>
    requires numbers { names.now.count + names.now.more < 2 ^ 32 }
    requires room { moved.now.before + length moved.now.order.now ≤ 2 ^ 56 }
    requires order { AreBelow (names.now.count + names.now.more) moved.now.order.now }
    requires rest { moved.now.rest.now ≡ rest_of (names.now.count + names.now.more) moved.now.order.now }
    requires payload { (flats : List Segment) × IsLawful flats × (graph.now ≡ table_rows flats (names.now.count + names.now.more))
        × (added : List Placed) × AreTablesOf tables.old added × AllStand bytes.now added
        × MayFollow (payloads_of added) (change_in flats (names.now.stored.now ++ names.now.pending.now) moved.now.before (names.now.count + names.now.more) moved.now.order.now) }
    requires build { IsBuilt build.old (empty_payload 1 moved.now.before (moved.now.before + length moved.now.order.now) 0) }
    ensures unchanged { tables.new ≡ tables.old }
    ensures built { (flats : List Segment) (added : List Placed) → IsLawful flats → graph.now ≡ table_rows flats (names.now.count + names.now.more)
        → AreTablesOf tables.old added → AllStand bytes.now added
        → MayFollow (payloads_of added) (change_in flats (names.now.stored.now ++ names.now.pending.now) moved.now.before (names.now.count + names.now.more) moved.now.order.now)
        → OnOk result (IsBuilt build.new (change_in flats (names.now.stored.now ++ names.now.pending.now) moved.now.before (names.now.count + names.now.more) moved.now.order.now)) }
    ensures count { OnOk result (build.new.other_count ≡ length moved.now.rest.now) }
{
    let ids = ids_of(alloc, names.count + names.more, moved)?;
    add_sections(alloc, build, graph, names, &ids, moved)?;
    add_levels(alloc, tables, bytes, build)?;
    Ok(())
}

/// The payload of a flush in which these numbers move.
pub(crate) fn payload_of(
    alloc: Global,
    tables: &mut Tables,
    bytes: &[u8],
    graph: &Graph,
    names: &Names<'_>,
    moved: &Moved<'_>,
) -> Result<Vec<u8>, AllocError>
    requires numbers { names.now.count + names.now.more < 2 ^ 32 }
    requires room { moved.now.before + length moved.now.order.now ≤ 2 ^ 56 }
    requires order { AreBelow (names.now.count + names.now.more) moved.now.order.now }
    requires rest { moved.now.rest.now ≡ rest_of (names.now.count + names.now.more) moved.now.order.now }
    requires payload { (flats : List Segment) × IsLawful flats × (graph.now ≡ table_rows flats (names.now.count + names.now.more))
        × (added : List Placed) × AreTablesOf tables.old added × AllStand bytes.now added
        × MayFollow (payloads_of added) (change_in flats (names.now.stored.now ++ names.now.pending.now) moved.now.before (names.now.count + names.now.more) moved.now.order.now) }
    ensures unchanged { tables.new ≡ tables.old }
    ensures payload { (flats : List Segment) (added : List Placed) → IsLawful flats → graph.now ≡ table_rows flats (names.now.count + names.now.more)
        → AreTablesOf tables.old added → AllStand bytes.now added
        → MayFollow (payloads_of added) (change_in flats (names.now.stored.now ++ names.now.pending.now) moved.now.before (names.now.count + names.now.more) moved.now.order.now)
        → IfOk result (λ payload. payload.items ≡ payload_bytes (change_in flats (names.now.stored.now ++ names.now.pending.now) moved.now.before (names.now.count + names.now.more) moved.now.order.now)) }
{
    let after = moved.before + moved.order.len() as u64;
    let mut build = BatchBuild::new(alloc, FLUSH, moved.before, after, 0)?;
    add_change(alloc, tables, bytes, graph, names, moved, &mut build)?;
    build.finish()
}
