//! The payload of what a remote told.

ghost use Rattle.std.specs.Prelude.{◌≡◌, ◌<◌, ◌≤◌, ◌^◌, ◌++◌, [], None, length, map, IfOk, OnOk};
ghost use Rattle.std.specs.List.{AllByRecursion};
ghost use Rattle.id_groups.specs.Lists.{IsIn};
ghost use Rattle.id_groups.specs.Name.{IsName};
ghost use Rattle.segment_codec.specs.Turns.{StandInTurn};
ghost use Rattle.batch_codec.specs.Payload.{Payload as PlainPayload, Known, payload_bytes};
ghost use Rattle.change_rules.specs.Lawful.{MayFollow};
ghost use Rattle.batch_codec.specs.Building.{IsBuilt, empty_payload};
ghost use Rattle.remote_rules.specs.CloneData.{first_broken};
ghost use Rattle.remote_rules.specs.Lawful.{MayStandHere};
ghost use Rattle.change_rules.specs.Change.{told_change};
ghost use Rattle.change_rules.specs.Standard.{standard, most_heads};
ghost use Rattle.payload_tables.specs.Kept.{AreTablesOf};
ghost use Rattle.clone_plan.specs.Cloning.{told_count};

use batch_codec::BatchBuild;
use change_parts::add_levels;
use id_groups::Id;
use payload_tables::Tables;
use remote_trait::{CloneData, CloneSegments, HeadNames, KnownNames};
use std::alloc::{AllocError, Global};

/// The kind of a clone's payload.
const CLONE: u8 = 2;

/// Puts the master ids of these numbers into the list, in place of what it had.
fn take_ids(ids: &mut Vec<Id>, numbers: &[u64]) -> Result<(), AllocError>
    requires { AllByRecursion (λ n. n < 2 ^ 56) numbers.now }
    ensures { OnOk result (ids.new.items ≡ numbers.now) }
{
    ids.clear();
    'numbers: for i in 0..numbers.len() {
        ids.push(Id::master(numbers[i]))?;
    }
    Ok(())
}

/// Adds the segments of the master ids, which follow one another.
fn add_segments(
    alloc: Global,
    build: &mut BatchBuild,
    segments: &CloneSegments,
) -> Result<(), AllocError>
    requires turn { StandInTurn MayStandHere 0 segments.now }
    requires few { (s : _) → IsIn s segments.now → s.high < 2 ^ 56 }
    ensures built { OnOk result ((p : PlainPayload) → IsBuilt build.old p → IsBuilt build.new (record p { master = p.master ++ segments.now })) }
    ensures formed { OnOk result (AllByRecursion (λ s. (s.level ≡ 0) × (length s.parents ≤ 8)) segments.now) }
    ensures count { build.new.other_count ≡ build.old.other_count }
{
    let mut parents = Vec::new(alloc);
    'segments: for i in 0..segments.len() {
        let item = segments.at(i);
        take_ids(&mut parents, item.parents.numbers())?;
        build.segment(Id::master(item.low), Id::master(item.high), &parents)?;
    }
    Ok(())
}

/// Adds the names of master ids.
fn add_names(build: &mut BatchBuild, names: &KnownNames) -> Result<(), AllocError>
    requires { AllByRecursion (λ k. k.id < 2 ^ 56) names.now }
    ensures built { OnOk result ((p : PlainPayload) → IsBuilt build.old p
        → IsBuilt build.new (record p { known = p.known ++ map {B = Known} (λ k. record { id = k.id; name = k.name }) names.now })) }
    ensures formed { OnOk result (AllByRecursion (λ k. IsName k.name) names.now) }
    ensures count { build.new.other_count ≡ build.old.other_count }
{
    'names: for i in 0..names.len() {
        let item = names.at(i);
        let _bytes = item.name.lend();
        build.known(Id::master(item.id), &item.name)?;
    }
    Ok(())
}

/// Adds the heads.
fn add_heads(build: &mut BatchBuild, heads: &HeadNames) -> Result<(), AllocError>
    ensures built { OnOk result ((p : PlainPayload) → IsBuilt build.old p → IsBuilt build.new (record p { heads = p.heads ++ heads.now })) }
    ensures formed { OnOk result (AllByRecursion IsName heads.now) }
    ensures count { build.new.other_count ≡ build.old.other_count }
{
    'heads: for i in 0..heads.len() {
        let item = heads.at(i);
        let _bytes = item.lend();
        build.head(item)?;
    }
    Ok(())
}

/// Adds what a remote told, which breaks no rule, to a payload without sections, and the levels of its segments, of which the tables, which
/// are of no payload, are asked. It may come first in a log.
fn add_told(
    alloc: Global,
    tables: &mut Tables,
    bytes: &[u8],
    cloned: &CloneData,
    build: &mut BatchBuild,
) -> Result<(), AllocError>
    requires tables { AreTablesOf tables.old [] }
    requires lawful { first_broken cloned.now ≡ None }
    requires some { 0 < told_count cloned.now }
    requires few { told_count cloned.now ≤ standard.master }
    requires heads { length cloned.now.heads ≤ most_heads }
    requires build { IsBuilt build.old (empty_payload 2 0 (told_count cloned.now) (told_count cloned.now)) }
    ensures built { OnOk result (IsBuilt build.new (told_change cloned.now)) }
    ensures count { build.new.other_count ≡ build.old.other_count }
    ensures follows { OnOk result (MayFollow [] (told_change cloned.now)) }
    ensures unchanged { tables.new ≡ tables.old }
{
    add_segments(alloc, build, &cloned.segments)?;
    add_names(build, &cloned.names)?;
    add_heads(build, &cloned.heads)?;
    add_levels(alloc, tables, bytes, build)?;
    Ok(())
}

/// The payload of what a remote told of so many commits, which breaks no rule. It may come first in a log. The tables, which are of no
/// payload, are asked for the levels of the segments, and stay as they are.
pub(crate) fn payload_told(
    alloc: Global,
    tables: &mut Tables,
    bytes: &[u8],
    cloned: &CloneData,
    count: u64,
) -> Result<Vec<u8>, AllocError>
    requires tables { AreTablesOf tables.old [] }
    requires lawful { first_broken cloned.now ≡ None }
    requires count { count ≡ told_count cloned.now }
    requires some { 0 < count }
    requires few { count ≤ standard.master }
    requires heads { length cloned.now.heads ≤ most_heads }
    ensures payload { IfOk result (λ payload. payload.items ≡ payload_bytes (told_change cloned.now)) }
    ensures follows { IfOk result (λ payload. MayFollow [] (told_change cloned.now)) }
    ensures unchanged { tables.new ≡ tables.old }
{
    let mut build = BatchBuild::new(alloc, CLONE, 0, count, count)?;
    add_told(alloc, tables, bytes, cloned, &mut build)?;
    build.finish()
}
