//! How a payload's names are added.

ghost use Rattle.std.specs.Prelude.{◌≡◌, ◌<◌, ◌+◌, ◌*◌, ◌^◌, ◌∷◌, ◌++◌, List, [], true, false, IfOk, OnOk, OnErr, Err};
ghost use Rattle.id_groups.specs.Lists.{AreDistinct};
ghost use Rattle.batch_codec.specs.Payload.{known_names};
ghost use Rattle.batch_codec.specs.Lent.{payload_of, knowns_of, lent_names};
ghost use Rattle.name_index.specs.Index.{NamedPlace, IsIndexOf, NamesStand, names_in};
ghost use Rattle.name_map.specs.declared.fault.MapFault.TheVariants.{Double as FaultDouble};
ghost use Rattle.name_map.specs.Added.{every, named_from, names_from};
ghost use Rattle.name_map.specs.Adding.{Apart, Meet, OthersFit};

use crate::fault::MapFault;
use crate::part::Part;
use crate::sizes::{ENTRY_BYTES, ID_BYTES, NAME_BYTES};
use batch_codec::{BatchRef, KnownSlice, NameSlice};
use name_index::NameIndex;
use std::alloc::{AllocError, Global};

/// So many places from the first on, each so much behind the one before.
pub(crate) fn places_every(
    alloc: Global,
    first: u64,
    step: u64,
    count: u32,
) -> Result<Vec<u64>, AllocError>
    requires { first + step * count < 2 ^ 64 }
    ensures { IfOk result (λ places. places.items ≡ every first step count) }
{
    let mut places = Vec::with_capacity(alloc, count as usize)?;
    'places: for i in 0..count {
        places.push(first + step * u64::from(i))?;
    }
    Ok(places)
}

/// Whether the index has one of the names.
fn has_one_of(index: &NameIndex, bytes: &[u8], names: &NameSlice<'_>) -> bool
    ensures meet { (all : List NamedPlace) → IsIndexOf index.now all → NamesStand bytes.now all → result ≡ true → Meet (names_in all) (lent_names names.now) }
    ensures apart { (all : List NamedPlace) → IsIndexOf index.now all → NamesStand bytes.now all → result ≡ false → Apart (names_in all) (lent_names names.now) }
{
    'names: for i in 0..names.len() {
        if index.find(bytes, names.at(i)).is_some() {
            return true;
        }
    }
    false
}

/// Puts the names of the known ids, whose first one stands or will stand at `start`, into the index. A refusal leaves
/// it as it was.
fn insert_known(
    alloc: Global,
    index: &mut NameIndex,
    bytes: &[u8],
    start: u64,
    known: &KnownSlice<'_>,
) -> Result<(), MapFault>
    requires { start < 2 ^ 63 }
    ensures added { (all : List NamedPlace) → IsIndexOf index.old all → NamesStand bytes.now all → OnOk result (IsIndexOf index.new (all ++ named_from start (knowns_of known.now))) }
    ensures double { (all : List NamedPlace) → IsIndexOf index.old all → NamesStand bytes.now all → result ≡ Err FaultDouble → AreDistinct (names_in (all ++ named_from start (knowns_of known.now))) → ⊥ }
    ensures unchanged { OnErr result (index.new ≡ index.old) }
{
    let places = places_every(alloc, start + ID_BYTES, ENTRY_BYTES, known.len())?;
    index.insert(bytes, start, known.bytes(), places)?;
    Ok(())
}

/// Puts the names of the known ids, whose first one stands or will stand at `start`, into the index, where it is known that no two
/// of them and of those in it are the same. Want of memory leaves it as it was.
fn insert_new_known(
    alloc: Global,
    index: &mut NameIndex,
    bytes: &[u8],
    start: u64,
    known: &KnownSlice<'_>,
) -> Result<(), AllocError>
    requires { start < 2 ^ 63 }
    ensures added { (all : List NamedPlace) → IsIndexOf index.old all → NamesStand bytes.now all → AreDistinct (names_in (all ++ named_from start (knowns_of known.now)))
        → OnOk result (IsIndexOf index.new (all ++ named_from start (knowns_of known.now))) }
    ensures unchanged { OnErr result (index.new ≡ index.old) }
{
    let places = places_every(alloc, start + ID_BYTES, ENTRY_BYTES, known.len())?;
    index.insert_new(bytes, start, known.bytes(), places)?;
    Ok(())
}

/// Refuses other names that aren't distinct, or meet a known one of the payload.
pub(crate) fn check_own_names(
    alloc: Global,
    known: &KnownSlice<'_>,
    others: &NameSlice<'_>,
) -> Result<(), MapFault>
    ensures ok { OnOk result (AreDistinct (names_in (named_from 0 (knowns_of known.now) ++ names_from 0 (lent_names others.now)))) }
    ensures double { result ≡ Err FaultDouble → AreDistinct (names_in (named_from 0 (knowns_of known.now) ++ names_from 0 (lent_names others.now))) → ⊥ }
{
    let mut index = NameIndex::empty(alloc);
    insert_known(alloc, &mut index, &[], 0, known)?;
    let places = places_every(alloc, 0, NAME_BYTES, others.len())?;
    index.insert(known.bytes(), 0, others.bytes(), places)?;
    Ok(())
}

/// Refuses other names that aren't distinct, or meet a known one of the payload or of the index.
pub(crate) fn check_others(
    alloc: Global,
    index: &NameIndex,
    bytes: &[u8],
    batch: &BatchRef<'_>,
) -> Result<(), MapFault>
    ensures ok { (all : List NamedPlace) → IsIndexOf index.now all → NamesStand bytes.now all → OnOk result (OthersFit (names_in all) (known_names (payload_of batch.now)) (payload_of batch.now).other_names) }
    ensures double { (all : List NamedPlace) → IsIndexOf index.now all → NamesStand bytes.now all → result ≡ Err FaultDouble → AreDistinct (names_in all ++ known_names (payload_of batch.now) ++ (payload_of batch.now).other_names) → ⊥ }
{
    let others = batch.other_names();
    if others.len() == 0 {
        return Ok(());
    }
    check_own_names(alloc, &batch.known(), &others)?;
    if has_one_of(index, bytes, &others) {
        return Err(MapFault::Double);
    }
    Ok(())
}

/// Adds a part at the end. On want of memory all stay.
pub(crate) fn push_part(parts: &mut Vec<Part>, part: Part) -> Result<(), AllocError>
    ensures pushed { OnOk result (parts.new.items ≡ parts.old.items ++ part ∷ []) }
    ensures unchanged { OnErr result (parts.new.items ≡ parts.old.items) }
{
    parts.push(part)?;
    Ok(())
}

/// Adds the part, and the names of its ids to the index. A refusal leaves both as they were.
pub(crate) fn add_part(
    alloc: Global,
    parts: &mut Vec<Part>,
    index: &mut NameIndex,
    part: Part,
    bytes: &[u8],
    known: &KnownSlice<'_>,
) -> Result<(), MapFault>
    requires { part.start < 2 ^ 63 }
    ensures part { OnOk result (parts.new.items ≡ parts.old.items ++ part ∷ []) }
    ensures index { (all : List NamedPlace) → IsIndexOf index.old all → NamesStand bytes.now all → OnOk result (IsIndexOf index.new (all ++ named_from part.start (knowns_of known.now))) }
    ensures double { (all : List NamedPlace) → IsIndexOf index.old all → NamesStand bytes.now all → result ≡ Err FaultDouble → AreDistinct (names_in (all ++ named_from part.start (knowns_of known.now))) → ⊥ }
    ensures unchanged { OnErr result ((parts.new.items ≡ parts.old.items) × (index.new ≡ index.old)) }
{
    let start = part.start();
    push_part(parts, part)?;
    match insert_known(alloc, index, bytes, start, known) {
        Ok(()) => Ok(()),
        Err(fault) => {
            parts.pop();
            Err(fault)
        }
    }
}

/// Adds the part, and the names of its ids to the index, where it is known that no two of them and of those in it are the same.
/// Want of memory leaves both as they were.
pub(crate) fn add_new_part(
    alloc: Global,
    parts: &mut Vec<Part>,
    index: &mut NameIndex,
    part: Part,
    bytes: &[u8],
    known: &KnownSlice<'_>,
) -> Result<(), AllocError>
    requires { part.start < 2 ^ 63 }
    ensures part { OnOk result (parts.new.items ≡ parts.old.items ++ part ∷ []) }
    ensures index { (all : List NamedPlace) → IsIndexOf index.old all → NamesStand bytes.now all → AreDistinct (names_in (all ++ named_from part.start (knowns_of known.now)))
        → OnOk result (IsIndexOf index.new (all ++ named_from part.start (knowns_of known.now))) }
    ensures unchanged { OnErr result ((parts.new.items ≡ parts.old.items) × (index.new ≡ index.old)) }
{
    let start = part.start();
    let count = parts.len();
    push_part(parts, part)?;
    let added = insert_new_known(alloc, index, bytes, start, known);
    if added.is_err() {
        parts.truncate(count);
    }
    added
}
