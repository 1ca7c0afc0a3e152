//! Payloads added one behind the other, and look-ups both ways.

ghost use Rattle.std.specs.Prelude.{◌<◌, ◌^◌};

use batch_codec::BatchRef;
use id_groups::{Id, NameRef};
use name_map::{MapBuild, MapFault, NameMap};
use std::alloc::{AllocError, Global};
use std::test::Fail;

/// A name of zeros that ends with the number: most of them share their first 19 bytes.
fn name_of(number: u16) -> [u8; 20] {
    let mut name = [0; 20];
    name[18..].copy_from_slice(&number.to_be_bytes());
    name
}

/// A record of a segment without parents, of the so many ids that end with `high`, at most 128.
fn append_segment(out: &mut Vec<u8>, high: u64, count: usize) -> Result<(), AllocError> {
    let last = (count.wrapping_sub(1) & 0x7f) as u8;
    out.extend_from_slice(&[1, 0])?;
    out.extend_from_slice(&high.to_be_bytes())?;
    out.extend_from_slice(&[last, 0])
}

/// The four bytes of a count.
fn append_count(out: &mut Vec<u8>, count: usize) -> Result<(), AllocError> {
    out.extend_from_slice(&(count as u64).to_be_bytes()[4..])
}

/// The segment and the names of new master ids from `before` on.
fn append_masters(out: &mut Vec<u8>, before: u64, names: &[[u8; 20]]) -> Result<(), AllocError> {
    let after = before.wrapping_add(names.len() as u64);
    append_count(out, names.len().min(1))?;
    if !names.is_empty() {
        append_segment(out, after.wrapping_sub(1), names.len())?;
    }
    append_count(out, names.len())?;
    let mut id = before;
    for name in names {
        out.extend_from_slice(&id.to_be_bytes())?;
        out.extend_from_slice(name)?;
        id = id.wrapping_add(1);
    }
    Ok(())
}

/// The segment and the names of other ids.
fn append_others(out: &mut Vec<u8>, others: &[[u8; 20]]) -> Result<(), AllocError> {
    append_count(out, others.len())?;
    append_count(out, others.len().min(1))?;
    if !others.is_empty() {
        append_segment(
            out,
            (1u64 << 56).wrapping_add(others.len() as u64 - 1),
            others.len(),
        )?;
    }
    for name in others {
        out.extend_from_slice(name)?;
    }
    Ok(())
}

/// Appends a flush of new master ids with these names, and of other ids with those.
fn append_flush(
    out: &mut Vec<u8>,
    before: u64,
    names: &[[u8; 20]],
    others: &[[u8; 20]],
) -> Result<(), AllocError> {
    out.extend_from_slice(&[1, 1])?;
    out.extend_from_slice(&before.to_be_bytes())?;
    out.extend_from_slice(&before.wrapping_add(names.len() as u64).to_be_bytes())?;
    append_masters(out, before, names)?;
    out.extend_from_slice(&[0, 0])?;
    append_others(out, others)
}

/// A flush of new master ids with these names, and of other ids with those.
fn flush_bytes(
    alloc: Global,
    before: u64,
    names: &[[u8; 20]],
    others: &[[u8; 20]],
) -> Result<Vec<u8>, AllocError> {
    let mut out = Vec::new(alloc);
    append_flush(&mut out, before, names, others)?;
    Ok(out)
}

/// Adds the payload behind the log's end. Whether its names are distinct; `None` where it is no payload that may come
/// there, or for want of memory.
fn add(map: &mut NameMap, log: &[u8], payload: &[u8]) -> Option<bool> {
    let batch = BatchRef::read(payload)?;
    if batch.before() != map.master_count() || log.len() >= 1 << 40 || payload.len() >= 1 << 40 {
        return None;
    }
    match map.add_batch(log, &batch, log.len() as u64) {
        Ok(()) => Some(true),
        Err(MapFault::Double) => Some(false),
        Err(MapFault::Memory) => None,
    }
}

/// Adds the payload to the map and the log, if its names are distinct, and says whether they are.
fn add_payload(map: &mut NameMap, log: &mut Vec<u8>, payload: &[u8]) -> Result<bool, AllocError> {
    let distinct = add(map, log, payload).ok_or(AllocError)?;
    if distinct {
        log.extend_from_slice(payload)?;
    }
    Ok(distinct)
}

/// Adds a flush of these names to the map and the log. Whether the names are distinct.
fn add_flush(
    alloc: Global,
    map: &mut NameMap,
    log: &mut Vec<u8>,
    names: &[[u8; 20]],
    others: &[[u8; 20]],
) -> Result<bool, AllocError> {
    let payload = flush_bytes(alloc, map.master_count(), names, others)?;
    add_payload(map, log, &payload)
}

/// Whether the id has the name of this number, is found by it, and has so many known ids below it.
fn has(map: &NameMap, log: &[u8], id: u64, number: u16, below: u64) -> bool
    requires { id < 2 ^ 56 }
{
    let expected = name_of(number);
    let Some(name) = map.name(log, Id::master(id)) else {
        return false;
    };
    let Some(found) = map.id(log, NameRef::over(&expected), id + 1) else {
        return false;
    };
    name.bytes == expected.as_slice()
        && found.number() == id
        && map.id(log, NameRef::over(&expected), id).is_none()
        && map.known_below(id) == below
}

/// So many names, of the numbers from `first` down.
fn names_down(alloc: Global, first: u16, count: u16) -> Result<Vec<[u8; 20]>, AllocError> {
    let mut names = Vec::new(alloc);
    for k in 0..count {
        names.push(name_of(first.wrapping_sub(k)))?;
    }
    Ok(names)
}

/// Adds so many names from the number `first` down as master ids, and that of `other` as another id. Whether they are distinct.
fn add_down(
    alloc: Global,
    map: &mut NameMap,
    log: &mut Vec<u8>,
    first: u16,
    count: u16,
    other: u16,
) -> Result<bool, AllocError> {
    let names = names_down(alloc, first, count)?;
    add_flush(alloc, map, log, &names, &[name_of(other)])
}

/// Adds a hundred flushes: 495 master ids, whose names go down from that of 9,999, and another id in each, of a name from that of
/// 30,000 on. Whether the names are distinct.
fn add_hundred(alloc: Global, map: &mut NameMap, log: &mut Vec<u8>) -> Result<bool, AllocError> {
    let mut first = 9_999u16;
    for batch in 0..100u16 {
        let count = batch * 7 % 11;
        if !add_down(alloc, map, log, first, count, 30_000 + batch)? {
            return Ok(false);
        }
        first = first.wrapping_sub(count);
    }
    Ok(true)
}

/// Whether the map has the names of those master ids, and no others.
fn has_hundred(map: &NameMap, log: &[u8]) -> bool {
    for place in 0..495u16 {
        let id = u64::from(place);
        if !has(map, log, id, 9_999 - place, id) {
            return false;
        }
    }
    map.name(log, Id::master(495)).is_none()
        && map
            .id(log, NameRef::over(&name_of(30_099)), 1 << 60)
            .is_none()
        && map.known_below(1 << 60) == 495
}

/// Whether a map has the names of a hundred flushes that were added to it.
fn holds_hundred(alloc: Global) -> Result<bool, AllocError> {
    let mut map = NameMap::empty(alloc);
    let mut log: Vec<u8> = Vec::new(alloc);
    let distinct = add_hundred(alloc, &mut map, &mut log)?;
    Ok(distinct && has_hundred(&map, &log))
}

#[test]
fn names_are_found_both_ways(rt: HostRuntime) -> Result<(), Fail> {
    assert!(rt; holds_hundred(rt.alloc())?);
    Ok(())
}

/// The names of these numbers, up to the first 0.
fn names_of(alloc: Global, numbers: &[u16]) -> Result<Vec<[u8; 20]>, AllocError> {
    let mut names = Vec::new(alloc);
    for number in numbers {
        if *number == 0 {
            break;
        }
        names.push(name_of(*number))?;
    }
    Ok(names)
}

/// The numbers of a flush's master names, and of its other names, each list up to the first 0.
type Numbers = ([u16; 3], [u16; 2]);

/// A flush of the names of these numbers over so many master ids.
fn flush_of(alloc: Global, before: u64, numbers: &Numbers) -> Result<Vec<u8>, AllocError> {
    let (names, others) = numbers;
    let names = names_of(alloc, names)?;
    let others = names_of(alloc, others)?;
    flush_bytes(alloc, before, &names, &others)
}

/// Adds a flush of the names of these numbers. Whether the names are distinct.
fn add_numbers(
    alloc: Global,
    map: &mut NameMap,
    log: &mut Vec<u8>,
    numbers: &Numbers,
) -> Result<bool, AllocError> {
    let payload = flush_of(alloc, map.master_count(), numbers)?;
    add_payload(map, log, &payload)
}

/// A flush of no names.
const NO_FLUSH: Numbers = ([0; 3], [0; 2]);

/// The names of new master ids and of other ids of payloads that come one behind the other, by their numbers; how many payloads there
/// are; and how many known names there are with them; none where the names don't fit.
const IN_TURN: [([Numbers; 4], usize, Option<u64>); 14] = [
    ([NO_FLUSH, NO_FLUSH, NO_FLUSH, NO_FLUSH], 0, Some(0)),
    (
        [
            ([9, 1, 0], [2, 0]),
            ([2, 3, 0], [0, 0]),
            ([0, 0, 0], [4, 0]),
            NO_FLUSH,
        ],
        3,
        Some(4),
    ),
    (
        [
            ([1, 0, 0], [2, 3]),
            ([0, 0, 0], [3, 2]),
            ([3, 0, 0], [2, 0]),
            ([2, 0, 0], [0, 0]),
        ],
        4,
        Some(3),
    ),
    (
        [([1, 0, 0], [0, 0]), ([2, 1, 0], [0, 0]), NO_FLUSH, NO_FLUSH],
        2,
        None,
    ),
    (
        [([1, 0, 0], [0, 0]), ([2, 0, 0], [3, 1]), NO_FLUSH, NO_FLUSH],
        2,
        None,
    ),
    (
        [([1, 0, 0], [0, 0]), ([2, 0, 0], [2, 0]), NO_FLUSH, NO_FLUSH],
        2,
        None,
    ),
    (
        [([1, 0, 0], [0, 0]), ([2, 0, 0], [3, 3]), NO_FLUSH, NO_FLUSH],
        2,
        None,
    ),
    ([([1, 2, 1], [0, 0]), NO_FLUSH, NO_FLUSH, NO_FLUSH], 1, None),
    ([([1, 1, 0], [0, 0]), NO_FLUSH, NO_FLUSH, NO_FLUSH], 1, None),
    ([([1, 0, 0], [1, 0]), NO_FLUSH, NO_FLUSH, NO_FLUSH], 1, None),
    ([([0, 0, 0], [1, 1]), NO_FLUSH, NO_FLUSH, NO_FLUSH], 1, None),
    (
        [([1, 0, 0], [2, 0]), ([1, 0, 0], [0, 0]), NO_FLUSH, NO_FLUSH],
        2,
        None,
    ),
    (
        [([1, 0, 0], [2, 0]), ([0, 0, 0], [1, 0]), NO_FLUSH, NO_FLUSH],
        2,
        None,
    ),
    (
        [([1, 0, 0], [2, 0]), ([2, 0, 0], [0, 0]), NO_FLUSH, NO_FLUSH],
        2,
        Some(2),
    ),
];

/// Adds the flushes to the map and the log in turn, up to one whose names aren't distinct from those before. Whether there is none.
fn add_all(
    alloc: Global,
    map: &mut NameMap,
    log: &mut Vec<u8>,
    flushes: &[Numbers],
) -> Result<bool, AllocError> {
    for numbers in flushes {
        if !add_numbers(alloc, map, log, numbers)? {
            return Ok(false);
        }
    }
    Ok(true)
}

/// How many known names the map has with the flushes, which are added in turn.
fn count_added(
    alloc: Global,
    map: &mut NameMap,
    log: &mut Vec<u8>,
    flushes: &[Numbers],
) -> Result<Option<u64>, AllocError> {
    if !add_all(alloc, map, log, flushes)? {
        return Ok(None);
    }
    Ok(Some(map.known_below(1 << 60)))
}

/// How many known names a map has to which the flushes are added in turn.
fn count_in_turn(alloc: Global, flushes: &[Numbers]) -> Result<Option<u64>, AllocError> {
    let mut map = NameMap::empty(alloc);
    let mut log: Vec<u8> = Vec::new(alloc);
    count_added(alloc, &mut map, &mut log, flushes)
}

/// Adds the payload behind the log's end to what becomes a map. Whether it is taken; `None` where it is no payload that may
/// come there, or for want of memory.
fn add_to_build(build: &mut MapBuild, log: &[u8], payload: &[u8]) -> Option<bool> {
    let batch = BatchRef::read(payload)?;
    if batch.before() != build.master_count() || log.len() >= 1 << 40 || payload.len() >= 1 << 40 {
        return None;
    }
    match build.add_batch(&batch, log.len() as u64) {
        Ok(()) => Some(true),
        Err(MapFault::Double) => Some(false),
        Err(MapFault::Memory) => None,
    }
}

/// Adds the payload to the log and to what becomes a map, and says whether it is taken.
fn build_payload(
    build: &mut MapBuild,
    log: &mut Vec<u8>,
    payload: &[u8],
) -> Result<bool, AllocError> {
    let taken = add_to_build(build, log, payload).ok_or(AllocError)?;
    log.extend_from_slice(payload)?;
    Ok(taken)
}

/// Adds the flushes to the log and to what becomes a map, up to one that isn't taken. Whether there is none.
fn build_all(
    alloc: Global,
    build: &mut MapBuild,
    log: &mut Vec<u8>,
    flushes: &[Numbers],
) -> Result<bool, AllocError> {
    for numbers in flushes {
        let payload = flush_of(alloc, build.master_count(), numbers)?;
        if !build_payload(build, log, &payload)? {
            return Ok(false);
        }
    }
    Ok(true)
}

/// How many known names the map has that becomes of this, where its names are distinct.
fn finished(build: MapBuild, log: &[u8]) -> Result<Option<u64>, AllocError> {
    match build.finish(log) {
        Ok(map) => Ok(Some(map.known_below(1 << 60))),
        Err(MapFault::Double) => Ok(None),
        Err(MapFault::Memory) => Err(AllocError),
    }
}

/// How many known names a map has that is made of the flushes at once.
fn count_at_once(alloc: Global, flushes: &[Numbers]) -> Result<Option<u64>, AllocError> {
    let mut build = MapBuild::empty(alloc);
    let mut log: Vec<u8> = Vec::new(alloc);
    if !build_all(alloc, &mut build, &mut log, flushes)? {
        return Ok(None);
    }
    finished(build, &log)
}

/// Whether both ways lead to so many known names.
fn have(alloc: Global, flushes: &[Numbers], known: Option<u64>) -> Result<bool, AllocError> {
    Ok(count_in_turn(alloc, flushes)? == known && count_at_once(alloc, flushes)? == known)
}

/// The place of the first payloads that lead to another number, in turn or at once.
fn first_wrong(alloc: Global) -> Result<Option<usize>, AllocError> {
    for (place, row) in IN_TURN.iter().enumerate() {
        let (flushes, count, known) = row;
        let flushes = flushes.get(..*count).unwrap_or_default();
        if !have(alloc, flushes, *known)? {
            return Ok(Some(place));
        }
    }
    Ok(None)
}

#[test]
fn a_map_at_once_is_that_in_turn(rt: HostRuntime) -> Result<(), Fail> {
    assert_eq!(rt; first_wrong(rt.alloc())?, None);
    Ok(())
}
