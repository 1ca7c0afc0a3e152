//! Names that differ little, names that stand twice, and inserts of varied sizes.

use id_groups::NameRef;
use name_index::{IndexFault, NameIndex};
use std::alloc::{AllocError, Global};
use std::test::Fail;

/// Twenty bytes: twelve of one value, and the number.
fn name_of(filler: u8, number: u64) -> [u8; 20] {
    let mut name = [filler; 20];
    name[12..].copy_from_slice(&number.to_be_bytes());
    name
}

/// Appends so many names, whose numbers go round all numbers from `first` steps on, and says where they stand.
fn append(
    alloc: Global,
    bytes: &mut Vec<u8>,
    first: u64,
    count: u64,
) -> Result<Vec<u64>, AllocError> {
    let mut places = Vec::new(alloc);
    for k in 0..count {
        let step = first.wrapping_add(k);
        places.push(step.wrapping_mul(20))?;
        bytes.extend_from_slice(&name_of(7, step.wrapping_mul(0x9e3779b97f4a7c15)))?;
    }
    Ok(places)
}

/// The names of these fillers and numbers, one behind the other.
fn names_of(alloc: Global, named: &[(u8, u64)]) -> Result<Vec<u8>, AllocError> {
    let mut bytes = Vec::new(alloc);
    for (filler, number) in named {
        bytes.extend_from_slice(&name_of(*filler, *number))?;
    }
    Ok(bytes)
}

/// Whether the index takes names that stand at the places in bytes behind those of `held`. They stay out where one of them stands
/// there twice.
fn takes(
    alloc: Global,
    index: &mut NameIndex,
    held: &[u8],
    added: &[u8],
    places: &[u64],
) -> Result<bool, AllocError> {
    let places = Vec::from_slice(alloc, places)?;
    match index.insert(held, held.len() as u64, added, places) {
        Ok(()) => Ok(true),
        Err(IndexFault::Double) => Ok(false),
        Err(IndexFault::Memory) => Err(AllocError),
    }
}

/// The numbers of five names that have their first 19 bytes in common.
const CLOSE: [(u8, u64); 5] = [(7, 5), (7, 4), (7, 3), (7, 2), (7, 1)];

/// Whether the index over the bytes has the close names at their places, and no other.
fn has_close(index: &NameIndex, bytes: &[u8]) -> bool {
    for k in 0..5u64 {
        if index.find(bytes, NameRef::over(&name_of(7, 5 - k))) != Some(20 * k) {
            return false;
        }
    }
    index.find(bytes, NameRef::over(&name_of(7, 6))).is_none()
        && index.find(&[], NameRef::over(&name_of(7, 3))).is_none()
}

/// Whether an index takes the close names and has them.
fn holds_close(alloc: Global, bytes: &[u8]) -> Result<bool, AllocError> {
    let mut index = NameIndex::empty(alloc);
    let taken = takes(alloc, &mut index, &[], bytes, &[0, 20, 40, 60, 80])?;
    Ok(taken && has_close(&index, bytes))
}

/// Names that come in place of the close ones, so many of these: some of them in their order, in another order, and with one more.
const NEXT: [([(u8, u64); 6], usize); 6] = [
    ([(7, 5), (7, 3), (7, 2), (7, 1), (0, 0), (0, 0)], 4),
    ([(7, 4), (0, 0), (0, 0), (0, 0), (0, 0), (0, 0)], 1),
    ([(0, 0), (0, 0), (0, 0), (0, 0), (0, 0), (0, 0)], 0),
    ([(7, 2), (7, 3), (0, 0), (0, 0), (0, 0), (0, 0)], 2),
    ([(7, 5), (7, 6), (7, 1), (0, 0), (0, 0), (0, 0)], 3),
    ([(7, 5), (7, 4), (7, 3), (7, 2), (7, 1), (7, 0)], 6),
];

/// Whether the index has these names one behind another from the place on, and not that of a number that none has.
fn has_names(index: &NameIndex, bytes: &[u8], named: &[(u8, u64)], at: u64) -> bool {
    let mut place = at;
    for (filler, number) in named {
        if index.find(bytes, NameRef::over(&name_of(*filler, *number))) != Some(place) {
            return false;
        }
        place = place.wrapping_add(20);
    }
    index.find(bytes, NameRef::over(&name_of(7, 9))).is_none()
}

/// Whether the index of the close names gives one of these names, which stand behind them.
fn moves_to(alloc: Global, named: &[(u8, u64)]) -> Result<bool, AllocError> {
    let mut bytes = names_of(alloc, &CLOSE)?;
    let names = names_of(alloc, named)?;
    if bytes.len() > 100 || names.len() > 200 {
        return Ok(false);
    }
    let index = NameIndex::of_names(alloc, 0, &bytes)?;
    let next = index.moved(0, &bytes, 100, &names)?;
    bytes.extend_from_slice(&names)?;
    Ok(has_names(&index, &bytes, &CLOSE, 0) && has_names(&next, &bytes, named, 100))
}

/// Whether it does for each row.
fn all_move(alloc: Global) -> Result<bool, AllocError> {
    for (named, count) in &NEXT {
        if !moves_to(alloc, named.get(..*count).unwrap_or_default())? {
            return Ok(false);
        }
    }
    Ok(true)
}

#[test]
fn names_are_found_where_they_stand_now(rt: HostRuntime) -> Result<(), Fail> {
    assert!(rt; all_move(rt.alloc())?);
    Ok(())
}

#[test]
fn close_names_are_told_apart(rt: HostRuntime) -> Result<(), Fail> {
    let bytes = names_of(rt.alloc(), &CLOSE)?;
    assert!(rt; holds_close(rt.alloc(), &bytes)?);
    Ok(())
}

/// Names behind one of (7, 3) at 0, their places, and whether they are taken, in turn.
type Behind = (&'static [(u8, u64)], &'static [u64], bool);

const BEHIND: [Behind; 3] = [
    (&[(7, 3)], &[20], false),
    (&[(8, 1), (8, 1)], &[40, 20], false),
    (&[(8, 1)], &[20], true),
];

/// Whether the names are taken behind that one, or not, as it is wanted.
fn are_behind(
    alloc: Global,
    index: &mut NameIndex,
    held: &[u8],
    row: &Behind,
) -> Result<bool, AllocError> {
    let (named, places, wanted) = row;
    let added = names_of(alloc, named)?;
    let taken = takes(alloc, index, held, &added, places)?;
    Ok(taken == *wanted && index.find(held, NameRef::over(&name_of(7, 3))) == Some(0))
}

fn are_all_behind(alloc: Global, index: &mut NameIndex, held: &[u8]) -> Result<bool, AllocError> {
    for row in &BEHIND {
        if !are_behind(alloc, index, held, row)? {
            return Ok(false);
        }
    }
    Ok(true)
}

/// Whether the index takes that one, and those behind it as it is wanted.
fn takes_behind(alloc: Global, index: &mut NameIndex) -> Result<bool, AllocError> {
    let held = name_of(7, 3);
    if !takes(alloc, index, &[], &held, &[0])? {
        return Ok(false);
    }
    are_all_behind(alloc, index, &held)
}

#[test]
fn a_name_stands_once(rt: HostRuntime) -> Result<(), Fail> {
    let mut index = NameIndex::empty(rt.alloc());
    assert!(rt; takes_behind(rt.alloc(), &mut index)?);
    Ok(())
}

/// Adds a hundred times up to 22 names behind those in the bytes, and says how many there are then; `None` where a name is held
/// already.
fn fill(
    alloc: Global,
    index: &mut NameIndex,
    bytes: &mut Vec<u8>,
) -> Result<Option<u64>, AllocError> {
    let mut total = 0u64;
    for k in 0..100u64 {
        let count = k * 37 % 23;
        let places = append(alloc, bytes, total, count)?;
        match index.insert(bytes, 0, bytes, places) {
            Ok(()) => total = total.wrapping_add(count),
            Err(IndexFault::Double) => return Ok(None),
            Err(IndexFault::Memory) => return Err(AllocError),
        }
    }
    Ok(Some(total))
}

/// Whether the index has the first names of so many numbers at their places.
fn has_first(index: &NameIndex, bytes: &[u8], total: u64) -> bool {
    for step in 0..total {
        let name = name_of(7, step.wrapping_mul(0x9e3779b97f4a7c15));
        if index.find(bytes, NameRef::over(&name)) != Some(step.wrapping_mul(20)) {
            return false;
        }
    }
    true
}

/// Whether an index has all 1,082 names of many inserts.
fn holds_all(alloc: Global) -> Result<bool, AllocError> {
    let mut index = NameIndex::empty(alloc);
    let mut bytes: Vec<u8> = Vec::new(alloc);
    let total = fill(alloc, &mut index, &mut bytes)?;
    Ok(total == Some(1082) && has_first(&index, &bytes, 1082))
}

#[test]
fn all_are_found_behind_many_inserts(rt: HostRuntime) -> Result<(), Fail> {
    assert!(rt; holds_all(rt.alloc())?);
    Ok(())
}
