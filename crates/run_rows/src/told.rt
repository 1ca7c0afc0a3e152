//! What a case spells of a mirror that may lie: segments, known ids, heads, a path and names, divided by semicolons, and the items of each
//! by commas. A segment is its lowest and highest id with a dash between, and its parents, at most two, behind points. Commits are named by
//! numbers; that of a known id is the id's, where no other stands behind an equals sign. A path is a name's number and the steps from it,
//! with a dash between.

use id_groups::Name;
use remote_trait::{CloneData, FixedRemote, Path};
use std::alloc::{AllocError, Global};

/// How many items a list has at most.
const MOST: u32 = 9;

/// The name of 19 zero bytes and this one.
pub fn name(last: u8) -> Name {
    let mut bytes = [0; 20];
    bytes[19] = last;
    Name::from_bytes(bytes)
}

/// The text before the mark, and what is behind it; nothing where there is none.
pub fn halves(text: &str, mark: char) -> (&str, &str) {
    match text.split_once(mark) {
        Some((front, rest)) => (front, rest),
        None => (text, ""),
    }
}

/// The number of these digits; 0 where there are none.
pub fn number(text: &str) -> u64 {
    text.parse::<u64>().unwrap_or(0)
}

/// The name of a number: its last byte is 16 more.
fn named(number: u64) -> Name {
    name(((number % 256).min(255) as u8).wrapping_add(16))
}

/// Puts a segment with these parents.
fn push_on(told: &mut CloneData, ids: &str, parents: &str) -> Result<(), AllocError> {
    let (low, high) = halves(ids, '-');
    let (first, second) = halves(parents, '.');
    if told.segments.len() > MOST {
        return Err(AllocError);
    }
    let (low, high) = (number(low), number(high));
    if first.is_empty() {
        told.push_segment(low, high, &[])
    } else if second.is_empty() {
        told.push_segment(low, high, &[number(first)])
    } else {
        told.push_segment(low, high, &[number(first), number(second)])
    }
}

/// Puts a segment.
fn push_segment(told: &mut CloneData, text: &str) -> Result<(), AllocError> {
    let (ids, parents) = halves(text, '.');
    push_on(told, ids, parents)
}

/// Puts a known id.
fn push_known(told: &mut CloneData, text: &str) -> Result<(), AllocError> {
    let (id, other) = halves(text, '=');
    let own = if other.is_empty() { id } else { other };
    if told.names.len() > MOST {
        return Err(AllocError);
    }
    told.push_name(number(id), named(number(own)))
}

/// Puts a head.
fn push_head(told: &mut CloneData, text: &str) -> Result<(), AllocError> {
    if told.heads.len() > MOST {
        return Err(AllocError);
    }
    told.push_head(named(number(text)))
}

/// What an item is.
#[derive(Clone, Copy)]
enum Kind {
    Segment,
    Known,
    Head,
}

/// Puts an item.
fn push(told: &mut CloneData, kind: Kind, text: &str) -> Result<(), AllocError> {
    match kind {
        Kind::Segment => push_segment(told, text),
        Kind::Known => push_known(told, text),
        Kind::Head => push_head(told, text),
    }
}

/// Puts the items of a list.
fn push_all(told: &mut CloneData, kind: Kind, text: &str) -> Result<(), AllocError> {
    let mut rest = text;
    for _item in 0..MOST {
        let (item, behind) = halves(rest, ',');
        if item.is_empty() {
            break;
        }
        push(told, kind, item)?;
        rest = behind;
    }
    Ok(())
}

/// The clone data of these segments, known ids and heads.
fn data_of(
    alloc: Global,
    segments: &str,
    known: &str,
    heads: &str,
) -> Result<CloneData, AllocError> {
    let mut told = CloneData::empty(alloc);
    push_all(&mut told, Kind::Segment, segments)?;
    push_all(&mut told, Kind::Known, known)?;
    push_all(&mut told, Kind::Head, heads)?;
    Ok(told)
}

/// The path that is spelled so; none where nothing is.
fn path_of(text: &str) -> Option<Path> {
    let (from, steps) = halves(text, '-');
    if from.is_empty() {
        return None;
    }
    Some(Path {
        x: named(number(from)),
        n: number(steps),
    })
}

/// The names of these numbers.
fn names_of(alloc: Global, text: &str) -> Result<Vec<Name>, AllocError> {
    let mut names = Vec::new(alloc);
    let mut rest = text;
    for _item in 0..MOST {
        let (item, behind) = halves(rest, ',');
        if item.is_empty() {
            break;
        }
        names.push(named(number(item)))?;
        rest = behind;
    }
    Ok(names)
}

/// A mirror with these clone data, and the path and the names of the rest.
fn liar_with(alloc: Global, told: CloneData, rest: &str) -> Result<FixedRemote, AllocError> {
    let (path, names) = halves(rest, ';');
    let names = names_of(alloc, names)?;
    if names.len() > 16 {
        return Err(AllocError);
    }
    Ok(FixedRemote::new(told, path_of(path), names))
}

/// The mirror of this spelling, which tells this path for each name, and of these names as many as it is asked for.
pub fn liar(alloc: Global, text: &str) -> Result<FixedRemote, AllocError> {
    let (segments, rest) = halves(text, ';');
    let (known, rest) = halves(rest, ';');
    let (heads, rest) = halves(rest, ';');
    let told = data_of(alloc, segments, known, heads)?;
    liar_with(alloc, told, rest)
}
