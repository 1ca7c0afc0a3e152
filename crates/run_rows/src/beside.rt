//! Mirrors in memory, by the words that a case names them with.

use crate::told::{halves, liar, name, number};
use commit_graph::{Row, World};
use id_groups::Name;
use remote_memory::MemoryRemote;
use remote_trait::{CloneData, FixedRemote, Path, Remote, RemoteFault};
use std::alloc::{AllocError, Global};

/// A row of a master: the last byte of its name, and those of its parents. All other bytes are 0.
type Spelled = (u8, &'static [u8]);

/// A chain of twelve commits.
const CHAIN: [Spelled; 12] = [
    (0x10, &[]),
    (0x11, &[0x10]),
    (0x12, &[0x11]),
    (0x13, &[0x12]),
    (0x14, &[0x13]),
    (0x15, &[0x14]),
    (0x16, &[0x15]),
    (0x17, &[0x16]),
    (0x18, &[0x17]),
    (0x19, &[0x18]),
    (0x1a, &[0x19]),
    (0x1b, &[0x1a]),
];

/// Six commits, of which two stand on the second, and the last is a merge. They stand in the order of their ids in master.
const SIX: [Spelled; 6] = [
    (0x01, &[]),
    (0x02, &[0x01]),
    (0x03, &[0x02]),
    (0x04, &[0x02]),
    (0x05, &[0x04]),
    (0x06, &[0x03, 0x05]),
];

/// A commit, two on it, and their merge.
const FOUR: [Spelled; 4] = [
    (0xa1, &[]),
    (0xb1, &[0xa1]),
    (0xc1, &[0xa1]),
    (0xd1, &[0xb1, 0xc1]),
];

/// Five commits in a chain, two on the third, a merge of both, and one more.
const FORK: [Spelled; 9] = [
    (0x10, &[]),
    (0x11, &[0x10]),
    (0x12, &[0x11]),
    (0x13, &[0x12]),
    (0x14, &[0x13]),
    (0x15, &[0x12]),
    (0x16, &[0x15]),
    (0x17, &[0x14, 0x16]),
    (0x18, &[0x17]),
];

/// The most rows of a mirror.
const MOST: usize = 4_096;

/// The row of a merge of two commits, and of a commit on the one, if they are the same.
fn merge(own: Name, first: Name, second: Name) -> Row {
    if first.is(&second) {
        Row::new(own, &[first])
    } else {
        Row::new(own, &[first, second])
    }
}

/// A row with no parent, one or two.
fn row(spelled: &Spelled) -> Row {
    let (last, parents) = spelled;
    match parents {
        [first] => Row::new(name(*last), &[name(*first)]),
        [first, second] => merge(name(*last), name(*first), name(*second)),
        _ => Row::new(name(*last), &[]),
    }
}

/// Rows in a list.
fn list_rows(alloc: Global, rows: &[Spelled]) -> Result<Vec<Row>, AllocError> {
    let mut list = Vec::new(alloc);
    for spelled in rows {
        list.push(row(spelled))?;
    }
    Ok(list)
}

/// The world whose master has these rows.
fn world_of(alloc: Global, list: Vec<Row>) -> Result<World, AllocError> {
    if list.len() > MOST {
        return Err(AllocError);
    }
    World::of_master(alloc, list)?.ok_or(AllocError)
}

/// The same of these rows.
fn world(alloc: Global, rows: &[Spelled]) -> Result<World, AllocError> {
    let list = list_rows(alloc, rows)?;
    world_of(alloc, list)
}

/// A mirror of this world, which fails at its calls with these numbers.
fn mirror_in(alloc: Global, world: World, fails: &[u64]) -> Result<MemoryRemote, AllocError> {
    if world.master_count() > MOST as u64 {
        return Err(AllocError);
    }
    MemoryRemote::new(alloc, world, fails)
}

/// A mirror with this master, which fails at its calls with these numbers.
fn honest(alloc: Global, rows: &[Spelled], fails: &[u64]) -> Result<MemoryRemote, AllocError> {
    let world = world(alloc, rows)?;
    mirror_in(alloc, world, fails)
}

/// A mirror that a case names.
#[derive(Drop)]
pub enum Beside {
    Honest(MemoryRemote),
    Liar(FixedRemote),
}

impl Remote for Beside {
    ghost use Rattle.run_rows.specs.Beside.{shown_of};

    ghost shown = { λ b. shown_of b };

    fn refresh(&mut self, alloc: Global) -> Result<(), RemoteFault> {
        match self {
            Beside::Honest(remote) => remote.refresh(alloc),
            Beside::Liar(remote) => remote.refresh(alloc),
        }
    }

    fn clone_data(&mut self, alloc: Global) -> Result<CloneData, RemoteFault> {
        match self {
            Beside::Honest(remote) => remote.clone_data(alloc),
            Beside::Liar(remote) => remote.clone_data(alloc),
        }
    }

    fn names_of(
        &mut self,
        alloc: Global,
        x: &Name,
        back: u64,
        out: &mut [Name],
    ) -> Result<u32, RemoteFault> {
        match self {
            Beside::Honest(remote) => remote.names_of(alloc, x, back, out),
            Beside::Liar(remote) => remote.names_of(alloc, x, back, out),
        }
    }

    fn path_of(
        &mut self,
        alloc: Global,
        heads: &[Name],
        name: &Name,
    ) -> Result<Option<Path>, RemoteFault> {
        match self {
            Beside::Honest(remote) => remote.path_of(alloc, heads, name),
            Beside::Liar(remote) => remote.path_of(alloc, heads, name),
        }
    }
}

/// The commits that stand for a word.
fn rows_of(word: &str) -> Option<&'static [Spelled]> {
    match word {
        "ten" => CHAIN.get(..10),
        "twelve" => Some(&CHAIN),
        "nine" => CHAIN.get(..9),
        "six" => Some(&SIX),
        "four" => Some(&FOUR),
        "fork" => Some(&FORK),
        _ => None,
    }
}

/// The same, and only so many of them where a number stands behind a colon.
fn first_rows(word: &str) -> Option<&'static [Spelled]> {
    let (kind, digits) = halves(word, ':');
    let rows = rows_of(kind)?;
    if digits.is_empty() {
        return Some(rows);
    }
    rows.get(..number(digits) as usize)
}

/// The honest mirror of this word; nothing where there is none.
fn named(alloc: Global, word: &str, fails: &[u64]) -> Result<Option<Beside>, AllocError> {
    match first_rows(word) {
        Some(rows) => Ok(Some(Beside::Honest(honest(alloc, rows, fails)?))),
        None => Ok(None),
    }
}

/// The numbers of these digits.
fn numbers(alloc: Global, digits: &str) -> Result<Vec<u64>, AllocError> {
    let mut list = Vec::new(alloc);
    for digit in digits.as_bytes() {
        list.push(u64::from(digit.saturating_sub(b'0')))?;
    }
    Ok(list)
}

/// The mirror of this word: an honest one, which fails at its calls with the numbers that stand behind a stroke, a digit each; or behind
/// `told:` one that tells what isn't so.
fn mirror_of(alloc: Global, word: &str) -> Result<Option<Beside>, AllocError> {
    if let Some(text) = word.strip_prefix("told:") {
        return Ok(Some(Beside::Liar(liar(alloc, text)?)));
    }
    let (kind, fails) = halves(word, '/');
    named(alloc, kind, &numbers(alloc, fails)?)
}

/// The mirrors of these words, one blank between two.
fn list_of(alloc: Global, words: &str) -> Result<Vec<Beside>, AllocError> {
    let mut list = Vec::new(alloc);
    for word in words.split_whitespace() {
        if let Some(one) = mirror_of(alloc, word)? {
            list.push(one)?;
        }
    }
    Ok(list)
}

/// The mirrors that stand behind ` beside: ` in a case's line; none where it doesn't stand there.
pub fn mirrors_of(alloc: Global, title: &str) -> Result<Vec<Beside>, AllocError> {
    match title.split_once(" beside: ") {
        Some((_, words)) => list_of(alloc, words),
        None => Ok(Vec::new(alloc)),
    }
}
