//! For how many names a mirror is asked, line by line, over the clone of a chain of ten commits, at its path and behind a pipe. A mirror
//! that may be asked for so many names and no more tells want of memory then, and behind a pipe that it failed, so the least number with
//! which lines are answered is what they ask for.

use crate::reached::{Reach, reached};
use commit_graph::{Row, World};
use dag_run::{Limits, Report, run_lines};
use disk_memory::MemoryDisk;
use id_groups::Name;
use line_io::{MemorySink, MemorySource};
use link_memory::Reached;
use mirror_set::Mirrors;
use remote_memory::MemoryRemote;
use remote_trait::{CloneData, Path, Remote, RemoteFault};
use std::alloc::{AllocError, Global};

/// A mirror in memory that may still be asked for so many names, a path being one.
#[derive(Drop)]
struct Sparing {
    remote: MemoryRemote,
    left: u64,
}

/// Takes so many names off, and answers whether there were so many.
fn spend(left: &mut u64, names: u64) -> bool {
    let before = *left;
    *left = before.saturating_sub(names);
    names <= before
}

impl Remote for Sparing {
    ghost use Rattle.remote_memory.specs.Memory.{mirror_of};

    ghost shown = { λ r. mirror_of r.remote };

    fn refresh(&mut self, alloc: Global) -> Result<(), RemoteFault> {
        self.remote.refresh(alloc)
    }

    fn clone_data(&mut self, alloc: Global) -> Result<CloneData, RemoteFault> {
        self.remote.clone_data(alloc)
    }

    fn names_of(
        &mut self,
        alloc: Global,
        x: &Name,
        back: u64,
        out: &mut [Name],
    ) -> Result<u32, RemoteFault> {
        let spent = spend(&mut self.left, out.len() as u64);
        let count = self.remote.names_of(alloc, x, back, out)?;
        if spent {
            Ok(count)
        } else {
            Err(RemoteFault::Memory)
        }
    }

    fn path_of(
        &mut self,
        alloc: Global,
        heads: &[Name],
        name: &Name,
    ) -> Result<Option<Path>, RemoteFault> {
        let spent = spend(&mut self.left, 1);
        let found = self.remote.path_of(alloc, heads, name)?;
        if spent {
            Ok(found)
        } else {
            Err(RemoteFault::Memory)
        }
    }
}

/// The name of 19 zero bytes and this one.
fn name(last: u8) -> Name {
    let mut bytes = [0; 20];
    bytes[19] = last;
    Name::from_bytes(bytes)
}

/// The rows of a chain of so many commits, whose names end with 10, 11 and so on.
fn chain_rows(alloc: Global, commits: u8) -> Result<Vec<Row>, AllocError> {
    let mut rows = Vec::new(alloc);
    let mut before: Option<Name> = None;
    for k in 0..commits {
        let own = name(0x10u8.wrapping_add(k));
        rows.push(match before {
            None => Row::new(own, &[]),
            Some(parent) => Row::new(own, &[parent]),
        })?;
        before = Some(own);
    }
    Ok(rows)
}

/// The world with these rows, of which there are few; `AllocError` also where there is none.
fn world_of(alloc: Global, rows: Vec<Row>) -> Result<World, AllocError> {
    if rows.len() > 16 {
        return Err(AllocError);
    }
    World::of_master(alloc, rows)?.ok_or(AllocError)
}

/// A mirror of the chain of so many commits.
fn chain_remote(alloc: Global, commits: u8) -> Result<MemoryRemote, AllocError> {
    let rows = chain_rows(alloc, commits)?;
    let world = world_of(alloc, rows)?;
    if world.master_count() > 16 {
        return Err(AllocError);
    }
    MemoryRemote::new(alloc, world, &[])
}

/// That mirror alone, which may be asked for so many names, reached so.
fn alone(
    alloc: Global,
    commits: u8,
    left: u64,
    reach: Reach,
) -> Result<Mirrors<Reached<Sparing>>, AllocError> {
    let remote = chain_remote(alloc, commits)?;
    let mut list = Vec::new(alloc);
    list.push(reached(alloc, Sparing { remote, left }, reach))?;
    if list.len() > 1 {
        return Err(AllocError);
    }
    Ok(Mirrors::new(list))
}

/// Answers lines over a disk.
fn run(
    alloc: Global,
    disk: &mut MemoryDisk,
    mirrors: &mut Mirrors<Reached<Sparing>>,
    lines: &str,
    output: &mut MemorySink,
) -> Result<Report, AllocError> {
    let mut input = MemorySource::new(alloc, lines.as_bytes(), 100, &[])?;
    let limits = Limits::standard();
    Ok(run_lines(alloc, limits, 4096, disk, mirrors, &mut input, output))
}

/// Clones the chain of ten commits to a disk.
fn clone_to(alloc: Global, disk: &mut MemoryDisk) -> Result<(), AllocError> {
    let mut unheard = MemorySink::new(alloc, &[])?;
    let mut mirrors = alone(alloc, 10, 0, Reach::Paths)?;
    let _report = run(alloc, disk, &mut mirrors, "0 clone\n", &mut unheard)?;
    Ok(())
}

/// A disk with the clone of that chain.
fn cloned(alloc: Global) -> Result<MemoryDisk, AllocError> {
    let mut disk = MemoryDisk::new(alloc, &[], &[], None)?;
    clone_to(alloc, &mut disk)?;
    Ok(disk)
}

/// A line and its reply, an equals sign between; for how many names it asks, and how many changes it stores.
type Asked = (&'static str, u64, usize);

/// Beside a mirror with two commits more, of which a session has one: the second pull asks again and stores nothing.
const PULLED: [Asked; 7] = [
    (
        "0 add 000000000000000000000000000000000000001a 0000000000000000000000000000000000000019\n=ok added N0\n",
        1,
        0,
    ),
    (
        "0 add 0000000000000000000000000000000000000020 0000000000000000000000000000000000000019\n=ok added N1\n",
        1,
        0,
    ),
    ("0 flush\n=ok flushed 10 2\n", 0, 1),
    ("0 pull\n=ok pulled 12 1\n", 2, 1),
    (
        "0 query top(all,3)\n=0000000000000000000000000000000000000020
000000000000000000000000000000000000001b
000000000000000000000000000000000000001a
ok 3
",
        0,
        0,
    ),
    (
        "0 id 000000000000000000000000000000000000001a\n=ok 10\n",
        0,
        0,
    ),
    ("0 pull\n=ok pulled 12 1\n", 2, 0),
];

/// Beside the same mirror, of which a row differs from one that is stored.
const DIFFERING: [Asked; 4] = [
    (
        "0 add 000000000000000000000000000000000000001a 0000000000000000000000000000000000000018\n=ok added N0\n",
        2,
        0,
    ),
    ("0 flush\n=ok flushed 10 1\n", 0, 1),
    (
        "0 pull\n=err conflict 000000000000000000000000000000000000001a\n",
        2,
        0,
    ),
    ("0 status\n=ok 10 1 0\n", 0, 0),
];

/// Beside a mirror with nine of the ten commits.
const FEWER: [Asked; 1] = [("0 pull\n=err mismatch clone 0\n", 0, 0)];

/// Beside which mirror lines go.
#[derive(Clone, Copy, PartialEq, Debug)]
enum Case {
    Pulled,
    Differing,
    Fewer,
}

/// All cases.
const CASES: [Case; 3] = [Case::Pulled, Case::Differing, Case::Fewer];

impl Case {
    /// How many commits the mirror has.
    fn commits(self) -> u8 {
        match self {
            Case::Pulled | Case::Differing => 12,
            Case::Fewer => 9,
        }
    }

    /// The lines.
    fn rows(self) -> &'static [Asked] {
        match self {
            Case::Pulled => &PULLED,
            Case::Differing => &DIFFERING,
            Case::Fewer => &FEWER,
        }
    }
}

/// A line, and its reply.
fn halves(text: &str) -> (&str, &str) {
    text.split_once('=').unwrap_or((text, ""))
}

/// The lines of these rows.
fn lines_of(alloc: Global, rows: &[Asked]) -> Result<String, AllocError> {
    let mut text = String::new(alloc);
    for (line, _, _) in rows {
        text.push_str(halves(line).0)?;
    }
    Ok(text)
}

/// Their replies.
fn replies_of(alloc: Global, rows: &[Asked]) -> Result<String, AllocError> {
    let mut text = String::new(alloc);
    for (line, _, _) in rows {
        text.push_str(halves(line).1)?;
    }
    Ok(text)
}

/// For how many names they ask.
fn asked_by(rows: &[Asked]) -> u64 {
    let mut sum = 0u64;
    for (_, asked, _) in rows {
        sum = sum.wrapping_add(*asked);
    }
    sum
}

/// How many changes they store.
fn stored_by(rows: &[Asked]) -> usize {
    let mut sum = 0usize;
    for (_, _, stored) in rows {
        sum = sum.wrapping_add(*stored);
    }
    sum
}

/// Answers the lines over a disk beside mirrors. Whether all were, and stored so many changes.
fn run_lines_of(
    alloc: Global,
    disk: &mut MemoryDisk,
    mirrors: &mut Mirrors<Reached<Sparing>>,
    rows: &[Asked],
    output: &mut MemorySink,
) -> Result<bool, AllocError> {
    let lines = lines_of(alloc, rows)?;
    let report = run(alloc, disk, mirrors, lines.as_str(), output)?;
    Ok(report.status == 0 && report.changes.len() == stored_by(rows))
}

/// The same beside a mirror with so many commits, which may be asked for so many names, reached so.
fn run_beside(
    alloc: Global,
    disk: &mut MemoryDisk,
    commits: u8,
    rows: &[Asked],
    left: u64,
    reach: Reach,
    output: &mut MemorySink,
) -> Result<bool, AllocError> {
    let mut mirrors = alone(alloc, commits, left, reach)?;
    run_lines_of(alloc, disk, &mut mirrors, rows, output)
}

/// The same over the clone.
fn run_over_clone(
    alloc: Global,
    commits: u8,
    rows: &[Asked],
    left: u64,
    reach: Reach,
    output: &mut MemorySink,
) -> Result<bool, AllocError> {
    let mut disk = cloned(alloc)?;
    run_beside(alloc, &mut disk, commits, rows, left, reach, output)
}

/// Whether these are the replies to the lines.
fn are_replies(alloc: Global, rows: &[Asked], bytes: &[u8]) -> Result<bool, AllocError> {
    let replies = replies_of(alloc, rows)?;
    Ok(bytes == replies.as_bytes())
}

/// Whether the lines are answered so over the clone, where the mirror may be asked for so many names, and store so many changes.
fn are_answered(
    alloc: Global,
    commits: u8,
    rows: &[Asked],
    left: u64,
    reach: Reach,
) -> Result<bool, AllocError> {
    let mut output = MemorySink::new(alloc, &[])?;
    let is_run = run_over_clone(alloc, commits, rows, left, reach, &mut output)?;
    Ok(is_run && are_replies(alloc, rows, output.bytes())?)
}

/// Whether the lines ask for as many names as they say: these suffice, and one fewer doesn't.
fn is_counted(
    alloc: Global,
    commits: u8,
    rows: &[Asked],
    reach: Reach,
) -> Result<bool, AllocError> {
    let asked = asked_by(rows);
    let suffices = are_answered(alloc, commits, rows, asked, reach)?;
    if asked == 0 {
        return Ok(suffices);
    }
    Ok(suffices && !are_answered(alloc, commits, rows, asked - 1, reach)?)
}

/// The first number of lines of a case that ask for another number of names, if there is one.
fn wrong_count(alloc: Global, case: Case) -> Result<Option<usize>, AllocError> {
    let rows = case.rows();
    for count in 0..rows.len() {
        let (front, _) = rows.split_at(count + 1);
        if !is_counted(alloc, case.commits(), front, Reach::Paths)?
            || !is_counted(alloc, case.commits(), front, Reach::Pipes(5))?
        {
            return Ok(Some(count + 1));
        }
    }
    Ok(None)
}

/// The first case in which one does, and that number.
fn wrong_case(alloc: Global) -> Result<Option<(Case, usize)>, AllocError> {
    for case in &CASES {
        if let Some(count) = wrong_count(alloc, *case)? {
            return Ok(Some((*case, count)));
        }
    }
    Ok(None)
}

#[test]
fn lines_ask_for_so_many_names(rt: HostRuntime) -> Result<(), AllocError> {
    assert_eq!(rt; wrong_case(rt.alloc())?, None);
    Ok(())
}
