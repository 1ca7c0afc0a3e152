//! Answers about which something is wrong, byte by byte.

use crate::chain::{chain_mirror, name};
use link_memory::{MemoryLink, Way, Wrong, piped};
use remote_memory::MemoryRemote;
use remote_pipe::{PipeFault, PipeRemote};
use remote_trait::{Remote, RemoteFault};
use std::alloc::{AllocError, Global};

/// The mirror of the chain, asked over a link.
type Piped = PipeRemote<MemoryLink<MemoryRemote>>;

/// What is asked.
#[derive(Clone, Copy)]
enum Asked {
    Refresh,
    Clone,
    Names,
    Path,
}

/// Each of them.
const ALL: [Asked; 4] = [Asked::Refresh, Asked::Clone, Asked::Names, Asked::Path];

/// Those whose answers count something.
const COUNTING: [Asked; 2] = [Asked::Clone, Asked::Names];

/// What is wrong about an answer, and why no more is asked behind it; nothing, where it is.
type Case = (Wrong, Option<PipeFault>);

/// Whatever is asked.
const ANY: [Case; 20] = [
    (Wrong::NotPut, Some(PipeFault::NotPut)),
    (Wrong::NotTaken, Some(PipeFault::NotTaken)),
    (Wrong::Stops(0), Some(PipeFault::Ended)),
    (Wrong::Stops(3), Some(PipeFault::Ended)),
    (Wrong::Stops(4), Some(PipeFault::Ended)),
    (Wrong::Differs(2), Some(PipeFault::Ended)),
    (Wrong::Differs(4), Some(PipeFault::NoAnswer)),
    (Wrong::Longer, Some(PipeFault::NoAnswer)),
    (Wrong::Instead(&[0, 0, 0, 0]), Some(PipeFault::BadLength)),
    (
        Wrong::Instead(&[0x40, 0, 0, 1, 0x81]),
        Some(PipeFault::BadLength),
    ),
    (
        Wrong::Instead(&[0x40, 0, 0, 0, 0x81]),
        Some(PipeFault::Ended),
    ),
    (
        Wrong::Instead(&[0, 0, 0, 1, 0x84]),
        Some(PipeFault::NoAnswer),
    ),
    (
        Wrong::Instead(&[0, 0, 0, 1, 0xff]),
        Some(PipeFault::NoAnswer),
    ),
    (
        Wrong::Instead(&[0, 0, 0, 2, 0xff, 0]),
        Some(PipeFault::NoAnswer),
    ),
    (
        Wrong::Instead(&[0, 0, 0, 2, 0xff, 5]),
        Some(PipeFault::NoAnswer),
    ),
    (
        Wrong::Instead(&[0, 0, 0, 3, 0xff, 1, 0]),
        Some(PipeFault::NoAnswer),
    ),
    (Wrong::Instead(&[0, 0, 0, 2, 0xff, 1]), None),
    (Wrong::Instead(&[0, 0, 0, 2, 0xff, 2]), None),
    (Wrong::Instead(&[0, 0, 0, 2, 0xff, 3]), None),
    (Wrong::Instead(&[0, 0, 0, 2, 0xff, 4]), None),
];

/// Where something is counted: the bytes end in the midst, and the count is another.
const COUNTED: [Case; 3] = [
    (Wrong::Stops(9), Some(PipeFault::Ended)),
    (Wrong::Stops(20), Some(PipeFault::Ended)),
    (Wrong::Differs(8), Some(PipeFault::NoAnswer)),
];

/// The most bytes that are taken at once, by question and case.
const PIECES: [u32; 3] = [1, 7, 65_536];

/// How many segments, names and heads are told of the chain.
fn clone_sum(alloc: Global, remote: &mut Piped) -> Result<u64, RemoteFault> {
    let told = remote.clone_data(alloc)?;
    let listed = u64::from(told.segments.len()).saturating_add(u64::from(told.names.len()));
    Ok(listed.saturating_add(u64::from(told.heads.len())))
}

/// How many names come of the three from the newest commit on.
fn names_sum(alloc: Global, remote: &mut Piped) -> Result<u64, RemoteFault> {
    let mut out = [name(0); 3];
    let count = remote.names_of(alloc, &name(0x19), 0, &mut out)?;
    if out != [name(0x19), name(0x18), name(0x17)] {
        return Ok(0);
    }
    Ok(u64::from(count))
}

/// How many steps lead from the newest commit to the fifth.
fn path_sum(alloc: Global, remote: &mut Piped) -> Result<u64, RemoteFault> {
    let found = remote.path_of(alloc, &[name(0x19)], &name(0x14))?;
    Ok(found.map_or(0, |path| path.n))
}

/// A number by which an answer is known.
fn answer(alloc: Global, remote: &mut Piped, asked: Asked) -> Result<u64, RemoteFault> {
    match asked {
        Asked::Refresh => remote.refresh(alloc).map(|_| 1),
        Asked::Clone => clone_sum(alloc, remote),
        Asked::Names => names_sum(alloc, remote),
        Asked::Path => path_sum(alloc, remote),
    }
}

/// The number of the right one.
fn right(asked: Asked) -> u64 {
    match asked {
        Asked::Refresh => 1,
        Asked::Clone => 3,
        Asked::Names => 3,
        Asked::Path => 5,
    }
}

/// Whether the right answer comes, then none, and behind that no more is asked for this reason, or the right one comes again.
fn comes_out(alloc: Global, asked: Asked, case: &Case, piece: u32) -> Result<bool, AllocError> {
    let (wrong, stopped) = *case;
    let mirror = chain_mirror(alloc, &[])?;
    let mut remote = piped(alloc, mirror, Way::broken(piece, 2, wrong));
    let is_right = answer(alloc, &mut remote, asked) == Ok(right(asked));
    let failed = answer(alloc, &mut remote, asked) == Err(RemoteFault::Failed);
    let again = match stopped {
        Some(_) => Err(RemoteFault::Failed),
        None => Ok(right(asked)),
    };
    Ok(
        is_right
            && failed
            && remote.stopped() == stopped
            && answer(alloc, &mut remote, asked) == again,
    )
}

/// The places of the first question and case that come out otherwise.
fn first_wrong(
    alloc: Global,
    questions: &[Asked],
    cases: &[Case],
) -> Result<Option<(usize, usize)>, AllocError> {
    for k in 0..questions.len() {
        for i in 0..cases.len() {
            let piece = PIECES[(k + i) % PIECES.len()];
            if !comes_out(alloc, questions[k], &cases[i], piece)? {
                return Ok(Some((k, i)));
            }
        }
    }
    Ok(None)
}

#[test]
fn wrong_answers_are_failures(rt: HostRuntime) -> Result<(), AllocError> {
    assert_eq!(rt; first_wrong(rt.alloc(), &ALL, &ANY)?, None);
    assert_eq!(rt; first_wrong(rt.alloc(), &COUNTING, &COUNTED)?, None);
    Ok(())
}
