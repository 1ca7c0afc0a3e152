//! What is asked ahead, and answers to that about which something is wrong.

use crate::chain::{chain_mirror, name};
use id_groups::Name;
use link_memory::{MemoryLink, Way, Wrong, piped};
use remote_memory::MemoryRemote;
use remote_pipe::{PipeFault, PipeRemote};
use remote_trait::{Remote, RemoteFault, Run};
use std::alloc::{AllocError, Global};

/// The mirror of the chain, asked over a link.
type Piped = PipeRemote<MemoryLink<MemoryRemote>>;

/// Names of the chain: so many, from so many steps on from the commit with this last byte.
type Names = (u8, u8, u32);

/// Three runs of it.
const A: Names = (0x19, 0, 3);

const B: Names = (0x19, 3, 4);

const C: Names = (0x12, 0, 8);

/// What is asked.
#[derive(Clone, Copy)]
enum Asked {
    Refresh,
    Clone,
    Path,
    Names(Names),
}

/// Which runs are told ahead; what is asked then, and whether the right answer comes of each; the number of the request about whose answer
/// something is wrong, and what; and why no more is asked at the end, if no more is.
#[derive(Drop)]
struct Case {
    told: &'static [Names],
    asked: &'static [(Asked, bool)],
    wrong: Option<(u64, Wrong)>,
    stopped: Option<PipeFault>,
}

/// What is asked ahead is asked for then.
const IN_TURN: &[(Asked, bool)] = &[
    (Asked::Names(A), true),
    (Asked::Names(B), true),
    (Asked::Names(C), true),
];

/// The same, where the second answer is none and the third is.
const ONE_FAILS: &[(Asked, bool)] = &[
    (Asked::Names(A), true),
    (Asked::Names(B), false),
    (Asked::Names(C), true),
];

/// The same, where no more is asked behind the second.
const SECOND_STOPS: &[(Asked, bool)] = &[
    (Asked::Names(A), true),
    (Asked::Names(B), false),
    (Asked::Names(C), false),
    (Asked::Path, false),
];

/// What is asked ahead is thrown away at the second.
const THROWN_AWAY: &[(Asked, bool)] = &[
    (Asked::Names(A), true),
    (Asked::Path, true),
    (Asked::Names(B), true),
];

/// The same, where something is wrong about what is thrown away.
const THROWING_STOPS: &[(Asked, bool)] = &[
    (Asked::Names(A), true),
    (Asked::Path, false),
    (Asked::Names(B), false),
];

/// What is asked where nothing is wrong.
const RIGHT: [&[(Asked, bool)]; 7] = [
    IN_TURN,
    THROWN_AWAY,
    &[
        (Asked::Names(A), true),
        (Asked::Refresh, true),
        (Asked::Names(B), true),
    ],
    &[(Asked::Clone, true), (Asked::Names(A), true)],
    &[(Asked::Names(B), true), (Asked::Names(A), true)],
    &[(Asked::Names((0x19, 0, 4)), true), (Asked::Names(B), true)],
    &[
        (Asked::Names((0x18, 0, 3)), true),
        (Asked::Names((0x19, 1, 3)), true),
    ],
];

/// What is wrong about the second answer, and why no more is asked behind it; nothing, where it is.
const WRONG: [(Wrong, Option<PipeFault>); 15] = [
    (Wrong::NotTaken, Some(PipeFault::NotTaken)),
    (Wrong::Stops(0), Some(PipeFault::Ended)),
    (Wrong::Stops(2), Some(PipeFault::Ended)),
    (Wrong::Stops(20), Some(PipeFault::Ended)),
    (Wrong::Differs(4), Some(PipeFault::NoAnswer)),
    (Wrong::Differs(8), Some(PipeFault::NoAnswer)),
    (Wrong::Longer, Some(PipeFault::NoAnswer)),
    (Wrong::Instead(&[0, 0, 0, 0]), Some(PipeFault::BadLength)),
    (Wrong::Instead(&[0x40, 0, 0, 1]), Some(PipeFault::BadLength)),
    (
        Wrong::Instead(&[0, 0, 0, 1, 0x85]),
        Some(PipeFault::NoAnswer),
    ),
    (
        Wrong::Instead(&[0, 0, 0, 2, 0xff, 5]),
        Some(PipeFault::NoAnswer),
    ),
    (Wrong::Instead(&[0, 0, 0, 2, 0xff, 1]), None),
    (Wrong::Instead(&[0, 0, 0, 2, 0xff, 2]), None),
    (Wrong::Instead(&[0, 0, 0, 2, 0xff, 3]), None),
    (Wrong::Instead(&[0, 0, 0, 2, 0xff, 4]), None),
];

/// Others.
const OTHERS: [Case; 6] = [
    // the second frame isn't put whole
    Case {
        told: &[A, B, C],
        asked: &[(Asked::Names(A), false), (Asked::Path, false)],
        wrong: Some((2, Wrong::NotPut)),
        stopped: Some(PipeFault::NotPut),
    },
    // nothing is asked ahead behind what is no request
    Case {
        told: &[A, (0x19, 0, 0), C],
        asked: &[
            (Asked::Names(A), true),
            (Asked::Names(C), false),
            (Asked::Names(C), true),
        ],
        wrong: Some((2, Wrong::Instead(&[0, 0, 0, 2, 0xff, 1]))),
        stopped: None,
    },
    Case {
        told: &[A, (0x19, 0, 65_537), C],
        asked: &[(Asked::Names(A), true), (Asked::Names(C), false)],
        wrong: Some((2, Wrong::Instead(&[0, 0, 0, 2, 0xff, 1]))),
        stopped: None,
    },
    // what is asked for behind what was thrown away is the fourth request
    Case {
        told: &[A, B, C],
        asked: &[(Asked::Names(C), false), (Asked::Names(C), true)],
        wrong: Some((4, Wrong::Instead(&[0, 0, 0, 2, 0xff, 1]))),
        stopped: None,
    },
    // more names than were asked for, and fewer
    Case {
        told: &[(0x10, 0, 1), B],
        asked: &[(Asked::Names((0x10, 0, 1)), true), (Asked::Names(B), false)],
        wrong: Some((2, Wrong::Instead(FIVE_NAMES))),
        stopped: Some(PipeFault::NoAnswer),
    },
    Case {
        told: &[A, B],
        asked: &[(Asked::Names(A), false), (Asked::Names(B), true)],
        wrong: Some((1, Wrong::Instead(&[0, 0, 0, 5, 0x83, 0, 0, 0, 0]))),
        stopped: None,
    },
];

/// An answer with five names of zeros.
const FIVE_NAMES: &[u8] = &[
    0, 0, 0, 105, 0x83, 0, 0, 0, 5, //
    0, 0, 0, 0, 0, 0, 0, 0, 0, 0, 0, 0, 0, 0, 0, 0, 0, 0, 0, 0, //
    0, 0, 0, 0, 0, 0, 0, 0, 0, 0, 0, 0, 0, 0, 0, 0, 0, 0, 0, 0, //
    0, 0, 0, 0, 0, 0, 0, 0, 0, 0, 0, 0, 0, 0, 0, 0, 0, 0, 0, 0, //
    0, 0, 0, 0, 0, 0, 0, 0, 0, 0, 0, 0, 0, 0, 0, 0, 0, 0, 0, 0, //
    0, 0, 0, 0, 0, 0, 0, 0, 0, 0, 0, 0, 0, 0, 0, 0, 0, 0, 0, 0,
];

/// The most bytes that are taken at once, by case.
const PIECES: [u32; 3] = [1, 7, 65_536];

/// Tells the runs.
fn tell(alloc: Global, remote: &mut Piped, told: &[Names]) -> Result<(), AllocError> {
    let mut runs = Vec::new(alloc);
    for (last, back, count) in told {
        runs.push(Run {
            x: name(*last),
            back: u64::from(*back),
            count: *count,
        })?;
    }
    remote.expect(alloc, &runs);
    Ok(())
}

/// Whether these are the names of the chain from so many steps on: each commit's last byte is one more than its parent's.
fn are_names(names: &[Name], asked: Names) -> bool {
    let (last, back, room) = asked;
    let mut wanted = last.saturating_sub(back);
    if names.len() != (wanted.saturating_sub(0x0f) as usize).min(room as usize) {
        return false;
    }
    for own in names {
        if *own != name(wanted) {
            return false;
        }
        wanted = wanted.saturating_sub(1);
    }
    true
}

/// Whether the right names come, of ten at most.
fn names_come(alloc: Global, remote: &mut Piped, asked: Names) -> Result<bool, RemoteFault> {
    let (last, back, room) = asked;
    let mut out = [name(0); 10];
    let some = (room as usize).min(10);
    let count = remote.names_of(alloc, &name(last), u64::from(back), &mut out[..some])?;
    let came = (count as usize).min(10);
    Ok(are_names(&out[..came], asked))
}

/// Whether the right answer comes.
fn comes(alloc: Global, remote: &mut Piped, asked: Asked) -> Result<bool, RemoteFault> {
    match asked {
        Asked::Refresh => remote.refresh(alloc).map(|_| true),
        Asked::Clone => Ok(remote.clone_data(alloc)?.names.len() == 1),
        Asked::Path => {
            let found = remote.path_of(alloc, &[name(0x19)], &name(0x14))?;
            Ok(found.map_or(0, |path| path.n) == 5)
        }
        Asked::Names(names) => names_come(alloc, remote, names),
    }
}

/// Whether all comes as the case says, each time in pieces of so many bytes.
fn comes_out(alloc: Global, case: &Case, piece: u32) -> Result<bool, AllocError> {
    let mirror = chain_mirror(alloc, &[])?;
    let way = Way {
        piece,
        wrong: case.wrong,
    };
    let mut remote = piped(alloc, mirror, way);
    if !remote.may_expect() {
        return Ok(false);
    }
    tell(alloc, &mut remote, case.told)?;
    for (asked, is_right) in case.asked {
        let came = comes(alloc, &mut remote, *asked).unwrap_or(false);
        if came != *is_right {
            return Ok(false);
        }
    }
    Ok(remote.stopped() == case.stopped && remote.may_expect() == case.stopped.is_none())
}

/// The case in which the second answer is wrong, and is asked for or thrown away.
fn wrong_second(wrong: Wrong, stopped: Option<PipeFault>, is_asked: bool) -> Case {
    let asked = match (is_asked, stopped.is_some()) {
        (true, true) => SECOND_STOPS,
        (true, false) => ONE_FAILS,
        (false, true) => THROWING_STOPS,
        (false, false) => THROWN_AWAY,
    };
    Case {
        told: &[A, B, C],
        asked,
        wrong: Some((2, wrong)),
        stopped,
    }
}

/// The place of the first of what is asked that comes out otherwise.
fn first_not_right(alloc: Global) -> Result<Option<usize>, AllocError> {
    for k in 0..RIGHT.len() {
        let case = Case {
            told: &[A, B, C],
            asked: RIGHT[k],
            wrong: None,
            stopped: None,
        };
        if !comes_out(alloc, &case, PIECES[k % PIECES.len()])? {
            return Ok(Some(k));
        }
    }
    Ok(None)
}

/// The place of the first wrong answer behind which it comes out otherwise.
fn first_not_refused(alloc: Global, is_asked: bool) -> Result<Option<usize>, AllocError> {
    for k in 0..WRONG.len() {
        let (wrong, stopped) = WRONG[k];
        let case = wrong_second(wrong, stopped, is_asked);
        if !comes_out(alloc, &case, PIECES[k % PIECES.len()])? {
            return Ok(Some(k));
        }
    }
    Ok(None)
}

/// The place of the first other case that comes out otherwise.
fn first_other(alloc: Global) -> Result<Option<usize>, AllocError> {
    for k in 0..OTHERS.len() {
        if !comes_out(alloc, &OTHERS[k], PIECES[k % PIECES.len()])? {
            return Ok(Some(k));
        }
    }
    Ok(None)
}

/// How many of more runs than may wait come right, where the mirror refuses the request with this number.
fn many_come(alloc: Global, refused: u64) -> Result<u32, AllocError> {
    let mirror = chain_mirror(alloc, &[])?;
    let way = Way::broken(7, refused, Wrong::Instead(&[0, 0, 0, 2, 0xff, 1]));
    let mut remote = piped(alloc, mirror, way);
    let told = [A; 70];
    tell(alloc, &mut remote, &told)?;
    let mut right: u32 = 0;
    for k in 0..70 {
        let asked = if k == 64 {
            Asked::Path
        } else {
            Asked::Names(A)
        };
        if comes(alloc, &mut remote, asked) == Ok(true) {
            right = right.saturating_add(1);
        }
    }
    Ok(right)
}

#[test]
fn what_is_asked_ahead_is_answered(rt: HostRuntime) -> Result<(), AllocError> {
    assert_eq!(rt; first_not_right(rt.alloc())?, None);
    assert_eq!(rt; first_not_refused(rt.alloc(), true)?, None);
    assert_eq!(rt; first_not_refused(rt.alloc(), false)?, None);
    assert_eq!(rt; first_other(rt.alloc())?, None);
    Ok(())
}

#[test]
fn no_more_wait_than_may(rt: HostRuntime) -> Result<(), AllocError> {
    // the 65th request is for a way, so that none of what was told beyond 64 was put
    assert_eq!(rt; many_come(rt.alloc(), 71)?, 70);
    assert_eq!(rt; many_come(rt.alloc(), 64)?, 69);
    assert_eq!(rt; many_come(rt.alloc(), 65)?, 69);
    Ok(())
}
