//! Ids that wait, from the greatest down.

use ancestor_query::{Window, WorkList};
use id_groups::{FIRST_OTHER, ID_END, Id, IdSpan};
use segment_codec::read_segment;
use span_set::IdSet;
use std::alloc::{AllocError, Global};
use std::process::Abort;
use std::test::Fail;

/// Each answer of `next_below` to these bounds, in turn, is the number beside its bound.
fn peeks(rt: &impl Abort, work: &mut WorkList, expected: &[(u64, Option<u64>)]) {
    for (below, number) in expected {
        assert_eq!(rt; work.next_below(*below).map(Id::number), *number);
    }
}

/// The same of `next_id`, with the set.
fn nexts(rt: &impl Abort, work: &mut WorkList, set: &IdSet, expected: &[(u64, Option<u64>)]) {
    for (below, number) in expected {
        assert!(rt; *below <= ID_END);
        assert_eq!(rt; work.next_id(set, *below).map(Id::number), *number);
    }
}

/// Puts the ids of these numbers on the list.
fn push_ids(rt: &impl Abort, work: &mut WorkList, numbers: &[u64]) -> Result<(), AllocError> {
    for number in numbers {
        assert!(rt; *number < ID_END);
        work.push(Id::from_number(*number))?;
    }
    Ok(())
}

/// Lets the parents 7 and 3 of a segment of the id 9 wait.
fn push_parents(work: &mut WorkList) -> Result<(), Fail> {
    let record: [u8; 14] = [0, 0, 0, 0, 0, 0, 0, 0, 0, 9, 0, 2, 7, 3];
    let (segment, _) = read_segment(&record).ok_or("the bytes are a record")?;
    work.push_all(segment.parents())?;
    Ok(())
}

/// The ids 5 and 3 wait, beside a set of the id 6.
fn nexts_beside_six(rt: &impl Abort, alloc: Global, work: &mut WorkList) -> Result<(), Fail> {
    let mut set = IdSet::empty(alloc);
    set.insert_span(IdSpan::single(Id::master(6)))?;
    nexts(
        rt,
        work,
        &set,
        &[
            (7, Some(6)),
            (6, Some(5)),
            (5, Some(3)),
            (3, None),
            (ID_END, Some(6)),
        ],
    );
    Ok(())
}

#[test]
fn waiting_ids_come_from_the_greatest_down(rt: HostRuntime) -> Result<(), Fail> {
    let mut work = WorkList::empty(rt.alloc());
    push_ids(&rt, &mut work, &[5, FIRST_OTHER])?;
    push_parents(&mut work)?;
    peeks(
        &rt,
        &mut work,
        &[(ID_END, Some(FIRST_OTHER)), (FIRST_OTHER, Some(7))],
    );
    nexts_beside_six(&rt, rt.alloc(), &mut work)
}

/// Numbers of ids that are put on a list, and then bounds with the answers of `next_below` to them.
#[derive(Clone, Copy, Drop)]
struct Turn<'a> {
    pushed: &'a [u64],
    peeked: &'a [(u64, Option<u64>)],
}

/// Ids on both sides of a window.
const BOTH_SIDES: [Turn; 3] = [
    // nothing fits before the first look
    Turn {
        pushed: &[500],
        peeked: &[(500, None)],
    },
    // 1, 63, 64 and 65 below the bound, one of them twice, and one at the bound; what was dropped does not come back with
    // a bound that rises
    Turn {
        pushed: &[436, 435, 437, 499, 437, 500],
        peeked: &[
            (500, Some(499)),
            (499, Some(437)),
            (438, Some(437)),
            (437, Some(436)),
            (ID_END, Some(436)),
        ],
    },
    Turn {
        pushed: &[FIRST_OTHER + 7, 0],
        peeked: &[
            (ID_END, Some(FIRST_OTHER + 7)),
            (FIRST_OTHER, Some(436)),
            (436, Some(435)),
            (435, Some(0)),
            (0, None),
        ],
    },
];

/// A window over the greatest ids, and then one over the lowest.
const PAST_ALL: [Turn; 5] = [
    Turn {
        pushed: &[],
        peeked: &[(u64::MAX, None)],
    },
    Turn {
        pushed: &[ID_END - 1, ID_END - 64, ID_END - 65],
        peeked: &[
            (u64::MAX, Some(ID_END - 1)),
            (ID_END - 63, Some(ID_END - 64)),
            (ID_END - 64, Some(ID_END - 65)),
            (3, None),
        ],
    },
    Turn {
        pushed: &[2, 0, 0],
        peeked: &[(3, Some(2)), (2, Some(0))],
    },
    Turn {
        pushed: &[1],
        peeked: &[(200, Some(1))],
    },
    Turn {
        pushed: &[199],
        peeked: &[(200, Some(199)), (1, Some(0)), (0, None), (200, None)],
    },
];

/// The turns, one behind the other, from an empty list on.
fn check(rt: &impl Abort, alloc: Global, turns: &[Turn]) -> Result<(), Fail> {
    let mut work = WorkList::empty(alloc);
    for turn in turns {
        push_ids(rt, &mut work, turn.pushed)?;
        peeks(rt, &mut work, turn.peeked);
    }
    Ok(())
}

#[test]
fn ids_wait_on_both_sides_of_a_window(rt: HostRuntime) -> Result<(), Fail> {
    check(&rt, rt.alloc(), &BOTH_SIDES)
}

#[test]
fn a_window_moves_past_all_its_ids(rt: HostRuntime) -> Result<(), Fail> {
    check(&rt, rt.alloc(), &PAST_ALL)
}

/// Whether each id goes into the window is what stands beside it.
fn puts(rt: &impl Abort, window: &mut Window, cases: &[(Id, bool)]) {
    for (id, fits) in cases {
        assert_eq!(rt; window.put(*id), *fits);
    }
}

/// The greatest id of the window, once it ends below the bound.
fn greatest_below(window: &mut Window, below: u64) -> Option<u64> {
    window.slide(below);
    window.greatest().map(Id::number)
}

#[test]
fn a_window_keeps_what_fits(rt: HostRuntime) {
    let mut window = Window::empty();
    // nothing fits before the first slide
    puts(&rt, &mut window, &[(Id::master(5), false)]);
    window.slide(100);
    // at the end, right below it, the last that fits and the first that doesn't
    puts(
        &rt,
        &mut window,
        &[
            (Id::master(100), false),
            (Id::master(99), true),
            (Id::master(36), true),
            (Id::master(35), false),
        ],
    );
    for (below, greatest) in [(100, Some(99)), (99, Some(36)), (36, None)] {
        assert_eq!(rt; greatest_below(&mut window, below), greatest);
    }
}
