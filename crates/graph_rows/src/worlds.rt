//! Small worlds, drawn as tables: what is found in them, and where walks lead.

ghost use Rattle.std.specs.Prelude.{◌<◌, ◌^◌, IsSome};
ghost use Rattle.commit_graph.specs.Ids.{row_at};

use crate::histories::{DAY, Drawn, master, name, put};
use commit_graph::{World, first_ancestor, reaches};
use id_groups::Id;
use std::alloc::{AllocError, Global};
use std::process::Abort;
use std::test::Fail;

const TWICE: [Drawn; 3] = [[1, 0, 0], [2, 1, 0], [1, 2, 0]];

const PARENT_LATER: [Drawn; 3] = [[1, 0, 0], [2, 3, 0], [3, 1, 0]];

const OWN_PARENT: [Drawn; 1] = [[1, 1, 0]];

/// Commits of the day, and their first ancestors so many steps away.
const STEPS: [(u8, u64, Option<u8>); 8] = [
    (6, 0, Some(6)),
    (6, 1, Some(3)),
    (6, 2, Some(2)),
    (5, 2, Some(2)),
    (5, 3, Some(1)),
    (6, 4, None),
    (1, 1, None),
    (1, u64::MAX, None),
];

/// The id of a commit that is there.
fn id(rt: &impl Abort, world: &World, last: u8) -> Id
    ensures { IsSome (row_at world.now result) }
{
    match world.find(&name(last)) {
        Some(id) => id,
        None => panic!(rt; "no commit {last}"),
    }
}

/// Whether each commit is put behind the others, and then no second time.
fn are_put_once(world: &mut World, commits: &[Drawn]) -> Result<bool, AllocError> {
    for drawn in commits {
        if !put(world, *drawn)? || put(world, *drawn)? {
            return Ok(false);
        }
    }
    Ok(true)
}

/// How many commits of master there are, how many others, and the id of one commit.
fn found(world: &World, last: u8) -> (u64, u64, Option<Id>) {
    (
        world.master_count(),
        world.others_count(),
        world.find(&name(last)),
    )
}

/// Whether the commits of the day are put behind the others once, and then none whose parent isn't there.
fn takes_day(world: &mut World) -> Result<bool, AllocError> {
    if !are_put_once(world, &DAY)? {
        return Ok(false);
    }
    Ok(!put(world, [7, 8, 0])?)
}

#[test]
fn a_day_is_put_behind_nothing(rt: HostRuntime) -> Result<(), Fail> {
    let mut world = World::empty(rt.alloc());
    assert!(rt; takes_day(&mut world)?);
    assert_eq!(rt; found(&world, 5), (0, 6, Some(Id::other(4))));
    Ok(())
}

/// Whether each first commit reaches the second one is what stands beside them.
fn check_reached(
    rt: &impl Abort,
    alloc: Global,
    world: &World,
    cases: &[(u8, u8, bool)],
) -> Result<(), Fail> {
    for (x, y, want) in cases {
        let found = reaches(alloc, world, id(rt, world, *x), id(rt, world, *y))?;
        assert_eq!(rt; found, *want, "from {x} to {y}");
    }
    Ok(())
}

/// The last byte of the name of the first ancestor so many steps from the commit.
fn ancestor(rt: &impl Abort, world: &World, last: u8, steps: u64) -> Option<u8> {
    let found = first_ancestor(world, id(rt, world, last), steps)?;
    (1..7).find(|number| world.find(&name(*number)) == Some(found))
}

/// The first ancestor so many steps from each commit is the one that stands beside them.
fn check_steps(rt: &impl Abort, world: &World, cases: &[(u8, u64, Option<u8>)]) {
    for (x, n, want) in cases {
        assert_eq!(rt; ancestor(rt, world, *x, *n), *want, "{n} steps from {x}");
    }
}

#[test]
fn walks_lead_along_parents(rt: HostRuntime) -> Result<(), Fail> {
    let world = master(&rt, rt.alloc(), &DAY)?.expect(&rt, "the day is a history");
    check_reached(
        &rt,
        rt.alloc(),
        &world,
        &[
            (5, 2, true),
            (5, 3, false),
            (2, 5, false),
            (6, 5, true),
            (6, 1, true),
            (4, 4, true),
        ],
    )?;
    check_steps(&rt, &world, &STEPS);
    Ok(())
}

/// Whether these commits are the rows of a master.
fn is_history(rt: &impl Abort, alloc: Global, commits: &[Drawn]) -> Result<bool, AllocError> {
    Ok(master(rt, alloc, commits)?.is_some())
}

/// Whether the third commit of the day is found in its master, and no seventh.
fn has_day(world: &World) -> bool {
    found(world, 3) == (6, 0, Some(Id::master(2))) && found(world, 7) == (6, 0, None)
}

#[test]
fn masters_are_histories(rt: HostRuntime) -> Result<(), Fail> {
    let day = master(&rt, rt.alloc(), &DAY)?.expect(&rt, "the day is a history");
    assert!(rt; has_day(&day));
    Ok(())
}

#[test]
fn other_rows_are_no_master(rt: HostRuntime) -> Result<(), Fail> {
    for commits in [TWICE.as_slice(), &PARENT_LATER, &OWN_PARENT] {
        assert!(rt; !is_history(&rt, rt.alloc(), commits)?);
    }
    Ok(())
}
