//! Answers over small worlds, drawn as tables.

use crate::histories::{DAY, Drawn, master, put};
use commit_graph::World;
use id_groups::Name;
use plain_query::{Expr, answer};
use std::alloc::{AllocError, Global};
use std::process::Abort;
use std::test::Fail;

/// The master of the same day, where 03 and 06 are in the other group.
const LOWER_LINE: [Drawn; 4] = [[1, 0, 0], [2, 1, 0], [4, 2, 0], [5, 4, 0]];

/// An expression, and the last bytes of the names in its answer.
type Answered<'a> = (&'a [u8], &'a [u8]);

const OVER_A_DAY: [Answered; 7] = [
    (b"all", &[6, 5, 4, 3, 2, 1]),
    (b"0000000000000000000000000000000000000004", &[4]),
    (b"0000000000000000000000000000000000000007", &[]),
    (
        b"parents(0000000000000000000000000000000000000006)",
        &[5, 3],
    ),
    (
        b"ancestors(0000000000000000000000000000000000000003)",
        &[3, 2, 1],
    ),
    (b"ancestors(0000000000000000000000000000000000000007)", &[]),
    (
        b"parents(ancestors(0000000000000000000000000000000000000005))",
        &[4, 2, 1],
    ),
];

const OVER_BOTH_GROUPS: [Answered; 3] = [
    (b"all", &[6, 3, 5, 4, 2, 1]),
    (
        b"parents(0000000000000000000000000000000000000006)",
        &[3, 5],
    ),
    (
        b"ancestors(parents(0000000000000000000000000000000000000006))",
        &[3, 5, 4, 2, 1],
    ),
];

fn last_bytes(alloc: Global, names: &[Name]) -> Result<Vec<u8>, AllocError> {
    let mut last = Vec::new(alloc);
    for name in names {
        last.push(name.lend().bytes[19])?;
    }
    Ok(last)
}

/// The last bytes of the names in the answer.
fn answered(alloc: Global, world: &World, text: &[u8]) -> Result<Vec<u8>, Fail> {
    let expr = Expr::parse(alloc, text)?;
    let names = answer(alloc, world, &expr)?;
    Ok(last_bytes(alloc, &names)?)
}

/// Each expression has the answer that stands beside it.
fn check(rt: &impl Abort, alloc: Global, world: &World, cases: &[Answered]) -> Result<(), Fail> {
    for (text, want) in cases {
        let last = answered(alloc, world, text)?;
        assert_eq!(rt; last.as_slice(), *want);
    }
    Ok(())
}

#[test]
fn members_are_listed(rt: HostRuntime) -> Result<(), Fail> {
    let world = master(&rt, rt.alloc(), &DAY)?.expect(&rt, "the day is a history");
    check(&rt, rt.alloc(), &world, &OVER_A_DAY)
}

/// Puts the commits of the other group behind the line. Whether they may come.
fn put_others(world: &mut World) -> Result<bool, AllocError> {
    Ok(put(world, [3, 2, 0])? && put(world, [6, 3, 5])?)
}

#[test]
fn others_stand_before_master(rt: HostRuntime) -> Result<(), Fail> {
    let mut world = master(&rt, rt.alloc(), &LOWER_LINE)?.expect(&rt, "the line is a history");
    assert!(rt; put_others(&mut world)?);
    check(&rt, rt.alloc(), &world, &OVER_BOTH_GROUPS)
}
