//! Small worlds, drawn as tables.

ghost use Rattle.std.specs.Prelude.{IsTrue};
ghost use Rattle.id_groups.specs.Lists.{AreAllIn};
ghost use Rattle.commit_graph.specs.World.{names_of, rows_of};

use commit_graph::{Row, World};
use id_groups::Name;
use std::alloc::{AllocError, Global};
use std::process::Abort;

/// A commit, its first parent and its second one; 0 stands for no parent.
pub(crate) type Drawn = [u8; 3];

// 01 ── 02 ── 03 ──────── 06
//         ╲             ╱
//          04 ──── 05 ─╯
pub(crate) const DAY: [Drawn; 6] = [
    [1, 0, 0],
    [2, 1, 0],
    [3, 2, 0],
    [4, 2, 0],
    [5, 4, 0],
    [6, 3, 5],
];

/// The name of 19 zero bytes and this one.
pub(crate) fn name(last: u8) -> Name {
    let mut bytes = [0; 20];
    bytes[19] = last;
    Name::from_bytes(bytes)
}

pub(crate) fn row(drawn: Drawn) -> Row {
    let [own, first, second] = drawn;
    let (own, parent, other) = (name(own), name(first), name(second));
    if first == 0 {
        Row::new(own, &[])
    } else if second == 0 || parent.is(&other) {
        Row::new(own, &[parent])
    } else {
        Row::new(own, &[parent, other])
    }
}

/// The world with these commits as master, if there is one.
pub(crate) fn master(
    rt: &impl Abort,
    alloc: Global,
    commits: &[Drawn],
) -> Result<Option<World>, AllocError> {
    let mut rows = Vec::new(alloc);
    for drawn in commits {
        rows.push(row(*drawn))?;
    }
    assert!(rt; rows.len() < 100);
    World::of_master(alloc, rows)
}

/// Whether the world has commits of these names.
fn has_all(world: &World, names: &[Name]) -> bool
    ensures { IsTrue result → AreAllIn names.now (names_of (rows_of world.now)) }
{
    match names {
        [] => true,
        [name] => world.find(name).is_some(),
        [name, other] => world.find(name).is_some() && world.find(other).is_some(),
        _ => false,
    }
}

/// Puts a commit behind the others, if its name is new and its parents are there, and says whether that was so.
pub(crate) fn put(world: &mut World, drawn: Drawn) -> Result<bool, AllocError> {
    let row = row(drawn);
    if world.find(row.name()).is_some() || world.others_count() > 99 {
        return Ok(false);
    }
    if !has_all(world, row.parents()) {
        return Ok(false);
    }
    world.push_other(row)?;
    Ok(true)
}
