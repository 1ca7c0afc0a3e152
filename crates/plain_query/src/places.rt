//! The rows of a world by their places.

ghost use Rattle.std.specs.Prelude.{◌≡◌, ◌<◌, Some, length, slice_get};
ghost use Rattle.commit_graph.specs.World.{IsWorld, rows_of};

use commit_graph::{Row, World};
use id_groups::Id;

/// How many rows there are, in both groups.
pub(crate) fn row_count(world: &World) -> u64
    ensures count { result ≡ length (rows_of world.now) }
    ensures world { IsWorld world.now }
{
    world.master_count() + world.others_count()
}

/// The row at this place of all rows, master's first.
pub(crate) fn row_at_place<'a>(world: &'a World, place: u64) -> &'a Row
    requires { place < length (rows_of world.now) }
    ensures { slice_get (rows_of world.now) place ≡ Some result.now }
{
    let masters = world.master_count();
    let _others = world.others_count();
    if place < masters {
        world.row(Id::master(place))
    } else {
        world.row(Id::other(place - masters))
    }
}
