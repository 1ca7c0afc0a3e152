//! What a session sees, lent.

ghost use Rattle.std.specs.Prelude.{List, []};
ghost use Rattle.id_groups.specs.Name.{Name as NameBytes};
ghost use Rattle.commit_graph.specs.World.{World, IsNamedWorld};
ghost use Rattle.name_map.specs.Added.{Placed, payloads_of, AllStand};
ghost use Rattle.change_rules.specs.Tables.{StandFor};
ghost use Rattle.payload_tables.specs.Kept.{AreTablesOf};
ghost use Rattle.store_plans.specs.Looking.{MaySee, Shows, AreNone};

use crate::planning::lacks_names;
use payload_tables::{BaseRef, PendingRows, Tables};

/// What a session sees, lent: a base, the rows that are pending behind it, and the bytes and tables of the whole log, in which names are
/// looked up.
#[derive(Clone, Copy)]
pub struct Seen<'a> {
    pub bytes: &'a [u8],
    pub tables: &'a Tables,
    pub base: BaseRef<'a>,
    pub pending: &'a PendingRows,
    /// Whether the base has an id without a stored name, so that mirrors have to be asked.
    pub unnamed: bool,
}

impl<'a> Seen<'a> {
    /// The newest base, and no rows behind it.
    pub(crate) fn newest(bytes: &'a [u8], tables: &'a Tables, none: &'a PendingRows) -> Seen<'a>
        ensures may { (added : List Placed) → AreTablesOf tables.now added → AllStand bytes.now added → AreNone none.now added → MaySee result added }
        ensures shows { (added : List Placed) (w : World NameBytes) → AreTablesOf tables.now added → AllStand bytes.now added → AreNone none.now added
            → StandFor (payloads_of added) w → IsNamedWorld w → Shows result added w [] }
    {
        Seen {
            bytes,
            tables,
            base: tables.newest(bytes),
            pending: none,
            unnamed: lacks_names(tables),
        }
    }
}
