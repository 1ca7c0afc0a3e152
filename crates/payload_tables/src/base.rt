//! A base, lent with the log's bytes.

ghost use Rattle.std.specs.Prelude.{◌≡◌, ◌<◌, ◌++◌, ◌^◌, ℕ, suc, List, ◌∷◌, [], length, map};
ghost use Rattle.id_groups.specs.Id.{other_id};
ghost use Rattle.id_groups.specs.Name.{Name};
ghost use Rattle.commit_graph.specs.World.{Row, World, with_pending};
ghost use Rattle.segment_levels.specs.Endings.{level_ending};
ghost use Rattle.segment_levels.specs.Flats.{flats_of};
ghost use Rattle.high_segments.specs.Views.{flats_in, ending_of};
ghost use Rattle.name_map.specs.Map.{IsIdOf, NamesAs};
ghost use Rattle.name_map.specs.Added.{Placed, payloads_of, AllStand};
ghost use Rattle.change_rules.specs.Tables.{StandFor};
ghost use Rattle.payload_tables.specs.Kept.{AreTablesOf, master_records};
ghost use Rattle.payload_tables.specs.Pending.{segments_from};
ghost use Rattle.payload_tables.specs.Bases.{MayBase, IsBaseOf, MayView, ArePending, AreSegmentsOf, flat_segments_in, held_row, stored_in};

use crate::others::OthersTable;
use crate::pending::PendingRows;
use crate::piece::piece;
use crate::tables::Tables;
use high_segments::View;
use id_groups::{FIRST_OTHER, Id, NameRef};

/// The world of a session, lent: the tables' master ids below a count, and the other ids of one payload.
#[derive(Clone, Copy)]
pub struct BaseRef<'a> {
    pub(crate) bytes: &'a [u8],
    pub(crate) tables: &'a Tables,
    pub(crate) others: &'a OthersTable,
    pub(crate) below: u64,
}

impl<'a> BaseRef<'a> {
    /// The base of the first payloads that were added: the master ids below `below`, and these other ids.
    pub fn over(
        bytes: &'a [u8],
        tables: &'a Tables,
        others: &'a OthersTable,
        below: u64,
    ) -> BaseRef<'a>
        ensures { (added : List Placed) → MayBase bytes.now tables.now others.now below added → IsBaseOf result added }
    {
        BaseRef {
            bytes,
            tables,
            others,
            below,
        }
    }

    /// The segments of the base with the levels of its master ids, and behind them those of the pending rows.
    pub fn view(&self, pending: &'a PendingRows) -> View<'a>
        requires { (added : List Placed) × IsBaseOf self.now added × MayView self.now added pending.now }
        ensures graph { (added : List Placed) (w : World Name) (rows : List (Row Name)) → IsBaseOf self.now added → StandFor (payloads_of added) w → ArePending w pending.now rows
            → AreSegmentsOf (with_pending w rows) (flats_in result) }
        ensures flats { (added : List Placed) (w : World Name) (rows : List (Row Name)) → IsBaseOf self.now added → StandFor (payloads_of added) w → ArePending w pending.now rows
            → flats_in result ≡ flat_segments_in w ++ segments_from (other_id (length w.others)) (map (held_row (with_pending w rows)) rows) }
        ensures endings { (added all : List Placed) → IsBaseOf self.now added → AreTablesOf self.now.tables.now all → AllStand self.now.bytes.now all → (level id : ℕ)
            → ending_of result (suc level) id ≡ level_ending (flats_of self.now.tables.now.flat (master_records all)) self.now.below (suc level) id }
    {
        let tables = self.tables;
        let others = self.others;
        let masters = tables.flat.view(self.bytes, self.below);
        let flat = masters.join(
            others.section(),
            self.bytes,
            &pending.section,
            &pending.records,
        );
        View::new(flat, &tables.levels, tables.edges.lend())
    }

    /// The stored name of the id, lent from the log's bytes; `None` exactly where the base stores none.
    pub fn name(&self, id: Id) -> Option<NameRef<'a>>
        requires { (added : List Placed) × IsBaseOf self.now added }
        ensures { (added : List Placed) → IsBaseOf self.now added → NamesAs (stored_in added) id result }
    {
        let tables = self.tables;
        let others = self.others;
        let number = id.number();
        if number < self.below {
            return tables.names.name(self.bytes, id);
        }
        if number < FIRST_OTHER {
            return None;
        }
        let j = number - FIRST_OTHER;
        if j >= others.count as u64 {
            return None;
        }
        let (_, rest) = self.bytes.split_at(others.names as usize);
        let (stored, _) = rest.split_at(20 * others.count as usize);
        Some(piece(stored, 20 * j as usize))
    }

    /// The id with the stored name; `None` exactly where the base stores none.
    pub fn id(&self, name: NameRef<'_>) -> Option<Id>
        requires { (added : List Placed) × IsBaseOf self.now added }
        ensures { (added : List Placed) → IsBaseOf self.now added → IsIdOf (stored_in added) name.entry.bytes.now (2 ^ 57) result }
    {
        let tables = self.tables;
        let others = self.others;
        let known = tables.names.id(self.bytes, name, self.below);
        if known.is_some() {
            return known;
        }
        let place = others.index().find(self.bytes, name)?;
        Some(Id::other((place - others.names) / 20))
    }
}
