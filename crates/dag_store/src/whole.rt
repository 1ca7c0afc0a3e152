//! The stored master, where each of its commits has a stored name.

ghost use Rattle.std.specs.Prelude.{◌≡◌, ◌<◌, ℕ, List, Some, false, true, length, slice_get, IfSome, MatchOption};
ghost use Rattle.id_groups.specs.Name.{Name as NameBytes};
ghost use Rattle.commit_graph.specs.World.{World, IsNamedWorld, names_of};
ghost use Rattle.segment_codec.specs.Lent.{segment_of};
ghost use Rattle.gated_log.specs.Held.{log_bytes};
ghost use Rattle.name_map.specs.Added.{Placed, payloads_of, AllStand};
ghost use Rattle.change_rules.specs.Lazy.{has_lazy};
ghost use Rattle.change_rules.specs.Tables.{StandFor};
ghost use Rattle.payload_tables.specs.Kept.{AreTablesOf};
ghost use Rattle.step_rules.specs.State.{Stored};
ghost use Rattle.dag_store.specs.Stands.{Stands};
ghost use Rattle.payload_tables.specs.Pending.{PlainPending};
ghost use Rattle.dag_store.specs.Whole.{IsWhole, IsWholeOf, AreSegments, master_flats};

use crate::store::Store;
use gated_log::Log;
use high_segments::View;
use id_groups::{Id, NameRef};
use payload_tables::{PendingRows, Tables};
use segment_codec::{SegmentRef, SegmentTable, Steps};
use std::alloc::Global;
use store_plans::lacks_names;

/// The stored master of a store, each of whose commits has a stored name, lent. No call takes memory. The empty rows are what a view
/// ends with: it lends them, so that whoever makes a view has to own some.
#[derive(Drop)]
pub struct Whole<'a> {
    pub(crate) log: &'a Log,
    pub(crate) tables: &'a Tables,
    pub(crate) none: PendingRows,
}

/// The flat segments of a stored master, lent.
#[derive(Clone, Copy)]
pub struct Segments<'a> {
    pub(crate) view: View<'a>,
}

/// The view of all payloads, without pending rows.
fn view_of<'a>(log: &'a Log, tables: &'a Tables, none: &'a PendingRows) -> Segments<'a>
    requires { (w : World NameBytes) × IsWholeOf log.now tables.now none.now w }
    ensures { (w : World NameBytes) → IsWholeOf log.now tables.now none.now w → AreSegments result w }
{
    Segments {
        view: tables.newest(log.bytes()).view(none),
    }
}

/// The known name of a master id.
fn name_in<'a>(log: &'a Log, tables: &'a Tables, id: Id) -> NameRef<'a>
    requires { (none : PlainPending) × (w : World NameBytes) × IsWholeOf log.now tables.now none w × (id < length w.master) }
    ensures { (none : PlainPending) (w : World NameBytes) → IsWholeOf log.now tables.now none w → slice_get (names_of w.master) id ≡ Some result.bytes.now }
{
    tables.names().name(log.bytes(), id).unwrap()
}

impl<'a> Whole<'a> {
    /// How many rows it has.
    pub fn rows(&self) -> u64
        ensures { (w : World NameBytes) → IsWhole self.now w → result ≡ length w.master }
    {
        self.tables.master_count()
    }

    /// How many flat segments it has.
    pub fn segment_count(&self) -> u32
        requires { (w : World NameBytes) × IsWhole self.now w }
        ensures { (w : World NameBytes) → IsWhole self.now w → result ≡ length (master_flats w) }
    {
        self.tables.levels().counts().at(0)
    }

    /// Its flat segments.
    pub fn segments(&self) -> Segments<'_>
        requires { (w : World NameBytes) × IsWhole self.now w }
        ensures { (w : World NameBytes) → IsWhole self.now w → AreSegments result w }
    {
        view_of(self.log, self.tables, &self.none)
    }

    /// The name of a master id.
    pub fn name(&self, id: Id) -> NameRef<'a>
        requires { (w : World NameBytes) × IsWhole self.now w × (id < length w.master) }
        ensures { (w : World NameBytes) → IsWhole self.now w → slice_get (names_of w.master) id ≡ Some result.bytes.now }
    {
        name_in(self.log, self.tables, id)
    }
}

impl<'a> Segments<'a> {
    /// The flat segment at place `k`, which is below their count.
    pub fn segment(&self, k: u32) -> SegmentRef<'_>
        requires { (w : World NameBytes) × AreSegments self.now w × (k < length (master_flats w)) }
        ensures { (w : World NameBytes) → AreSegments self.now w → k < length (master_flats w) → slice_get (master_flats w) k ≡ Some (segment_of result) }
    {
        self.view.flat_at(k, &mut Steps::new())
    }
}

/// The master of a log and its tables; `None` exactly where one of its commits has no stored name.
fn whole_of<'a>(alloc: Global, log: &'a Log, tables: &'a Tables) -> Option<Whole<'a>>
    requires { (added : List Placed) × AreTablesOf tables.now added × AllStand (log_bytes log.now) added }
    ensures { (added : List Placed) (w : World NameBytes) → AreTablesOf tables.now added → AllStand (log_bytes log.now) added → StandFor (payloads_of added) w → IsNamedWorld w
        → MatchOption result (has_lazy (payloads_of added) w ≡ true) (λ whole. (has_lazy (payloads_of added) w ≡ false) × IsWhole whole w) }
{
    if lacks_names(tables) {
        return None;
    }
    let first = u64::from(tables.others().count());
    Some(Whole {
        log,
        tables,
        none: PendingRows::empty(alloc, first),
    })
}

impl Store {
    /// The stored master; `None` exactly where one of its commits has no stored name. It takes no memory.
    pub fn whole<'a>(&'a self) -> Option<Whole<'a>>
        ensures worlds { (began : ℕ) (st : Stored) → Stands began self.now st
            → MatchOption result (has_lazy st.payloads st.stored ≡ true) (λ whole. (has_lazy st.payloads st.stored ≡ false) × IsWhole whole st.stored) }
        ensures some { IfSome result (λ whole. (w : World NameBytes) × IsWhole whole w) }
    {
        let tables: &Tables = &self.tables;
        whole_of(self.alloc, &self.log, tables)
    }
}
