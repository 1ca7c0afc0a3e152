//! What is kept of a session.

ghost use Rattle.std.specs.Prelude.{◌≡◌, List, length, IfOk};
ghost use Rattle.name_map.specs.Added.{Placed, AllStand};
ghost use Rattle.payload_tables.specs.Kept.{AreTablesOf};
ghost use Rattle.payload_tables.specs.Bases.{IsBaseOf};
ghost use Rattle.id_groups.specs.Name.{Name as NameBytes};
ghost use Rattle.commit_graph.specs.World.{Row, World};
ghost use Rattle.store_plans.specs.Sessions.{IsSessionOf, base_added, IsOnNewest};
ghost use Rattle.store_plans.specs.Looking.{IsSeen, MaySee, Shows};

use crate::lookup::has_unnamed;
use crate::seen::Seen;
use payload_tables::{BaseRef, OthersTable, PendingRows, Tables};
use std::alloc::{AllocError, Global};

/// What is kept of a session: the base that it sees, and its rows.
#[derive(Drop)]
pub struct Session {
    /// How many payloads of the log make its base.
    pub payloads: u32,
    /// How many master ids these have.
    pub below: u64,
    /// The other ids of the last of them.
    pub others: OthersTable,
    /// Its rows that aren't stored.
    pub pending: PendingRows,
}

impl Session {
    /// A session without rows on all of so many payloads, of which these are the tables, and these their other ids.
    pub(crate) fn with_others(
        alloc: Global,
        tables: &Tables,
        payloads: u32,
        others: OthersTable,
    ) -> Session
        requires tables { (added : List Placed) × AreTablesOf tables.now added }
        requires others { others ≡ tables.now.others }
        ensures { (added : List Placed) → AreTablesOf tables.now added → payloads ≡ length added → IsOnNewest added result }
    {
        let first = u64::from(others.count());
        Session {
            payloads,
            below: tables.master_count(),
            others,
            pending: PendingRows::empty(alloc, first),
        }
    }

    /// A session without rows on all of so many payloads, of which these are the tables.
    pub fn newest(alloc: Global, tables: &Tables, payloads: u32) -> Result<Session, AllocError>
        requires { (added : List Placed) × AreTablesOf tables.now added }
        ensures { (added : List Placed) → AreTablesOf tables.now added → payloads ≡ length added → IfOk result (IsOnNewest added) }
    {
        let others = tables.others().copy(alloc)?;
        Ok(Session::with_others(alloc, tables, payloads, others))
    }

    /// Its base, lent with the log's bytes.
    pub fn base<'a>(&'a self, bytes: &'a [u8], tables: &'a Tables) -> BaseRef<'a>
        ensures { (added : List Placed) → IsSessionOf added self.now → AreTablesOf tables.now added → AllStand bytes.now added
            → IsBaseOf result (base_added added self.now) }
    {
        BaseRef::over(bytes, tables, &self.others, self.below)
    }

    /// What it sees, lent with the log's bytes.
    pub fn seen<'a>(&'a self, bytes: &'a [u8], tables: &'a Tables) -> Seen<'a>
        ensures may { (added : List Placed) → IsSessionOf added self.now → AreTablesOf tables.now added → AllStand bytes.now added → MaySee result (base_added added self.now) }
        ensures shows { (added : List Placed) (w : World NameBytes) (rows : List (Row NameBytes)) → IsSessionOf added self.now → AreTablesOf tables.now added → AllStand bytes.now added
            → IsSeen added self.now w rows → Shows result (base_added added self.now) w rows }
        ensures parts { (result.bytes.now ≡ bytes.now) × (result.tables.now ≡ tables.now) × (result.pending.now ≡ self.now.pending) }
    {
        Seen {
            bytes,
            tables,
            base: self.base(bytes, tables),
            pending: &self.pending,
            unnamed: has_unnamed(tables, self.below),
        }
    }
}
