//! The tables of a log.

ghost use Rattle.std.specs.Prelude.{◌≡◌, ◌<◌, ◌+◌, ◌^◌, ◌++◌, ◌∷◌, [], List, flat_map, length, ◌↔◌, IsTrue, IfOk, OnOk, OnErr, Err};
ghost use Rattle.batch_codec.specs.Lent.{payload_of};
ghost use Rattle.change_rules.specs.Lawful.{MayFollow, levels_with};
ghost use Rattle.segment_codec.specs.Record.{segment_bytes};
ghost use Rattle.payload_tables.specs.Places.{BringsMasters};
ghost use Rattle.name_map.specs.Added.{Placed, AllStand, payloads_of};
ghost use Rattle.name_map.specs.Adding.{placed};
ghost use Rattle.batch_codec.specs.Payload.{Payload, payload_bytes};
ghost use Rattle.payload_tables.specs.declared.fault.TableFault.TheVariants.{Unlawful};
ghost use Rattle.segment_levels.specs.Kept.{AreLevelsOf};
ghost use Rattle.payload_tables.specs.Kept.{AreTablesOf};
ghost use Rattle.payload_tables.specs.Bases.{IsBaseOf};
ghost use Rattle.id_groups.specs.Name.{Name as NameBytes, same_name};
ghost use Rattle.commit_graph.specs.World.{World};
ghost use Rattle.commit_graph.specs.Ids.{parent_ids};
ghost use Rattle.segment_rules.specs.Flat.{flat_segments_of};
ghost use Rattle.change_rules.specs.Tables.{StandFor, remote_heads, cloned_count};

use crate::base::BaseRef;
use crate::brought::Brought;
use crate::fault::TableFault;
use crate::heads::{Before, check_place};
use crate::indexing::index_table;
use crate::masters::{extend_lawful, extend_masters, write_levels};
use crate::others::OthersTable;
use crate::piece::copied;
use batch_codec::BatchRef;
use edge_index::EdgeIndex;
use flat_segments::FlatTable;
use high_segments::Levels;
use id_groups::Name;
use name_map::NameMap;
use std::alloc::{AllocError, Global};
use std::marker::Model;

/// What is kept of the payloads of a log: the segments of all master ids with their levels, an index of edges as far as it was made, their names, and
/// the other ids of the newest payload. Contracts see what is kept; of which payloads, `AreTablesOf` says.
#[derive(Drop)]
pub struct Tables {
    pub(crate) alloc: Global,
    pub(crate) flat: FlatTable,
    pub(crate) levels: Levels,
    pub(crate) names: NameMap,
    pub(crate) others: OthersTable,
    pub(crate) heads: Vec<Name>,
    pub(crate) cloned: u64,
    pub(crate) version: u8,
    pub(crate) edges: EdgeIndex,
}

impl Model for Tables {
    ghost use Rattle.payload_tables.specs.Kept.{PlainTables};

    ghost Value = { PlainTables };

    ghost view = { λ t. record { flat = t.flat; levels = t.levels; names = t.names; others = t.others; heads = t.heads.items; cloned = t.cloned; version = t.version; edges = t.edges } };
}

impl Tables {
    /// The tables of no payloads. They take no memory yet, and keep the allocator.
    pub fn empty(alloc: Global) -> Tables
        ensures { AreTablesOf result [] }
    {
        Tables {
            alloc,
            flat: FlatTable::empty(alloc),
            levels: Levels::empty(alloc),
            names: NameMap::empty(alloc),
            others: OthersTable::empty(alloc),
            heads: Vec::new(alloc),
            cloned: 0,
            version: 0,
            edges: EdgeIndex::empty(alloc),
        }
    }

    /// Whether no payload was added: each one that is has ids, of the master group or others.
    fn is_empty(&self) -> bool
        ensures { (added : List Placed) → AreTablesOf self.now added → IsTrue result ↔ (added ≡ []) }
    {
        self.names.master_count() == 0 && self.others.count() == 0
    }

    /// Adds a payload that stands, or will stand, at the place `at` in the log, where those that were added before stand in
    /// `bytes`. `Unlawful` comes exactly where it may not come behind these. A refusal changes nothing.
    pub fn add_batch(
        &mut self,
        bytes: &[u8],
        batch: &BatchRef<'_>,
        at: u64,
    ) -> Result<(), TableFault>
        requires room { at + length (payload_bytes (payload_of batch.now)) < 2 ^ 63 }
        requires tables { (added : List Placed) × AreTablesOf self.old added × AllStand bytes.now added }
        ensures added { (added : List Placed) → AreTablesOf self.old added → AllStand bytes.now added → OnOk result (AreTablesOf self.new (added ++ placed at batch.now ∷ [])) }
        ensures unlawful { (added : List Placed) → AreTablesOf self.old added → AllStand bytes.now added → result ≡ Err Unlawful
            → MayFollow (payloads_of added) (payload_of batch.now) → ⊥ }
        ensures unchanged { OnErr result (self.new ≡ self.old) }
    {
        batch.is_payload();
        let masters = self.names.master_count();
        let is_none = self.is_empty();
        let before = Before {
            masters,
            version: self.version,
            is_none,
        };
        check_place(self.alloc, batch, before)?;
        let brought = Brought::behind(self.alloc, &self.others, bytes, batch, at)?;
        extend_masters(
            &mut self.flat,
            &mut self.levels,
            &mut self.names,
            bytes,
            batch,
            at,
        )?;
        brought.keep(batch, &mut self.others, &mut self.heads, &mut self.cloned);
        self.version = batch.version();
        Ok(())
    }

    /// Adds a payload as `add_batch` does, where it is known that it may come behind those that were added: no name is sought. The
    /// answer is what the tables keep of its other ids, once more and shared with them. Want of memory changes nothing.
    pub fn add_lawful(
        &mut self,
        bytes: &[u8],
        batch: &BatchRef<'_>,
        at: u64,
    ) -> Result<OthersTable, AllocError>
        requires room { at + length (payload_bytes (payload_of batch.now)) < 2 ^ 63 }
        requires lawful { (added : List Placed) × AreTablesOf self.old added × AllStand bytes.now added × MayFollow (payloads_of added) (payload_of batch.now) }
        ensures added { (added : List Placed) → AreTablesOf self.old added → AllStand bytes.now added → MayFollow (payloads_of added) (payload_of batch.now)
            → OnOk result (AreTablesOf self.new (added ++ placed at batch.now ∷ [])) }
        ensures others { IfOk result (λ others. others ≡ self.new.others) }
        ensures unchanged { OnErr result (self.new ≡ self.old) }
    {
        batch.is_payload();
        let brought = Brought::behind(self.alloc, &self.others, bytes, batch, at)?;
        let others = brought.share(self.alloc)?;
        extend_lawful(
            &mut self.flat,
            &mut self.levels,
            &mut self.names,
            bytes,
            batch,
            at,
        )?;
        brought.keep(batch, &mut self.others, &mut self.heads, &mut self.cloned);
        self.version = batch.version();
        Ok(others)
    }

    /// Takes the master segments that aren't in the index of edges into it, where they are many, for which the payloads that were added stand in
    /// `bytes`. For want of memory the index stays as it is; all else does.
    pub fn index(&mut self, bytes: &[u8])
        requires { (added : List Placed) × AreTablesOf self.old added × AllStand bytes.now added }
        ensures tables { (added : List Placed) → AreTablesOf self.old added → AllStand bytes.now added → AreTablesOf self.new added }
        ensures others { self.new ≡ record self.old { edges = self.new.edges } }
    {
        index_table(self.alloc, &self.flat, &mut self.edges, bytes);
    }

    /// Appends the records of the segments of levels that come with these master records, which are those of a payload that may come
    /// behind the ones that were added, and answers how many they are. The tables stay as they are.
    pub fn write_levels(
        &mut self,
        bytes: &[u8],
        records: &[u8],
        out: &mut Vec<u8>,
    ) -> Result<usize, AllocError>
        requires { (added : List Placed) × (p : Payload) × BringsMasters self.old.flat self.old.levels bytes.now records.now added p }
        ensures written { OnOk result ((added : List Placed) (p : Payload) → BringsMasters self.old.flat self.old.levels bytes.now records.now added p
            → out.new.items ≡ out.old.items ++ flat_map segment_bytes (levels_with (payloads_of added) p)) }
        ensures count { IfOk result (λ count. (added : List Placed) (p : Payload) → BringsMasters self.old.flat self.old.levels bytes.now records.now added p
            → count ≡ length (levels_with (payloads_of added) p)) }
        ensures unchanged { self.new ≡ self.old }
    {
        write_levels(&self.flat, &mut self.levels, bytes, records, out)
    }

    /// The heads of the remote that was cloned, by ascending id; none without a clone.
    pub fn heads(&self) -> &[Name]
        ensures heads { result.now ≡ self.now.heads }
        ensures payloads { (added : List Placed) → AreTablesOf self.now added → result.now ≡ remote_heads (payloads_of added) }
    {
        &self.heads
    }

    /// How many commits were cloned; 0 without a clone.
    pub fn cloned(&self) -> u64
        ensures cloned { result ≡ self.now.cloned }
        ensures payloads { (added : List Placed) → AreTablesOf self.now added → result ≡ cloned_count (payloads_of added) }
    {
        self.cloned
    }

    /// The map of all known names.
    pub fn names(&self) -> &NameMap
        ensures { result.now ≡ self.now.names }
    {
        &self.names
    }

    /// What is kept of the master ids once more: the table, its levels and the names.
    fn copy_masters(&self, alloc: Global) -> Result<(FlatTable, Levels, NameMap), AllocError>
        ensures { IfOk result (λ copy. (copy.0 ≡ self.now.flat) × (copy.1 ≡ self.now.levels) × (copy.2 ≡ self.now.names)) }
    {
        let flat = self.flat.copy(alloc)?;
        let levels = self.levels.copy(alloc)?;
        let names = self.names.copy(alloc)?;
        Ok((flat, levels, names))
    }

    /// The same tables once more.
    pub fn copy(&self, alloc: Global) -> Result<Tables, AllocError>
        ensures { IfOk result (λ copy. copy ≡ self.now) }
    {
        let heads = copied(alloc, &self.heads)?;
        let others = self.others.copy(alloc)?;
        let (flat, levels, names) = self.copy_masters(alloc)?;
        let edges = self.edges.copy(alloc)?;
        Ok(Tables {
            alloc,
            flat,
            levels,
            names,
            others,
            heads,
            cloned: self.cloned,
            version: self.version,
            edges,
        })
    }

    /// How many master ids the payloads have.
    pub fn master_count(&self) -> u64
        ensures { result ≡ self.now.flat.end }
    {
        self.flat.count()
    }

    /// The levels of the master group.
    pub fn levels(&self) -> &Levels
        ensures levels { result.now ≡ self.now.levels }
        ensures graph { (added : List Placed) (w : World NameBytes) → AreTablesOf self.now added → StandFor (payloads_of added) w
            → AreLevelsOf result.now (flat_segments_of 0 (parent_ids same_name w w.master)) }
    {
        &self.levels
    }

    /// What is kept of the other ids of the newest payload.
    pub fn others(&self) -> &OthersTable
        ensures { result.now ≡ self.now.others }
    {
        &self.others
    }

    /// The base of all payloads that were added, which stand in the bytes at their places.
    pub fn newest<'a>(&'a self, bytes: &'a [u8]) -> BaseRef<'a>
        ensures { (added : List Placed) → AreTablesOf self.now added → AllStand bytes.now added → IsBaseOf result added }
    {
        BaseRef {
            bytes,
            tables: self,
            others: &self.others,
            below: self.flat.count(),
        }
    }
}
