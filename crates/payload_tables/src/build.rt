//! The tables of a log's payloads, made of all of them at once.

ghost use Rattle.std.specs.Prelude.{◌≡◌, ◌<◌, ◌+◌, ◌^◌, ◌++◌, ◌∷◌, [], List, length, IfOk, OnOk, Err};
ghost use Rattle.id_groups.specs.Lists.{AreDistinct};
ghost use Rattle.batch_codec.specs.Lent.{payload_of};
ghost use Rattle.change_rules.specs.Lawful.{MayFollow, AreLawful, levels_with};
ghost use Rattle.batch_codec.specs.Payload.{payload_bytes, known_names};
ghost use Rattle.flat_segments.specs.Kept.{IsTableOf};
ghost use Rattle.segment_levels.specs.Flats.{flats_of};
ghost use Rattle.segment_levels.specs.Kept.{AreLevelsOf};
ghost use Rattle.name_map.specs.Added.{Placed, AllStand, payloads_of};
ghost use Rattle.name_map.specs.Adding.{placed};
ghost use Rattle.name_map.specs.Build.{AreNamesOf};
ghost use Rattle.payload_tables.specs.declared.fault.TableFault.TheVariants.{Unlawful};
ghost use Rattle.payload_tables.specs.Kept.{AreTablesOf, master_records};
ghost use Rattle.payload_tables.specs.Build.{IsBuildOf, ArePartsOf};

use crate::brought::Brought;
use crate::fault::TableFault;
use crate::heads::{Before, check_place};
use crate::masters::extend_checked;
use crate::others::OthersTable;
use crate::tables::Tables;
use batch_codec::BatchRef;
use edge_index::EdgeIndex;
use flat_segments::FlatTable;
use high_segments::Levels;
use id_groups::Name;
use name_map::MapBuild;
use std::alloc::Global;
use std::marker::Model;

/// What becomes the tables of payloads that are added in turn. Their names are looked at once, when all payloads are there, so
/// a log is read faster than by adding each payload to tables.
#[derive(Drop)]
pub struct TablesBuild {
    alloc: Global,
    flat: FlatTable,
    levels: Levels,
    names: MapBuild,
    others: OthersTable,
    heads: Vec<Name>,
    cloned: u64,
    version: u8,
}

impl Model for TablesBuild {
    ghost use Rattle.payload_tables.specs.Build.{PlainBuild};

    ghost Value = { PlainBuild };

    ghost view = { λ b. record { flat = b.flat; levels = b.levels; names = b.names; others = b.others; heads = b.heads.items; cloned = b.cloned; version = b.version } };
}

/// Adds a payload to all three, where those that were added before stand in `bytes`. What refused it is of no further use.
fn add_masters(
    flat: &mut FlatTable,
    levels: &mut Levels,
    names: &mut MapBuild,
    bytes: &[u8],
    batch: &BatchRef<'_>,
    at: u64,
) -> Result<(), TableFault>
    requires room { at + length (payload_bytes (payload_of batch.now)) < 2 ^ 63 }
    requires parts { (added : List Placed) × ArePartsOf flat.old levels.old names.old added × AllStand bytes.now added }
    requires follows { (payload_of batch.now).before ≡ names.old.masters }
    ensures table { (added : List Placed) → ArePartsOf flat.old levels.old names.old added → AllStand bytes.now added
        → OnOk result (IsTableOf flat.new (master_records (added ++ placed at batch.now ∷ []))) }
    ensures levels { (added : List Placed) → ArePartsOf flat.old levels.old names.old added → AllStand bytes.now added
        → OnOk result (AreLevelsOf levels.new (flats_of flat.new (master_records (added ++ placed at batch.now ∷ [])))) }
    ensures names { (added : List Placed) → ArePartsOf flat.old levels.old names.old added → OnOk result (AreNamesOf names.new (added ++ placed at batch.now ∷ [])) }
    ensures sections { (added : List Placed) → ArePartsOf flat.old levels.old names.old added → AllStand bytes.now added
        → OnOk result ((payload_of batch.now).version ≡ 2 → (payload_of batch.now).levels ≡ levels_with (payloads_of added) (payload_of batch.now)) }
    ensures unlawful { (added : List Placed) → ArePartsOf flat.old levels.old names.old added → AllStand bytes.now added → result ≡ Err Unlawful
        → AreDistinct (known_names (payload_of batch.now) ++ (payload_of batch.now).other_names)
        → ((payload_of batch.now).version ≡ 2 → (payload_of batch.now).levels ≡ levels_with (payloads_of added) (payload_of batch.now)) → ⊥ }
{
    extend_checked(flat, levels, bytes, batch, at)?;
    names.add_batch(batch, at)?;
    Ok(())
}

impl TablesBuild {
    /// What is kept of no payloads. It takes no memory yet, and keeps the allocator.
    pub fn empty(alloc: Global) -> TablesBuild
        ensures { IsBuildOf result [] }
    {
        TablesBuild {
            alloc,
            flat: FlatTable::empty(alloc),
            levels: Levels::empty(alloc),
            names: MapBuild::empty(alloc),
            others: OthersTable::empty(alloc),
            heads: Vec::new(alloc),
            cloned: 0,
            version: 0,
        }
    }

    /// Adds a payload that stands, or will stand, at the place `at` in the log, where those that were added before stand in
    /// `bytes`. `Unlawful` comes only where it may not come behind these. What refused a payload is of no further use.
    pub fn add_batch(
        &mut self,
        bytes: &[u8],
        batch: &BatchRef<'_>,
        at: u64,
    ) -> Result<(), TableFault>
        requires room { at + length (payload_bytes (payload_of batch.now)) < 2 ^ 63 }
        requires build { (added : List Placed) × IsBuildOf self.old added × AllStand bytes.now added }
        ensures added { (added : List Placed) → IsBuildOf self.old added → AllStand bytes.now added → OnOk result (IsBuildOf self.new (added ++ placed at batch.now ∷ [])) }
        ensures unlawful { (added : List Placed) → IsBuildOf self.old added → AllStand bytes.now added → result ≡ Err Unlawful
            → MayFollow (payloads_of added) (payload_of batch.now) → ⊥ }
    {
        batch.is_payload();
        let masters = self.names.master_count();
        let is_none = self.names.is_empty();
        let before = Before {
            masters,
            version: self.version,
            is_none,
        };
        check_place(self.alloc, batch, before)?;
        let brought = Brought::read(self.alloc, batch, at)?;
        add_masters(
            &mut self.flat,
            &mut self.levels,
            &mut self.names,
            bytes,
            batch,
            at,
        )?;
        brought.keep(batch, &mut self.others, &mut self.heads, &mut self.cloned);
        self.version = batch.version();
        Ok(())
    }

    /// The tables of the payloads that were added, which stand in `bytes`. `Unlawful` comes exactly where these aren't lawful
    /// one behind the other.
    pub fn finish(self, bytes: &[u8]) -> Result<Tables, TableFault>
        ensures tables { (added : List Placed) → IsBuildOf self added → AllStand bytes.now added → IfOk result (λ tables. AreTablesOf tables added) }
        ensures unlawful { (added : List Placed) → IsBuildOf self added → AllStand bytes.now added → result ≡ Err Unlawful → AreLawful [] (payloads_of added) → ⊥ }
    {
        let names = self.names.finish(bytes)?;
        Ok(Tables {
            alloc: self.alloc,
            flat: self.flat,
            levels: self.levels,
            names,
            others: self.others,
            heads: self.heads,
            cloned: self.cloned,
            version: self.version,
            edges: EdgeIndex::empty(self.alloc),
        })
    }
}
