//! The map, and its look-ups.

ghost use Rattle.std.specs.Prelude.{◌≡◌, ◌<◌, ◌≤◌, ◌+◌, ◌^◌, length, ◌∷◌, ◌++◌, List, [], OnOk, OnErr, IfOk, IfSome};
ghost use Rattle.id_groups.specs.Lists.{AreDistinct};
ghost use Rattle.batch_codec.specs.Lent.{payload_of};
ghost use Rattle.batch_codec.specs.Payload.{payload_bytes};
ghost use Rattle.name_map.specs.declared.fault.MapFault.TheVariants.{Double as FaultDouble};
ghost use Rattle.name_map.specs.Added.{Placed, AllStand, known_of, payloads_of};
ghost use Rattle.name_map.specs.Map.{IsMapOf, IsIdOf, count_known, NamesAs, names_with};
ghost use Rattle.name_map.specs.Adding.{placed};

use crate::adding::{add_new_part, add_part, check_others};
use crate::fault::MapFault;
use crate::part::Part;
use crate::reading::{id_before, name_at};
use crate::search;
use batch_codec::BatchRef;
use id_groups::{Id, NameRef};
use name_index::NameIndex;
use std::alloc::{AllocError, Global};
use std::marker::Model;

/// The map between names and master ids of a log whose payloads were added to it. It keeps places, and no name: its
/// calls read the names from the log's bytes, in which each payload that was added stands at its place.
#[derive(Drop)]
pub struct NameMap {
    pub(crate) alloc: Global,
    pub(crate) parts: Vec<Part>,
    pub(crate) index: NameIndex,
    pub(crate) masters: u64,
    pub(crate) known: u64,
}

impl Model for NameMap {
    ghost use Rattle.std.specs.Prelude.{◌≤◌};
    ghost use Rattle.name_map.specs.Map.{PlainMap};

    ghost Value = { PlainMap };

    ghost view = { λ map. record { parts = map.parts.items; index = map.index; masters = map.masters; known = map.known } };

    ghost invariant = { λ map. map.known ≤ map.masters };
}

impl NameMap {
    /// The map of no payloads. It takes no memory yet, and keeps the allocator.
    pub fn empty(alloc: Global) -> NameMap
        ensures { IsMapOf result [] }
    {
        NameMap {
            alloc,
            parts: Vec::new(alloc),
            index: NameIndex::empty(alloc),
            masters: 0,
            known: 0,
        }
    }

    /// The same map once more.
    pub fn copy(&self, alloc: Global) -> Result<NameMap, AllocError>
        ensures { IfOk result (λ copy. copy ≡ self.now) }
    {
        let mut parts = Vec::with_capacity(alloc, self.parts.len())?;
        'parts: for part in &self.parts {
            parts.push(part.copy(alloc)?)?;
        }
        let index = self.index.copy(alloc)?;
        Ok(NameMap {
            alloc,
            parts,
            index,
            masters: self.masters,
            known: self.known,
        })
    }

    /// How many master ids the payloads have that were added.
    pub fn master_count(&self) -> u64
        ensures { result ≡ self.now.masters }
    {
        self.masters
    }

    /// Adds a payload that stands, or will stand, at the place `at` in the log, where the payloads that were added
    /// before stand in `bytes`. It begins with the master id behind theirs. `Double` comes exactly where two of these
    /// are the same: all known names, those of the payload among them, and its other names. A refusal changes nothing.
    pub fn add_batch(&mut self, bytes: &[u8], batch: &BatchRef<'_>, at: u64) -> Result<(), MapFault>
        requires room { at + length (payload_bytes (payload_of batch.now)) < 2 ^ 63 }
        requires follows { (payload_of batch.now).before ≡ self.old.masters }
        ensures added { (added : List Placed) → IsMapOf self.old added → AllStand bytes.now added → OnOk result (IsMapOf self.new (added ++ placed at batch.now ∷ []) × AreDistinct (names_with (payloads_of added) (payload_of batch.now))) }
        ensures double { (added : List Placed) → IsMapOf self.old added → AllStand bytes.now added → result ≡ Err FaultDouble → AreDistinct (names_with (payloads_of added) (payload_of batch.now)) → ⊥ }
        ensures unchanged { OnErr result (self.new ≡ self.old) }
    {
        batch.is_payload();
        let known = batch.known();
        let part = Part::of_batch(self.alloc, batch, at + known.start(), self.known)?;
        check_others(self.alloc, &self.index, bytes, batch)?;
        add_part(
            self.alloc,
            &mut self.parts,
            &mut self.index,
            part,
            bytes,
            &known,
        )?;
        self.masters = batch.after();
        self.known += u64::from(known.len());
        Ok(())
    }

    /// Adds a payload as `add_batch` does, where it is known that all known names, those of the payload among them, and its other
    /// names are distinct: none is sought. Want of memory changes nothing.
    pub fn add_new(&mut self, bytes: &[u8], batch: &BatchRef<'_>, at: u64) -> Result<(), AllocError>
        requires room { at + length (payload_bytes (payload_of batch.now)) < 2 ^ 63 }
        requires follows { (payload_of batch.now).before ≡ self.old.masters }
        ensures added { (added : List Placed) → IsMapOf self.old added → AllStand bytes.now added → AreDistinct (names_with (payloads_of added) (payload_of batch.now))
            → OnOk result (IsMapOf self.new (added ++ placed at batch.now ∷ [])) }
        ensures unchanged { OnErr result (self.new ≡ self.old) }
    {
        batch.is_payload();
        let known = batch.known();
        let part = Part::of_batch(self.alloc, batch, at + known.start(), self.known)?;
        add_new_part(
            self.alloc,
            &mut self.parts,
            &mut self.index,
            part,
            bytes,
            &known,
        )?;
        self.masters = batch.after();
        self.known += u64::from(known.len());
        Ok(())
    }

    /// The known name of the id, lent from the log's bytes; `None` exactly where the id has no known name, so for
    /// every id that isn't a master id.
    pub fn name<'a>(&self, bytes: &'a [u8], id: Id) -> Option<NameRef<'a>>
        ensures name { (added : List Placed) → IsMapOf self.now added → AllStand bytes.now added → NamesAs (known_of added) id result }
        ensures other { (added : List Placed) → IsMapOf self.now added → 2 ^ 56 ≤ id → result ≡ None }
    {
        let place = search::place_of(&self.parts, id.number())?;
        name_at(bytes, place)
    }

    /// The master id below `below` with the known name; `None` exactly where there is none.
    pub fn id(&self, bytes: &[u8], name: NameRef<'_>, below: u64) -> Option<Id>
        ensures below { IfSome result (λ id. id < below) }
        ensures id { (added : List Placed) → IsMapOf self.now added → AllStand bytes.now added → IsIdOf (known_of added) name.entry.bytes.now below result }
    {
        let place = self.index.find(bytes, name)?;
        let id = id_before(bytes, place)?;
        if id.number() < below { Some(id) } else { None }
    }

    /// How many master ids below `below` have a known name.
    pub fn known_below(&self, below: u64) -> u64
        ensures { (added : List Placed) → IsMapOf self.now added → result ≡ count_known below (known_of added) }
    {
        search::count_known(&self.parts, below)
    }
}
