//! A map that is made of many payloads at once.

ghost use Rattle.std.specs.Prelude.{◌≡◌, ◌<◌, ◌≤◌, ◌+◌, ◌*◌, ◌^◌, ℕ, length, ◌∷◌, ◌++◌, ◌↔◌, List, [], map, true, false, IsTrue, OnOk, IfOk, Err, None};
ghost use Rattle.std.specs.List.{AllByRecursion};
ghost use Rattle.id_groups.specs.Lists.{IsIn, AreDistinct};
ghost use Rattle.id_groups.specs.Name.{Name};
ghost use Rattle.batch_codec.specs.Grammar.{IsPayload};
ghost use Rattle.batch_codec.specs.Lent.{payload_of};
ghost use Rattle.batch_codec.specs.Payload.{known_names, payload_bytes};
ghost use Rattle.name_index.specs.Index.{NamedPlace, NameStandsAt};
ghost use Rattle.name_map.specs.declared.fault.MapFault.TheVariants.{Double as FaultDouble};
ghost use Rattle.name_map.specs.Added.{Placed, AllStand, StandsAt, known_of, payloads_of};
ghost use Rattle.name_map.specs.Map.{IsMapOf, IsIdOf};
ghost use Rattle.name_map.specs.Adding.{placed};
ghost use Rattle.name_map.specs.Build.{AreNamesOf, NamesFit, AreUnknown, MeetKnown, others_of, entry_places};

use crate::adding::{check_own_names, push_part};
use crate::fault::MapFault;
use crate::map::NameMap;
use crate::part::Part;
use crate::reading::name_at;
use crate::sizes::NAME_BYTES;
use batch_codec::BatchRef;
use name_index::NameIndex;
use std::alloc::{AllocError, Global};
use std::marker::Model;

/// Where the names of a payload's other ids stand in the log, how many there are, and where its master ids end.
#[derive(Clone, Copy)]
pub(crate) struct OtherNames {
    pub(crate) place: u64,
    pub(crate) count: u32,
    pub(crate) after: u64,
}

/// What becomes the map of payloads that are added in turn. Their names are looked at once, when all payloads are there.
#[derive(Drop)]
pub struct MapBuild {
    alloc: Global,
    parts: Vec<Part>,
    others: Vec<OtherNames>,
    masters: u64,
    known: u64,
}

impl Model for MapBuild {
    ghost use Rattle.std.specs.Prelude.{◌≤◌};
    ghost use Rattle.name_map.specs.Build.{PlainNames};

    ghost Value = { PlainNames };

    ghost view = { λ build. record { parts = build.parts.items; others = build.others.items; masters = build.masters; known = build.known } };

    ghost invariant = { λ build. build.known ≤ build.masters };
}

/// Refuses a payload's other names that aren't distinct, or meet a known one of the payload.
fn check_distinct(alloc: Global, batch: &BatchRef<'_>) -> Result<(), MapFault>
    ensures ok { OnOk result (AreDistinct (payload_of batch.now).other_names) }
    ensures double { result ≡ Err FaultDouble → AreDistinct (known_names (payload_of batch.now) ++ (payload_of batch.now).other_names) → ⊥ }
{
    let others = batch.other_names();
    if others.len() == 0 {
        return Ok(());
    }
    check_own_names(alloc, &batch.known(), &others)?;
    Ok(())
}

/// Where the names of a payload's other ids stand, which itself stands, or will stand, at the place `at`.
fn other_names_of(batch: &BatchRef<'_>, at: u64) -> OtherNames
    requires { at + length (payload_bytes (payload_of batch.now)) < 2 ^ 63 }
    ensures { result ≡ others_of (placed at batch.now) }
{
    batch.is_payload();
    let names = batch.other_names();
    OtherNames {
        place: at + names.start(),
        count: names.len(),
        after: batch.after(),
    }
}

/// Adds the names of a payload's other ids at the end.
fn push_others(others: &mut Vec<OtherNames>, names: OtherNames) -> Result<(), AllocError>
    ensures { OnOk result (others.new.items ≡ others.old.items ++ names ∷ []) }
{
    others.push(names)?;
    Ok(())
}

/// The places of the names of all known ids, of which there are so many.
fn places_of(alloc: Global, parts: &[Part], known: u64) -> Result<Vec<u64>, AllocError>
    ensures { IfOk result (λ places. places.items ≡ entry_places parts.now) }
{
    let mut places = Vec::with_capacity(alloc, known as usize)?;
    'parts: for part in parts {
        let own = part.places(alloc)?;
        places.extend_from_slice(&own)?;
    }
    Ok(places)
}

/// Whether the name that stands at the place is the known name of an id below `below`.
fn is_known(names: &NameMap, bytes: &[u8], place: u64, below: u64) -> bool
    ensures unknown { (added : List Placed) (name : Name) → IsMapOf names.now added → AllStand bytes.now added → NameStandsAt bytes.now (record { place = place; name = name })
        → result ≡ false → IsIdOf (known_of added) name below None }
    ensures known { (added : List Placed) (name : Name) → IsMapOf names.now added → AllStand bytes.now added → NameStandsAt bytes.now (record { place = place; name = name })
        → result ≡ true → (id : ℕ) × (id < below) × IsIn (record { id = id; name = name }) (known_of added) }
{
    match name_at(bytes, place) {
        Some(name) => names.id(bytes, name, below).is_some(),
        None => false,
    }
}

/// The place of a name by its number, where names stand one after another from `first` on within the bytes.
fn place_of_name(bytes: &[u8], first: u64, i: u32) -> u64
    ensures { first + 20 * i ≤ length bytes.now → result ≡ first + 20 * i }
{
    let _size = bytes.len();
    first.saturating_add(NAME_BYTES * u64::from(i))
}

/// Whether one of a payload's other names is the known name of an id below the payload's end.
fn has_known(names: &NameMap, bytes: &[u8], others: &OtherNames) -> bool
    ensures unknown { (added : List Placed) (a : Placed) → IsMapOf names.now added → AllStand bytes.now added → StandsAt bytes.now a → IsPayload a.payload → others.now ≡ others_of a
        → result ≡ false → AreUnknown (known_of added) a }
    ensures met { (added : List Placed) (a : Placed) → IsMapOf names.now added → AllStand bytes.now added → StandsAt bytes.now a → IsPayload a.payload → others.now ≡ others_of a
        → result ≡ true → MeetKnown (known_of added) a }
{
    'names: for i in 0..others.count {
        let place = place_of_name(bytes, others.place, i);
        if is_known(names, bytes, place, others.after) {
            return true;
        }
    }
    false
}

/// Whether one of the payloads has an other name that is the known name of an id below the payload's end.
fn has_double(names: &NameMap, bytes: &[u8], others: &[OtherNames]) -> bool
    ensures fit { (added : List Placed) → IsMapOf names.now added → AllStand bytes.now added → others.now ≡ map others_of added
        → result ≡ false → AllByRecursion (AreUnknown (known_of added)) added }
    ensures double { (added : List Placed) → IsMapOf names.now added → AllStand bytes.now added → others.now ≡ map others_of added
        → result ≡ true → (a : Placed) × IsIn a added × MeetKnown (known_of added) a }
{
    'payloads: for other in others {
        if has_known(names, bytes, other) {
            return true;
        }
    }
    false
}

impl MapBuild {
    /// What is kept of no payloads. It takes no memory yet, and keeps the allocator.
    pub fn empty(alloc: Global) -> MapBuild
        ensures { AreNamesOf result [] }
    {
        MapBuild {
            alloc,
            parts: Vec::new(alloc),
            others: Vec::new(alloc),
            masters: 0,
            known: 0,
        }
    }

    /// How many master ids the payloads have that were added.
    pub fn master_count(&self) -> u64
        ensures { result ≡ self.now.masters }
    {
        self.masters
    }

    /// Whether no payload was added.
    pub fn is_empty(&self) -> bool
        ensures { (added : List Placed) → AreNamesOf self.now added → IsTrue result ↔ (added ≡ []) }
    {
        self.parts.len() == 0
    }

    /// Adds a payload that stands, or will stand, at the place `at` in the log. It begins with the master id behind those
    /// that were added before. `Double` comes only where two of its own names are the same. What refused a payload is of no
    /// further use.
    pub fn add_batch(&mut self, batch: &BatchRef<'_>, at: u64) -> Result<(), MapFault>
        requires room { at + length (payload_bytes (payload_of batch.now)) < 2 ^ 63 }
        requires follows { (payload_of batch.now).before ≡ self.old.masters }
        ensures added { (added : List Placed) → AreNamesOf self.old added → OnOk result (AreNamesOf self.new (added ++ placed at batch.now ∷ [])) }
        ensures double { result ≡ Err FaultDouble → AreDistinct (known_names (payload_of batch.now) ++ (payload_of batch.now).other_names) → ⊥ }
    {
        batch.is_payload();
        check_distinct(self.alloc, batch)?;
        let known = batch.known();
        let part = Part::of_batch(self.alloc, batch, at + known.start(), self.known)?;
        push_part(&mut self.parts, part)?;
        push_others(&mut self.others, other_names_of(batch, at))?;
        self.masters = batch.after();
        self.known += u64::from(known.len());
        Ok(())
    }

    /// The map of the payloads that were added, which stand in `bytes`. `Double` comes exactly where two of these are the
    /// same for some payload: all known names of those before it, its own, and its other names.
    pub fn finish(self, bytes: &[u8]) -> Result<NameMap, MapFault>
        ensures map { (added : List Placed) → AreNamesOf self added → AllStand bytes.now added → IfOk result (λ map. IsMapOf map added × NamesFit [] (payloads_of added)) }
        ensures double { (added : List Placed) → AreNamesOf self added → AllStand bytes.now added → result ≡ Err FaultDouble → NamesFit [] (payloads_of added) → ⊥ }
    {
        let places = places_of(self.alloc, &self.parts, self.known)?;
        let index = NameIndex::of_places(self.alloc, bytes, &places)?;
        let names = NameMap {
            alloc: self.alloc,
            parts: self.parts,
            index,
            masters: self.masters,
            known: self.known,
        };
        if has_double(&names, bytes, &self.others) {
            return Err(MapFault::Double);
        }
        Ok(names)
    }
}
