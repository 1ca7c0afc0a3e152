//! The known ids of one payload.

ghost use Rattle.std.specs.Prelude.{◌≡◌, ◌<◌, ◌≤◌, ◌+◌, ◌*◌, ◌^◌, ℕ, true, length, take, drop, IfOk};
ghost use Rattle.std.specs.List.{AllByRecursion};
ghost use Rattle.batch_codec.specs.Reading.{ids_ascend};
ghost use Rattle.batch_codec.specs.Payload.{known_ids};
ghost use Rattle.batch_codec.specs.Grammar.{IsPayload};
ghost use Rattle.batch_codec.specs.Lent.{payload_of, lent_ids};
ghost use Rattle.name_map.specs.Added.{every};
ghost use Rattle.name_map.specs.Part.{ids_of, upward, count_below, IsIndexIn, IsPlaceIn, IsPart};

use crate::sizes::{ENTRY_BYTES, ID_BYTES};
use batch_codec::{BatchRef, KnownSlice};
use id_groups::Id;
use std::alloc::{AllocError, Global};
use std::marker::Model;

/// Which ids of a payload are known.
#[derive(Drop)]
pub(crate) enum KnownIds {
    /// So many, from the first on.
    All(u32),
    /// These, ascending.
    Listed(Vec<Id>),
}

/// The known ids of one payload, and where they stand in the log.
#[derive(Drop)]
pub(crate) struct Part {
    first: u64,
    rank: u64,
    start: u64,
    ids: KnownIds,
}

impl Model for Part {
    ghost use Rattle.name_map.specs.Part.{PlainPart};

    ghost Value = { PlainPart };

    ghost use Rattle.name_map.specs.Part.{ids_of, IsPart};

    ghost view = { λ part. record { first = part.first; rank = part.rank; start = part.start; ids = ids_of part.first part.ids } };

    ghost invariant = { λ part. IsPart (record { first = part.first; rank = part.rank; start = part.start; ids = ids_of part.first part.ids }) };
}

/// The same ids once more.
fn copied(alloc: Global, ids: &KnownIds) -> Result<KnownIds, AllocError>
    ensures { IfOk result (λ copy. (first : ℕ) → ids_of first copy ≡ ids_of first ids.now) }
{
    match ids {
        KnownIds::All(count) => Ok(KnownIds::All(*count)),
        KnownIds::Listed(ids) => {
            let mut copy = Vec::with_capacity(alloc, ids.len())?;
            copy.extend_from_slice(ids)?;
            Ok(KnownIds::Listed(copy))
        }
    }
}

impl Part {
    /// The same once more.
    pub(crate) fn copy(&self, alloc: Global) -> Result<Part, AllocError>
        ensures { IfOk result (λ copy. copy ≡ self.now) }
    {
        let ids = copied(alloc, &self.ids)?;
        Ok(Part {
            first: self.first,
            rank: self.rank,
            start: self.start,
            ids,
        })
    }
}

/// How many ids are below the number.
fn count_less(ids: &[Id], number: u64) -> usize
    requires { ids_ascend 0 (2 ^ 57) ids.now ≡ true }
    ensures within { result ≤ length ids.now }
    ensures less { AllByRecursion (λ id. id < number) (take result ids.now) }
    ensures rest { AllByRecursion (λ id. number ≤ id) (drop result ids.now) }
{
    ids.partition_point(|id| id.number() < number)
}

/// The index of the number among so many numbers from the first on.
fn index_in_row(first: u64, count: u32, number: u64) -> Option<u64>
    ensures { IsIndexIn (upward first count) number result }
{
    if number < first || number - first >= u64::from(count) {
        return None;
    }
    Some(number - first)
}

/// The index of the number among these.
fn index_among(ids: &[Id], number: u64) -> Option<u64>
    requires { ids_ascend 0 (2 ^ 57) ids.now ≡ true }
    ensures { IsIndexIn ids.now number result }
{
    let index = count_less(ids, number);
    if index == ids.len() || ids[index].number() != number {
        return None;
    }
    Some(index as u64)
}

/// How many of so many numbers from the first on are below the number.
fn count_in_row(first: u64, count: u32, number: u64) -> u64
    ensures { result ≡ count_below number (upward first count) }
{
    if number < first {
        return 0;
    }
    (number - first).min(u64::from(count))
}

/// How many of these are below the number.
fn count_among(ids: &[Id], number: u64) -> u64
    requires { ids_ascend 0 (2 ^ 57) ids.now ≡ true }
    ensures { result ≡ count_below number ids.now }
{
    count_less(ids, number) as u64
}

/// The ids as a list.
fn listed(alloc: Global, known: &KnownSlice<'_>) -> Result<Vec<Id>, AllocError>
    ensures { IfOk result (λ ids. ids.items ≡ lent_ids known.now) }
{
    let mut ids = Vec::with_capacity(alloc, known.len() as usize)?;
    'ids: for i in 0..known.len() {
        ids.push(known.at(i).id)?;
    }
    Ok(ids)
}

/// The known ids of the payload; they are listed only where some new master id isn't known.
fn ids_kept(alloc: Global, batch: &BatchRef<'_>) -> Result<KnownIds, AllocError>
    requires { IsPayload (payload_of batch.now) }
    ensures { IfOk result (λ ids. ids_of (payload_of batch.now).before ids ≡ known_ids (payload_of batch.now)) }
{
    let known = batch.known();
    if u64::from(known.len()) == batch.after() - batch.before() {
        return Ok(KnownIds::All(known.len()));
    }
    Ok(KnownIds::Listed(listed(alloc, &known)?))
}

impl Part {
    /// The known ids of the payload, of which the first stands at `start` in the log, behind so many known ids of the
    /// payloads before it.
    pub(crate) fn of_batch(
        alloc: Global,
        batch: &BatchRef<'_>,
        start: u64,
        rank: u64,
    ) -> Result<Part, AllocError>
        requires payload { IsPayload (payload_of batch.now) }
        requires places { start + 28 * length (payload_of batch.now).known < 2 ^ 63 }
        requires counts { rank + length (payload_of batch.now).known < 2 ^ 63 }
        ensures { IfOk result (λ part. part ≡ record { first = (payload_of batch.now).before; rank = rank; start = start; ids = known_ids (payload_of batch.now) }) }
    {
        let ids = ids_kept(alloc, batch)?;
        Ok(Part {
            first: batch.before(),
            rank,
            start,
            ids,
        })
    }

    /// How many known ids there are.
    fn count(&self) -> u64
        ensures { result ≡ length self.now.ids }
    {
        match &self.ids {
            KnownIds::All(count) => u64::from(*count),
            KnownIds::Listed(ids) => ids.len() as u64,
        }
    }

    /// The places in the log of the names of the known ids.
    pub(crate) fn places(&self, alloc: Global) -> Result<Vec<u64>, AllocError>
        ensures { IfOk result (λ places. places.items ≡ every (self.now.start + 8) 28 (length self.now.ids)) }
    {
        let count = self.count();
        let mut places = Vec::with_capacity(alloc, count as usize)?;
        'ids: for i in 0..count {
            places.push(self.start + ENTRY_BYTES * i + ID_BYTES)?;
        }
        Ok(places)
    }

    /// The place in the log of the first known id.
    pub(crate) fn start(&self) -> u64
        ensures { result ≡ self.now.start }
    {
        self.start
    }

    /// The first master id of the payload.
    pub(crate) fn first(&self) -> u64
        ensures { result ≡ self.now.first }
    {
        self.first
    }

    /// The place in the log of the name of the id, if it is known.
    pub(crate) fn place(&self, number: u64) -> Option<u64>
        ensures { IsPlaceIn self.now number result }
    {
        let index = match &self.ids {
            KnownIds::All(count) => index_in_row(self.first, *count, number),
            KnownIds::Listed(ids) => index_among(ids, number),
        };
        let index = index?;
        Some(self.start + ENTRY_BYTES * index + ID_BYTES)
    }

    /// How many known ids of this payload and of those before it are below the number, which isn't below `first`.
    pub(crate) fn count_to(&self, number: u64) -> u64
        ensures { result ≡ self.now.rank + count_below number self.now.ids }
    {
        let count = match &self.ids {
            KnownIds::All(count) => count_in_row(self.first, *count, number),
            KnownIds::Listed(ids) => count_among(ids, number),
        };
        self.rank + count
    }
}
