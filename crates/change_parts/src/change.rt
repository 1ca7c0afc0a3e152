//! What a change is to write.

ghost use Rattle.std.specs.Prelude.{◌≡◌, ◌+◌, ◌++◌, ◌<◌, List, [], None, Some, ℕ, OnOk, IfErr};
ghost use Rattle.change_rules.specs.Lawful.{levels_with};
ghost use Rattle.change_parts.specs.Plans.{over};
ghost use Rattle.name_map.specs.Added.{Placed, payloads_of};
ghost use Rattle.batch_codec.specs.Payload.{Payload as PlainPayload};
ghost use Rattle.batch_codec.specs.Building.{IsBuilt};
ghost use Rattle.payload_tables.specs.Places.{BringsMasters};

use crate::fault::PlanFault;
use batch_codec::BatchBuild;
use change_rules::Limit;
use payload_tables::Tables;
use std::alloc::{AllocError, Global};
use std::marker::Model;

/// The bytes of a payload. Contracts see their list.
#[derive(Drop)]
pub struct Payload {
    bytes: Vec<u8>,
}

impl Model for Payload {
    ghost use Rattle.std.specs.Prelude.{List, ℕ};

    ghost Value = { List ℕ };

    ghost view = { λ p. p.bytes.items };
}

impl Payload {
    /// The bytes.
    pub fn bytes(&self) -> &[u8]
        ensures { result.now ≡ self.now }
    {
        &self.bytes
    }

    /// No payload. It takes no memory.
    pub fn empty(alloc: Global) -> Payload
        ensures { result ≡ [] }
    {
        Payload {
            bytes: Vec::new(alloc),
        }
    }

    /// The payload of these bytes.
    pub fn of(bytes: Vec<u8>) -> Payload
        ensures { result ≡ bytes.items }
    {
        Payload { bytes }
    }
}

/// What a change is to write, and the sizes of the world that follows.
#[derive(Drop)]
pub struct Change {
    /// The payload of the change; empty where nothing changes.
    pub payload: Payload,
    /// How many master rows there are then.
    pub master: u64,
    /// How many others there are then.
    pub others: u64,
    /// Whether the world stays as it is.
    pub same: bool,
}

/// Refuses a number above its limit.
pub fn check(which: Limit, number: u64, limit: u64) -> Result<(), PlanFault>
    ensures ok { OnOk result (over limit number which ≡ None) }
    ensures err { IfErr result (λ fault. over limit number which ≡ Some fault) }
{
    if number > limit {
        return Err(PlanFault::Full(which, limit));
    }
    Ok(())
}

/// The kind of a flush's payload, and of a strip's.
pub const FLUSH: u8 = 1;

/// Adds the segments of levels that come with the master records of the payload. The tables stay as they are.
pub fn add_levels(
    alloc: Global,
    tables: &mut Tables,
    bytes: &[u8],
    build: &mut BatchBuild,
) -> Result<(), AllocError>
    requires { (added : List Placed) × (p : PlainPayload) × BringsMasters tables.old.flat tables.old.levels bytes.now build.old.master added p }
    ensures built { OnOk result ((added : List Placed) (p q : PlainPayload) → BringsMasters tables.old.flat tables.old.levels bytes.now build.old.master added p
        → IsBuilt build.old q → IsBuilt build.new (record q { levels = q.levels ++ levels_with (payloads_of added) p })) }
    ensures count { build.new.other_count ≡ build.old.other_count }
    ensures unchanged { tables.new ≡ tables.old }
{
    let mut records = Vec::new(alloc);
    let count = tables.write_levels(bytes, build.master_records(), &mut records)?;
    build.level_records(&records, count)
}
