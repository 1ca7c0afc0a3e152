//! What a payload brings beside its master ids.

ghost use Rattle.std.specs.Prelude.{◌≡◌, ◌<◌, ◌+◌, ◌^◌, length, IfOk};
ghost use Rattle.id_groups.specs.Lists.{AreDistinct};
ghost use Rattle.batch_codec.specs.Lent.{payload_of};
ghost use Rattle.batch_codec.specs.Payload.{payload_bytes};
ghost use Rattle.name_map.specs.Adding.{placed};
ghost use Rattle.payload_tables.specs.Kept.{AreNamed, AreOthersOf, by_kind};

use crate::heads::{FLUSH, heads_of};
use crate::others::OthersTable;
use batch_codec::BatchRef;
use id_groups::Name;
use std::alloc::{AllocError, Global};

/// The other ids of a payload, and the heads that it lists.
#[derive(Drop)]
pub(crate) struct Brought {
    others: OthersTable,
    heads: Vec<Name>,
}

impl Brought {
    /// What the payload brings, which stands, or will stand, at the place `at` in the log.
    pub(crate) fn read(alloc: Global, batch: &BatchRef<'_>, at: u64) -> Result<Brought, AllocError>
        requires { at + length (payload_bytes (payload_of batch.now)) < 2 ^ 63 }
        ensures others { IfOk result (λ brought. AreDistinct (payload_of batch.now).other_names → AreOthersOf brought.others (placed at batch.now)) }
        ensures heads { IfOk result (λ brought. brought.heads.items ≡ (payload_of batch.now).heads) }
    {
        let others = OthersTable::read(alloc, batch, at)?;
        let heads = heads_of(alloc, batch)?;
        Ok(Brought { others, heads })
    }

    /// What the payload brings, as `read` gives it, where these are the other ids of the payload before it, whose names stand in the bytes.
    pub(crate) fn behind(
        alloc: Global,
        old: &OthersTable,
        bytes: &[u8],
        batch: &BatchRef<'_>,
        at: u64,
    ) -> Result<Brought, AllocError>
        requires room { at + length (payload_bytes (payload_of batch.now)) < 2 ^ 63 }
        requires named { AreNamed bytes.now old.now }
        ensures others { IfOk result (λ brought. AreDistinct (payload_of batch.now).other_names → AreOthersOf brought.others (placed at batch.now)) }
        ensures heads { IfOk result (λ brought. brought.heads.items ≡ (payload_of batch.now).heads) }
    {
        let others = old.next(alloc, bytes, batch, at)?;
        let heads = heads_of(alloc, batch)?;
        Ok(Brought { others, heads })
    }

    /// The other ids once more, whose parts are shared.
    pub(crate) fn share(&self, alloc: Global) -> Result<OthersTable, AllocError>
        ensures { IfOk result (λ others. others ≡ self.now.others) }
    {
        self.others.copy(alloc)
    }

    /// Keeps the other ids; of a clone or a whole store also its heads, and how many commits were cloned.
    pub(crate) fn keep(
        self,
        batch: &BatchRef<'_>,
        others: &mut OthersTable,
        heads: &mut Vec<Name>,
        cloned: &mut u64,
    )
        ensures others { others.new ≡ self.others }
        ensures heads { heads.new.items ≡ by_kind (payload_of batch.now).kind self.heads.items heads.old.items }
        ensures cloned { cloned.new ≡ by_kind (payload_of batch.now).kind (payload_of batch.now).cloned cloned.old }
    {
        *others = self.others;
        if batch.kind() != FLUSH {
            *heads = self.heads;
            *cloned = batch.cloned();
        }
    }
}
