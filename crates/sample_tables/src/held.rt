//! Ids that a table has, so that they may be asked for.

ghost use Rattle.std.specs.Prelude.{◌≡◌, ℕ, ◌⊎◌, ◌↔◌, OnOk, IfOk, IfSome, IfNone};
ghost use Rattle.id_groups.specs.Lists.{IsIn};
ghost use Rattle.segment_codec.specs.Table.{IsHeld};
ghost use Rattle.span_set.specs.Members.{IsMember};

use id_groups::{Id, IdSpan};
use segment_codec::{SegmentTable, Steps};
use span_set::IdSet;
use std::alloc::{AllocError, Global};

/// The id, where the table has it.
pub fn held_id<T: SegmentTable>(table: &T, id: Id) -> Option<Id>
    ensures some { IfSome result (λ x. (x ≡ id) × IsHeld (T.flats table.now) x) }
    ensures none { IfNone result (¬ (IsHeld (T.flats table.now) id)) }
{
    let mut steps = Steps::new();
    let _segment = table.flat(id, &mut steps)?;
    Some(id)
}

/// Adds the id to the set, where the table has it.
fn add_held<T: SegmentTable>(set: &mut IdSet, table: &T, id: Id) -> Result<(), AllocError>
    ensures { OnOk result ((x : ℕ) → IsMember set.new x ↔ (IsMember set.old x ⊎ ((x ≡ id) × IsHeld (T.flats table.now) x))) }
{
    if let Some(held) = held_id(table, id) {
        set.insert_span(IdSpan::single(held))?;
    }
    Ok(())
}

/// Those of the ids that the table has, as a set.
pub fn held_ids<T: SegmentTable>(alloc: Global, table: &T, ids: &[Id]) -> Result<IdSet, AllocError>
    ensures held { IfOk result (λ r. (x : ℕ) → IsMember r x → IsHeld (T.flats table.now) x) }
    ensures members { IfOk result (λ r. (x : ℕ) → IsMember r x ↔ (IsIn x ids.now × IsHeld (T.flats table.now) x)) }
{
    let mut set = IdSet::empty(alloc);
    'ids: for id in ids {
        add_held(&mut set, table, *id)?;
    }
    Ok(set)
}
