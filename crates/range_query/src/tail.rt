//! The low end of a set that grows downwards.

ghost use Rattle.std.specs.Prelude.{◌≡◌, ℕ, ◌<◌, ◌≤◌, ◌^◌, ◌⊎◌, ◌↔◌, OnOk};
ghost use Rattle.span_set.specs.Members.{IsMember};
ghost use Rattle.range_query.specs.Tails.{HasFallen};

use id_groups::FIRST_OTHER;
use span_set::IdSet;
use std::alloc::AllocError;

/// The ids from `low` to before `end`, which belong to a set and wait beside it for the ids right below them: so the set is
/// asked once for all that stand together.
#[derive(Clone, Copy, Drop)]
pub(crate) struct Tail {
    low: u64,
    end: u64,
    ghost order: { low ≤ end },
    ghost group: { low < 2 ^ 56 → end ≤ 2 ^ 56 },
    ghost bound: { end ≤ 2 ^ 57 },
}

impl Tail {
    /// No ids.
    pub(crate) fn empty() -> Tail
        ensures low { result.low ≡ 0 }
        ensures end { result.end ≡ 0 }
    {
        Tail { low: 0, end: 0 }
    }

    /// Adds the ids from `low` to before `end`, which are of one group, to the set and its tail. It takes constant time,
    /// amortised, where they lie below all that are held.
    #[inline(always)]
    pub(crate) fn add(&mut self, ids: &mut IdSet, low: u64, end: u64) -> Result<(), AllocError>
        requires some { low < end }
        requires group { low < 2 ^ 56 → end ≤ 2 ^ 56 }
        requires bound { end ≤ 2 ^ 57 }
        ensures { OnOk result ((x : ℕ) → HasFallen ids.new self.new.low self.new.end x
            ↔ (HasFallen ids.old self.old.low self.old.end x ⊎ ((low ≤ x) × (x < end)))) }
    {
        if self.low == end && end != FIRST_OTHER {
            self.low = low;
            return Ok(());
        }
        ids.insert_between(self.low, self.end)?;
        self.low = low;
        self.end = end;
        Ok(())
    }

    /// Adds the tail to the set.
    pub(crate) fn put_into(self, ids: &mut IdSet) -> Result<(), AllocError>
        ensures { OnOk result ((x : ℕ) → IsMember ids.new x ↔ HasFallen ids.old self.low self.end x) }
    {
        ids.insert_between(self.low, self.end)
    }
}
