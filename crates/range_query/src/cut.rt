//! Places that a walk down went past.

ghost use Rattle.std.specs.Prelude.{◌≡◌, ◌⊎◌, OnOk};
ghost use Rattle.id_groups.specs.Lists.{IsIn};
ghost use Rattle.range_query.specs.declared.cut.Cut.{Cut as PlainCut};

use std::alloc::AllocError;

/// Of so many segments one may leave a cut.
const APART: u32 = 64;

/// An id that a walk down went past, and the least parent of the segments that it visited from there on: each way down from
/// what it found at the id or above it comes to an id from the least to before it. The least is 0 where a way may end above.
#[derive(Clone, Copy)]
pub(crate) struct Cut {
    pub(crate) at: u64,
    pub(crate) least: u64,
}

/// Adds the cut at the segment's place to the others, if it is one that leaves a cut.
#[inline(always)]
pub(crate) fn keep_cut(cuts: &mut Vec<Cut>, place: u32, cut: Cut) -> Result<(), AllocError>
    ensures { OnOk result ((c : PlainCut) → IsIn c cuts.new.items → IsIn c cuts.old.items ⊎ (c ≡ cut)) }
{
    if place % APART == 0 {
        cuts.push(cut)?;
    }
    Ok(())
}
