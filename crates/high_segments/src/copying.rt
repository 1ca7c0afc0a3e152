//! Levels that are copied.

ghost use Rattle.std.specs.Prelude.{◌≡◌, length, OnOk};

use crate::kept::KeptLevel;
use std::alloc::{AllocError, Global};

/// Copies each level over the one at its place. There are as many.
pub(crate) fn copy_all(
    alloc: Global,
    levels: &[KeptLevel],
    copies: &mut [KeptLevel],
) -> Result<(), AllocError>
    requires { length copies.old ≡ length levels.now }
    ensures { OnOk result (copies.new ≡ levels.now) }
{
    let Some((level, others)) = levels.split_first() else {
        return Ok(());
    };
    let Some((copy, later)) = copies.split_first_mut() else {
        return Ok(());
    };
    *copy = level.copy(alloc)?;
    copy_all(alloc, others, later)
}
