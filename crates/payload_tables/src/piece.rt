//! Parts of lists: a name among names that stand one after another, and lists copied.

ghost use Rattle.std.specs.Prelude.{◌≡◌, ◌≤◌, ◌+◌, take, drop, length, IfOk};

use id_groups::NameRef;
use std::alloc::{AllocError, Global};

/// 20 bytes at a place.
pub(crate) fn piece<'a>(bytes: &'a [u8], at: usize) -> NameRef<'a>
    requires { at + 20 ≤ length bytes.now }
    ensures { result.bytes.now ≡ take 20 (drop at bytes.now) }
{
    let (_, rest) = bytes.split_at(at);
    let (name, _) = rest.split_at(20);
    NameRef::over(name)
}

/// These items once more.
pub(crate) fn copied<T: Copy>(alloc: Global, items: &[T]) -> Result<Vec<T>, AllocError>
    ensures { IfOk result (λ copy. copy.items ≡ items.now) }
{
    let mut copy = Vec::with_capacity(alloc, items.len())?;
    copy.extend_from_slice(items)?;
    Ok(copy)
}
