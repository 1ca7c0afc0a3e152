//! Names as bytes, 20 each, one behind another.

ghost use Rattle.std.specs.Prelude.{◌≡◌, ◌≤◌, ◌*◌, ◌%◌, ◌++◌, length, IfOk};
ghost use Rattle.std.specs.List.{concat};
ghost use Rattle.store_queries.specs.Names.{names_left};
ghost use Rattle.segdag_c.specs.Names.{AreJoined};

use dag_store::Names;
use id_groups::{Name, NameRef};
use std::alloc::{AllocError, Global};

/// How many bytes a name has.
pub(crate) const NAME_SIZE: usize = 20;

/// The first name of these bytes, and what stands behind it.
fn first_name(bytes: &[u8]) -> (Name, &[u8])
    requires { 20 ≤ length bytes.now }
    ensures value { bytes.now ≡ result.0 ++ result.1.now }
    ensures twenty { length result.0 ≡ 20 }
{
    let (name, behind) = bytes.split_at(NAME_SIZE);
    (NameRef::over(name).to_name(), behind)
}

/// The names that stand one behind the other in these bytes; what is left behind them is no name.
pub(crate) fn names_in(alloc: Global, bytes: &[u8]) -> Result<Vec<Name>, AllocError>
    ensures few { IfOk result (λ names. length names.items * 20 ≤ length bytes.now) }
    ensures joined { length bytes.now % 20 ≡ 0 → IfOk result (λ names. AreJoined names.items bytes.now) }
{
    let mut names = Vec::new(alloc);
    let mut rest = bytes;
    'names: while rest.len() >= NAME_SIZE {
        let (name, behind) = first_name(rest);
        names.push(name)?;
        rest = behind;
    }
    Ok(names)
}

/// The bytes of names, one behind the other.
pub(crate) fn join(alloc: Global, names: Names<'_>) -> Result<Vec<u8>, AllocError>
    ensures { IfOk result (λ bytes. bytes.items ≡ concat (names_left names.entry)) }
{
    let mut bytes = Vec::new(alloc);
    for name in names {
        bytes.extend_from_slice(name.bytes)?;
    }
    Ok(bytes)
}
