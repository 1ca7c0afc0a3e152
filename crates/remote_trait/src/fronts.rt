//! Names no two of which begin with the same bytes.

ghost use Rattle.std.specs.Prelude.{◌≡◌, length, map, IfOk, IsTrue};
ghost use Rattle.std.specs.List.Sorted.{IsStrictlyIncreasing};
ghost use Rattle.id_groups.specs.Lists.{AreDistinct};
ghost use Rattle.remote_trait.specs.Fronts.{front_of as first_bytes};

use crate::clone::KnownName;
use id_groups::Name;
use std::alloc::{AllocError, Global};

/// The first eight bytes of a name as a number.
fn front_of(name: &Name) -> u64
    ensures { result ≡ first_bytes name.now }
{
    match name.lend().bytes.split_first_chunk::<8>() {
        Some((front, _rest)) => u64::from_be_bytes(*front),
        None => 0,
    }
}

/// The first eight bytes of each name.
fn fronts_of(alloc: Global, names: &[KnownName]) -> Result<Vec<u64>, AllocError>
    ensures { IfOk result (λ fronts. fronts.items ≡ map (λ k. first_bytes k.name) names.now) }
{
    let mut fronts = Vec::with_capacity(alloc, names.len())?;
    'names: for k in 0..names.len() {
        let known = &names[k];
        fronts.push(front_of(&known.name))?;
    }
    Ok(fronts)
}

/// Whether each number is above the one before it.
fn rise(numbers: &[u64]) -> bool
    ensures { IsTrue result → IsStrictlyIncreasing numbers.now }
{
    'numbers: for k in 1..numbers.len() {
        if numbers[k] <= numbers[k - 1] {
            return false;
        }
    }
    true
}

/// Whether no two names begin with the same eight bytes, so that no name is there twice.
pub(crate) fn have_own_fronts(alloc: Global, names: &[KnownName]) -> Result<bool, AllocError>
    ensures { IfOk result (λ own. IsTrue own → AreDistinct (map (λ k. k.name) names.now)) }
{
    let mut fronts = fronts_of(alloc, names)?;
    fronts.sort_unstable();
    Ok(rise(&fronts))
}
