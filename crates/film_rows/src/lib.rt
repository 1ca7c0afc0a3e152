#![tactic(auto)]

//! A log that another process extends: films of two moments that a reader may meet, and a disk in memory that tells one.

ghost use Rattle.std.specs.Prelude.{◌≡◌, ◌≤◌, ◌<◌, ◌⊎◌, ◌^◌, ◌++◌, ℕ, List, [], ◌∷◌, length, Err, IfOk};
ghost use Rattle.gated_log.specs.Growing.{IsGrowing};
ghost use Rattle.film_rows.specs.Films.{turning, GoOn, one_payload, two_payloads};
ghost use Rattle.film_rows.specs.Tells.{GoesOn};

mod device;
mod disk;
#[cfg(test)]
mod looked;

pub use crate::disk::FilmDisk;
use gated_log::{LoadLog, Log};
use std::alloc::Global;

/// The bytes of a log before a moment, and from then on those of a log of these payloads and more, are a log that grows.
pub fn two_moments_grow()
    ensures { (change from : ℕ) (first later : List ℕ) (payloads behind : List (List ℕ)) → GoOn first later payloads behind
        → IsGrowing (turning change first later) (turning change payloads (payloads ++ behind)) from }
{}

/// A log of one payload, and the same log behind one payload more.
pub fn a_film()
    ensures logs { GoOn one_payload two_payloads ((170 ∷ []) ∷ []) ((187 ∷ []) ∷ []) }
    ensures grows { IsGrowing (turning 1 one_payload two_payloads) (turning 1 ((170 ∷ []) ∷ []) ((170 ∷ []) ∷ (187 ∷ []) ∷ [])) 0 }
{}

/// Looks at the log of a disk that has a log of some payloads, and from a moment on the log of these and more: it has those of one of
/// the two moments. It isn't damaged, but where there are as many more as a reader makes reads at most.
pub fn look(alloc: Global, disk: &mut FilmDisk, limit: u64) -> Result<Log, LoadLog>
    requires { (1 ≤ limit) × (limit ≤ 2 ^ 32) }
    ensures log { (payloads behind : List (List ℕ)) → GoesOn disk.old payloads behind
        → IfOk result (λ log. (log.payloads ≡ payloads) ⊎ (log.payloads ≡ payloads ++ behind)) }
    ensures damaged { (payloads behind : List (List ℕ)) (at : _) → GoesOn disk.old payloads behind → result ≡ Err (LoadLog.Damaged at) → 1000 ≤ length behind }
    ensures too_large { (payloads behind : List (List ℕ)) (size : _) → GoesOn disk.old payloads behind → result ≡ Err (LoadLog.TooLarge size) → (limit < size) × ((size ≡ length disk.old.first.items) ⊎ (size ≡ length disk.old.later.items)) }
{
    Log::peek(alloc, disk, limit)
}

/// Loads the log of such a disk, which had two bytes before: the same.
pub fn load(alloc: Global, disk: &mut FilmDisk, limit: u64) -> Result<Log, LoadLog>
    requires { (1 ≤ limit) × (limit ≤ 2 ^ 32) }
    ensures log { (payloads behind : List (List ℕ)) → GoesOn disk.old payloads behind → 2 ≤ length disk.old.first.items
        → IfOk result (λ log. (log.payloads ≡ payloads) ⊎ (log.payloads ≡ payloads ++ behind)) }
    ensures damaged { (payloads behind : List (List ℕ)) (at : _) → GoesOn disk.old payloads behind → 2 ≤ length disk.old.first.items → result ≡ Err (LoadLog.Damaged at) → 1000 ≤ length behind }
{
    Log::load(alloc, disk, limit)
}
