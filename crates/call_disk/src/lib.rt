#![tactic(auto)]

//! Disks that reach no file: their bytes are lent or their own, and what is to be written is noted for who performs it.

ghost use Rattle.std.specs.Prelude.{◌≡◌, ◌⊎◌, ℕ, List};
ghost use Rattle.disk_trait.specs.Images.{Told};
ghost use Rattle.disk_trait.specs.Since.{SureSince};
ghost use Rattle.call_disk.specs.Noted.{Call, Step, calls_in};
ghost use Rattle.call_disk.specs.Performed.{AllFit, AllOrNone, IsAs, MayPerform, Performs, Stops, WasLeft, begun, replayed};

mod copied;
mod disk;
mod lent;
mod noted;
mod owned;
mod still;

pub use crate::disk::{Beneath, NotedDisk};
pub use crate::lent::LentDisk;
pub use crate::noted::{NotedCall, NotedCalls};
pub use crate::owned::OwnedDisk;

/// Where another disk performs the calls that were noted, in order, up to any one, which may fail, it leaves at each moment only what the disk
/// that notes them told that it may leave at some moment; where it performs all, it has what that one told last.
pub fn performing_is_told()
    ensures stopped { (steps : List Step) (idle : ℕ) (old new : Told) → Stops (calls_in steps) old new → SureSince (λ moment. WasLeft (replayed steps idle (begun old))) old new }
    ensures whole { (steps : List Step) (idle : ℕ) (old new : Told) → Performs (calls_in steps) old new
        → let told = replayed steps idle (begun old) in (told.now ≡ new.now) × (told.bytes ≡ new.bytes) }
    ensures within { (steps : List Step) (old : Told) → AllFit steps (begun old) → MayPerform (calls_in steps) old }
{}

/// A disk that performs them all together or not at all leaves at each moment only what the disk that notes them told, as one does that may
/// stop anywhere; and it ends as it was, or has what that one told last. One that performs them one by one, all or none of them, is
/// one that stops somewhere.
pub fn all_or_none_is_told()
    ensures told { (steps : List Step) (idle : ℕ) (old whole new : Told) → AllOrNone (calls_in steps) old whole new → SureSince (λ moment. WasLeft (replayed steps idle (begun old))) old new }
    ensures ends { (steps : List Step) (idle : ℕ) (old whole new : Told) → AllOrNone (calls_in steps) old whole new → IsAs new old ⊎ IsAs (replayed steps idle (begun old)) new }
    ensures stops { (calls : List Call) (old new : Told) → (new ≡ old) ⊎ Performs calls old new → Stops calls old new }
{}
