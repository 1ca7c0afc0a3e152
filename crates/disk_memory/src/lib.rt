#![tactic(auto)]

//! A disk in memory that keeps a record of its calls, fails those that it is told to fail, and can crash at each moment
//! that it has reached.

ghost use Rattle.std.specs.Prelude.{ℕ, List};
ghost use Rattle.disk_trait.specs.Images.{IsImage};
ghost use Rattle.disk_memory.specs.Scenes.{Scene};
ghost use Rattle.disk_memory.specs.Chosen.{IsChosen};
ghost use Rattle.disk_memory.specs.declared.crash.Fill.{Fill as Filling};

mod call;
mod crash;
mod device;
mod disk;
mod failing;
mod keeping;
mod view;

pub use crate::crash::{Choice, Fill};
pub use crate::disk::MemoryDisk;

/// The image that is chosen is one that a crash may leave.
pub fn chosen_is_left()
    ensures { (scene : Scene) (fill : Filling) (size : ℕ) (image : List ℕ) → IsChosen scene fill size image → IsImage scene.unsynced image }
{}
