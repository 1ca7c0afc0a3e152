// Crashes.
ghost use Rattle.std.specs.Prelude.{◌≡◌, ◌≤◌, [], None, IfOk};
ghost use Rattle.disk_trait.specs.Images.{moment_of, fresh_disk, LeftAt};
ghost use Rattle.disk_memory.specs.Scenes.{scene_at};
ghost use Rattle.disk_memory.specs.Tells.{history, tells};
ghost use Rattle.disk_memory.specs.Chosen.{IsChosen};

use crate::disk::MemoryDisk;
use crate::view::View;
use std::alloc::AllocError;

/// What stands where a byte isn't sure after a crash.
#[derive(Clone, Copy, Debug, PartialEq, Eq)]
pub enum Fill {
    /// The byte from before the writes, or 0 where there was none.
    Old,
    /// The byte of the writes, or 0 where there is none.
    New,
    /// That byte.
    Byte(u8),
}

/// One of the lists of bytes that a crash may leave.
#[derive(Clone, Copy, Debug, PartialEq, Eq)]
pub struct Choice {
    /// The value of the clock.
    pub moment: u64,
    /// What stands at each byte that isn't sure.
    pub fill: Fill,
    /// The length in bytes, or else the nearest that is allowed.
    pub size: u64,
}

impl MemoryDisk {
    /// The disk after a crash at the moment that is chosen, with the image that is chosen. No call of it is to fail.
    pub fn crash(&self, choice: &Choice) -> Result<MemoryDisk, AllocError>
        requires { choice.now.moment ≤ moment_of (tells self.now) }
        ensures chosen { IfOk result (λ disk. IsChosen (scene_at (history self.now) choice.now.moment) choice.now.fill choice.now.size (tells disk).bytes) }
        ensures left { IfOk result (λ disk. LeftAt (tells self.now) choice.now.moment (tells disk).bytes) }
        ensures fresh { IfOk result (λ disk. tells disk ≡ fresh_disk (tells disk).bytes) }
        ensures fails { IfOk result (λ disk. disk.failing.fails.items ≡ []) }
        ensures stop_after { IfOk result (λ disk. disk.failing.stop_after ≡ None) }
        ensures faults { IfOk result (λ disk. disk.faults ≡ 0) }
    {
        let image = self.image(choice)?;
        MemoryDisk::new(self.alloc, &image, &[], None)
    }

    // The list of bytes that is chosen.
    fn image(&self, choice: &Choice) -> Result<Vec<u8>, AllocError>
        requires { choice.now.moment ≤ moment_of (tells self.now) }
        ensures { IfOk result (λ image. IsChosen (scene_at (history self.now) choice.now.moment) choice.now.fill choice.now.size image.items) }
    {
        let mut view = View::first(self.alloc, &self.start)?;
        let mut clock = 0;
        'calls: for call in &self.calls {
            let before = clock + 2 * call.idle;
            if choice.moment <= before {
                return view.image(self.alloc, choice.fill, choice.size);
            }
            if call.kind.is_sync() && choice.moment == before + 1 {
                return view.image(self.alloc, choice.fill, choice.size);
            }
            view = view.after(self.alloc, &call.kind)?;
            clock = before + 2;
        }
        view.image(self.alloc, choice.fill, choice.size)
    }
}
