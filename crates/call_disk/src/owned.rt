//! The disk that has bytes of its own.

ghost use Rattle.std.specs.Prelude.{◌≤◌, ◌^◌};
ghost use Rattle.disk_trait.specs.Images.{IsSound};
ghost use Rattle.call_disk.specs.Owned.{told_behind};

/// A disk that has these bytes, whatever becomes of those that they were copied from, or one that isn't there, whose calls fail. It
/// can't be written.
#[derive(Drop)]
pub struct OwnedDisk {
    pub(crate) bytes: Vec<u8>,
    pub(crate) is_there: bool,
    pub(crate) calls: u64,
    pub(crate) faults: u64,
    pub(crate) ghost few: { calls ≤ 2 ^ 61 },
    pub(crate) ghost sound: { IsSound (told_behind bytes.items calls) },
}
