//! That disk.

ghost use Rattle.std.specs.Prelude.{◌≡◌, ◌≤◌, length};

/// A disk in memory that has other bytes from a moment on, which aren't fewer. Each of its calls takes a moment: a read sees so many
/// bytes at the moment when it begins, and the others at the next one. What is written to it is let go.
#[derive(Drop)]
pub struct FilmDisk {
    pub(crate) first: Vec<u8>,
    pub(crate) later: Vec<u8>,
    pub(crate) change: u64,
    pub(crate) split: usize,
    pub(crate) moment: u64,
    ghost longer: { length first.items ≤ length later.items },
}

impl FilmDisk {
    /// One with these bytes before that moment, and the later ones from then on.
    pub fn new(first: Vec<u8>, later: Vec<u8>, change: u64, split: usize) -> FilmDisk
        requires { length first.items ≤ length later.items }
        ensures first { result.first ≡ first }
        ensures later { result.later ≡ later }
        ensures change { result.change ≡ change }
        ensures split { result.split ≡ split }
        ensures moment { result.moment ≡ 0 }
    {
        FilmDisk {
            first,
            later,
            change,
            split,
            moment: 0,
        }
    }
}
