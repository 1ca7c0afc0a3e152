//! A count of look-ups.

ghost use Rattle.std.specs.Prelude.{◌≡◌, ◌+◌, ◌-◌, ◌^◌, min};
ghost use Rattle.segment_codec.specs.Table.{ticked};

/// How many look-ups a query took. The count stays at 2^64 - 1 once it is there. Beside it stands where the last look-up
/// ended, so that a table can begin the next search there: a hint on which no answer depends.
#[derive(Drop)]
pub struct Steps {
    taken: u64,
    near: usize,
}

impl Steps {
    /// No look-up yet.
    pub fn new() -> Steps
        ensures taken { result.taken ≡ 0 }
        ensures near { result.near ≡ 0 }
    {
        Steps { taken: 0, near: 0 }
    }

    /// How many there were.
    pub fn taken(&self) -> u64
        ensures { result ≡ self.now.taken }
    {
        self.taken
    }

    /// One more.
    pub fn tick(&mut self)
        ensures taken { self.new.taken ≡ ticked self.old.taken }
        ensures near { self.new.near ≡ self.old.near }
    {
        self.taken = self.taken.saturating_add(1);
    }

    /// So many more.
    pub fn tick_by(&mut self, count: u8)
        ensures taken { self.new.taken ≡ min (self.old.taken + count) (2 ^ 64 - 1) }
        ensures near { self.new.near ≡ self.old.near }
    {
        self.taken = self.taken.saturating_add(u64::from(count));
    }

    /// Where the last look-up ended, as the table told by `set_near`.
    pub fn near(&self) -> usize
        ensures { result ≡ self.now.near }
    {
        self.near
    }

    /// Keeps where a look-up ended. It counts nothing.
    pub fn set_near(&mut self, near: usize)
        ensures near { self.new.near ≡ near }
        ensures taken { self.new.taken ≡ self.old.taken }
    {
        self.near = near;
    }
}
