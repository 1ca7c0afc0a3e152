ghost use Rattle.std.specs.Prelude.{IsTrue, ◌↔◌};
ghost use Rattle.disk_memory.specs.Named.{IsPast, IsNamed};

// Which calls are to fail, by their numbers, and the last that may succeed.
#[derive(Drop)]
pub(crate) struct Failing {
    pub(crate) fails: Vec<u64>,
    pub(crate) stop_after: Option<u64>,
}

// Whether a call is behind the last that may succeed.
fn is_past(stop_after: Option<u64>, number: u64) -> bool
    ensures { IsTrue result ↔ IsPast stop_after number }
{
    match stop_after {
        Some(last) => last < number,
        None => false,
    }
}

impl Failing {
    // Whether the call of this number is to fail.
    pub(crate) fn names(&self, number: u64) -> bool
        ensures { IsTrue result ↔ IsNamed self.now number }
    {
        if is_past(self.stop_after, number) {
            return true;
        }
        self.fails.contains(&number)
    }
}
