//! Places that are drawn.

ghost use Rattle.std.specs.Prelude.{◌<◌};

use id_groups::Id;

/// How far two drawn commits lie apart.
#[derive(Clone, Copy)]
pub enum Apart {
    /// By at most 200.
    Near,
    /// One is of the first tenth, the other of the last.
    Far,
    /// Anywhere.
    Anywhere,
}

/// Draws numbers.
#[derive(Drop)]
pub struct Draws {
    state: u64,
}

impl Draws {
    /// From the start.
    pub fn new() -> Draws {
        Draws { state: 7 }
    }

    /// A number below the bound, or 0 where that is 0.
    pub fn below(&mut self, bound: u64) -> u64 {
        self.state = self
            .state
            .wrapping_mul(6364136223846793005)
            .wrapping_add(1442695040888963407);
        (self.state >> 33) % bound.max(1)
    }

    /// The id of one of so many commits.
    pub fn id(&mut self, count: u64) -> Id {
        Id::master(self.below(count) % (1 << 32))
    }

    /// Two of so many commits, the later first.
    pub fn pair(&mut self, count: u64, apart: Apart) -> (Id, Id) {
        let tenth = count / 10;
        let (later, earlier) = match apart {
            Apart::Near => {
                let later = self.below(count);
                let back = self.below(200);
                (later, later.saturating_sub(back))
            }
            Apart::Far => (
                count.saturating_sub(1).saturating_sub(self.below(tenth)),
                self.below(tenth),
            ),
            Apart::Anywhere => {
                let one = self.below(count);
                let other = self.below(count);
                (one.max(other), one.min(other))
            }
        };
        (
            Id::master(later % (1 << 32)),
            Id::master(earlier % (1 << 32)),
        )
    }
}
