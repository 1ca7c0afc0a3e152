//! How many segments the levels have.

ghost use Rattle.std.specs.Prelude.{◌≡◌, ◌<◌, ◌^◌, ◌++◌, List, [], ◌∷◌, length, slice_get, Some};
ghost use Rattle.segment_codec.specs.Record.{Segment};
ghost use Rattle.segment_levels.specs.Kept.{AreLevelsOf};
ghost use Rattle.segment_rules.specs.Levels.{level_counts};

use crate::kept::KeptLevel;
use crate::levels::Levels;
use std::marker::Model;

/// The number of flat segments and of those on each level above, up to the last that has some. Contracts see the list.
#[derive(Drop)]
pub struct LevelCounts {
    counts: [u32; 8],
    len: u32,
}

impl Model for LevelCounts {
    ghost use Rattle.std.specs.Prelude.{◌≡◌, ◌≤◌, ℕ, List, length, take};

    ghost Value = { List ℕ };

    ghost view = { λ c. take c.len c.counts };

    ghost invariant = { λ c. c.len ≤ 8 };
}

impl LevelCounts {
    /// How many numbers there are.
    pub fn len(&self) -> u32
        ensures { result ≡ length self.now }
    {
        self.len
    }

    /// The number at place `k`.
    pub fn at(&self, k: u32) -> u32
        requires { k < length self.now }
        ensures { slice_get self.now k ≡ Some result }
    {
        self.counts[k as usize]
    }

    fn single(first: u32) -> LevelCounts
        ensures { result ≡ first ∷ [] }
    {
        LevelCounts {
            counts: [first, 0, 0, 0, 0, 0, 0, 0],
            len: 1,
        }
    }

    /// Adds a number, where there are fewer than eight.
    fn push(&mut self, count: u32)
        ensures { length self.old < 8 → self.new ≡ self.old ++ count ∷ [] }
    {
        if self.len < 8 {
            self.counts[self.len as usize] = count;
            self.len += 1;
        }
    }
}

/// How many segments the level has, where so many can be counted.
fn count_of(level: &KeptLevel) -> u32
    ensures { level.now.count < 2 ^ 32 → result ≡ level.now.count }
{
    let count = level.count();
    if count < 1 << 32 {
        return count as u32;
    }
    0
}

impl Levels {
    /// How many segments there are on each level.
    pub fn counts(&self) -> LevelCounts
        ensures { (flats : List Segment) → AreLevelsOf self.now flats → result ≡ level_counts flats }
    {
        let mut counts = LevelCounts::single(self.flat_count());
        let mut rest = self.lend();
        'levels: while let Some((level, others)) = rest.split_first() {
            let count = count_of(level);
            if count == 0 {
                return counts;
            }
            counts.push(count);
            rest = others;
        }
        counts
    }
}
