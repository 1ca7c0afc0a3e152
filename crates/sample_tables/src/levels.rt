//! A table of the master group with its levels, grown from a log whose records are added some at a time.

ghost use Rattle.std.specs.Prelude.{◌≡◌, ◌≤◌, IfOk};

mod grow;

use flat_segments::{FlatFault, FlatTable, FlatView};
use grow::{Tables, add_records};
use high_segments::{LevelCounts, Levels, View};
use segment_codec::Edges;
use std::alloc::Global;
use std::marker::Model;

/// As many records as a sample may have, and a thousand more.
const MOST_RECORDS: u32 = 1 << 30;

/// A log of records, of which those in front were added to a table with levels. A second table is extended first: whether the
/// records may be added is known of it.
#[derive(Drop)]
pub struct LevelSample {
    log: Vec<u8>,
    tables: Tables,
    most: u32,
    done: usize,
    is_rehearsed: bool,
}

impl Model for LevelSample {
    ghost use Rattle.sample_tables.specs.Grown.{Grown, IsGrown};

    ghost Value = { Grown };

    ghost view = { λ s. record { log = s.log.items; table = s.tables.table; probe = s.tables.probe; levels = s.tables.levels; most = s.most } };

    ghost invariant = { λ s. IsGrown s.log.items s.tables.table s.tables.probe s.tables.levels s.most };
}

impl LevelSample {
    /// The log of which nothing was added yet. Where it is rehearsed, each change of the levels is made, taken back, and made
    /// again.
    pub fn over(alloc: Global, log: Vec<u8>, is_rehearsed: bool) -> LevelSample
        ensures { result.log ≡ log.items }
    {
        LevelSample {
            log,
            tables: Tables {
                table: FlatTable::empty(alloc),
                probe: FlatTable::empty(alloc),
                levels: Levels::empty(alloc),
            },
            most: 0,
            done: 0,
            is_rehearsed,
        }
    }

    /// Adds the next bytes of the log, so many, where they are records, a thousand at most.
    pub fn add(self, len: usize) -> Result<LevelSample, FlatFault>
        ensures { IfOk result (λ sample. sample.log ≡ self.log) }
    {
        let LevelSample {
            log,
            mut tables,
            most,
            done,
            is_rehearsed,
        } = self;
        if most > MOST_RECORDS {
            return Err(FlatFault::Memory);
        }
        add_records(&log, &mut tables, done, len, most, is_rehearsed)?;
        Ok(LevelSample {
            log,
            tables,
            most: most + 1000,
            done: done.saturating_add(len),
            is_rehearsed,
        })
    }

    /// How many commits were added.
    pub fn count(&self) -> u64
        ensures { result ≡ self.now.table.end }
    {
        self.tables.table.count()
    }

    /// The commits below a count, without levels.
    pub fn flat<'a>(&'a self, below: u64) -> FlatView<'a>
        requires { below ≤ self.now.table.end }
    {
        self.tables.table.view(&self.log, below)
    }

    /// The commits below a count, with levels.
    pub fn view<'a>(&'a self, below: u64) -> View<'a>
        requires { below ≤ self.now.table.end }
    {
        let flat = self.tables.table.view(&self.log, below);
        View::new(flat, &self.tables.levels, Edges::none())
    }

    /// How many segments there are on each level.
    pub fn counts(&self) -> LevelCounts {
        self.tables.levels.counts()
    }

    /// How many bytes the levels take.
    pub fn memory(&self) -> u64 {
        self.tables.levels.memory()
    }
}
