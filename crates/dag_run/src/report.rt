//! How a run ended.

ghost use Rattle.std.specs.Prelude.{◌≡◌, ◌<◌, [], length, slice_get, Some};

use std::alloc::Global;
use std::marker::Model;

/// Moments of the log's clock: one for each stored change, when it was acknowledged.
#[derive(Drop)]
pub struct Moments {
    moments: Vec<u64>,
}

impl Model for Moments {
    ghost use Rattle.std.specs.Prelude.{List, ℕ};

    ghost Value = { List ℕ };

    ghost view = { λ m. m.moments.items };
}

impl Moments {
    /// The list of these moments.
    pub(crate) fn of(moments: Vec<u64>) -> Moments
        ensures { result ≡ moments.items }
    {
        Moments { moments }
    }

    /// How many there are.
    pub fn len(&self) -> usize
        ensures { result ≡ length self.now }
    {
        self.moments.len()
    }

    /// The moment at this place.
    pub fn at(&self, i: usize) -> u64
        requires { i < length self.now }
        ensures { slice_get self.now i ≡ Some result }
    {
        self.moments[i]
    }
}

/// The status that the program ends with, and the moments of its stored changes.
#[derive(Drop)]
pub struct Report {
    /// 0: the input was read to its end and all replies were written; or the bundle was put, or the log was written anew and its line put.
    /// 2: the words aren't a usage. 3: the log's disk failed. 4: its bytes are no log. 5: the source failed. 6: the sink failed, in writing
    /// a log anew after that was done. 7: want of memory before the first line, or in a demonstration, or before the first frame, or before
    /// a bundle is put, or before a log is written anew. 8: the input is longer than its limit. 10: a commit of master has no stored name,
    /// for a bundle. 11: the mirrors aren't one, for serving. 12: a frame's length is 0 or too long, or the input ends within a frame. 13:
    /// the spare disk failed, in writing a log anew. 14: the spare disk's bytes are no log, or have a batch. 15: what is to be written
    /// anew is too long for the log's limit.
    pub status: u8,
    /// One moment for each stored change.
    pub changes: Moments,
}

impl Report {
    /// A program that ended with this status, and stored nothing.
    pub(crate) fn idle(alloc: Global, status: u8) -> Report
        ensures status { result.status ≡ status }
        ensures changes { result.changes ≡ [] }
    {
        Report {
            status,
            changes: Moments::of(Vec::new(alloc)),
        }
    }
}
