//! How a case is run: words of a kind and a number with a stroke between, behind ` with: ` in its line.

ghost use Rattle.std.specs.Prelude.{◌<◌};
ghost use Rattle.change_rules.specs.Standard.{AreLimits};

use crate::told::{halves, number};
use dag_run::Limits;

/// Limits; how many bytes of lines come at once; for how many names that mirrors gave there is room; which calls fail, 0 for none; behind
/// how many calls the disk stops; and how many bytes the log has behind the change whose crashes are tried, 0 where none are.
#[derive(Clone, Copy)]
pub struct Setting {
    pending: u64,
    others: u64,
    master: u64,
    log: u64,
    answer: u64,
    input: u64,
    piece: u64,
    cache: u64,
    pub source: u64,
    pub sink: u64,
    pub fails: u64,
    stops: u64,
    pub crashes: u64,
}

/// The standard limits, and nothing that fails.
const STANDARD: Setting = Setting {
    pending: 1 << 16,
    others: 1 << 16,
    master: 1 << 24,
    log: 1 << 30,
    answer: 1 << 20,
    input: 1 << 30,
    piece: 1 << 16,
    cache: 1 << 12,
    source: 0,
    sink: 0,
    fails: 0,
    stops: u64::MAX,
    crashes: 0,
};

impl Setting {
    /// The limits, each of which is one that a run may have.
    pub fn limits(&self) -> Limits
        ensures { AreLimits result }
    {
        Limits {
            pending: self.pending.clamp(1, 65_536) as u32,
            others: self.others.clamp(1, 65_536) as u32,
            master: self.master.clamp(1, 16_777_216) as u32,
            log: self.log.clamp(98, 1 << 30),
            answer: self.answer.clamp(1, 1_048_576) as u32,
            input: self.input.clamp(1, 1 << 30),
        }
    }

    /// How many bytes of lines come at once.
    pub fn piece(&self) -> u32
        ensures { 0 < result }
    {
        self.piece.clamp(1, 65_536) as u32
    }

    /// For how many names there is room.
    pub fn cache(&self) -> u32
        ensures { 0 < result }
    {
        self.cache.clamp(1, 65_536) as u32
    }

    /// Behind how many calls the disk stops, if it does.
    pub fn stop(&self) -> Option<u64> {
        (self.stops < u64::MAX).then_some(self.stops)
    }

    /// From which moment on crashes are tried of a disk with this clock: of one that fails or stops its last three, as those before are
    /// tried where it stops earlier.
    pub fn first_moment(&self, clock: u64) -> u64 {
        if self.fails == 0 && self.stops == u64::MAX {
            0
        } else {
            clock.saturating_sub(2)
        }
    }

    /// The same with a limit of this kind, if it is one.
    fn limited(self, kind: &str, number: u64) -> Setting {
        let mut next = self;
        match kind {
            "pending" => next.pending = number,
            "others" => next.others = number,
            "master" => next.master = number,
            "log" => next.log = number,
            "answer" => next.answer = number,
            "input" => next.input = number,
            _ => {}
        }
        next
    }

    /// The same with what is of this kind, if it isn't a limit.
    fn set(self, kind: &str, number: u64) -> Setting {
        let mut next = self;
        match kind {
            "piece" => next.piece = number,
            "cache" => next.cache = number,
            "source" => next.source = number,
            "sink" => next.sink = number,
            "fails" => next.fails = number,
            "stops" => next.stops = number,
            "crashes" => next.crashes = number,
            _ => {}
        }
        next
    }

    /// The same with what this word says.
    fn with(self, word: &str) -> Setting {
        let (kind, digits) = halves(word, '/');
        let number = number(digits);
        self.limited(kind, number).set(kind, number)
    }
}

/// What the words behind ` with: ` say; other words there are of mirrors, and say nothing.
pub fn setting_of(title: &str) -> Setting {
    let mut setting = STANDARD;
    if let Some((_, words)) = title.split_once(" with: ") {
        for word in words.split_whitespace() {
            setting = setting.with(word);
        }
    }
    setting
}
