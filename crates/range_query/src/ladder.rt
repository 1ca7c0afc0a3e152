//! On which level a walk down tries the next id.

ghost use Rattle.std.specs.Prelude.{◌≡◌, ◌+◌, ◌<◌, ◌≤◌, false, IsTrue};

use id_groups::Id;

/// For so many flat segments at first a walk tries no level where the last one that it tried led over few ids.
const LEAST_PAUSE: u32 = 8;

/// For no more than so many segments.
const MOST_PAUSE: u32 = 1024;

/// No segment is of a higher level.
pub(crate) const HIGHEST_LEVEL: usize = 7;

/// The level on which a walk down tries the next id, and for each level the lowest id of the segment that it went into
/// last: down to there no other segment of the level ends. It goes up to `top`, one above the highest level on which it
/// found a segment. Where segments of higher levels lead over few ids it tries none for a while, and goes by the places of
/// flat ones; where there are no levels it never tries one. All of this only saves look-ups in vain.
#[derive(Clone, Copy, Drop)]
pub(crate) struct Ladder {
    level: usize,
    top: usize,
    most: usize,
    lows: [u64; 8],
    pause: u32,
    next_pause: u32,
    place: u32,
    worth: u64,
    floor: u64,
    ghost within: { level ≤ top },
    ghost bound: { top ≤ most },
    ghost end: { most < 8 },
}

impl Ladder {
    /// Where a walk down to the id `floor` begins. No segment is of a higher level than `most`. A level is worth its look-up
    /// where it leads over so many ids.
    pub(crate) fn new(most: usize, worth: u64, floor: u64) -> Ladder
        requires { most < 8 }
    {
        Ladder {
            level: 0,
            top: most.min(1),
            most,
            lows: [u64::MAX; 8],
            pause: if most == 0 { u32::MAX } else { 0 },
            next_pause: LEAST_PAUSE,
            place: u32::MAX,
            worth,
            floor,
        }
    }

    /// The id at which the walk ends.
    #[inline(always)]
    pub(crate) fn floor(&self) -> u64 {
        self.floor
    }

    /// The level.
    #[inline(always)]
    pub(crate) fn level(&self) -> u8
        ensures within { result < 8 }
        ensures same { result ≡ self.now.level }
    {
        self.level as u8
    }

    /// Goes up to the highest level on which a segment may end at the id.
    #[inline(always)]
    pub(crate) fn climb(&mut self, id: Id) {
        'up: while self.level < self.top && id.number() < self.lows[self.level + 1] {
            self.level += 1;
        }
    }

    /// Goes up where a segment was found on the highest level that was tried: whether it did.
    #[inline(always)]
    pub(crate) fn rise(&mut self) -> bool
        ensures rises { IsTrue result → (self.new.top ≡ self.old.top + 1) × (self.new.level ≡ self.old.level + 1) × (self.new.top < 8) }
        ensures stays { result ≡ false → (self.new.top ≡ self.old.top) × (self.new.level ≡ self.old.level) }
    {
        if self.level < self.top || self.top == self.most {
            return false;
        }
        self.top += 1;
        self.level += 1;
        true
    }

    /// Goes down by one level, as no segment of this one ends at the id.
    #[inline(always)]
    pub(crate) fn go_down(&mut self)
        requires { 0 < self.old.level }
        ensures level { self.new.level + 1 ≡ self.old.level }
        ensures top { self.new.top ≡ self.old.top }
    {
        self.level -= 1;
    }

    /// Goes into the segment of this level that begins at the id.
    #[inline(always)]
    pub(crate) fn go_into(&mut self, low: u64)
        requires { 0 < self.old.level }
        ensures level { self.new.level + 1 ≡ self.old.level }
        ensures top { self.new.top ≡ self.old.top }
    {
        self.lows[self.level] = low;
        self.level -= 1;
    }

    /// For how many flat segments no level is to be tried.
    #[inline(always)]
    pub(crate) fn pause(&self) -> u32 {
        self.pause
    }

    /// The place where the flat segment that has the next id is expected.
    #[inline(always)]
    pub(crate) fn place(&self) -> u32 {
        self.place
    }

    /// Notes that the next flat segment is expected at the place.
    #[inline(always)]
    pub(crate) fn expect_at(&mut self, place: u32) {
        self.place = place;
    }

    /// Notes the same, and for how many flat segments no level is to be tried.
    #[inline(always)]
    pub(crate) fn go_on_at(&mut self, place: u32, pause: u32) {
        self.place = place;
        self.pause = pause;
    }

    /// Notes over how many ids a level led. Each time that these were few makes the next pause twice as long.
    pub(crate) fn note(&mut self, ids: u64) {
        if ids >= self.worth {
            self.next_pause = LEAST_PAUSE;
            return;
        }
        self.pause = self.next_pause;
        self.next_pause = self.next_pause.saturating_mul(2).min(MOST_PAUSE);
    }
}
