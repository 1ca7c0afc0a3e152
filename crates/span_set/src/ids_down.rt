//! The ids of a set, one after another.

ghost use Rattle.std.specs.Prelude.{◌≡◌, ◌≤◌, ◌^◌, true};
ghost use Rattle.span_set.specs.Members.{are_filled};

use id_groups::{Id, IdSpan};

/// The members of a set from the greatest down, each once.
#[derive(Clone, Copy, Drop)]
pub struct IdsDown<'a> {
    pub(crate) rest: &'a [IdSpan],
    pub(crate) low: u64,
    pub(crate) end: u64,
    ghost filled: { are_filled rest.now ≡ true },
    ghost bound: { end ≤ 2 ^ 57 },
}

impl<'a> Iterator for IdsDown<'a> {
    type Item = Id;

    ghost use Rattle.std.specs.Iterator.{YieldsFirst, item_count};
    ghost use Rattle.span_set.specs.Down.{ids_left};

    ghost next_gives = { YieldsFirst ids_left };

    ghost remaining = { item_count ids_left };

    fn next(&mut self) -> Option<Id> {
        if self.low < self.end {
            self.end -= 1;
            return Some(Id::from_number(self.end));
        }
        if self.rest.is_empty() {
            return None;
        }
        let span = &self.rest[0];
        let high = span.high;
        self.low = span.low.number();
        self.end = high.number();
        self.rest = &self.rest[1..];
        Some(high)
    }
}
