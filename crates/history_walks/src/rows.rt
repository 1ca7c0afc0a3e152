//! The parents of an id, in their order.

ghost use Rattle.std.specs.Prelude.{◌≡◌, ◌-◌, ◌≤◌, ◌^◌, min};
ghost use Rattle.segment_codec.specs.Table.{IsHeld, parents_at};
ghost use Rattle.history_walks.specs.InOrder.{in_order};

use id_groups::Id;
use segment_codec::{Parents, SegmentTable, Steps};

/// The parents of one id: the id before it, or those of its segment where it is the lowest of it.
#[derive(Clone, Copy, Drop)]
pub struct InOrder<'a> {
    before: Option<Id>,
    lowest: Option<Parents<'a>>,
}

impl<'a> Iterator for InOrder<'a> {
    type Item = Id;

    ghost use Rattle.std.specs.Iterator.{YieldsFirst, item_count};
    ghost use Rattle.history_walks.specs.InOrder.{in_order};

    ghost next_gives = { YieldsFirst in_order };

    ghost remaining = { item_count in_order };

    fn next(&mut self) -> Option<Id> {
        if let Some(id) = self.before {
            self.before = None;
            return Some(id);
        }
        let mut rest = self.lowest?;
        let id = rest.next()?;
        self.lowest = Some(rest);
        Some(id)
    }
}

/// The parents of an id of the table, in their order, by one look-up.
pub fn parents_in_order<'a, T: SegmentTable>(table: &'a T, id: Id, steps: &mut Steps) -> InOrder<'a>
    requires { IsHeld (T.flats table.now) id }
    ensures parents { in_order result ≡ parents_at (T.flats table.now) id }
    ensures counted { min steps.old.taken (2 ^ 64 - 1) ≤ steps.new.taken }
{
    let segment = table.flat(id, steps).unwrap();
    let number = id.number();
    if segment.low().number() < number {
        return InOrder {
            before: Some(Id::from_number(number - 1)),
            lowest: None,
        };
    }
    InOrder {
        before: None,
        lowest: Some(segment.parents()),
    }
}
