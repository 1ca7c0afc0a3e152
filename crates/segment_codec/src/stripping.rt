//! Records that are compared with a segment, of which none is read.

ghost use Rattle.std.specs.Prelude.{◌≡◌, ◌++◌, IfSome};
ghost use Rattle.segment_codec.specs.Record.{segment_bytes, head_bytes};
ghost use Rattle.segment_codec.specs.Lent.{segment_of};

use crate::lent::SegmentRef;
use crate::writing::{count_numbers, flags_for, short_head};

/// What stands before the parents of the segment's record, if the number of its ids and that of its parents take one byte each.
#[inline(always)]
fn short_front(segment: SegmentRef<'_>) -> Option<[u8; 12]>
    ensures { IfSome result (λ front. front ≡ head_bytes (segment_of segment.entry)) }
{
    let span = segment.high - segment.low;
    let count = count_numbers(segment.parents);
    if span >= 128 || count >= 128 {
        return None;
    }
    let flags = flags_for(count);
    Some(short_head(flags, segment.level, segment.high, span, count))
}

/// What stands behind the segment's record, if that stands in front, and the number of its ids and that of its parents take one
/// byte each; `None` also where they take more. No number is read.
pub fn strip_short<'a>(bytes: &'a [u8], segment: SegmentRef<'_>) -> Option<&'a [u8]>
    ensures { IfSome result (λ rest. bytes.now ≡ segment_bytes (segment_of segment.entry) ++ rest.now) }
{
    let front = short_front(segment)?;
    let behind = bytes.strip_prefix(front.as_slice())?;
    behind.strip_prefix(segment.parents)
}
