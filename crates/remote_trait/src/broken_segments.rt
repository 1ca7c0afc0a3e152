//! Which segment of clone data may not stand where it stands.

ghost use Rattle.std.specs.Prelude.{◌≡◌, ◌+◌, nat_lt};
ghost use Rattle.std.specs.List.{list_all};
ghost use Rattle.segment_codec.specs.Reading.{are_distinct as are_distinct_numbers};
ghost use Rattle.segment_codec.specs.Turns.{is_only, place_behind};
ghost use Rattle.remote_rules.specs.CloneData.{first_false, segment_fits, segments_fit};

use crate::clone::CloneSegment;

/// The number of the first segment that may not stand behind those before it, the first of which has the number 0 and begins with id 0.
pub(crate) fn first_bad_segment(segments: &[CloneSegment]) -> Option<usize>
    ensures { result ≡ first_false 0 (segments_fit 0 segments.now) }
{
    let mut place = 0;
    'segments: for k in 0..segments.len() {
        let segment = &segments[k];
        if !fits(segment, place) {
            return Some(k);
        }
        place = end_of(segment);
    }
    None
}

/// The place behind the last segment; the first id where there is none.
pub(crate) fn end_of_all(segments: &[CloneSegment]) -> u128
    ensures { result ≡ place_behind 0 segments.now }
{
    match segments.last() {
        Some(segment) => end_of(segment),
        None => 0,
    }
}

/// The place behind a segment.
fn end_of(segment: &CloneSegment) -> u128
    ensures { result ≡ segment.now.high + 1 }
{
    u128::from(segment.high) + 1
}

/// Whether the segment may stand at this place: it begins there, its lowest id is at most its highest, its parents are distinct and
/// below it, and it doesn't go on from the id before it.
fn fits(segment: &CloneSegment, place: u128) -> bool
    ensures { result ≡ segment_fits place segment.now }
{
    let parents = segment.parents.numbers();
    u128::from(segment.low) == place
        && segment.low <= segment.high
        && are_distinct(parents)
        && are_below(parents, segment.low)
        && !is_one(parents, segment.low.saturating_sub(1))
}

/// Whether each number is below the bound.
fn are_below(numbers: &[u64], bound: u64) -> bool
    ensures { result ≡ list_all (λ p. nat_lt p bound) numbers.now }
{
    numbers.iter().all(|number| *number < bound)
}

/// Whether the list is the one number.
fn is_one(numbers: &[u64], number: u64) -> bool
    ensures { result ≡ is_only number numbers.now }
{
    match numbers {
        [only] => *only == number,
        _ => false,
    }
}

/// Whether no number stands in the list twice.
fn are_distinct(numbers: &[u64]) -> bool
    ensures { result ≡ are_distinct_numbers numbers.now }
{
    'numbers: for k in 0..numbers.len() {
        let number = numbers[k];
        let (_, rest) = numbers.split_at(k + 1);
        if rest.contains(&number) {
            return false;
        }
    }
    true
}
