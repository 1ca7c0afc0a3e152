//! Which part has an id.

ghost use Rattle.std.specs.Prelude.{◌≡◌, List, MatchOption};
ghost use Rattle.name_map.specs.Added.{Placed, FollowInLog};
ghost use Rattle.name_map.specs.Map.{parts_of};
ghost use Rattle.name_map.specs.Found.{BeginAbove, IsPartFor, IsPlaceOf, CountsBelow};

use crate::part::Part;

/// The last part that begins at the number or below it.
pub(crate) fn part_for<'a>(parts: &'a [Part], number: u64) -> Option<&'a Part>
    ensures { (added : List Placed) → FollowInLog 0 added → parts.now ≡ parts_of 0 added → MatchOption result (BeginAbove number added) (λ part. IsPartFor added number part.now) }
{
    let count = parts.partition_point(|part| part.first() <= number);
    if count == 0 {
        return None;
    }
    Some(&parts[count - 1])
}

/// The place in the log of the name of the known id with this number.
pub(crate) fn place_of(parts: &[Part], number: u64) -> Option<u64>
    ensures { (added : List Placed) → FollowInLog 0 added → parts.now ≡ parts_of 0 added → IsPlaceOf added number result }
{
    part_for(parts, number)?.place(number)
}

/// How many known ids are below the number.
pub(crate) fn count_known(parts: &[Part], number: u64) -> u64
    ensures { (added : List Placed) → FollowInLog 0 added → parts.now ≡ parts_of 0 added → CountsBelow added number result }
{
    match part_for(parts, number) {
        None => 0,
        Some(part) => part.count_to(number),
    }
}
