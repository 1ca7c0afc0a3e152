//! A search for a name among entries that ascend.

ghost use Rattle.std.specs.Prelude.{◌≡◌, ◌<◌, ◌≤◌, ◌∷◌, length};
ghost use Rattle.std.specs.List.Sorted.{IsBinarySearchResult, IsSearchInRange};
ghost use Rattle.std.specs.Ordering.{nat_cmp};
ghost use Rattle.std.specs.Cmp.Lexicographic.{slice_cmp};
ghost use Rattle.name_index.specs.Runs.{key_in};
ghost use Rattle.name_index.specs.declared.entry.Entry.{Entry as PlainEntry};

use crate::entry::{Entry, Stretch, compare_to};
use std::cmp::Ordering;

/// After so many guesses a search goes on by halves.
const GUESSES: u32 = 12;

/// How many of so many entries have fronts within the distance, where fronts are spread evenly as hashes are. It is a
/// guess: no clause asks anything of it.
#[inline]
pub(crate) fn count_within(distance: u64, len: usize) -> usize {
    ((distance >> 32).wrapping_mul(len as u64) >> 32) as usize
}

/// A place from `low` to before `high`: the nearest one to the guess, or the middle where no guesses are left.
#[inline]
fn probe(low: usize, high: usize, guess: usize, guesses: u32) -> usize
    requires { low < high }
    ensures low { low ≤ result }
    ensures high { result < high }
{
    if guesses == 0 {
        low + (high - low) / 2
    } else if guess < low {
        low
    } else if guess < high {
        guess
    } else {
        high - 1
    }
}

/// The place of the entry with this name, whose front is given; else the place between those that are less and those that
/// are greater. Fronts are spread evenly, so they tell about where the entry stands: the first guess lies some hundreds of
/// places off in a million, each further one closer. Where the guesses fail, it goes on by halves.
pub(crate) fn place_of(
    stretch: &Stretch<'_>,
    entries: &[Entry],
    front: u64,
    name: &[u8],
) -> Result<usize, usize>
    ensures bound { IsSearchInRange result (length entries.now) }
    ensures position { IsBinarySearchResult (λ (e : PlainEntry). slice_cmp nat_cmp (key_in stretch.now.bytes.now stretch.now.at e) (front ∷ name.now)) entries.now result }
{
    let len = entries.len();
    let mut low = 0;
    let mut high = len;
    let mut guess = count_within(front, len);
    let mut guesses = GUESSES;
    'search: while low < high {
        let at = probe(low, high, guess, guesses);
        guesses = guesses.saturating_sub(1);
        let entry = entries[at];
        match compare_to(stretch, entry, front, name) {
            Ordering::Equal => return Ok(at),
            Ordering::Less => {
                low = at + 1;
                let more = count_within(front.wrapping_sub(entry.front), len);
                guess = low.saturating_add(more);
            }
            Ordering::Greater => {
                high = at;
                let fewer = count_within(entry.front.wrapping_sub(front), len);
                guess = at.saturating_sub(fewer.saturating_add(1));
            }
        }
    }
    Err(low)
}
