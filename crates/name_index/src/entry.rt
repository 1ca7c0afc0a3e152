//! What an index keeps of a name, and how names are read from lent bytes.

ghost use Rattle.std.specs.Prelude.{◌≡◌, ◌∷◌};
ghost use Rattle.std.specs.Ordering.{nat_cmp};
ghost use Rattle.std.specs.Cmp.Lexicographic.{slice_cmp};
ghost use Rattle.name_index.specs.Runs.{front_of, leading, mixed, name_in, key_in};

use std::cmp::Ordering;

/// How many bytes a name has.
pub(crate) const NAME_BYTES: usize = 20;

/// What a number is multiplied by before the next is added. It is odd, so no two numbers become one, and its digits have no
/// pattern, so numbers that are near come to lie far from one another.
const SPREAD: u64 = 0x9e37_79b9_7f4a_7c15;

/// A name's bytes mixed into a number, and its place.
#[derive(Clone, Copy)]
pub struct Entry {
    pub(crate) front: u64,
    pub(crate) place: u64,
}

/// Bytes that stand, or will stand, at the place `at`.
#[derive(Clone, Copy)]
pub(crate) struct Stretch<'a> {
    pub(crate) bytes: &'a [u8],
    pub(crate) at: u64,
}

/// The first eight bytes as a number; 0 where there are fewer.
#[inline]
fn leading(bytes: &[u8]) -> u64
    ensures { result ≡ leading bytes.now }
{
    match bytes.split_first_chunk::<8>() {
        Some((front, _rest)) => u64::from_be_bytes(*front),
        None => 0,
    }
}

/// A number spread, and another one added.
#[inline]
#[tactic(auto, unfolding(crate::specs::Runs::mixed))]
fn mixed(number: u64, added: u64) -> u64
    ensures { result ≡ mixed number added }
{
    number.wrapping_mul(SPREAD).wrapping_add(added)
}

/// All bytes of a name mixed into a number, by which most comparisons are decided: the first eight are added to the others,
/// which are spread. So names that agree in most of their bytes, as counters do, have fronts as even as those of hashes.
#[tactic(auto, unfolding(crate::specs::Runs::front_of))]
pub(crate) fn front_of_name(name: &[u8]) -> u64
    ensures { result ≡ front_of name.now }
{
    let middle = leading(name.get(8..).unwrap_or(&[]));
    let last = leading(name.get(12..).unwrap_or(&[]));
    mixed(mixed(last, middle), leading(name))
}

/// The 20 bytes at the place, fewer at the end of the stretch.
pub(crate) fn name_at<'a>(stretch: &Stretch<'a>, place: u64) -> &'a [u8]
    ensures { result.now ≡ name_in stretch.now.bytes.now stretch.now.at place }
{
    let from = place.saturating_sub(stretch.at);
    let rest = stretch.bytes.get(from as usize..).unwrap_or(&[]);
    let count = rest.len().min(NAME_BYTES);
    &rest[..count]
}

/// How two entries are ordered, each read from its own stretch.
pub(crate) fn compare<'a>(left: &Stretch<'a>, a: Entry, right: &Stretch<'a>, b: Entry) -> Ordering
    ensures { result ≡ slice_cmp nat_cmp (key_in left.now.bytes.now left.now.at a) (key_in right.now.bytes.now right.now.at b) }
{
    match a.front.cmp(&b.front) {
        Ordering::Equal => name_at(left, a.place).cmp(name_at(right, b.place)),
        decided => decided,
    }
}

/// How an entry stands to a name, whose front is given.
pub(crate) fn compare_to(stretch: &Stretch<'_>, entry: Entry, front: u64, name: &[u8]) -> Ordering
    ensures { result ≡ slice_cmp nat_cmp (key_in stretch.now.bytes.now stretch.now.at entry) (front ∷ name.now) }
{
    match entry.front.cmp(&front) {
        Ordering::Equal => name_at(stretch, entry.place).cmp(name),
        decided => decided,
    }
}
