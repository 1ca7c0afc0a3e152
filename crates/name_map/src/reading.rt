//! Names and ids read from the log's bytes.

ghost use Rattle.std.specs.Prelude.{◌≡◌, ℕ, ◌<◌, ◌≤◌, ◌+◌, ◌-◌, ◌^◌, length, take, drop, IfSome, MatchOption, Some};
ghost use Rattle.std.specs.Int.{w64, from_be_bytes};

use crate::sizes::{ID_BYTES, NAME_BYTES};
use id_groups::{FIRST_OTHER, Id, NameRef};

/// So many bytes from the place on; `None` where they aren't there.
fn stretch<'a>(bytes: &'a [u8], place: u64, len: usize) -> Option<&'a [u8]>
    ensures piece { MatchOption result (length bytes.now < place + len) (λ piece. piece.now ≡ take len (drop place bytes.now)) }
    ensures len { IfSome result (λ piece. length piece.now ≡ len) }
{
    let rest = bytes.get(place as usize..)?;
    rest.get(..len)
}

/// The name that stands at the place; `None` where the bytes end before it does.
pub(crate) fn name_at<'a>(bytes: &'a [u8], place: u64) -> Option<NameRef<'a>>
    ensures { MatchOption result (length bytes.now < place + 20) (λ name. name.bytes.now ≡ take 20 (drop place bytes.now)) }
{
    let name = stretch(bytes, place, NAME_BYTES as usize)?;
    Some(NameRef::over(name))
}

/// The number that the first eight bytes spell.
fn front_number(bytes: &[u8]) -> u64
    requires { 8 ≤ length bytes.now }
    ensures { result ≡ from_be_bytes w64 (take 8 bytes.now) }
{
    u64::from_be_bytes([
        bytes[0], bytes[1], bytes[2], bytes[3], bytes[4], bytes[5], bytes[6], bytes[7],
    ])
}

/// The master id that stands before the place; `None` where none does.
pub(crate) fn id_before(bytes: &[u8], place: u64) -> Option<Id>
    ensures { (id : ℕ) → id < 2 ^ 56 → 8 ≤ place → place ≤ length bytes.now → from_be_bytes w64 (take 8 (drop (place - 8) bytes.now)) ≡ id → result ≡ Some id }
{
    let start = place.checked_sub(ID_BYTES)?;
    let number = front_number(stretch(bytes, start, ID_BYTES as usize)?);
    if number >= FIRST_OTHER {
        return None;
    }
    Some(Id::master(number))
}
