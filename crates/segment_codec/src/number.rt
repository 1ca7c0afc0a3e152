//! Numbers of variable length: seven bits a byte, the lowest first. Only the shortest form is a spelling.

ghost use Rattle.std.specs.Prelude.{◌≡◌, ◌+◌, ◌*◌, ◌%◌, ◌<◌, ◌^◌, ◌++◌, ◌≤◌, length, List, ℕ, Some, IsTrue, ◌↔◌, MatchOption, IfSome, OnOk, OnErr};
ghost use Rattle.segment_codec.specs.Number.{number_bytes};
ghost use Rattle.segment_codec.specs.Record.{HasFront};
ghost use Rattle.segment_codec.specs.Reading.{Gives, long_number_at, number_at};

use std::alloc::AllocError;

/// The bits of a byte that say there are more bytes.
const MORE: u8 = 128;

/// How many values two groups of seven bits have.
const TWO_GROUPS: u64 = 1 << 14;

/// How many values three groups of seven bits have.
const THREE_GROUPS: u64 = 1 << 21;

/// How many values four groups of seven bits have.
const FOUR_GROUPS: u64 = 1 << 28;

/// How many values eight groups of seven bits have.
const EIGHT_GROUPS: u64 = 1 << 56;

/// How many values nine groups of seven bits have.
const NINE_GROUPS: u64 = 1 << 63;

/// The value with a group of seven bits put in front; `None` where it doesn't fit 64 bits.
fn with_group(value: u64, unit: u64, group: u64) -> Option<u64>
    ensures { MatchOption result (2 ^ 64 ≤ value + unit * group) (λ sum. (sum ≡ value + unit * group) × (sum < 2 ^ 64)) }
{
    value.checked_add(unit.checked_mul(group)?)
}

/// The number of two groups of seven bits, the lower one first.
#[inline(always)]
fn two_groups(low: u8, high: u8) -> u64
    ensures { result ≡ low % 128 + 128 * (high % 128) }
{
    u64::from(low % MORE) + 128 * u64::from(high % MORE)
}

/// Whether the byte can be the last of several. A number of several bytes that ends with 0 has a shorter form.
#[inline(always)]
fn ends_several(byte: u8) -> bool
    ensures { IsTrue result ↔ (0 < byte) × (byte < 128) }
{
    0 < byte && byte < MORE
}

/// The number in front, and the rest, if it takes at most four bytes; `None` also where it takes more.
#[inline(always)]
pub fn read_short(bytes: &[u8]) -> Option<(u64, &[u8])>
    ensures { IfSome result (λ r. number_at bytes.now ≡ Some (r.0, r.1.now)) }
{
    match bytes {
        [one, rest @ ..] if *one < MORE => Some((u64::from(*one), rest)),
        [one, two, rest @ ..] if ends_several(*two) => Some((two_groups(*one, *two), rest)),
        [one, two, three, rest @ ..] if *two >= MORE && ends_several(*three) => {
            let high = two_groups(*two, *three);
            Some((u64::from(*one % MORE) + 128 * high, rest))
        }
        [one, two, three, four, rest @ ..]
            if *two >= MORE && *three >= MORE && ends_several(*four) => {
            let high = two_groups(*three, *four);
            Some((two_groups(*one, *two) + TWO_GROUPS * high, rest))
        }
        _ => None,
    }
}

/// The first four groups of seven bits, the lowest first, and the rest, where a number goes on behind them.
#[inline(always)]
fn four_groups(bytes: &[u8]) -> Option<(u64, &[u8])>
    ensures { IfSome result (λ r. (r.0 < 2 ^ 28) × ((n : ℕ) (rest : List ℕ) → 0 < n → long_number_at r.1.now ≡ Some (n, rest)
        → long_number_at bytes.now ≡ Some (r.0 + 2 ^ 28 * n, rest))) }
{
    match bytes {
        [one, two, three, four, rest @ ..]
            if *one >= MORE && *two >= MORE && *three >= MORE && *four >= MORE => {
            let high = two_groups(*three, *four);
            Some((two_groups(*one, *two) + TWO_GROUPS * high, rest))
        }
        _ => None,
    }
}

/// The number in front, and the rest, if it takes nine bytes; `None` also where it takes fewer or more.
#[inline(always)]
fn read_nine(bytes: &[u8]) -> Option<(u64, &[u8])>
    ensures { IfSome result (λ r. number_at bytes.now ≡ Some (r.0, r.1.now)) }
{
    let (low, rest) = four_groups(bytes)?;
    let (middle, rest) = four_groups(rest)?;
    match rest {
        [last, rest @ ..] if ends_several(*last) => {
            let high = middle + FOUR_GROUPS * u64::from(*last);
            Some((low + FOUR_GROUPS * high, rest))
        }
        _ => None,
    }
}

/// The number in front, and the rest, where it takes more than four bytes: an id of others takes nine.
#[inline(never)]
pub fn read_long(bytes: &[u8]) -> Option<(u64, &[u8])>
    ensures { Gives (λ r. (r.0, r.1.now)) result (number_at bytes.now) }
{
    if let Some(nine) = read_nine(bytes) {
        return Some(nine);
    }
    read_groups(bytes)
}

/// The number in front, and the rest; `None` where no number's spelling stands in front. A number below 2^28, and one
/// of nine bytes, takes no loop.
#[inline(always)]
pub fn read_number(bytes: &[u8]) -> Option<(u64, &[u8])>
    ensures { Gives (λ r. (r.0, r.1.now)) result (number_at bytes.now) }
{
    if let Some(short) = read_short(bytes) {
        return Some(short);
    }
    read_long(bytes)
}

/// The number in front, and the rest, group by group, whatever its length.
fn read_groups(bytes: &[u8]) -> Option<(u64, &[u8])>
    ensures { Gives (λ r. (r.0, r.1.now)) result (number_at bytes.now) }
{
    let mut value = 0u64;
    let mut unit = 1u64;
    let mut rest = bytes;
    'groups: while let Some((first, others)) = rest.split_first() {
        value = with_group(value, unit, u64::from(*first % MORE))?;
        if *first < MORE {
            return if *first == 0 && unit > 1 {
                None
            } else {
                Some((value, others))
            };
        }
        unit = unit.checked_mul(128)?;
        rest = others;
    }
    None
}

/// How many bytes the number takes.
pub fn number_len(number: u64) -> usize
    ensures { result ≡ length (number_bytes number) }
{
    let mut rest = number;
    let mut len = 1;
    'groups: while rest >= 128 {
        rest /= 128;
        len += 1;
    }
    len
}

/// A group of seven bits, with the bit that says there are more bytes.
#[inline(always)]
fn with_more(number: u64) -> u8
    ensures { result ≡ number % 128 + 128 }
{
    (number % 128) as u8 + MORE
}

/// The spelling of a number of nine groups.
#[inline(always)]
fn nine_bytes(number: u64) -> [u8; 9]
    requires { (2 ^ 56 ≤ number) × (number < 2 ^ 63) }
    ensures { result ≡ number_bytes number }
{
    let second = number / 128;
    let third = second / 128;
    let fourth = third / 128;
    let fifth = fourth / 128;
    let sixth = fifth / 128;
    let seventh = sixth / 128;
    let eighth = seventh / 128;
    let ninth = eighth / 128;
    [
        with_more(number),
        with_more(second),
        with_more(third),
        with_more(fourth),
        with_more(fifth),
        with_more(sixth),
        with_more(seventh),
        with_more(eighth),
        ninth as u8,
    ]
}

/// The spelling of a number of one group.
#[inline(always)]
fn one_byte(number: u64) -> [u8; 1]
    requires { number < 128 }
    ensures { result ≡ number_bytes number }
{
    [number as u8]
}

/// The spelling of a number of two groups.
#[inline(always)]
fn two_bytes(number: u64) -> [u8; 2]
    requires { (2 ^ 7 ≤ number) × (number < 2 ^ 14) }
    ensures { result ≡ number_bytes number }
{
    [with_more(number), (number / 128) as u8]
}

/// The spelling of a number of three groups.
#[inline(always)]
fn three_bytes(number: u64) -> [u8; 3]
    requires { (2 ^ 14 ≤ number) × (number < 2 ^ 21) }
    ensures { result ≡ number_bytes number }
{
    let second = number / 128;
    [with_more(number), with_more(second), (second / 128) as u8]
}

/// The spelling of a number of four groups.
#[inline(always)]
fn four_bytes(number: u64) -> [u8; 4]
    requires { (2 ^ 21 ≤ number) × (number < 2 ^ 28) }
    ensures { result ≡ number_bytes number }
{
    let second = number / 128;
    let third = second / 128;
    [
        with_more(number),
        with_more(second),
        with_more(third),
        (third / 128) as u8,
    ]
}

/// Appends a number of at most four bytes. A refusal leaves what was there.
#[inline(always)]
fn write_short(out: &mut Vec<u8>, number: u64) -> Result<(), AllocError>
    requires { number < 2 ^ 28 }
    ensures ok { OnOk result (out.new.items ≡ out.old.items ++ number_bytes number) }
    ensures err { OnErr result (HasFront out.old.items out.new.items) }
{
    if number < 128 {
        out.extend_from_slice(&one_byte(number))
    } else if number < TWO_GROUPS {
        out.extend_from_slice(&two_bytes(number))
    } else if number < THREE_GROUPS {
        out.extend_from_slice(&three_bytes(number))
    } else {
        out.extend_from_slice(&four_bytes(number))
    }
}

/// Appends the number. A refusal may leave a part of it at the end. A number of at most four bytes, and one of nine, as an id
/// of others is, takes no loop.
pub fn write_number(out: &mut Vec<u8>, number: u64) -> Result<(), AllocError>
    ensures ok { OnOk result (out.new.items ≡ out.old.items ++ number_bytes number) }
    ensures err { OnErr result (HasFront out.old.items out.new.items) }
{
    if number < FOUR_GROUPS {
        return write_short(out, number);
    }
    if EIGHT_GROUPS <= number && number < NINE_GROUPS {
        return out.extend_from_slice(&nine_bytes(number));
    }
    write_groups(out, number)
}

/// Appends the number, group by group, whatever its length.
fn write_groups(out: &mut Vec<u8>, number: u64) -> Result<(), AllocError>
    ensures ok { OnOk result (out.new.items ≡ out.old.items ++ number_bytes number) }
    ensures err { OnErr result (HasFront out.old.items out.new.items) }
{
    let mut rest = number;
    'groups: while rest >= 128 {
        out.push((rest % 128) as u8 + MORE)?;
        rest /= 128;
    }
    out.push(rest as u8)?;
    Ok(())
}
