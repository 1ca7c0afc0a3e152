//! Records, written at the end of bytes.

ghost use Rattle.std.specs.Prelude.{◌≡◌, ◌<◌, ◌++◌, ◌∷◌, List, ℕ, length, nat_lt, flat_map, if◌then◌else◌, OnOk, OnErr};
ghost use Rattle.std.specs.Int.{w64, to_be_bytes};
ghost use Rattle.segment_codec.specs.Lent.{parents_left};
ghost use Rattle.segment_codec.specs.Number.{number_bytes, numbers_in};
ghost use Rattle.segment_codec.specs.Record.{IsSegment, flags_of, segment_bytes, HasFront};

use crate::lent::Parents;
use crate::number::write_number;
use id_groups::Id;
use std::alloc::AllocError;

/// Bit 0 is set exactly where there are no parents.
fn flags(parents: &[Id]) -> u8
    ensures { result ≡ flags_of parents.now }
{
    match parents {
        [] => 1,
        [_, ..] => 0,
    }
}

/// Appends the numbers of the ids. A refusal may leave a part of them at the end.
fn append_numbers(out: &mut Vec<u8>, ids: &[Id]) -> Result<(), AllocError>
    ensures ok { OnOk result (out.new.items ≡ out.old.items ++ flat_map number_bytes ids.now) }
    ensures err { OnErr result (HasFront out.old.items out.new.items) }
{
    for id in ids {
        write_number(out, id.number())?;
    }
    Ok(())
}

/// What stands before the parents of a record whose span of ids and whose count of parents take a byte each.
#[inline(always)]
pub fn short_head(flags: u8, level: u8, high: u64, span: u64, count: u64) -> [u8; 12]
    requires { (span < 128) × (count < 128) }
    ensures { result ≡ flags ∷ level ∷ to_be_bytes w64 high ++ (number_bytes span ++ number_bytes count) }
{
    let high = high.to_be_bytes();
    let (span, count) = (span as u8, count as u8);
    [
        flags, level, high[0], high[1], high[2], high[3], high[4], high[5], high[6], high[7], span,
        count,
    ]
}

/// Appends what stands before the parents of a record, field by field. A refusal may leave a part of it at the end.
fn append_fields(
    out: &mut Vec<u8>,
    flags: u8,
    level: u8,
    high: u64,
    span: u64,
    count: u64,
) -> Result<(), AllocError>
    ensures ok { OnOk result (out.new.items ≡ out.old.items ++ (flags ∷ level ∷ to_be_bytes w64 high ++ (number_bytes span ++ number_bytes count))) }
    ensures err { OnErr result (HasFront out.old.items out.new.items) }
{
    out.push(flags)?;
    out.push(level)?;
    out.extend_from_slice(&high.to_be_bytes())?;
    write_number(out, span)?;
    write_number(out, count)
}

/// Appends what stands before the parents of a record, at once where its last two fields take a byte each. A refusal may leave
/// a part of it at the end.
#[inline(always)]
fn append_head(
    out: &mut Vec<u8>,
    flags: u8,
    level: u8,
    high: u64,
    span: u64,
    count: u64,
) -> Result<(), AllocError>
    ensures ok { OnOk result (out.new.items ≡ out.old.items ++ (flags ∷ level ∷ to_be_bytes w64 high ++ (number_bytes span ++ number_bytes count))) }
    ensures err { OnErr result (HasFront out.old.items out.new.items) }
{
    if span < 128 && count < 128 {
        return out.extend_from_slice(&short_head(flags, level, high, span, count));
    }
    append_fields(out, flags, level, high, span, count)
}

/// Appends the record. A refusal may leave a part of it at the end.
fn append_segment(
    out: &mut Vec<u8>,
    low: Id,
    high: Id,
    level: u8,
    parents: &[Id],
) -> Result<(), AllocError>
    requires { IsSegment (record { low = low; high = high; level = level; parents = parents.now }) }
    ensures ok { OnOk result (out.new.items ≡ out.old.items
        ++ segment_bytes (record { low = low; high = high; level = level; parents = parents.now })) }
    ensures err { OnErr result (HasFront out.old.items out.new.items) }
{
    let span = high.number() - low.number();
    let count = parents.len() as u64;
    append_head(out, flags(parents), level, high.number(), span, count)?;
    append_numbers(out, parents)
}

/// Appends the record of a segment, which the four make. Want of memory leaves `out` as it was.
pub fn write_segment(
    out: &mut Vec<u8>,
    low: Id,
    high: Id,
    level: u8,
    parents: &[Id],
) -> Result<(), AllocError>
    requires { IsSegment (record { low = low; high = high; level = level; parents = parents.now }) }
    ensures ok { OnOk result (out.new.items ≡ out.old.items
        ++ segment_bytes (record { low = low; high = high; level = level; parents = parents.now })) }
    ensures err { OnErr result (out.new.items ≡ out.old.items) }
{
    let len = out.len();
    let appended = append_segment(out, low, high, level, parents);
    if appended.is_err() {
        out.truncate(len);
    }
    appended
}

/// How many numbers end with the byte: one where it is below 128.
#[inline(always)]
fn ends(byte: u8) -> u64
    ensures { result ≡ (if nat_lt byte 128 then 1 else 0) }
{
    if byte < 128 { 1 } else { 0 }
}

/// How many numbers stand one behind another in the bytes.
#[inline(always)]
pub fn count_numbers(bytes: &[u8]) -> u64
    ensures { result ≡ length (numbers_in bytes.now) }
{
    let mut count = 0;
    let mut rest = bytes;
    'bytes: while let Some((first, others)) = rest.split_first() {
        count += ends(*first);
        rest = others;
    }
    count
}

/// The flags of a record with so many parents.
#[inline(always)]
pub fn flags_for(count: u64) -> u8
    ensures { (parents : List ℕ) → length parents ≡ count → result ≡ flags_of parents }
{
    if count == 0 { 1 } else { 0 }
}

/// Appends the bytes. A refusal leaves what was there.
#[inline(always)]
fn append_bytes(out: &mut Vec<u8>, bytes: &[u8]) -> Result<(), AllocError>
    ensures ok { OnOk result (out.new.items ≡ out.old.items ++ bytes.now) }
    ensures err { OnErr result (HasFront out.old.items out.new.items) }
{
    out.extend_from_slice(bytes)
}

/// Appends the record of a flat segment with the parents as they are spelled. A refusal may leave a part of it at the end.
fn append_lent(out: &mut Vec<u8>, low: Id, high: Id, parents: Parents<'_>) -> Result<(), AllocError>
    requires { IsSegment (record { low = low; high = high; level = 0; parents = parents_left parents }) }
    ensures ok { OnOk result (out.new.items ≡ out.old.items
        ++ segment_bytes (record { low = low; high = high; level = 0; parents = parents_left parents.entry })) }
    ensures err { OnErr result (HasFront out.old.items out.new.items) }
{
    let span = high.number() - low.number();
    let count = count_numbers(parents.rest);
    append_head(out, flags_for(count), 0, high.number(), span, count)?;
    append_bytes(out, parents.rest)
}

/// Appends the record of a flat segment, which the ids and the lent parents make: these are copied as they are spelled. Want of
/// memory leaves `out` as it was.
pub fn write_lent(
    out: &mut Vec<u8>,
    low: Id,
    high: Id,
    parents: Parents<'_>,
) -> Result<(), AllocError>
    requires { IsSegment (record { low = low; high = high; level = 0; parents = parents_left parents }) }
    ensures ok { OnOk result (out.new.items ≡ out.old.items
        ++ segment_bytes (record { low = low; high = high; level = 0; parents = parents_left parents.entry })) }
    ensures err { OnErr result (out.new.items ≡ out.old.items) }
{
    let len = out.len();
    let appended = append_lent(out, low, high, parents);
    if appended.is_err() {
        out.truncate(len);
    }
    appended
}
