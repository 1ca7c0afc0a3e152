//! Clone data that are read.

ghost use Rattle.std.specs.Prelude.{◌≡◌, ◌≤◌, ◌<◌, ◌^◌, ◌+◌, ◌++◌, ◌∷◌, [], Err, Some, None, length, take, IfOk, IfSome, IfNone};
ghost use Rattle.std.specs.Int.{w64};
ghost use Rattle.id_groups.specs.Name.{Name as NameBytes};
ghost use Rattle.segment_codec.specs.Record.{Segment};
ghost use Rattle.remote_rules.specs.CloneData.{KnownName};
ghost use Rattle.batch_codec.specs.Reading.{fixed_at, piece_at};
ghost use Rattle.remote_pipe.specs.Reading.{only as only_of, counted_at, items_at, parents_at, segment_at, known_at, told_at};
ghost use Rattle.remote_pipe.specs.Steps.{ReadsAs};

use crate::reading::ReadFault;
use batch_codec::{read_piece, read_u32, read_u64};
use id_groups::NameRef;
use remote_trait::CloneData;
use std::alloc::Global;

/// The value, where no byte is left.
fn only<T: Drop>(value: T, rest: &[u8]) -> Result<T, ReadFault>
    ensures { ReadsAs (only_of value rest.now) result }
{
    match rest {
        [] => Ok(value),
        [_, ..] => Err(ReadFault::NoAnswer),
    }
}

/// The clone data that all the bytes are.
#[tactic(auto, unfolding(crate::specs::Reading::told_at))]
pub(crate) fn read_told(alloc: Global, bytes: &[u8]) -> Result<CloneData, ReadFault>
    ensures { ReadsAs (told_at bytes.now) result }
{
    let mut told = CloneData::empty(alloc);
    match read_lists(&mut told, bytes) {
        Ok(rest) => only(told, rest),
        Err(fault) => Err(fault),
    }
}

/// The three lists, one behind another, and what stands behind them.
fn read_lists<'a>(told: &mut CloneData, bytes: &'a [u8]) -> Result<&'a [u8], ReadFault>
    requires segments { told.old.segments ≡ [] }
    requires names { told.old.names ≡ [] }
    requires heads { told.old.heads ≡ [] }
    ensures found { IfOk result (λ rest. told_at bytes.now ≡ only_of told.new rest.now) }
    ensures none { result ≡ Err ReadFault.NoAnswer → told_at bytes.now ≡ None }
    ensures which { result ≡ Err ReadFault.Refused → ⊥ }
{
    let rest = match read_segments(told, bytes) {
        Ok(rest) => rest,
        Err(fault) => return Err(fault),
    };
    let rest = match read_knowns(told, rest) {
        Ok(rest) => rest,
        Err(fault) => return Err(fault),
    };
    read_heads(told, rest)
}

/// Segments, behind how many there are.
fn read_segments<'a>(told: &mut CloneData, bytes: &'a [u8]) -> Result<&'a [u8], ReadFault>
    requires { told.old.segments ≡ [] }
    ensures found { IfOk result (λ rest. counted_at segment_at bytes.now ≡ Some (told.new.segments, rest.now)) }
    ensures only { told.new ≡ record told.old { segments = told.new.segments } }
    ensures none { result ≡ Err ReadFault.NoAnswer → counted_at segment_at bytes.now ≡ None }
    ensures which { result ≡ Err ReadFault.Refused → ⊥ }
{
    let Some((count, mut rest)) = read_u32(bytes) else {
        return Err(ReadFault::NoAnswer);
    };
    'segments: for _segment in 0..count {
        match read_segment(told, rest) {
            Ok(behind) => rest = behind,
            Err(fault) => return Err(fault),
        }
    }
    Ok(rest)
}

/// One segment, which is put behind the others.
#[tactic(auto, unfolding(crate::specs::Reading::segment_at))]
fn read_segment<'a>(told: &mut CloneData, bytes: &'a [u8]) -> Result<&'a [u8], ReadFault>
    requires { length told.old.segments + 1 < 2 ^ 32 }
    ensures found { IfOk result (λ rest. (s : Segment) × (segment_at bytes.now ≡ Some (s, rest.now)) × (told.new.segments ≡ told.old.segments ++ s ∷ [])) }
    ensures only { told.new ≡ record told.old { segments = told.new.segments } }
    ensures none { result ≡ Err ReadFault.NoAnswer → segment_at bytes.now ≡ None }
    ensures which { result ≡ Err ReadFault.Refused → ⊥ }
{
    let Some((low, rest)) = read_u64(bytes) else {
        return Err(ReadFault::NoAnswer);
    };
    let Some((high, rest)) = read_u64(rest) else {
        return Err(ReadFault::NoAnswer);
    };
    let mut parents = [0; 8];
    let Some((count, rest)) = read_parents(&mut parents, rest) else {
        return Err(ReadFault::NoAnswer);
    };
    told.push_segment(low, high, &parents[..count])?;
    Ok(rest)
}

/// Fills the front of the parents, behind how many there are: at most 8.
#[tactic(auto, unfolding(crate::specs::Reading::parents_at))]
fn read_parents<'a>(parents: &mut [u64], bytes: &'a [u8]) -> Option<(usize, &'a [u8])>
    requires { length parents.old ≡ 8 }
    ensures len { length parents.new ≡ 8 }
    ensures few { IfSome result (λ r. r.0 ≤ 8) }
    ensures found { IfSome result (λ r. parents_at bytes.now ≡ Some (take r.0 parents.new, r.1.now)) }
    ensures none { IfNone result (parents_at bytes.now ≡ None) }
{
    let (number, rest) = bytes.split_first()?;
    let count = *number as usize;
    if count > 8 {
        return None;
    }
    let rest = read_numbers(&mut parents[..count], rest)?;
    Some((count, rest))
}

/// Fills the numbers.
fn read_numbers<'a>(numbers: &mut [u64], bytes: &'a [u8]) -> Option<&'a [u8]>
    ensures len { length numbers.new ≡ length numbers.old }
    ensures found { IfSome result (λ rest. items_at (fixed_at w64) (length numbers.old) bytes.now ≡ Some (numbers.new, rest.now)) }
    ensures none { IfNone result (items_at (fixed_at w64) (length numbers.old) bytes.now ≡ None) }
{
    let mut rest = bytes;
    'numbers: for k in 0..numbers.len() {
        let (number, behind) = read_u64(rest)?;
        numbers[k] = number;
        rest = behind;
    }
    Some(rest)
}

/// Ids with their names, behind how many there are.
fn read_knowns<'a>(told: &mut CloneData, bytes: &'a [u8]) -> Result<&'a [u8], ReadFault>
    requires { told.old.names ≡ [] }
    ensures found { IfOk result (λ rest. counted_at known_at bytes.now ≡ Some (told.new.names, rest.now)) }
    ensures only { told.new ≡ record told.old { names = told.new.names } }
    ensures none { result ≡ Err ReadFault.NoAnswer → counted_at known_at bytes.now ≡ None }
    ensures which { result ≡ Err ReadFault.Refused → ⊥ }
{
    let Some((count, mut rest)) = read_u32(bytes) else {
        return Err(ReadFault::NoAnswer);
    };
    'names: for _name in 0..count {
        match read_known(told, rest) {
            Ok(behind) => rest = behind,
            Err(fault) => return Err(fault),
        }
    }
    Ok(rest)
}

/// One id with its name, which is put behind the others.
#[tactic(auto, unfolding(crate::specs::Reading::known_at))]
fn read_known<'a>(told: &mut CloneData, bytes: &'a [u8]) -> Result<&'a [u8], ReadFault>
    requires { length told.old.names + 1 < 2 ^ 32 }
    ensures found { IfOk result (λ rest. (k : KnownName) × (known_at bytes.now ≡ Some (k, rest.now)) × (told.new.names ≡ told.old.names ++ k ∷ [])) }
    ensures only { told.new ≡ record told.old { names = told.new.names } }
    ensures none { result ≡ Err ReadFault.NoAnswer → known_at bytes.now ≡ None }
    ensures which { result ≡ Err ReadFault.Refused → ⊥ }
{
    let Some((id, rest)) = read_u64(bytes) else {
        return Err(ReadFault::NoAnswer);
    };
    let Some((name, rest)) = read_piece(rest, 20) else {
        return Err(ReadFault::NoAnswer);
    };
    told.push_name(id, NameRef::over(name).to_name())?;
    Ok(rest)
}

/// Heads, behind how many there are.
fn read_heads<'a>(told: &mut CloneData, bytes: &'a [u8]) -> Result<&'a [u8], ReadFault>
    requires { told.old.heads ≡ [] }
    ensures found { IfOk result (λ rest. counted_at (piece_at 20) bytes.now ≡ Some (told.new.heads, rest.now)) }
    ensures only { told.new ≡ record told.old { heads = told.new.heads } }
    ensures none { result ≡ Err ReadFault.NoAnswer → counted_at (piece_at 20) bytes.now ≡ None }
    ensures which { result ≡ Err ReadFault.Refused → ⊥ }
{
    let Some((count, mut rest)) = read_u32(bytes) else {
        return Err(ReadFault::NoAnswer);
    };
    'heads: for _head in 0..count {
        match read_head(told, rest) {
            Ok(behind) => rest = behind,
            Err(fault) => return Err(fault),
        }
    }
    Ok(rest)
}

/// One head, which is put behind the others.
fn read_head<'a>(told: &mut CloneData, bytes: &'a [u8]) -> Result<&'a [u8], ReadFault>
    requires { length told.old.heads + 1 < 2 ^ 32 }
    ensures found { IfOk result (λ rest. (name : NameBytes) × (piece_at 20 bytes.now ≡ Some (name, rest.now)) × (told.new.heads ≡ told.old.heads ++ name ∷ [])) }
    ensures only { told.new ≡ record told.old { heads = told.new.heads } }
    ensures none { result ≡ Err ReadFault.NoAnswer → piece_at 20 bytes.now ≡ None }
    ensures which { result ≡ Err ReadFault.Refused → ⊥ }
{
    let Some((name, rest)) = read_piece(bytes, 20) else {
        return Err(ReadFault::NoAnswer);
    };
    told.push_head(NameRef::over(name).to_name())?;
    Ok(rest)
}
