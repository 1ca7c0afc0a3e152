//! The answers that bodies are.

ghost use Rattle.std.specs.Prelude.{◌≡◌, ◌≤◌, ◌*◌, false, ◌↔◌, ◌∷◌, [], ℕ, List, IsTrue, Ok, Err, Some, length, take, IfOk, IfSome, IfNone, MatchOption};
ghost use Rattle.id_groups.specs.Name.{Name as NameBytes};
ghost use Rattle.batch_codec.specs.Reading.{names_read};
ghost use Rattle.remote_serve.specs.Requests.{ToRefresh, ToClone, most_names};
ghost use Rattle.remote_serve.specs.Answers.{Answer, Refreshed, Cloned};
ghost use Rattle.remote_pipe.specs.Answering.{IsRefusal};
ghost use Rattle.remote_pipe.specs.Reading.{answer_at, names_told_at, way_at};
ghost use Rattle.remote_pipe.specs.Steps.{AreBytes, Reads, ReadsNames, ReadsPath, IsFit, IsUnfit};

use crate::told::read_told;
use batch_codec::{read_piece, read_u32, read_u64};
use id_groups::{Name, NameRef};
use remote_trait::{CloneData, Path};
use std::alloc::{AllocError, Global};

/// Why a body gives no answer.
#[derive(Clone, Copy, PartialEq, Eq, Debug)]
pub(crate) enum ReadFault {
    /// It is what stands in place of an answer.
    Refused,
    /// It is no answer to the request.
    NoAnswer,
    /// There was no memory for the answer.
    Memory,
}

impl From<AllocError> for ReadFault {
    ghost use Rattle.std.specs.Prelude.{◌≡◌};
    ghost use Rattle.remote_pipe.specs.declared.reading.ReadFault.TheVariants.{Memory};

    ghost from_gives = { λ _ fault. fault ≡ Memory };

    fn from(_refused: AllocError) -> ReadFault {
        ReadFault::Memory
    }
}

/// What stands behind the first byte of a body, where that is this one.
fn behind<'a>(body: &'a [u8], kind: u8) -> Option<&'a [u8]>
    ensures some { IfSome result (λ rest. body.now ≡ kind ∷ rest.now) }
    ensures none { IfNone result ((rest : List ℕ) → body.now ≡ kind ∷ rest → ⊥) }
{
    let (first, rest) = body.split_first()?;
    if *first != kind {
        return None;
    }
    Some(rest)
}

/// Whether a body is this byte alone.
fn is_only(body: &[u8], kind: u8) -> bool
    ensures { IsTrue result ↔ (body.now ≡ kind ∷ []) }
{
    match behind(body, kind) {
        Some(rest) => rest.is_empty(),
        None => false,
    }
}

/// Whether a body is what stands in place of an answer.
fn is_refusal(body: &[u8]) -> bool
    ensures { IsTrue result ↔ ((kind : ℕ) × (1 ≤ kind) × (kind ≤ 4) × (body.now ≡ 255 ∷ kind ∷ [])) }
{
    match behind(body, 255) {
        Some(rest) => is_reason(rest),
        None => false,
    }
}

/// Whether the bytes are one from 1 to 4.
fn is_reason(bytes: &[u8]) -> bool
    ensures { IsTrue result ↔ ((kind : ℕ) × (1 ≤ kind) × (kind ≤ 4) × (bytes.now ≡ kind ∷ [])) }
{
    let Some((kind, rest)) = bytes.split_first() else {
        return false;
    };
    if !rest.is_empty() {
        return false;
    }
    1 <= *kind && *kind <= 4
}

/// Why a body gives no answer that isn't one of the request's form: it is what stands in place of an answer, or no answer.
fn unanswered(body: &[u8]) -> ReadFault
    ensures refused { result ≡ ReadFault.Refused → (refusal : Answer) × IsRefusal refusal × (answer_at body.now ≡ Some refusal) }
    ensures none { result ≡ ReadFault.NoAnswer → (refusal : Answer) → IsRefusal refusal → answer_at body.now ≡ Some refusal → ⊥ }
    ensures which { result ≡ ReadFault.Memory → ⊥ }
{
    if is_refusal(body) {
        ReadFault::Refused
    } else {
        ReadFault::NoAnswer
    }
}

/// That a refresh was done.
pub(crate) fn read_refreshed(body: &[u8]) -> Result<(), ReadFault>
    ensures bytes { AreBytes body.now }
    ensures reads { Reads ToRefresh (λ _. Refreshed) body.now result }
{
    if is_only(body, 0x81) {
        return Ok(());
    }
    Err(unanswered(body))
}

/// The clone data.
pub(crate) fn read_clone(alloc: Global, body: &[u8]) -> Result<CloneData, ReadFault>
    ensures bytes { AreBytes body.now }
    ensures reads { Reads ToClone (λ told. Cloned told) body.now result }
{
    match behind(body, 0x82) {
        Some(rest) => read_told(alloc, rest),
        None => Err(unanswered(body)),
    }
}

/// The number, or that there is no answer.
fn counted(count: Option<u32>) -> Result<u32, ReadFault>
    ensures { MatchOption count (result ≡ Err ReadFault.NoAnswer) (λ n. result ≡ Ok n) }
{
    match count {
        Some(count) => Ok(count),
        None => Err(ReadFault::NoAnswer),
    }
}

/// Puts the names to the front of `out`, if they have room there, and answers how many there are.
pub(crate) fn read_names(body: &[u8], out: &mut [Name]) -> Result<u32, ReadFault>
    requires { length out.old ≤ most_names }
    ensures bytes { AreBytes body.now }
    ensures len { length out.new ≡ length out.old }
    ensures count { IfOk result (λ n. n ≤ length out.old) }
    ensures reads { ReadsNames (length out.old) out.new body.now result }
    ensures which { result ≡ Err ReadFault.Memory → ⊥ }
{
    match behind(body, 0x83) {
        Some(rest) => counted(read_named(rest, out)),
        None => Err(unanswered(body)),
    }
}

/// The way, or that there is no answer.
fn found(path: Option<Path>) -> Result<Option<Path>, ReadFault>
    ensures { MatchOption path (result ≡ Err ReadFault.NoAnswer) (λ way. result ≡ Ok (Some way)) }
{
    match path {
        Some(path) => Ok(Some(path)),
        None => Err(ReadFault::NoAnswer),
    }
}

/// That there is no way.
fn read_nowhere(body: &[u8]) -> Result<Option<Path>, ReadFault>
    requires { (rest : List ℕ) → body.now ≡ 132 ∷ rest → ⊥ }
    ensures { ReadsPath body.now result }
{
    if is_only(body, 0x85) {
        return Ok(None);
    }
    Err(unanswered(body))
}

/// The way, or that there is none.
pub(crate) fn read_path(body: &[u8]) -> Result<Option<Path>, ReadFault>
    ensures bytes { AreBytes body.now }
    ensures reads { ReadsPath body.now result }
{
    match behind(body, 0x84) {
        Some(rest) => found(read_way(rest)),
        None => read_nowhere(body),
    }
}

/// The way that all the bytes are.
#[tactic(auto, unfolding(crate::specs::Reading::way_at))]
fn read_way(bytes: &[u8]) -> Option<Path>
    ensures { result ≡ way_at bytes.now }
{
    let (name, rest) = read_piece(bytes, 20)?;
    let (n, rest) = read_u64(rest)?;
    if !rest.is_empty() {
        return None;
    }
    let x = NameRef::over(name).to_name();
    Some(Path { x, n })
}

/// The names that all the bytes are, if they have room.
fn read_named(bytes: &[u8], out: &mut [Name]) -> Option<u32>
    requires { length out.old ≤ most_names }
    ensures len { length out.new ≡ length out.old }
    ensures count { IfSome result (λ n. n ≤ length out.old) }
    ensures named { IfSome result (λ n. names_told_at bytes.now ≡ Some (take n out.new)) }
    ensures none { IfNone result ((names : List NameBytes) → length names ≤ length out.old → names_told_at bytes.now ≡ Some names → ⊥) }
{
    let (count, rest) = read_u32(bytes)?;
    if count as usize > out.len() || rest.len() != 20 * count as usize {
        return None;
    }
    put_names(rest, &mut out[..count as usize]);
    Some(count)
}

/// Whether the bytes are names, and at most so many.
fn are_names(bytes: &[u8], most: u32) -> bool
    ensures { IsTrue result ↔ ((names : List NameBytes) × (length names ≤ most) × (names_told_at bytes.now ≡ Some names)) }
{
    match read_u32(bytes) {
        Some((count, rest)) => are_so_many(rest, count, most),
        None => false,
    }
}

/// Whether there are so many names in the bytes, and no more than a request was for.
fn are_so_many(bytes: &[u8], count: u32, most: u32) -> bool
    ensures { IsTrue result ↔ ((count ≤ most) × (length bytes.now ≡ 20 * count)) }
{
    count <= most && bytes.len() == 20 * count as usize
}

/// Whether a body is an answer to a request for so many names, or what stands in place of one.
pub(crate) fn are_fit(body: &[u8], most: u32) -> bool
    ensures bytes { AreBytes body.now }
    ensures fit { IsTrue result → IsFit body.now most }
    ensures unfit { result ≡ false → IsUnfit body.now most }
{
    match behind(body, 0x83) {
        Some(rest) => are_names(rest, most),
        None => is_refusal(body),
    }
}

/// Puts the names whose bytes these are.
fn put_names(bytes: &[u8], out: &mut [Name])
    requires { length bytes.now ≡ 20 * length out.old }
    ensures { out.new ≡ names_read (length out.old) bytes.now }
{
    let mut rest = bytes;
    'names: for k in 0..out.len() {
        let (name, behind) = rest.split_at(20);
        out[k] = NameRef::over(name).to_name();
        rest = behind;
    }
}
