//! A request is put, and an answer taken.

ghost use Rattle.std.specs.Prelude.{◌≡◌, ◌<◌, ◌≤◌, ◌^◌, ◌+◌, ◌++◌, Err, length, is_some, IfOk, IfErr, OnOk};
ghost use Rattle.outside.specs.Counts.{Rose};
ghost use Rattle.outside.specs.Told.{WhereTold};
ghost use Rattle.remote_pipe.specs.Answering.{IsAnswerLength};
ghost use Rattle.remote_pipe.specs.Exchange.{Exchanges};
ghost use Rattle.remote_pipe.specs.Line.{served_by};
ghost use Rattle.remote_pipe.specs.Steps.{AddsPiece, FillsBody, TakesExactly, TakesBody, TakesLength, TakesRest, TakesFrame};

use crate::fault::PipeFault;
use crate::link::Link;
use batch_codec::read_u32;
use std::alloc::Global;

/// The most bytes that the body of an answer has.
const LONGEST_ANSWER: u32 = 1 << 30;

/// How many bytes are taken at once.
const PIECE: usize = 65_536;

/// Fills all of `out` with bytes that come.
fn take_exactly<L: Link>(link: &mut L, out: &mut [u8]) -> Result<(), PipeFault>
    ensures takes { WhereTold (L.peer link.old) (L.peer link.new) (TakesExactly result out.new) }
    ensures len { length out.new ≡ length out.old }
    ensures which { result ≡ Err PipeFault.NotPut → ⊥ }
    ensures served { is_some (served_by (L.peer link.new)) ≡ is_some (served_by (L.peer link.old)) }
    ensures put_faults { L.put_faults link.old ≤ L.put_faults link.new }
    ensures take_faults { L.take_faults link.old ≤ L.take_faults link.new }
    ensures cause { result ≡ Err PipeFault.NotTaken → Rose (L.take_faults link.old) (L.take_faults link.new) }
{
    let mut at = 0;
    'takes: while at < out.len() {
        match link.take(&mut out[at..]) {
            Ok(0) => return Err(PipeFault::Ended),
            Ok(count) => at += count,
            Err(_fault) => return Err(PipeFault::NotTaken),
        }
    }
    Ok(())
}

/// Puts as many bytes that come as the piece has behind those that came.
fn add_piece<L: Link>(link: &mut L, piece: &mut [u8], body: &mut Vec<u8>) -> Result<(), PipeFault>
    ensures adds { WhereTold (L.peer link.old) (L.peer link.new) (AddsPiece (length piece.old) body.old.items result body.new.items) }
    ensures len { length piece.new ≡ length piece.old }
    ensures grown { OnOk result (length body.new.items ≡ length body.old.items + length piece.old) }
    ensures which { result ≡ Err PipeFault.NotPut → ⊥ }
    ensures served { is_some (served_by (L.peer link.new)) ≡ is_some (served_by (L.peer link.old)) }
    ensures put_faults { L.put_faults link.old ≤ L.put_faults link.new }
    ensures take_faults { L.take_faults link.old ≤ L.take_faults link.new }
    ensures cause { result ≡ Err PipeFault.NotTaken → Rose (L.take_faults link.old) (L.take_faults link.new) }
{
    match take_exactly(link, piece) {
        Ok(()) => {}
        Err(fault) => return Err(fault),
    }
    match body.extend_from_slice(piece) {
        Ok(()) => Ok(()),
        Err(_refused) => Err(PipeFault::Memory),
    }
}

/// Puts bytes that come behind those that came, until there are so many.
fn fill_body<L: Link>(
    link: &mut L,
    piece: &mut [u8],
    body: &mut Vec<u8>,
    len: usize,
) -> Result<(), PipeFault>
    requires piece { 0 < length piece.old }
    requires within { length body.old.items ≤ len }
    ensures fills { WhereTold (L.peer link.old) (L.peer link.new) (FillsBody len body.old.items result body.new.items) }
    ensures which { result ≡ Err PipeFault.NotPut → ⊥ }
    ensures len { OnOk result (length body.new.items ≡ len) }
    ensures served { is_some (served_by (L.peer link.new)) ≡ is_some (served_by (L.peer link.old)) }
    ensures put_faults { L.put_faults link.old ≤ L.put_faults link.new }
    ensures take_faults { L.take_faults link.old ≤ L.take_faults link.new }
    ensures cause { result ≡ Err PipeFault.NotTaken → Rose (L.take_faults link.old) (L.take_faults link.new) }
{
    'pieces: while body.len() < len {
        let count = piece.len().min(len - body.len());
        match add_piece(link, &mut piece[..count], body) {
            Ok(()) => {}
            Err(fault) => return Err(fault),
        }
    }
    Ok(())
}

/// Room for a piece of a body of so many bytes.
fn make_piece(alloc: Global, len: u32) -> Result<Vec<u8>, PipeFault>
    requires { 1 ≤ len }
    ensures some { IfOk result (λ piece. 1 ≤ length piece.items) }
    ensures memory { IfErr result (λ fault. fault ≡ PipeFault.Memory) }
{
    match Vec::from_elem(alloc, 0, PIECE.min(len as usize)) {
        Ok(piece) => Ok(piece),
        Err(_refused) => Err(PipeFault::Memory),
    }
}

/// A body of so many bytes. Memory is taken as they come.
fn take_body<L: Link>(alloc: Global, link: &mut L, len: u32) -> Result<Vec<u8>, PipeFault>
    requires { 1 ≤ len }
    ensures takes { WhereTold (L.peer link.old) (L.peer link.new) (TakesBody len result) }
    ensures which { result ≡ Err PipeFault.NotPut → ⊥ }
    ensures len { IfOk result (λ body. length body.items ≡ len) }
    ensures served { is_some (served_by (L.peer link.new)) ≡ is_some (served_by (L.peer link.old)) }
    ensures put_faults { L.put_faults link.old ≤ L.put_faults link.new }
    ensures take_faults { L.take_faults link.old ≤ L.take_faults link.new }
    ensures cause { result ≡ Err PipeFault.NotTaken → Rose (L.take_faults link.old) (L.take_faults link.new) }
{
    let mut piece = match make_piece(alloc, len) {
        Ok(piece) => piece,
        Err(fault) => return Err(fault),
    };
    let mut body = Vec::new(alloc);
    match fill_body(link, &mut piece, &mut body, len as usize) {
        Ok(()) => Ok(body),
        Err(fault) => Err(fault),
    }
}

/// The length of the next frame. There is room for it.
fn take_length<L: Link>(link: &mut L, head: &mut [u8]) -> Result<u32, PipeFault>
    requires { length head.old ≡ 4 }
    ensures takes { WhereTold (L.peer link.old) (L.peer link.new) (TakesLength result) }
    ensures which { result ≡ Err PipeFault.NotPut → ⊥ }
    ensures served { is_some (served_by (L.peer link.new)) ≡ is_some (served_by (L.peer link.old)) }
    ensures put_faults { L.put_faults link.old ≤ L.put_faults link.new }
    ensures take_faults { L.take_faults link.old ≤ L.take_faults link.new }
    ensures cause { result ≡ Err PipeFault.NotTaken → Rose (L.take_faults link.old) (L.take_faults link.new) }
{
    match take_exactly(link, head) {
        Ok(()) => {}
        Err(fault) => return Err(fault),
    }
    let Some((len, _rest)) = read_u32(head) else {
        unreachable!()
    };
    Ok(len)
}

/// The body behind a length, unless no answer has that.
fn take_rest<L: Link>(alloc: Global, link: &mut L, len: u32) -> Result<Vec<u8>, PipeFault>
    ensures takes { WhereTold (L.peer link.old) (L.peer link.new) (TakesRest len result) }
    ensures which { result ≡ Err PipeFault.NotPut → ⊥ }
    ensures long { IfOk result (λ body. IsAnswerLength (length body.items)) }
    ensures served { is_some (served_by (L.peer link.new)) ≡ is_some (served_by (L.peer link.old)) }
    ensures put_faults { L.put_faults link.old ≤ L.put_faults link.new }
    ensures take_faults { L.take_faults link.old ≤ L.take_faults link.new }
    ensures cause { result ≡ Err PipeFault.NotTaken → Rose (L.take_faults link.old) (L.take_faults link.new) }
{
    if len == 0 || len > LONGEST_ANSWER {
        return Err(PipeFault::BadLength);
    }
    take_body(alloc, link, len)
}

/// The body of the next frame.
pub(crate) fn take_frame<L: Link>(alloc: Global, link: &mut L) -> Result<Vec<u8>, PipeFault>
    ensures takes { WhereTold (L.peer link.old) (L.peer link.new) (TakesFrame result) }
    ensures which { result ≡ Err PipeFault.NotPut → ⊥ }
    ensures long { IfOk result (λ body. IsAnswerLength (length body.items)) }
    ensures served { is_some (served_by (L.peer link.new)) ≡ is_some (served_by (L.peer link.old)) }
    ensures put_faults { L.put_faults link.old ≤ L.put_faults link.new }
    ensures take_faults { L.take_faults link.old ≤ L.take_faults link.new }
    ensures cause { result ≡ Err PipeFault.NotTaken → Rose (L.take_faults link.old) (L.take_faults link.new) }
{
    let mut head = [0; 4];
    match take_length(link, &mut head) {
        Ok(len) => take_rest(alloc, link, len),
        Err(fault) => Err(fault),
    }
}

/// Puts what is asked, in its frame, and takes the body of the answer's frame.
pub(crate) fn exchange<L: Link>(
    alloc: Global,
    link: &mut L,
    asked: &[u8],
) -> Result<Vec<u8>, PipeFault>
    ensures exchanges { WhereTold (L.peer link.old) (L.peer link.new) (Exchanges asked.now result) }
    ensures long { IfOk result (λ body. IsAnswerLength (length body.items)) }
    ensures served { is_some (served_by (L.peer link.new)) ≡ is_some (served_by (L.peer link.old)) }
    ensures put_faults { L.put_faults link.old ≤ L.put_faults link.new }
    ensures take_faults { L.take_faults link.old ≤ L.take_faults link.new }
    ensures not_put { result ≡ Err PipeFault.NotPut → Rose (L.put_faults link.old) (L.put_faults link.new) }
    ensures not_taken { result ≡ Err PipeFault.NotTaken → Rose (L.take_faults link.old) (L.take_faults link.new) }
{
    match link.put(asked) {
        Ok(()) => take_frame(alloc, link),
        Err(_fault) => Err(PipeFault::NotPut),
    }
}
