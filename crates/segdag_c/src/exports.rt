//! The functions that C calls.

ghost use Rattle.std.specs.Prelude.{◌≡◌, ◌-◌, ◌++◌, ⊤, ℕ, length, min, take, drop, option_copied};
ghost use Rattle.call_disk.specs.Noted.{said_of, first_call};
ghost use Rattle.call_disk.specs.Awaited.{awaited};
ghost use Rattle.call_disk.specs.Performed.{HonestDisk};
ghost use Rattle.segdag_c.specs.Awaits.{IsPerformed, IsSaid, piece_of};
ghost use Rattle.segdag_c.specs.Answers.{LineCame};
ghost use Rattle.segdag_c.specs.Calls.{AddCame, IdCame, IsCopied, TextCountCame, TextQueryCame};
ghost use Rattle.segdag_c.specs.Codes.{failure_code};
ghost use Rattle.segdag_c.specs.Following.{EndCame, MoreCame};
ghost use Rattle.segdag_c.specs.Handles.{Gives, LeavesClosed, SlotAnswers, SlotCalls, SlotCloses, SlotSays, code_of as told_code};
ghost use Rattle.segdag_c.specs.Loads.{SlotLoads};
ghost use Rattle.segdag_c.specs.Renewed.{AddMirrorCame, RenewCame};
ghost use Rattle.segdag_c.specs.Typed.{id_told};

use crate::answering::answer_line;
use crate::calls::{add, count, id, query};
use crate::codes::{DONE, Failure, code_of};
use crate::following::{end_of, take_more};
use crate::held::Held;
use crate::loading::load_log;
use crate::mirroring::{add_mirror, renew_mirror};
use crate::slot::{Slot, put, take};
use call_disk::NotedCall;
use dag_store::Added;
use id_groups::{Id, Name};
use std::alloc::Global;

/// The code where no log is open.
pub(crate) fn closed() -> u32
    ensures { result ≡ 17 }
{
    code_of(Failure::Closed)
}

/// Loads the log that these bytes are, the whole of its file, with room for so many names of mirrors. What is to be performed before it counts
/// is noted. What is said of the disk holds of each that has the bytes.
#[unsafe(no_mangle)]
pub extern "C" fn segdag_core_load(alloc: Global, slot: &mut Slot, bytes: &[u8], cache: u32) -> u32
    ghost disk: { HonestDisk }
    ensures { SlotLoads slot.old.handle.held bytes.now cache disk.told slot.new.handle.held result }
{
    if slot.is_open {
        return code_of(Failure::AlreadyOpen);
    }
    if cache == 0 {
        return code_of(Failure::Argument);
    }
    match load_log(alloc, bytes, cache) {
        Ok(held) => match Box::new(alloc, held) {
            Ok(held) => {
                put(slot, held);
                DONE
            }
            Err(_) => code_of(Failure::Memory),
        },
        Err(failure) => code_of(failure),
    }
}

/// Closes the log. What wasn't flushed is gone.
#[unsafe(no_mangle)]
pub extern "C" fn segdag_core_close(alloc: Global, slot: &mut Slot) -> u32
    ensures { SlotCloses slot.old.handle.held slot.new.handle.held result }
{
    match take(alloc, slot) {
        Some(held) => {
            drop(held);
            DONE
        }
        None => closed(),
    }
}

/// The kind of a call that there is none of.
const NOTHING: u32 = 0;

/// The kind of a write.
const WRITE: u32 = 1;

/// The kind of a sync.
const SYNC: u32 = 2;

/// What is to be performed next: its kind, and of a write its place and how many bytes it has.
fn parts_of(next: Option<&NotedCall>) -> (u32, u64, usize)
    ensures { IsSaid (said_of (option_copied next.entry)) result.0 result.1 result.2 }
{
    match next {
        Some(NotedCall::Write(at, piece)) => (WRITE, *at, piece.len()),
        Some(NotedCall::Sync) => (SYNC, 0, 0),
        None => (NOTHING, 0, 0),
    }
}

/// Says which call of the disk is to be performed next.
#[unsafe(no_mangle)]
pub extern "C" fn segdag_core_next(
    alloc: Global,
    slot: &mut Slot,
    kind: &mut u32,
    at: &mut u64,
    size: &mut usize,
) -> u32
    ensures { SlotSays slot.old.handle.held slot.new.handle.held result ((kind.new ≡ kind.old) × (at.new ≡ at.old) × (size.new ≡ size.old)) (λ held. IsSaid (first_call (awaited held.log)) kind.new at.new size.new) }
{
    match take(alloc, slot) {
        Some(held) => {
            let parts = parts_of(held.log.next());
            *kind = parts.0;
            *at = parts.1;
            *size = parts.2;
            put(slot, held);
            DONE
        }
        None => closed(),
    }
}

/// Copies the bytes from a place on to the front of `out`, as many as there are and fit, and answers how many.
fn copy_from(bytes: &[u8], from: usize, out: &mut [u8]) -> usize
    ensures count { result ≡ min (length out.old) (length bytes.now - from) }
    ensures bytes { out.new ≡ take result (drop from bytes.now) ++ drop result out.old }
{
    if from >= bytes.len() {
        return 0;
    }
    let rest = &bytes[from..];
    let count = rest.len().min(out.len());
    out[..count].copy_from_slice(&rest[..count]);
    count
}

/// Copies of the piece that is to be written next.
fn copy_piece(next: Option<&NotedCall>, from: usize, out: &mut [u8]) -> usize
    ensures { IsCopied (piece_of (said_of (option_copied next.entry))) from result out.old out.new }
{
    match next {
        Some(NotedCall::Write(_, piece)) => copy_from(piece, from, out),
        Some(NotedCall::Sync) | None => copy_from(&[], from, out),
    }
}

/// Copies of the piece that is to be written next, from a byte on, and says how many bytes.
#[unsafe(no_mangle)]
pub extern "C" fn segdag_core_piece(
    alloc: Global,
    slot: &mut Slot,
    from: usize,
    out: &mut [u8],
    copied: &mut usize,
) -> u32
    ensures { SlotSays slot.old.handle.held slot.new.handle.held result ((copied.new ≡ copied.old) × (out.new ≡ out.old)) (λ held. IsCopied (piece_of (first_call (awaited held.log))) from copied.new out.old out.new) }
{
    match take(alloc, slot) {
        Some(held) => {
            *copied = copy_piece(held.log.next(), from, out);
            put(slot, held);
            DONE
        }
        None => closed(),
    }
}

/// Lets the next call of the disk go, which was performed.
#[unsafe(no_mangle)]
pub extern "C" fn segdag_core_performed(alloc: Global, slot: &mut Slot) -> u32
    ensures { SlotCalls slot.old.handle.held slot.new.handle.held result ⊤ (λ before after. (result ≡ 0) × IsPerformed before after) }
{
    match take(alloc, slot) {
        Some(taken) => {
            let mut held = taken;
            held.log.performed();
            put(slot, held);
            DONE
        }
        None => closed(),
    }
}

/// Answers a command line of an open log, and says how many bytes the reply has.
fn tell_line(
    alloc: Global,
    held: &mut Held,
    line: &[u8],
    reply_size: &mut usize,
) -> Result<(), Failure>
    ghost disk: { HonestDisk }
    ensures came { LineCame line.now disk.told held.old held.new result }
    ensures size { reply_size.new ≡ length held.new.reply.taken }
{
    let answered = answer_line(alloc, held, line);
    *reply_size = held.reply.bytes().len();
    answered
}

/// Answers a command line, and says how many bytes the reply has. A line with no reply has an empty one. What is said of the disk holds of
/// each that has the log, once all that was noted before is performed.
#[unsafe(no_mangle)]
pub extern "C" fn segdag_core_line(
    alloc: Global,
    slot: &mut Slot,
    line: &[u8],
    reply_size: &mut usize,
) -> u32
    ghost disk: { HonestDisk }
    ensures { SlotAnswers slot.old.handle.held slot.new.handle.held result (λ before after answer. (reply_size.new ≡ length after.reply.taken) × LineCame line.now disk.told before after answer) (λ answer. LeavesClosed slot.old.handle.held reply_size.old reply_size.new) }
{
    match take(alloc, slot) {
        Some(taken) => {
            let mut held = taken;
            let answered = tell_line(alloc, &mut *held, line, reply_size);
            put(slot, held);
            code_of_done(answered)
        }
        None => closed(),
    }
}

/// Copies of the last reply from a byte on, and says how many bytes.
#[unsafe(no_mangle)]
pub extern "C" fn segdag_core_reply(
    alloc: Global,
    slot: &mut Slot,
    from: usize,
    out: &mut [u8],
    copied: &mut usize,
) -> u32
    ensures { SlotSays slot.old.handle.held slot.new.handle.held result ((copied.new ≡ copied.old) × (out.new ≡ out.old)) (λ held. IsCopied held.reply.taken from copied.new out.old out.new) }
{
    match take(alloc, slot) {
        Some(held) => {
            *copied = copy_from(held.reply.bytes(), from, out);
            put(slot, held);
            DONE
        }
        None => closed(),
    }
}

/// The id of what was added.
fn id_of(added: Added) -> Id
    ensures { result ≡ id_told added }
{
    match added {
        Added::New(id) => id,
        Added::Old(id) => id,
    }
}

/// Tells what came of an add: its id, where there is one.
fn tell_added(answer: Result<Added, Failure>, number: &mut u64) -> u32
    ensures code { result ≡ told_code answer }
    ensures number { Gives id_told number.old number.new answer }
{
    match answer {
        Ok(added) => {
            *number = id_of(added).number();
            DONE
        }
        Err(failure) => code_of(failure),
    }
}

/// Adds a commit with these parents, 20 bytes each, to a session, and says its id.
#[unsafe(no_mangle)]
pub extern "C" fn segdag_core_add(
    alloc: Global,
    slot: &mut Slot,
    session: u8,
    name: &[u8; 20],
    parents: &[u8],
    number: &mut u64,
) -> u32
    ensures { SlotAnswers slot.old.handle.held slot.new.handle.held result (AddCame session name.now parents.now) (Gives id_told number.old number.new) }
{
    match take(alloc, slot) {
        Some(taken) => {
            let mut held = taken;
            let answer = add(
                alloc,
                &mut *held,
                session,
                &Name::from_bytes(*name),
                parents,
            );
            put(slot, held);
            tell_added(answer, number)
        }
        None => closed(),
    }
}

/// Tells an id, where there is one.
fn tell_id(answer: Result<Id, Failure>, number: &mut u64) -> u32
    ensures code { result ≡ told_code answer }
    ensures number { Gives (λ (n : ℕ). n) number.old number.new answer }
{
    match answer {
        Ok(id) => {
            *number = id.number();
            DONE
        }
        Err(failure) => code_of(failure),
    }
}

/// Says the id of a commit that a session sees.
#[unsafe(no_mangle)]
pub extern "C" fn segdag_core_id(
    alloc: Global,
    slot: &mut Slot,
    session: u8,
    name: &[u8; 20],
    number: &mut u64,
) -> u32
    ensures { SlotAnswers slot.old.handle.held slot.new.handle.held result (IdCame session name.now) (Gives (λ (n : ℕ). n) number.old number.new) }
{
    match take(alloc, slot) {
        Some(taken) => {
            let mut held = taken;
            let answer = id(&mut *held, session, &Name::from_bytes(*name));
            put(slot, held);
            tell_id(answer, number)
        }
        None => closed(),
    }
}

/// Tells a count, where there is one.
pub(crate) fn tell_count(answer: Result<u64, Failure>, total: &mut u64) -> u32
    ensures code { result ≡ told_code answer }
    ensures number { Gives (λ (n : ℕ). n) total.old total.new answer }
{
    match answer {
        Ok(count) => {
            *total = count;
            DONE
        }
        Err(failure) => code_of(failure),
    }
}

/// Says how many members the expression that a text spells has in a session.
#[unsafe(no_mangle)]
pub extern "C" fn segdag_core_count(
    alloc: Global,
    slot: &mut Slot,
    session: u8,
    text: &[u8],
    total: &mut u64,
) -> u32
    ensures { SlotAnswers slot.old.handle.held slot.new.handle.held result (TextCountCame session text.now) (Gives (λ (n : ℕ). n) total.old total.new) }
{
    match take(alloc, slot) {
        Some(taken) => {
            let mut held = taken;
            let answer = count(alloc, &mut *held, session, text);
            put(slot, held);
            tell_count(answer, total)
        }
        None => closed(),
    }
}

/// Tells how many bytes names have, where there are some.
pub(crate) fn tell_size(answer: Result<usize, Failure>, size: &mut usize) -> u32
    ensures code { result ≡ told_code answer }
    ensures number { Gives (λ (n : ℕ). n) size.old size.new answer }
{
    match answer {
        Ok(bytes) => {
            *size = bytes;
            DONE
        }
        Err(failure) => code_of(failure),
    }
}

/// Finds the members of the expression that a text spells in a session, keeps their names, the greatest id first, and says how many
/// bytes these have, 20 each.
#[unsafe(no_mangle)]
pub extern "C" fn segdag_core_query(
    alloc: Global,
    slot: &mut Slot,
    session: u8,
    text: &[u8],
    size: &mut usize,
) -> u32
    ensures { SlotAnswers slot.old.handle.held slot.new.handle.held result (TextQueryCame session text.now) (Gives (λ (n : ℕ). n) size.old size.new) }
{
    match take(alloc, slot) {
        Some(taken) => {
            let mut held = taken;
            let answer = query(alloc, &mut *held, session, text);
            put(slot, held);
            tell_size(answer, size)
        }
        None => closed(),
    }
}

/// Copies of the names of the last query, from a byte on, and says how many bytes.
#[unsafe(no_mangle)]
pub extern "C" fn segdag_core_names(
    alloc: Global,
    slot: &mut Slot,
    from: usize,
    out: &mut [u8],
    copied: &mut usize,
) -> u32
    ensures { SlotSays slot.old.handle.held slot.new.handle.held result ((copied.new ≡ copied.old) × (out.new ≡ out.old)) (λ held. IsCopied held.names.items from copied.new out.old out.new) }
{
    match take(alloc, slot) {
        Some(held) => {
            *copied = copy_from(&held.names, from, out);
            put(slot, held);
            DONE
        }
        None => closed(),
    }
}

/// The code of a call that gives nothing.
fn code_of_done(done: Result<(), Failure>) -> u32
    ensures { result ≡ told_code done }
{
    match done {
        Ok(()) => DONE,
        Err(failure) => code_of(failure),
    }
}

/// Adds a mirror behind the others, of which C speaks by this number: a log is of kind 0, a bundle of kind 1. Each call on it fails
/// until it is renewed.
#[unsafe(no_mangle)]
pub extern "C" fn segdag_core_add_mirror(
    alloc: Global,
    slot: &mut Slot,
    number: u32,
    kind: u32,
) -> u32
    ensures { SlotAnswers slot.old.handle.held slot.new.handle.held result (AddMirrorCame number kind) (λ answer. ⊤) }
{
    match take(alloc, slot) {
        Some(taken) => {
            let mut held = taken;
            let done = add_mirror(alloc, &mut *held, number, kind);
            put(slot, held);
            code_of_done(done)
        }
        None => closed(),
    }
}

/// Gives the mirror with this number a copy of these bytes, the whole of its file, or says that it isn't there.
#[unsafe(no_mangle)]
pub extern "C" fn segdag_core_renew_mirror(
    alloc: Global,
    slot: &mut Slot,
    number: u32,
    is_there: bool,
    bytes: &[u8],
) -> u32
    ensures { SlotAnswers slot.old.handle.held slot.new.handle.held result (RenewCame number is_there bytes.now) (λ answer. ⊤) }
{
    match take(alloc, slot) {
        Some(taken) => {
            let mut held = taken;
            let done = renew_mirror(alloc, &mut *held, number, is_there, bytes);
            put(slot, held);
            code_of_done(done)
        }
        None => closed(),
    }
}

/// Tells where the log goes on, where there is one.
fn tell_end(answer: Result<u64, Failure>, at: &mut u64) -> u32
    ensures code { result ≡ told_code answer }
    ensures number { Gives (λ (n : ℕ). n) at.old at.new answer }
{
    match answer {
        Ok(end) => {
            *at = end;
            DONE
        }
        Err(failure) => code_of(failure),
    }
}

/// Says where in its file the log goes on: the place of its closed gate, from which on `segdag_core_more` takes bytes.
#[unsafe(no_mangle)]
pub extern "C" fn segdag_core_end(alloc: Global, slot: &mut Slot, at: &mut u64) -> u32
    ensures { SlotAnswers slot.old.handle.held slot.new.handle.held result EndCame (Gives (λ (n : ℕ). n) at.old at.new) }
{
    match take(alloc, slot) {
        Some(held) => {
            let end = end_of(&held);
            put(slot, held);
            tell_end(end, at)
        }
        None => closed(),
    }
}

/// Takes what another process has stored: these bytes, from the place that `segdag_core_end` says to the end of the file. Says how many
/// payloads were taken. Each session stays where it is until it is reloaded.
#[unsafe(no_mangle)]
pub extern "C" fn segdag_core_more(
    alloc: Global,
    slot: &mut Slot,
    bytes: &[u8],
    count: &mut u32,
) -> u32
    ensures { SlotAnswers slot.old.handle.held slot.new.handle.held result (MoreCame bytes.now count.new) (λ answer. LeavesClosed slot.old.handle.held count.old count.new) }
{
    match take(alloc, slot) {
        Some(taken) => {
            let mut held = taken;
            let done = take_more(alloc, &mut *held, bytes, count);
            put(slot, held);
            code_of_done(done)
        }
        None => closed(),
    }
}
