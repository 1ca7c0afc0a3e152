//! One request answered by itself.

ghost use Rattle.std.specs.Prelude.{◌≡◌, length, IfOk, OnErr};
ghost use Rattle.remote_serve.specs.Answers.{Answer, IsAnswerTo, frame_of};
ghost use Rattle.remote_serve.specs.Requests.{IsRequest, HasWholeHeads, request_of};
ghost use Rattle.remote_serve.specs.Steps.{FramesAnswer, IsAnswered};

use crate::ask::Ask;
use crate::asking::ask_of;
use crate::refused::Refused;
use id_groups::Name;
use remote_trait::Remote;
use std::alloc::{AllocError, Global};

/// Room for so many names.
fn make_names(alloc: Global, count: usize) -> Result<Vec<Name>, AllocError>
    ensures { IfOk result (λ names. length names.items ≡ count) }
{
    vec![in alloc; Name::default(); count]
}

/// Room for the frame of a refusal.
fn make_spare(alloc: Global) -> Result<Vec<u8>, AllocError>
    ensures { IfOk result (λ spare. length spare.items ≡ 6) }
{
    Vec::from_slice(alloc, &Refused::Memory.frame())
}

/// The frame that was made, or the one that says why none was, for which there is room.
fn frame_in(made: Result<Vec<u8>, Refused>, mut spare: Vec<u8>) -> Vec<u8>
    requires { length spare.items ≡ 6 }
    ensures { (answer : Answer) → IsAnswered made answer → result.items ≡ frame_of answer }
{
    match made {
        Ok(frame) => frame,
        Err(refused) => {
            spare.copy_from_slice(&refused.frame());
            spare
        }
    }
}

/// The frame of the answer to what is asked. There is room for that of a refusal.
fn ask_frame<R: Remote>(
    alloc: Global,
    remote: &mut R,
    ask: Ask<'_>,
    spare: Vec<u8>,
) -> Result<Vec<u8>, AllocError>
    requires request { IsRequest (request_of ask) }
    requires whole { HasWholeHeads ask }
    requires spare { length spare.items ≡ 6 }
    ensures frame { IfOk result (λ frame. FramesAnswer (R.shown remote.old) (R.shown remote.new) (request_of ask.entry) frame.items) }
    ensures quiet { OnErr result (remote.new ≡ remote.old) }
{
    let mut names = make_names(alloc, ask.names())?;
    let made = ask_of(alloc, remote, &mut names, ask);
    Ok(frame_in(made, spare))
}

/// The frame of the answer to a body. `AllocError`, with nothing asked of the mirror, only for want of memory.
pub fn answer_frame<R: Remote>(
    alloc: Global,
    remote: &mut R,
    body: &[u8],
) -> Result<Vec<u8>, AllocError>
    ensures frame { IfOk result (λ frame. (answer : Answer) × IsAnswerTo body.now (R.shown remote.old) (R.shown remote.new) answer × (frame.items ≡ frame_of answer)) }
    ensures quiet { OnErr result (remote.new ≡ remote.old) }
{
    let spare = make_spare(alloc)?;
    match Ask::read(body) {
        None => Ok(frame_in(Err(Refused::NoRequest), spare)),
        Some(ask) => ask_frame(alloc, remote, ask, spare),
    }
}
