//! The loop.

ghost use Rattle.std.specs.Prelude.{◌≡◌, ◌≢◌, ◌≤◌, ◌<◌, ℕ, length, map, IfErr, IfOk, IsOk, IsErr, Err};
ghost use Rattle.outside.specs.Counts.{Rose};
ghost use Rattle.outside.specs.Told.{WhereTold, Puts};
ghost use Rattle.line_io.specs.Reading.{new_reading, budget};
ghost use Rattle.remote_rules.specs.Mirror.{Mirror};
ghost use Rattle.remote_serve.specs.Requests.{most_names};
ghost use Rattle.remote_serve.specs.Answers.{Answer, IsAnswerTo, frame_of};
ghost use Rattle.remote_serve.specs.Ends.{EndsAs, ServesOnly};
ghost use Rattle.remote_serve.specs.Steps.{Ports, ports, served_streams, IsAnswered, Serving, TurnServes};

use crate::asking::answer;
use crate::frames::Frames;
use crate::refused::Refused;
use crate::served::Served;
use id_groups::Name;
use line_io::{Sink, Source};
use remote_trait::Remote;
use std::alloc::{AllocError, Global};
use std::marker::Model;

/// The most names that one request asks for, or has.
const MOST_NAMES: usize = 65_536;

/// Puts bytes.
fn put_bytes<O: Sink>(bytes: &[u8], output: &mut O) -> Result<(), Served>
    ensures bytes { Puts (O.taken output.old) (O.taken output.new) result bytes.now }
    ensures fault { IfErr result (λ end. end ≡ Served.SinkFault) }
    ensures sink { IsErr result → Rose (O.faults output.old) (O.faults output.new) }
    ensures later { O.faults output.old ≤ O.faults output.new }
{
    match output.put(bytes) {
        Ok(()) => Ok(()),
        Err(_) => Err(Served::SinkFault),
    }
}

/// Puts the frame that was made, or the one that says why none was.
fn put_frame<O: Sink>(made: &Result<Vec<u8>, Refused>, output: &mut O) -> Result<(), Served>
    ensures frame { (answer : Answer) → IsAnswered made.now answer → Puts (O.taken output.old) (O.taken output.new) result (frame_of answer) }
    ensures fault { IfErr result (λ end. end ≡ Served.SinkFault) }
    ensures sink { IsErr result → Rose (O.faults output.old) (O.faults output.new) }
    ensures later { O.faults output.old ≤ O.faults output.new }
{
    match made {
        Ok(frame) => put_bytes(frame, output),
        Err(refused) => put_bytes(&refused.frame(), output),
    }
}

/// Puts the answer to a body.
fn put_answer<R: Remote, O: Sink>(
    alloc: Global,
    remote: &mut R,
    room: &mut [Name],
    body: &[u8],
    output: &mut O,
) -> Result<(), Served>
    requires { length room.old ≡ most_names }
    ensures answer { (answer : Answer) × IsAnswerTo body.now (R.shown remote.old) (R.shown remote.new) answer
        × Puts (O.taken output.old) (O.taken output.new) result (frame_of answer) }
    ensures room { length room.new ≡ most_names }
    ensures fault { IfErr result (λ end. end ≡ Served.SinkFault) }
    ensures sink { IsErr result → Rose (O.faults output.old) (O.faults output.new) }
    ensures later { O.faults output.old ≤ O.faults output.new }
{
    let made = answer(alloc, remote, room, body);
    put_frame(&made, output)
}

/// Reads a frame and answers it.
fn serve_next<R: Remote, I: Source, O: Sink>(
    alloc: Global,
    remote: &mut R,
    room: &mut [Name],
    frames: &mut Frames,
    input: &mut I,
    output: &mut O,
) -> Result<(), Served>
    requires { length room.old ≡ most_names }
    ensures means { WhereTold (ports (I.left input.old) (O.taken output.old)) (ports (I.left input.new) (O.taken output.new))
        (λ now after. (limit : ℕ) (before : Ports) (first : Mirror) → Serving limit before first frames.old now (R.shown remote.old)
        → TurnServes limit before first frames.new result after (R.shown remote.new)) }
    ensures room { length room.new ≡ most_names }
    ensures less { IsOk result → budget frames.new < budget frames.old }
    ensures end { IfErr result (λ end. end ≢ Served.Memory) }
    ensures source { result ≡ Err Served.SourceFault → Rose (I.faults input.old) (I.faults input.new) }
    ensures sink { result ≡ Err Served.SinkFault → Rose (O.faults output.old) (O.faults output.new) }
    ensures source_later { I.faults input.old ≤ I.faults input.new }
    ensures sink_later { O.faults output.old ≤ O.faults output.new }
{
    match frames.next(input) {
        Ok(()) => put_answer(alloc, remote, room, frames.body(), output),
        Err(end) => Err(end),
    }
}

/// Reads and answers all frames.
fn serve_all<R: Remote, I: Source, O: Sink>(
    alloc: Global,
    remote: &mut R,
    room: &mut [Name],
    frames: &mut Frames,
    input: &mut I,
    output: &mut O,
) -> Served
    requires { length room.old ≡ most_names }
    ensures means { WhereTold (ports (I.left input.old) (O.taken output.old)) (ports (I.left input.new) (O.taken output.new))
        (λ now after. (limit : ℕ) (before : Ports) (first : Mirror) → Serving limit before first frames.old now (R.shown remote.old)
        → EndsAs result limit (served_streams before after) first (R.shown remote.new)) }
    ensures end { result ≢ Served.Memory }
    ensures source { result ≡ Served.SourceFault → Rose (I.faults input.old) (I.faults input.new) }
    ensures sink { result ≡ Served.SinkFault → Rose (O.faults output.old) (O.faults output.new) }
    ensures source_later { I.faults input.old ≤ I.faults input.new }
    ensures sink_later { O.faults output.old ≤ O.faults output.new }
{
    'frames: loop {
        match serve_next(alloc, remote, room, frames, input, output) {
            Ok(()) => {}
            Err(end) => return end,
        }
    }
}

fn make_room(alloc: Global) -> Result<Vec<Name>, AllocError>
    ensures { IfOk result (λ room. length room.items ≡ most_names) }
{
    vec![in alloc; Name::default(); MOST_NAMES]
}

/// All memory that serving takes before the first frame: room for a frame, and for the names of one request.
#[derive(Drop)]
pub struct Desk {
    frames: Frames,
    names: Vec<Name>,
}

impl Model for Desk {
    ghost use Rattle.std.specs.Prelude.{◌≡◌, length};
    ghost use Rattle.line_io.specs.Reading.{Reading};
    ghost use Rattle.remote_serve.specs.Requests.{most_names};

    ghost Value = { Reading };

    ghost view = { λ d. d.frames };

    ghost invariant = { λ d. length d.names.items ≡ most_names };
}

impl Desk {
    /// The memory to serve an input of which `limit` bytes count.
    pub fn new(alloc: Global, limit: u64) -> Result<Desk, AllocError>
        ensures { IfOk result (λ desk. desk ≡ new_reading limit) }
    {
        let frames = Frames::new(alloc, limit)?;
        let names = make_room(alloc)?;
        Ok(Desk { frames, names })
    }

    /// Reads requests in frames, asks the mirror, and puts the answers in frames. Each answer is put before the next frame is read.
    /// It never ends for want of memory.
    pub fn serve<R: Remote, I: Source, O: Sink>(
        self,
        alloc: Global,
        remote: &mut R,
        input: &mut I,
        output: &mut O,
    ) -> Served
        ensures serves { (limit : ℕ) → self ≡ new_reading limit → WhereTold (ports (I.left input.old) (O.taken output.old)) (ports (I.left input.new) (O.taken output.new))
            (λ before after. EndsAs result limit (served_streams before after) (R.shown remote.old) (R.shown remote.new)) }
        ensures end { result ≢ Served.Memory }
        ensures source { result ≡ Served.SourceFault → Rose (I.faults input.old) (I.faults input.new) }
        ensures sink { result ≡ Served.SinkFault → Rose (O.faults output.old) (O.faults output.new) }
        ensures source_later { I.faults input.old ≤ I.faults input.new }
        ensures sink_later { O.faults output.old ≤ O.faults output.new }
    {
        let Desk {
            mut frames,
            mut names,
        } = self;
        serve_all(alloc, remote, &mut names, &mut frames, input, output)
    }

    /// Serves the one remote of a list.
    pub fn serve_only<R: Remote, I: Source, O: Sink>(
        self,
        alloc: Global,
        list: &mut Vec<R>,
        input: &mut I,
        output: &mut O,
    ) -> Served
        requires one { length list.old.items ≡ 1 }
        ensures serves { (limit : ℕ) → self ≡ new_reading limit → WhereTold (ports (I.left input.old) (O.taken output.old)) (ports (I.left input.new) (O.taken output.new))
            (λ before after. ServesOnly result limit (served_streams before after) (map R.shown list.old.items) (map R.shown list.new.items)) }
        ensures len { length list.new.items ≡ length list.old.items }
        ensures end { result ≢ Served.Memory }
        ensures source { result ≡ Served.SourceFault → Rose (I.faults input.old) (I.faults input.new) }
        ensures sink { result ≡ Served.SinkFault → Rose (O.faults output.old) (O.faults output.new) }
        ensures source_later { I.faults input.old ≤ I.faults input.new }
        ensures sink_later { O.faults output.old ≤ O.faults output.new }
    {
        let remote = &mut list[0];
        self.serve(alloc, remote, input, output)
    }
}

/// Reads requests in frames, of an input of which `limit` bytes count, asks the mirror, and puts the answers in frames. Each answer is
/// put before the next frame is read.
pub fn serve_remote<R: Remote, I: Source, O: Sink>(
    alloc: Global,
    remote: &mut R,
    input: &mut I,
    output: &mut O,
    limit: u64,
) -> Served
    ensures serves { WhereTold (ports (I.left input.old) (O.taken output.old)) (ports (I.left input.new) (O.taken output.new))
        (λ before after. EndsAs result limit (served_streams before after) (R.shown remote.old) (R.shown remote.new)) }
    ensures quiet { result ≡ Served.Memory → (input.new ≡ input.old) × (output.new ≡ output.old) × (remote.new ≡ remote.old) }
    ensures source { result ≡ Served.SourceFault → Rose (I.faults input.old) (I.faults input.new) }
    ensures sink { result ≡ Served.SinkFault → Rose (O.faults output.old) (O.faults output.new) }
    ensures source_later { I.faults input.old ≤ I.faults input.new }
    ensures sink_later { O.faults output.old ≤ O.faults output.new }
{
    match Desk::new(alloc, limit) {
        Ok(desk) => desk.serve(alloc, remote, input, output),
        Err(AllocError) => Served::Memory,
    }
}

/// Serves a mirror, as `serve_remote` does.
pub fn serve<I: Source, O: Sink>(
    alloc: Global,
    remote: &mut Box<dyn Remote>,
    input: &mut I,
    output: &mut O,
    limit: u64,
) -> Served
    ensures serves { WhereTold (ports (I.left input.old) (O.taken output.old)) (ports (I.left input.new) (O.taken output.new))
        (λ before after. EndsAs result limit (served_streams before after) (shown remote.old) (shown remote.new)) }
    ensures quiet { result ≡ Served.Memory → (input.new ≡ input.old) × (output.new ≡ output.old) × (remote.new ≡ remote.old) }
    ensures source { result ≡ Served.SourceFault → Rose (I.faults input.old) (I.faults input.new) }
    ensures sink { result ≡ Served.SinkFault → Rose (O.faults output.old) (O.faults output.new) }
    ensures source_later { I.faults input.old ≤ I.faults input.new }
    ensures sink_later { O.faults output.old ≤ O.faults output.new }
{
    serve_remote(alloc, remote, input, output, limit)
}
