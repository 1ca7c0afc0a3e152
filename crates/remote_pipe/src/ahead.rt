//! What is asked ahead: requests for names that were put before their answers are taken.

ghost use Rattle.std.specs.Prelude.{◌≡◌, ◌≤◌, ◌<◌, ◌↔◌, ◌^◌, ◌++◌, ◌∷◌, [], ℕ, false, IsTrue, None, length, drop, IfOk, OnOk, OnErr};
ghost use Rattle.id_groups.specs.Name.{Name as NameBytes};
ghost use Rattle.remote_serve.specs.Requests.{ToRefresh, ToClone, ToNames, ToPath, IsRequest, most_names};
ghost use Rattle.remote_serve.specs.Answers.{Refreshed, Cloned, Led};
ghost use Rattle.remote_pipe.specs.Peer.{request_frame};
ghost use Rattle.remote_pipe.specs.Line.{Asks};
ghost use Rattle.remote_pipe.specs.Remote.{AsksNames};
ghost use Rattle.remote_pipe.specs.Steps.{PutsOne};
ghost use Rattle.remote_pipe.specs.Ahead.{most_ahead, request_of, PutsAll, PassesTo, Done, IsWanted, IsNext, TakesAhead, NamesAhead};

use crate::fault::PipeFault;
use crate::line::{Line, MOST_NAMES};
use crate::link::Link;
use crate::spelling::{name_size, names_frame};
use id_groups::Name;
use remote_trait::{CloneData, Path, RemoteFault, Run};
use std::alloc::{AllocError, Global};
use std::collections::VecDeque;

/// The most requests that are put ahead. Their frames are 37 bytes each and 2,368 together, less than any pipe holds: so one that is put
/// behind them never waits for the other end to take bytes, while that waits for this one to take answers.
const MOST_AHEAD: usize = 64;

/// A line, and what was asked ahead over it, whose answers weren't taken yet.
#[derive(Drop)]
pub(crate) struct Asker<L: Link + Drop> {
    pub(crate) line: Line<L>,
    pub(crate) queue: VecDeque<Run>,
}

impl<L: Link + Drop> Asker<L> {
    /// Nothing was asked yet.
    pub(crate) fn new(alloc: Global, link: L) -> Asker<L>
        ensures line { result.line ≡ record { peer = L.peer link; put_faults = L.put_faults link; take_faults = L.take_faults link; stopped = None; faults = 0 } }
        ensures queue { result.queue.items ≡ [] }
    {
        Asker {
            line: Line::new(link),
            queue: VecDeque::new(alloc),
        }
    }

    /// Why no more is asked, if no more is.
    pub(crate) fn stopped(&self) -> Option<PipeFault>
        ensures { result ≡ self.now.line.stopped }
    {
        self.line.stopped()
    }

    /// Whether runs may be told: something is asked still, and none that was told before waits. One that waits is passed by the next call,
    /// and those behind it would be put twice.
    pub(crate) fn is_free(&self) -> bool
        ensures { IsTrue result ↔ ((self.now.line.stopped ≡ None) × (self.now.queue.items ≡ [])) }
    {
        if !self.queue.is_empty() {
            return false;
        }
        self.line.stopped().is_none()
    }

    /// Whether a run may be asked ahead.
    fn may_put(&self, run: &Run) -> bool
        ensures { IsTrue result → (self.now.line.stopped ≡ None) × (length self.now.queue.items < most_ahead) × IsRequest (request_of run.now) }
    {
        if self.line.stopped().is_some() {
            return false;
        }
        if self.queue.len() >= MOST_AHEAD {
            return false;
        }
        is_request(&run.x, run.back, run.count)
    }

    /// Puts a run behind what was asked ahead, and answers its frame.
    fn keep(&mut self, alloc: Global, run: &Run) -> Result<Vec<u8>, AllocError>
        ensures frame { IfOk result (λ frame. frame.items ≡ request_frame (request_of run.now)) }
        ensures line { self.new.line ≡ self.old.line }
        ensures kept { OnOk result (self.new.queue.items ≡ self.old.queue.items ++ run.now ∷ []) }
        ensures same { OnErr result (self.new.queue.items ≡ self.old.queue.items) }
    {
        let frame = names_frame(alloc, &run.x, run.back, run.count)?;
        self.queue.push_back(*run)?;
        Ok(frame)
    }

    /// Asks for a run ahead, unless that may not be or memory is wanting, and answers whether its frame was put.
    fn put(&mut self, alloc: Global, run: &Run) -> bool
        ensures puts { PutsOne run.now self.old.queue.items self.old.line self.new.queue.items self.new.line result }
        ensures few { length self.old.queue.items ≤ most_ahead → length self.new.queue.items ≤ most_ahead }
    {
        if !self.may_put(run) {
            return false;
        }
        match self.keep(alloc, run) {
            Ok(frame) => self.line.put_ahead(&frame),
            Err(_refused) => false,
        }
    }

    /// Asks for the first of the runs ahead, as many as may be.
    pub(crate) fn expect(&mut self, alloc: Global, runs: &[Run])
        ensures puts { PutsAll runs.now self.old.queue.items self.old.line self.new.queue.items self.new.line }
        ensures few { length self.old.queue.items ≤ most_ahead → length self.new.queue.items ≤ most_ahead }
    {
        'runs: for run in runs {
            if !self.put(alloc, run) {
                return;
            }
        }
    }

    /// Takes the answers to all that was asked ahead, and throws them away.
    fn pass_all(&mut self, alloc: Global) -> Result<(), RemoteFault>
        ensures { PassesTo Done self.old.queue.items self.old.line self.new.queue.items self.new.line result }
    {
        'passes: loop {
            let Some(run) = self.queue.pop_front() else {
                return Ok(());
            };
            match self.line.pass(alloc, run.count) {
                Ok(()) => {}
                Err(fault) => return Err(fault),
            }
        }
    }

    /// Asks for a refresh.
    pub(crate) fn refresh(&mut self, alloc: Global) -> Result<(), RemoteFault>
        ensures { PassesTo (Asks ToRefresh (λ _. Refreshed)) self.old.queue.items self.old.line self.new.queue.items self.new.line result }
    {
        match self.pass_all(alloc) {
            Ok(()) => self.line.refresh(alloc),
            Err(fault) => Err(fault),
        }
    }

    /// Asks for clone data.
    pub(crate) fn clone_data(&mut self, alloc: Global) -> Result<CloneData, RemoteFault>
        ensures { PassesTo (Asks ToClone (λ told. Cloned told)) self.old.queue.items self.old.line self.new.queue.items self.new.line result }
    {
        match self.pass_all(alloc) {
            Ok(()) => self.line.clone_data(alloc),
            Err(fault) => Err(fault),
        }
    }

    /// Asks for a way.
    pub(crate) fn path(
        &mut self,
        alloc: Global,
        heads: &[Name],
        name: &Name,
    ) -> Result<Option<Path>, RemoteFault>
        ensures { PassesTo (Asks (ToPath heads.now name.now) (λ found. Led found)) self.old.queue.items self.old.line self.new.queue.items self.new.line result }
    {
        match self.pass_all(alloc) {
            Ok(()) => self.line.path(alloc, heads, name),
            Err(fault) => Err(fault),
        }
    }

    /// Whether these names were asked for ahead, before all else.
    fn is_next(&self, x: &Name, back: u64, room: usize) -> bool
        ensures yes { IsTrue result → IsNext x.now back room self.now.queue.items }
        ensures other { result ≡ false → IsNext x.now back room self.now.queue.items → ⊥ }
    {
        match self.queue.front() {
            Some(run) => is_wanted(run, x, back, room),
            None => false,
        }
    }

    /// Asks for names in blocks, behind all that was asked ahead.
    fn ask_names(
        &mut self,
        alloc: Global,
        x: &Name,
        back: u64,
        out: &mut [Name],
    ) -> Result<u32, RemoteFault>
        requires { length out.old < 2 ^ 32 }
        ensures count { IfOk result (λ n. n ≤ length out.old) }
        ensures asks { PassesTo (λ before now told. AsksNames x.now back (length out.old) before now told out.new) self.old.queue.items self.old.line self.new.queue.items self.new.line result }
    {
        match self.pass_all(alloc) {
            Ok(()) => self.line.names(alloc, x, back, out),
            Err(fault) => Err(fault),
        }
    }

    /// Takes the answer for names that were asked for ahead, before all else.
    fn take_names(&mut self, alloc: Global, out: &mut [Name]) -> Result<u32, RemoteFault>
        requires { length out.old ≤ most_names }
        ensures count { IfOk result (λ n. n ≤ length out.old) }
        ensures queue { self.new.queue.items ≡ drop 1 self.old.queue.items }
        ensures takes { (x : NameBytes) (back : ℕ) → TakesAhead (ToNames x back (length out.old)) out.new self.old.line self.new.line result }
    {
        self.queue.pop_front();
        self.line.take_names(alloc, out)
    }

    /// Answers names: of those that were asked for ahead the answer is taken.
    pub(crate) fn names(
        &mut self,
        alloc: Global,
        x: &Name,
        back: u64,
        out: &mut [Name],
    ) -> Result<u32, RemoteFault>
        requires { length out.old < 2 ^ 32 }
        ensures count { IfOk result (λ n. n ≤ length out.old) }
        ensures asks { NamesAhead x.now back (length out.old) self.old.queue.items self.old.line self.new.queue.items self.new.line result out.new }
    {
        if self.is_next(x, back, out.len()) {
            return self.take_names(alloc, out);
        }
        self.ask_names(alloc, x, back, out)
    }
}

/// Whether one request may be for these names.
fn is_request(x: &Name, back: u64, count: u32) -> bool
    ensures { IsTrue result → IsRequest (ToNames x.now back count) }
{
    name_size(x);
    if count == 0 {
        return false;
    }
    if count > MOST_NAMES {
        return false;
    }
    true
}

/// Whether a run is of these names, and those are what one request may be for.
fn is_wanted(run: &Run, x: &Name, back: u64, room: usize) -> bool
    ensures yes { IsTrue result → IsWanted x.now back room run.now }
    ensures other { result ≡ false → IsWanted x.now back room run.now → ⊥ }
{
    name_size(x);
    run.x == *x
        && run.back == back
        && run.count as usize == room
        && 1 <= room
        && room <= MOST_NAMES as usize
}
