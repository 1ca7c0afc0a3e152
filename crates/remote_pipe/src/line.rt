//! Asking over a link, until its stream is out of step.

ghost use Rattle.std.specs.Prelude.{◌≡◌, ◌≤◌, ◌<◌, ◌^◌, ◌+◌, ℕ, List, length, take, None, Some, Err, is_some, IfOk, min};
ghost use Rattle.id_groups.specs.Name.{Name as NameBytes};
ghost use Rattle.outside.specs.Counts.{Rose, last_count};
ghost use Rattle.outside.specs.Told.{WhereTold};
ghost use Rattle.remote_pipe.specs.Answering.{IsAnswerLength};
ghost use Rattle.remote_pipe.specs.Exchange.{Exchanges};
ghost use Rattle.remote_serve.specs.Requests.{ToRefresh, ToClone, ToNames, ToPath, most_names};
ghost use Rattle.remote_serve.specs.Answers.{Refreshed, Cloned, Named, Led};
ghost use Rattle.remote_pipe.specs.Line.{Keeps, Asks, CountsOne, served_by};
ghost use Rattle.remote_pipe.specs.Remote.{AsksNames, block_of};
ghost use Rattle.remote_pipe.specs.Ahead.{PutsAhead, Passes, TakesAhead};
ghost use Rattle.remote_pipe.specs.Steps.{GetsBody, GetsTaken, TakesFrame, LetsBy, EndsRead, LeavesLink};

use crate::exchange::{exchange, take_frame};
use crate::fault::PipeFault;
use crate::link::Link;
use crate::reading::{ReadFault, are_fit, read_clone, read_names, read_path, read_refreshed};
use crate::spelling::{clone_frame, name_size, names_frame, names_size, path_frame, refresh_frame};
use id_groups::Name;
use remote_trait::{CloneData, Path, RemoteFault};
use std::alloc::{AllocError, Global};
use std::marker::Model;

/// The most names that one request asks for.
pub(crate) const MOST_NAMES: u32 = 65_536;

/// The most heads that one request names.
const MOST_HEADS: usize = 65_535;

/// A link, why no more is asked over it if no more is, and how many calls failed.
#[derive(Drop)]
pub(crate) struct Line<L: Link + Drop> {
    link: L,
    stopped: Option<PipeFault>,
    faults: u64,
}

impl<L: Link + Drop> Model for Line<L> {
    ghost use Rattle.remote_pipe.specs.Line.{PlainLine};

    ghost Value = { PlainLine };

    ghost view = { λ l. record { peer = L.peer l.link; put_faults = L.put_faults l.link; take_faults = L.take_faults l.link; stopped = l.stopped; faults = l.faults } };
}

impl<L: Link + Drop> Line<L> {
    /// Nothing was asked yet.
    pub(crate) fn new(link: L) -> Line<L>
        ensures { result ≡ record { peer = L.peer link; put_faults = L.put_faults link; take_faults = L.take_faults link; stopped = None; faults = 0 } }
    {
        Line {
            link,
            stopped: None,
            faults: 0,
        }
    }

    /// Why no more is asked, if no more is.
    pub(crate) fn stopped(&self) -> Option<PipeFault>
        ensures { result ≡ self.now.stopped }
    {
        self.stopped
    }

    /// Counts a call that failed.
    fn fail(&mut self) -> RemoteFault
        ensures counted { self.new ≡ record self.old { faults = min (self.old.faults + 1) last_count } }
        ensures link { LeavesLink self.old self.new }
        ensures later { self.old.faults ≤ self.new.faults }
        ensures failed { result ≡ RemoteFault.Failed }
    {
        self.faults = self.faults.saturating_add(1);
        RemoteFault::Failed
    }

    /// Puts what is asked, in its frame, and takes the body of the answer's frame.
    fn trade(&mut self, alloc: Global, asked: &[u8]) -> Result<Vec<u8>, PipeFault>
        ensures exchanges { WhereTold self.old.peer self.new.peer (Exchanges asked.now result) }
        ensures served { is_some (served_by self.new.peer) ≡ is_some (served_by self.old.peer) }
        ensures put_faults { self.old.put_faults ≤ self.new.put_faults }
        ensures take_faults { self.old.take_faults ≤ self.new.take_faults }
        ensures not_put { result ≡ Err PipeFault.NotPut → Rose self.old.put_faults self.new.put_faults }
        ensures not_taken { result ≡ Err PipeFault.NotTaken → Rose self.old.take_faults self.new.take_faults }
        ensures stopped { self.new.stopped ≡ self.old.stopped }
        ensures faults { self.new.faults ≡ self.old.faults }
        ensures long { IfOk result (λ body. IsAnswerLength (length body.items)) }
    {
        exchange(alloc, &mut self.link, asked)
    }

    /// The same, unless no more is asked.
    fn body(
        &mut self,
        alloc: Global,
        asked: Result<Vec<u8>, AllocError>,
    ) -> Result<Vec<u8>, RemoteFault>
        ensures keeps { Keeps self.old self.new }
        ensures gets { (bytes : List ℕ) → IfOk asked (λ made. made.items ≡ bytes) → GetsBody bytes self.old self.new result }
    {
        if self.stopped.is_some() {
            return Err(self.fail());
        }
        match asked {
            Ok(asked) => self.traded(alloc, &asked),
            Err(_refused) => Err(RemoteFault::Memory),
        }
    }

    /// The same of what was made to be asked, where more is asked.
    fn traded(&mut self, alloc: Global, asked: &[u8]) -> Result<Vec<u8>, RemoteFault>
        requires { self.old.stopped ≡ None }
        ensures keeps { Keeps self.old self.new }
        ensures gets { GetsBody asked.now self.old self.new result }
    {
        match self.trade(alloc, asked) {
            Ok(body) => Ok(body),
            Err(fault) => Err(self.stop(fault)),
        }
    }

    /// Takes the body of the next frame.
    fn take(&mut self, alloc: Global) -> Result<Vec<u8>, PipeFault>
        ensures takes { WhereTold self.old.peer self.new.peer (TakesFrame result) }
        ensures served { is_some (served_by self.new.peer) ≡ is_some (served_by self.old.peer) }
        ensures put_faults { self.old.put_faults ≤ self.new.put_faults }
        ensures take_faults { self.old.take_faults ≤ self.new.take_faults }
        ensures which { result ≡ Err PipeFault.NotPut → ⊥ }
        ensures not_taken { result ≡ Err PipeFault.NotTaken → Rose self.old.take_faults self.new.take_faults }
        ensures stopped { self.new.stopped ≡ self.old.stopped }
        ensures faults { self.new.faults ≡ self.old.faults }
        ensures long { IfOk result (λ body. IsAnswerLength (length body.items)) }
    {
        take_frame(alloc, &mut self.link)
    }

    /// The same, unless no more is asked.
    fn taken(&mut self, alloc: Global) -> Result<Vec<u8>, RemoteFault>
        ensures keeps { Keeps self.old self.new }
        ensures gets { GetsTaken self.old self.new result }
    {
        if self.stopped.is_some() {
            return Err(self.fail());
        }
        match self.take(alloc) {
            Ok(body) => Ok(body),
            Err(fault) => Err(self.stop(fault)),
        }
    }

    /// Asks no more. Where memory was wanting that is no failure.
    fn stop(&mut self, fault: PipeFault) -> RemoteFault
        ensures link { LeavesLink self.old self.new }
        ensures stopped { self.new.stopped ≡ Some fault }
        ensures later { self.old.faults ≤ self.new.faults }
        ensures failed { (fault ≡ PipeFault.Memory → ⊥) → (result ≡ RemoteFault.Failed) × CountsOne self.old self.new }
        ensures memory { fault ≡ PipeFault.Memory → (result ≡ RemoteFault.Memory) × (self.new.faults ≡ self.old.faults) }
    {
        self.stopped = Some(fault);
        match fault {
            PipeFault::Memory => RemoteFault::Memory,
            _ => self.fail(),
        }
    }

    /// What a body that was read answers.
    fn end<T: Drop>(&mut self, read: Result<T, ReadFault>) -> Result<T, RemoteFault>
        ensures { EndsRead read self.old self.new result }
    {
        match read {
            Ok(value) => Ok(value),
            Err(ReadFault::Memory) => Err(RemoteFault::Memory),
            Err(ReadFault::Refused) => Err(self.fail()),
            Err(ReadFault::NoAnswer) => Err(self.stop(PipeFault::NoAnswer)),
        }
    }

    /// Asks for a refresh.
    pub(crate) fn refresh(&mut self, alloc: Global) -> Result<(), RemoteFault>
        ensures { Asks ToRefresh (λ _. Refreshed) self.old self.new result }
    {
        match self.body(alloc, refresh_frame(alloc)) {
            Ok(body) => self.end(read_refreshed(&body)),
            Err(fault) => Err(fault),
        }
    }

    /// Asks for clone data.
    pub(crate) fn clone_data(&mut self, alloc: Global) -> Result<CloneData, RemoteFault>
        ensures { Asks ToClone (λ told. Cloned told) self.old self.new result }
    {
        match self.body(alloc, clone_frame(alloc)) {
            Ok(body) => self.end(read_clone(alloc, &body)),
            Err(fault) => Err(fault),
        }
    }

    /// Asks for names.
    fn ask_names(
        &mut self,
        alloc: Global,
        x: &Name,
        back: u64,
        out: &mut [Name],
    ) -> Result<u32, RemoteFault>
        requires some { 1 ≤ length out.old }
        requires few { length out.old ≤ most_names }
        ensures len { length out.new ≡ length out.old }
        ensures count { IfOk result (λ n. n ≤ length out.old) }
        ensures asks { Asks (ToNames x.now back (length out.old)) (λ n. Named (take n out.new)) self.old self.new result }
    {
        name_size(x);
        match self.body(alloc, names_frame(alloc, x, back, out.len() as u32)) {
            Ok(body) => self.end(read_names(&body, out)),
            Err(fault) => Err(fault),
        }
    }

    /// Asks for as many of the names that are wanted still as a request may have, behind so many.
    fn next_names(
        &mut self,
        alloc: Global,
        x: &Name,
        back: u64,
        done: u64,
        rest: &mut [Name],
    ) -> Result<u32, RemoteFault>
        requires { 1 ≤ length rest.old }
        ensures len { length rest.new ≡ length rest.old }
        ensures count { IfOk result (λ n. n ≤ block_of (length rest.old)) }
        ensures asks { Asks (ToNames x.now (back + done) (block_of (length rest.old))) (λ n. Named (take n rest.new)) self.old self.new result }
    {
        let count = rest.len().min(MOST_NAMES as usize);
        let Some(from) = back.checked_add(done) else {
            return Err(self.fail());
        };
        self.ask_names(alloc, x, from, &mut rest[..count])
    }

    /// Asks for names in blocks, while they come full and there is room.
    pub(crate) fn names(
        &mut self,
        alloc: Global,
        x: &Name,
        back: u64,
        out: &mut [Name],
    ) -> Result<u32, RemoteFault>
        requires { length out.old < 2 ^ 32 }
        ensures count { IfOk result (λ n. n ≤ length out.old) }
        ensures asks { AsksNames x.now back (length out.old) self.old self.new result out.new }
    {
        if out.is_empty() {
            return Ok(0);
        }
        let mut done = 0;
        'blocks: loop {
            match self.next_names(alloc, x, back, done as u64, &mut out[done..]) {
                Ok(got) => {
                    done += got as usize;
                    if got < MOST_NAMES || done == out.len() {
                        return Ok(done as u32);
                    }
                }
                Err(fault) => return Err(fault),
            }
        }
    }

    /// Puts a request ahead, in its frame, and takes nothing. Where it isn't put whole no more is asked, and the next call counts that.
    pub(crate) fn put_ahead(&mut self, asked: &[u8]) -> bool
        requires { self.old.stopped ≡ None }
        ensures { PutsAhead asked.now self.old self.new result }
    {
        match self.link.put(asked) {
            Ok(()) => true,
            Err(_fault) => {
                self.stopped = Some(PipeFault::NotPut);
                false
            }
        }
    }

    /// Takes the answer to a request for as many names as there is room for, which was put ahead.
    pub(crate) fn take_names(&mut self, alloc: Global, out: &mut [Name]) -> Result<u32, RemoteFault>
        requires { length out.old ≤ most_names }
        ensures len { length out.new ≡ length out.old }
        ensures count { IfOk result (λ n. n ≤ length out.old) }
        ensures takes { (x : NameBytes) (back : ℕ) → TakesAhead (ToNames x back (length out.old)) out.new self.old self.new result }
    {
        match self.taken(alloc) {
            Ok(body) => self.end(read_names(&body, out)),
            Err(fault) => Err(fault),
        }
    }

    /// Takes the answer to a request for so many names, which was put ahead, and throws it away.
    pub(crate) fn pass(&mut self, alloc: Global, count: u32) -> Result<(), RemoteFault>
        ensures { (x : NameBytes) (back : ℕ) → Passes (ToNames x back count) self.old self.new result }
    {
        match self.taken(alloc) {
            Ok(body) => self.let_by(&body, count),
            Err(fault) => Err(fault),
        }
    }

    /// That a body may be the answer to a request for so many names; else no more is asked.
    fn let_by(&mut self, body: &[u8], count: u32) -> Result<(), RemoteFault>
        ensures { LetsBy body.now count self.old self.new result }
    {
        if are_fit(body, count) {
            return Ok(());
        }
        Err(self.stop(PipeFault::NoAnswer))
    }

    /// Asks for a way, unless there are more heads than a request names.
    pub(crate) fn path(
        &mut self,
        alloc: Global,
        heads: &[Name],
        name: &Name,
    ) -> Result<Option<Path>, RemoteFault>
        ensures { Asks (ToPath heads.now name.now) (λ found. Led found) self.old self.new result }
    {
        if heads.len() > MOST_HEADS {
            return Err(self.fail());
        }
        name_size(name);
        names_size(heads);
        match self.body(alloc, path_frame(alloc, heads, name)) {
            Ok(body) => self.end(read_path(&body)),
            Err(fault) => Err(fault),
        }
    }
}
