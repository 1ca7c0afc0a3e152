//! The link.

ghost use Rattle.std.specs.Prelude.{◌≡◌, ◌≤◌, ◌<◌, ◌≢◌, [], None, length, is_some};
ghost use Rattle.std.specs.Io.{ReadsAtMost};
ghost use Rattle.outside.specs.Counts.{HasCause};
ghost use Rattle.outside.specs.Told.{WhereTold};
ghost use Rattle.remote_pipe.specs.Peer.{PutsTo, TakesFrom};
ghost use Rattle.remote_pipe.specs.Line.{served_by};
ghost use Rattle.remote_pipe.specs.Remote.{mirror_by, mirror_of};
ghost use Rattle.link_memory.specs.Over.{peer_over, served_over, server_of};

use crate::coming::Coming;
use crate::wrong::{Way, Wrong};
use remote_pipe::{Link, LinkFault, PipeRemote};
use remote_trait::Remote;
use std::alloc::{AllocError, Global};

/// A link to a remote in memory, which is served at its other end. Each piece that is put is a request's frame, and is answered at once: its answer
/// comes behind those that are still to come. It tells who is at its other end where all answers come as they are.
#[derive(Drop)]
pub struct MemoryLink<R: Remote> {
    alloc: Global,
    remote: R,
    way: Way,
    asked: Vec<u8>,
    to_come: Coming,
    requests: u64,
    is_broken: bool,
    put_faults: u64,
    take_faults: u64,
}

impl<R: Remote> MemoryLink<R> {
    /// A link to who serves this remote, whose answers come so. Nothing was put yet.
    pub fn new(alloc: Global, remote: R, way: Way) -> MemoryLink<R>
        ensures way { result.way ≡ way }
        ensures remote { result.remote ≡ remote }
        ensures to_come { result.to_come ≡ [] }
    {
        MemoryLink {
            alloc,
            remote,
            way,
            asked: Vec::new(alloc),
            to_come: Coming::none(alloc),
            requests: 0,
            is_broken: false,
            put_faults: 0,
            take_faults: 0,
        }
    }

    /// Notes what is put, and answers the request in its frame.
    fn serve(&mut self, piece: &[u8]) -> Result<(), AllocError>
        ensures puts { PutsTo piece.now result (server_of (R.shown self.old.remote) self.old.to_come self.old.asked.items) (server_of (R.shown self.new.remote) self.new.to_come self.new.asked.items) }
        ensures way { self.new.way ≡ self.old.way }
        ensures put_faults { self.new.put_faults ≡ self.old.put_faults }
        ensures take_faults { self.new.take_faults ≡ self.old.take_faults }
    {
        self.asked.extend_from_slice(piece)?;
        if piece.len() < 4 {
            return Ok(());
        }
        let (_len, body) = piece.split_at(4);
        self.to_come.add_answer(self.alloc, &mut self.remote, body)
    }

    /// The same, with something wrong about the answer.
    fn serve_wrong(&mut self, piece: &[u8], wrong: Wrong) -> Result<(), AllocError>
        ensures way { self.new.way ≡ self.old.way }
        ensures put_faults { self.new.put_faults ≡ self.old.put_faults }
        ensures take_faults { self.new.take_faults ≡ self.old.take_faults }
    {
        if let Wrong::NotPut = wrong {
            return Err(AllocError);
        }
        if let Wrong::NotTaken = wrong {
            self.is_broken = true;
        }
        self.serve(piece)?;
        self.to_come.spoil(wrong)
    }

    /// Serves what is put, unless the link is to fail.
    fn try_put(&mut self, piece: &[u8]) -> Result<(), AllocError>
        ensures puts { WhereTold (peer_over self.old.way.wrong (R.shown self.old.remote) self.old.to_come self.old.asked.items) (peer_over self.new.way.wrong (R.shown self.new.remote) self.new.to_come self.new.asked.items) (PutsTo piece.now result) }
        ensures way { self.new.way ≡ self.old.way }
        ensures put_faults { self.new.put_faults ≡ self.old.put_faults }
        ensures take_faults { self.new.take_faults ≡ self.old.take_faults }
    {
        self.requests = self.requests.saturating_add(1);
        match self.way.wrong_at(self.requests) {
            Some(wrong) => self.serve_wrong(piece, wrong),
            None => self.serve(piece),
        }
    }

    /// Whether the link fails where bytes are taken: it is broken, and all that were to come before came.
    fn is_spent(&mut self) -> bool
        ensures to_come { self.new.to_come ≡ self.old.to_come }
        ensures remote { self.new.remote ≡ self.old.remote }
        ensures way { self.new.way ≡ self.old.way }
        ensures asked { self.new.asked.items ≡ self.old.asked.items }
        ensures put_faults { self.new.put_faults ≡ self.old.put_faults }
        ensures take_faults { self.new.take_faults ≡ self.old.take_faults }
    {
        if !self.is_broken {
            return false;
        }
        !self.to_come.has_some()
    }

    /// The most bytes that come at once.
    fn most(&self) -> usize
        ensures { 0 < result }
    {
        (self.way.piece as usize).max(1)
    }
}

impl<R: Remote> Link for MemoryLink<R> {
    ghost use Rattle.link_memory.specs.Over.{peer_over};

    ghost peer = { λ l. peer_over l.way.wrong (R.shown l.remote) l.to_come l.asked.items };

    ghost put_faults = { λ l. l.put_faults };

    ghost take_faults = { λ l. l.take_faults };

    fn put(&mut self, piece: &[u8]) -> Result<(), LinkFault> {
        match self.try_put(piece) {
            Ok(()) => Ok(()),
            Err(AllocError) => {
                self.put_faults = self.put_faults.saturating_add(1);
                Err(LinkFault)
            }
        }
    }

    fn take(&mut self, out: &mut [u8]) -> Result<usize, LinkFault> {
        if self.is_spent() {
            self.take_faults = self.take_faults.saturating_add(1);
            return Err(LinkFault);
        }
        let most = self.most();
        Ok(self.to_come.take(out, most))
    }
}

/// The remote that asks this one over a link, whose answers come so. Where they come as they are it is known to be this one.
pub fn piped<R: Remote>(alloc: Global, remote: R, way: Way) -> PipeRemote<MemoryLink<R>>
    ensures served { served_by result.line.peer ≡ served_over way.wrong (R.shown remote) }
    ensures mirror { mirror_of result ≡ mirror_by (served_over way.wrong (R.shown remote)) 0 0 }
{
    let link = MemoryLink::new(alloc, remote, way);
    PipeRemote::new(alloc, link)
}
