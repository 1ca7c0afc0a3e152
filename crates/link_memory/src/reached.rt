//! Mirrors as they are reached.

ghost use Rattle.std.specs.Prelude.{◌≡◌, ◌≤◌, ◌<◌, ◌^◌, length, take, IfOk, IfSome, IsErrOf};
ghost use Rattle.remote_trait.specs.Calls.{Leaves, Refreshes, Fails, raised};
ghost use Rattle.remote_trait.specs.Honest.{AreNamesOf, IsPathOf};
ghost use Rattle.remote_rules.specs.Clones.{IsCloneOf};
ghost use Rattle.remote_pipe.specs.Remote.{mirror_by};
ghost use Rattle.link_memory.specs.Over.{served_over};
ghost use Rattle.link_memory.specs.Reached.{shown_of};

use crate::link::{MemoryLink, piped};
use crate::wrong::Way;
use id_groups::Name;
use remote_pipe::PipeRemote;
use remote_trait::{CloneData, Path, Remote, RemoteFault, Run};
use std::alloc::Global;

/// A mirror that is asked itself, or over a link in memory.
#[derive(Drop)]
pub enum Reached<R: Remote> {
    /// The mirror itself.
    Near(R),
    /// The mirror at the other end of a link.
    Far(PipeRemote<MemoryLink<R>>),
}

impl<R: Remote> Reached<R> {
    /// The mirror over a link whose answers come so. Where they come as they are it tells what the mirror does.
    pub fn over(alloc: Global, remote: R, way: Way) -> Reached<R>
        ensures { shown_of R.shown result ≡ mirror_by (served_over way.wrong (R.shown remote)) 0 0 }
    {
        Reached::Far(piped(alloc, remote, way))
    }
}

impl<R: Remote> Remote for Reached<R> {
    ghost use Rattle.link_memory.specs.Reached.{shown_of};

    ghost shown = { λ m. shown_of R.shown m };

    fn refresh(&mut self, alloc: Global) -> Result<(), RemoteFault> {
        match self {
            Reached::Near(remote) => remote.refresh(alloc),
            Reached::Far(remote) => remote.refresh(alloc),
        }
    }

    fn clone_data(&mut self, alloc: Global) -> Result<CloneData, RemoteFault> {
        match self {
            Reached::Near(remote) => remote.clone_data(alloc),
            Reached::Far(remote) => remote.clone_data(alloc),
        }
    }

    fn names_of(
        &mut self,
        alloc: Global,
        x: &Name,
        back: u64,
        out: &mut [Name],
    ) -> Result<u32, RemoteFault> {
        match self {
            Reached::Near(remote) => remote.names_of(alloc, x, back, out),
            Reached::Far(remote) => remote.names_of(alloc, x, back, out),
        }
    }

    fn may_expect(&self) -> bool {
        match self {
            Reached::Near(remote) => remote.may_expect(),
            Reached::Far(remote) => remote.may_expect(),
        }
    }

    fn expect(&mut self, alloc: Global, runs: &[Run]) {
        match self {
            Reached::Near(remote) => remote.expect(alloc, runs),
            Reached::Far(remote) => remote.expect(alloc, runs),
        }
    }

    fn path_of(
        &mut self,
        alloc: Global,
        heads: &[Name],
        name: &Name,
    ) -> Result<Option<Path>, RemoteFault> {
        match self {
            Reached::Near(remote) => remote.path_of(alloc, heads, name),
            Reached::Far(remote) => remote.path_of(alloc, heads, name),
        }
    }
}
