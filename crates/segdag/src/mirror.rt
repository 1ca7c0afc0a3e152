//! The mirrors of the program.

ghost use Rattle.std.specs.Prelude.{◌≡◌, ◌≤◌, ◌<◌, ◌^◌, length, take, IfOk, IfSome, IsErrOf};
ghost use Rattle.remote_trait.specs.Calls.{Leaves, Refreshes, Fails, raised};
ghost use Rattle.remote_trait.specs.Honest.{AreNamesOf, IsPathOf};
ghost use Rattle.remote_rules.specs.Clones.{IsCloneOf};

use file_disk::FileDisk;
use id_groups::Name;
use pipe_files::{PipeSink, PipeSource};
use remote_bundle::BundleRemote;
use remote_pipe::{Ends, PipeRemote};
use remote_store::StoreRemote;
use remote_trait::{CloneData, Path, Remote, RemoteFault, Run};
use std::alloc::Global;

/// A mirror, by what the word of a remote names.
#[derive(Drop)]
pub enum Mirror {
    /// A log in a file.
    Log(StoreRemote<FileDisk<HostRuntime>>),
    /// A bundle in a file.
    Bundle(BundleRemote<FileDisk<HostRuntime>>),
    /// A mirror that is served at the other end of a pipe.
    Pipe(PipeRemote<Ends<PipeSource, PipeSink>>),
}

impl Remote for Mirror {
    ghost use Rattle.segdag.specs.Mirrors.{shown_of};

    ghost shown = { λ m. shown_of m };

    fn refresh(&mut self, alloc: Global) -> Result<(), RemoteFault> {
        match self {
            Mirror::Log(log) => log.refresh(alloc),
            Mirror::Bundle(bundle) => bundle.refresh(alloc),
            Mirror::Pipe(pipe) => pipe.refresh(alloc),
        }
    }

    fn clone_data(&mut self, alloc: Global) -> Result<CloneData, RemoteFault> {
        match self {
            Mirror::Log(log) => log.clone_data(alloc),
            Mirror::Bundle(bundle) => bundle.clone_data(alloc),
            Mirror::Pipe(pipe) => pipe.clone_data(alloc),
        }
    }

    fn names_of(
        &mut self,
        alloc: Global,
        x: &Name,
        back: u64,
        out: &mut [Name],
    ) -> Result<u32, RemoteFault> {
        match self {
            Mirror::Log(log) => log.names_of(alloc, x, back, out),
            Mirror::Bundle(bundle) => bundle.names_of(alloc, x, back, out),
            Mirror::Pipe(pipe) => pipe.names_of(alloc, x, back, out),
        }
    }

    fn may_expect(&self) -> bool {
        match self {
            Mirror::Log(_) | Mirror::Bundle(_) => false,
            Mirror::Pipe(pipe) => pipe.may_expect(),
        }
    }

    fn expect(&mut self, alloc: Global, runs: &[Run]) {
        match self {
            Mirror::Log(_) | Mirror::Bundle(_) => {}
            Mirror::Pipe(pipe) => pipe.expect(alloc, runs),
        }
    }

    fn path_of(
        &mut self,
        alloc: Global,
        heads: &[Name],
        name: &Name,
    ) -> Result<Option<Path>, RemoteFault> {
        match self {
            Mirror::Log(log) => log.path_of(alloc, heads, name),
            Mirror::Bundle(bundle) => bundle.path_of(alloc, heads, name),
            Mirror::Pipe(pipe) => pipe.path_of(alloc, heads, name),
        }
    }
}
