//! The remote.

ghost use Rattle.std.specs.Prelude.{◌≡◌, ◌≤◌, ◌<◌, ◌^◌, ◌↔◌, [], IsTrue, None, length, take, IfOk, IfSome, IsErrOf};
ghost use Rattle.remote_trait.specs.declared.fault.RemoteFault.TheVariants.{Failed as FaultFailed};
ghost use Rattle.remote_trait.specs.Calls.{Leaves, Refreshes, Fails, raised};
ghost use Rattle.remote_trait.specs.Honest.{AreNamesOf, IsPathOf};
ghost use Rattle.remote_rules.specs.Clones.{IsCloneOf};
ghost use Rattle.remote_serve.specs.Requests.{ToRefresh, ToClone, ToPath};
ghost use Rattle.remote_serve.specs.Answers.{Refreshed, Cloned, Led};
ghost use Rattle.remote_pipe.specs.Line.{Asks, AwaitsNothing};
ghost use Rattle.remote_pipe.specs.Remote.{mirror_of};
ghost use Rattle.remote_pipe.specs.Ahead.{most_ahead, PutsAll, PassesTo, NamesAhead};

use crate::ahead::Asker;
use crate::fault::PipeFault;
use crate::link::Link;
use id_groups::Name;
use remote_trait::{CloneData, Path, Remote, RemoteFault, Run};
use std::alloc::Global;
use std::marker::Model;

/// The mirror that is served at the other end of a link, as a remote. Each call puts a request in a frame and takes an answer in one; names of
/// which more are asked for than a request may are asked for in blocks. Of names that are expected the requests are put ahead, and where
/// they are asked for then the answer is taken and nothing is put; before anything else is asked, the answers that wait are taken and thrown
/// away. `Failed` comes where the mirror refuses, and where the link fails or what comes is no answer: then no more is asked.
#[derive(Drop)]
pub struct PipeRemote<L: Link + Drop> {
    asker: Asker<L>,
    asked: u64,
}

impl<L: Link + Drop> Model for PipeRemote<L> {
    ghost use Rattle.std.specs.Prelude.{◌≡◌, None};
    ghost use Rattle.remote_pipe.specs.Remote.{PlainPipe};
    ghost use Rattle.remote_pipe.specs.Ahead.{Awaits};

    ghost Value = { PlainPipe };

    ghost view = { λ r. record { line = r.asker.line; queue = r.asker.queue.items; asked = r.asked } };

    ghost invariant = { λ r. r.asker.line.stopped ≡ None → Awaits r.asker.queue.items r.asker.line.peer };
}

impl<L: Link + Drop> PipeRemote<L> {
    /// The mirror at the other end. Nothing is asked yet.
    pub fn new(alloc: Global, link: L) -> PipeRemote<L>
        requires { AwaitsNothing (L.peer link) }
        ensures { result ≡ record { line = record { peer = L.peer link; put_faults = L.put_faults link; take_faults = L.take_faults link; stopped = None; faults = 0 }; queue = []; asked = 0 } }
    {
        PipeRemote {
            asker: Asker::new(alloc, link),
            asked: 0,
        }
    }

    /// Why no more is asked, if no more is.
    pub fn stopped(&self) -> Option<PipeFault>
        ensures { result ≡ self.now.line.stopped }
    {
        self.asker.stopped()
    }
}

impl<L: Link + Drop> Remote for PipeRemote<L> {
    ghost use Rattle.remote_pipe.specs.Remote.{mirror_of};

    ghost shown = { λ r. mirror_of r };

    fn refresh(&mut self, alloc: Global) -> Result<(), RemoteFault>
        ensures left { Refreshes (mirror_of self.old) (mirror_of self.new) }
        ensures failed { IsErrOf result FaultFailed → Fails (mirror_of self.old) (mirror_of self.new) }
        ensures asks { PassesTo (Asks ToRefresh (λ _. Refreshed)) self.old.queue self.old.line self.new.queue self.new.line result }
    {
        self.asker.refresh(alloc)
    }

    fn clone_data(&mut self, alloc: Global) -> Result<CloneData, RemoteFault>
        ensures left { Leaves (λ asked. asked) (mirror_of self.old) (mirror_of self.new) }
        ensures failed { IsErrOf result FaultFailed → Fails (mirror_of self.old) (mirror_of self.new) }
        ensures told { IfOk result (λ given. IfSome (mirror_of self.old).cloned (λ told. given ≡ told)) }
        ensures honest { IfOk result (λ given. IfSome (mirror_of self.old).master (λ rows. IsCloneOf rows given)) }
        ensures asks { PassesTo (Asks ToClone (λ told. Cloned told)) self.old.queue self.old.line self.new.queue self.new.line result }
    {
        self.asker.clone_data(alloc)
    }

    fn names_of(
        &mut self,
        alloc: Global,
        x: &Name,
        back: u64,
        out: &mut [Name],
    ) -> Result<u32, RemoteFault>
        requires { length out.old < 2 ^ 32 }
        ensures count { IfOk result (λ n. n ≤ length out.old) }
        ensures left { Leaves (raised (length out.old)) (mirror_of self.old) (mirror_of self.new) }
        ensures failed { IsErrOf result FaultFailed → Fails (mirror_of self.old) (mirror_of self.new) }
        ensures honest { IfOk result (λ n. IfSome (mirror_of self.old).master (λ rows. AreNamesOf rows x.now back (length out.old) (take n out.new))) }
        ensures asks { NamesAhead x.now back (length out.old) self.old.queue self.old.line self.new.queue self.new.line result out.new }
    {
        self.asked = self.asked.saturating_add(out.len() as u64);
        self.asker.names(alloc, x, back, out)
    }

    fn may_expect(&self) -> bool
        ensures { IsTrue result ↔ ((self.now.line.stopped ≡ None) × (self.now.queue ≡ [])) }
    {
        self.asker.is_free()
    }

    fn expect(&mut self, alloc: Global, runs: &[Run])
        ensures shown { mirror_of self.new ≡ mirror_of self.old }
        ensures puts { PutsAll runs.now self.old.queue self.old.line self.new.queue self.new.line }
        ensures few { length self.old.queue ≤ most_ahead → length self.new.queue ≤ most_ahead }
    {
        self.asker.expect(alloc, runs);
    }

    fn path_of(
        &mut self,
        alloc: Global,
        heads: &[Name],
        name: &Name,
    ) -> Result<Option<Path>, RemoteFault>
        ensures left { Leaves (raised 1) (mirror_of self.old) (mirror_of self.new) }
        ensures failed { IsErrOf result FaultFailed → Fails (mirror_of self.old) (mirror_of self.new) }
        ensures honest { IfOk result (λ found. IfSome (mirror_of self.old).master (λ rows. IsPathOf rows heads.now name.now found)) }
        ensures asks { PassesTo (Asks (ToPath heads.now name.now) (λ found. Led found)) self.old.queue self.old.line self.new.queue self.new.line result }
    {
        self.asked = self.asked.saturating_add(1);
        self.asker.path(alloc, heads, name)
    }
}
