//! Mirrors at paths, and the same ones behind pipes.

use link_memory::{Reached, Way};
use remote_trait::Remote;
use std::alloc::Global;

/// How mirrors are reached.
#[derive(Clone, Copy)]
pub enum Reach {
    /// At their paths.
    Paths,
    /// Each behind a pipe that gives at most so many bytes at once.
    Pipes(u32),
}

/// The mirror, reached so.
pub fn reached<R: Remote>(alloc: Global, remote: R, reach: Reach) -> Reached<R> {
    match reach {
        Reach::Paths => Reached::Near(remote),
        Reach::Pipes(piece) => Reached::over(alloc, remote, Way::whole(piece)),
    }
}
