//! What stands behind a handle: an open log.

ghost use Rattle.std.specs.Prelude.{◌≡◌};
ghost use Rattle.std.specs.Option.{ForSome};
ghost use Rattle.change_rules.specs.Standard.{standard};

use crate::mirror::Mirror;
use call_disk::NotedCalls;
use dag_store::Store;
use line_io::MemorySink;
use mirror_set::Mirrors;

/// An open log: its store, which is gone once a change failed, the calls of its disk that are to be performed, its mirrors, the last
/// reply, and the names of the last query, 20 bytes each.
#[derive(Drop)]
pub struct Held {
    pub(crate) store: Option<Store>,
    pub(crate) log: NotedCalls,
    pub(crate) mirrors: Mirrors<Mirror>,
    pub(crate) reply: MemorySink,
    pub(crate) names: Vec<u8>,
    pub(crate) ghost limits: { ForSome store (λ s. s.limits ≡ standard) },
}
