//! The names of a log's master.

use id_groups::{Id, Name};
use name_map::NameMap;
use remote_answers::MasterNames;

/// The names of the master of a log in which each commit has a known name, lent from the log's bytes.
#[derive(Clone, Copy)]
pub(crate) struct LogNames<'a> {
    pub(crate) names: &'a NameMap,
    pub(crate) bytes: &'a [u8],
    pub(crate) count: u64,
}

impl<'a> MasterNames for LogNames<'a> {
    ghost use Rattle.remote_store.specs.Names.{AreLogNames};

    ghost are_of = { λ n rows. AreLogNames n.names.now n.bytes.now n.count rows };

    fn name(&self, id: Id) -> Name {
        self.names.name(self.bytes, id).unwrap().to_name()
    }

    fn id(&self, name: &Name) -> Option<Id> {
        self.names.id(self.bytes, name.lend(), self.count)
    }
}
