//! The names of a bundle.

ghost use Rattle.std.specs.Prelude.{◌≡◌, ◌≤◌, ◌+◌, length, take, drop};

use id_groups::{Id, Name, NameRef};
use name_index::NameIndex;
use remote_answers::MasterNames;
use std::marker::Model;

/// The names of a bundle's rows, lent from its bytes, where they stand one behind another from `start` on. Contracts see the bytes.
#[derive(Drop)]
pub(crate) struct BundleNames<'a> {
    pub(crate) bytes: &'a [u8],
    pub(crate) start: u64,
    pub(crate) index: &'a NameIndex,
}

impl<'a> Model for BundleNames<'a> {
    ghost use Rattle.std.specs.Prelude.{List};
    ghost use Rattle.id_groups.specs.Name.{Name as NameBytes};
    ghost use Rattle.remote_bundle.specs.Names.{PlainNames, ArePlaced};

    ghost Value = { PlainNames };

    ghost view = { λ n. record { bytes = n.bytes.now; start = n.start; index = n.index.now } };

    ghost invariant = { λ n. (names : List NameBytes) × ArePlaced (record { bytes = n.bytes.now; start = n.start; index = n.index.now }) names };
}

/// The name that stands at this place.
fn name_at(bytes: &[u8], at: u64) -> Name
    requires { at + 20 ≤ length bytes.now }
    ensures { result ≡ take 20 (drop at bytes.now) }
{
    let (_, behind) = bytes.split_at(at as usize);
    let (name, _) = behind.split_at(20);
    NameRef::over(name).to_name()
}

impl<'a> MasterNames for BundleNames<'a> {
    ghost use Rattle.commit_graph.specs.World.{names_of};
    ghost use Rattle.remote_bundle.specs.Names.{ArePlaced};

    ghost are_of = { λ n rows. ArePlaced n (names_of rows) };

    fn name(&self, id: Id) -> Name {
        name_at(self.bytes, self.start + 20 * id.number())
    }

    fn id(&self, name: &Name) -> Option<Id> {
        let place = self.index.find(self.bytes, name.lend())?;
        Some(Id::master((place - self.start) / 20))
    }
}
