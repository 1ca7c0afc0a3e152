//! The names of a master.

ghost use Rattle.std.specs.Prelude.{◌<◌, List, length};
ghost use Rattle.id_groups.specs.Name.{Name as NameBytes};
ghost use Rattle.commit_graph.specs.World.{Row};
ghost use Rattle.remote_trait.specs.Honest.{IsNamed};
ghost use Rattle.remote_answers.specs.Master.{IsIdIn};

use id_groups::{Id, Name};

/// The names of a master's commits, by their ids. No call takes memory.
pub trait MasterNames {
    /// The names are those of these rows.
    ghost are_of: { Self → List (Row NameBytes) → Type 0 };

    /// The name of the commit with this id, which is there.
    fn name(&self, id: Id) -> Name
        requires { (rows : List (Row NameBytes)) × are_of self.now rows × (id < length rows) }
        ensures { (rows : List (Row NameBytes)) → are_of self.now rows → IsNamed rows id result };

    /// The id of the commit with this name; `None` exactly where there is none.
    fn id(&self, name: &Name) -> Option<Id>
        ensures { (rows : List (Row NameBytes)) → are_of self.now rows → IsIdIn rows name.now result };
}
