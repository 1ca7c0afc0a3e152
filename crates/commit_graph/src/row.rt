//! A commit as a row: its name and those of its parents.

ghost use Rattle.std.specs.Prelude.{◌≡◌, ◌≤◌, length};
ghost use Rattle.std.specs.List.{AllByRecursion};
ghost use Rattle.id_groups.specs.Lists.{AreDistinct};
ghost use Rattle.id_groups.specs.Name.{IsName};

use arrayvec::ArrayVec;
use id_groups::Name;
use std::marker::Model;

/// The names of a commit's parents, in order: at most 8, and no two the same.
#[derive(Drop)]
pub struct ParentNames {
    names: ArrayVec<Name, 8>,
}

impl Model for ParentNames {
    ghost use Rattle.std.specs.Prelude.{List, ◌≤◌, length};
    ghost use Rattle.std.specs.List.{AllByRecursion};
    ghost use Rattle.id_groups.specs.Lists.{AreDistinct};
    ghost use Rattle.id_groups.specs.Name.{Name as NameBytes, IsName};

    ghost Value = { List NameBytes };

    ghost view = { λ parents. parents.names.items };

    ghost invariant = { λ parents. (length parents.names.items ≤ 8) × AreDistinct parents.names.items
        × AllByRecursion IsName parents.names.items };
}

impl ParentNames {
    /// The parents of these names.
    pub fn new(names: &[Name]) -> ParentNames
        requires few { length names.now ≤ 8 }
        requires distinct { AreDistinct names.now }
        ensures { result ≡ names.now }
    {
        are_names(names);
        let mut held = ArrayVec::new();
        let _fits = held.try_extend_from_slice(names);
        ParentNames { names: held }
    }

    /// The names.
    pub fn as_slice(&self) -> &[Name]
        ensures names { result.now ≡ self.now }
        ensures few { length self.now ≤ 8 }
        ensures distinct { AreDistinct self.now }
        ensures bytes { AllByRecursion IsName self.now }
    {
        self.names.as_slice()
    }
}

/// A commit: its name, and its parents in order.
#[derive(Drop)]
pub struct Row {
    name: Name,
    parents: ParentNames,
}

impl Model for Row {
    ghost use Rattle.id_groups.specs.Name.{Name as NameBytes, IsName};
    ghost use Rattle.commit_graph.specs.World.{Row as PlainRow};
    ghost use Rattle.commit_graph.specs.Codes.{coded_row};

    ghost Value = { PlainRow NameBytes };

    ghost coded = { coded_row };

    ghost view = { λ row. record { name = row.name; parents = row.parents } };

    ghost invariant = { λ row. IsName row.name };
}

impl Row {
    /// The row of a commit with these parents.
    pub fn new(name: Name, parents: &[Name]) -> Row
        requires few { length parents.now ≤ 8 }
        requires distinct { AreDistinct parents.now }
        ensures { result ≡ record { name = name; parents = parents.now } }
    {
        let _bytes = name.lend();
        Row {
            name,
            parents: ParentNames::new(parents),
        }
    }

    /// The commit's name.
    pub fn name(&self) -> &Name
        ensures { result.now ≡ self.now.name }
    {
        &self.name
    }

    /// The names of the commit's parents, in order.
    pub fn parents(&self) -> &[Name]
        ensures { result.now ≡ self.now.parents }
    {
        self.parents.as_slice()
    }

    /// That the row is one, for proofs of what is done with it.
    pub(crate) fn is_row(&self)
        ensures name { IsName self.now.name }
        ensures parents { AllByRecursion IsName self.now.parents }
        ensures few { length self.now.parents ≤ 8 }
        ensures distinct { AreDistinct self.now.parents }
    {
        let _name = &self.name;
        let _parents = self.parents.as_slice();
    }
}

/// That each of these names has its 20 bytes, for proofs of what is made of them.
fn are_names(names: &[Name])
    ensures { AllByRecursion IsName names.now }
{
    for name in names {
        let _bytes = name.lend();
    }
}
