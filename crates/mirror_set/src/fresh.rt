//! What a pull takes from a mirror.

ghost use Rattle.std.specs.Prelude.{◌≡◌, ◌<◌, ◌+◌, ◌^◌, ◌++◌, [], length, reverse, Some, slice_get, OnOk};

use id_groups::Name;
use remote_trait::CloneData;
use std::alloc::{AllocError, Global};
use std::marker::Model;

/// Why there is nothing to pull.
#[derive(Clone, Copy, PartialEq, Eq, Debug)]
pub enum FreshFault {
    /// There is no mirror.
    NoRemote,
    /// Each of so many mirrors failed.
    AllFailed(u32),
    /// A mirror's clone data break a rule at the item with this number.
    BadClone(u64),
    /// So many names were asked of a mirror, and fewer came: so many.
    BadNames(u32, u32),
    /// There was no memory to ask or to take the answer.
    Memory,
}

/// Names of ids that follow one another, ascending.
#[derive(Drop)]
pub struct FreshNames {
    items: Vec<Name>,
}

impl Model for FreshNames {
    ghost use Rattle.std.specs.Prelude.{List, ◌<◌, ◌^◌, length};
    ghost use Rattle.id_groups.specs.Name.{Name as NameBytes};

    ghost Value = { List NameBytes };

    ghost view = { λ list. list.items.items };

    ghost invariant = { λ list. length list.items.items < 2 ^ 31 };
}

impl FreshNames {
    /// No names. They take no memory.
    pub fn empty(alloc: Global) -> FreshNames
        ensures { result ≡ [] }
    {
        FreshNames {
            items: Vec::new(alloc),
        }
    }

    /// How many there are.
    pub fn len(&self) -> u32
        ensures len { result ≡ length self.now }
        ensures few { length self.now < 2 ^ 31 }
    {
        self.items.len() as u32
    }

    /// The name at place `i`.
    pub fn at(&self, i: u32) -> &Name
        requires { i < length self.now }
        ensures { slice_get self.now i ≡ Some result.now }
    {
        &self.items[i as usize]
    }

    /// Puts names behind the others, the last of them first.
    pub(crate) fn add_reversed(&mut self, names: &[Name]) -> Result<(), AllocError>
        requires { length self.old + length names.now < 2 ^ 31 }
        ensures { OnOk result (self.new ≡ self.old ++ reverse names.now) }
    {
        'names: for i in (0..names.len()).rev() {
            self.items.push(names[i])?;
        }
        Ok(())
    }
}

/// The clone data of a mirror behind a refresh, and the names of its ids from some id on.
#[derive(Drop)]
pub struct Fresh {
    pub cloned: CloneData,
    pub names: FreshNames,
}

impl Model for Fresh {
    ghost use Rattle.mirror_set.specs.Fresh.{PlainFresh};

    ghost Value = { PlainFresh };

    ghost view = { λ f. record { cloned = f.cloned; names = f.names } };
}
