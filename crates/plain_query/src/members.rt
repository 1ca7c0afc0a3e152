//! Sets of commits, as lists of their names.

ghost use Rattle.std.specs.Prelude.{◌≡◌, ◌⊎◌, ◌↔◌, [], IsTrue, IfOk, OnOk, take};
ghost use Rattle.id_groups.specs.Lists.{IsIn};
ghost use Rattle.id_groups.specs.Name.{Name as NameBytes};

use id_groups::Name;
use std::alloc::{AllocError, Global};
use std::marker::Model;

/// The names of a set's commits, each once.
#[derive(Drop)]
pub(crate) struct Members {
    names: Vec<Name>,
}

impl Model for Members {
    ghost use Rattle.std.specs.Prelude.{List};
    ghost use Rattle.id_groups.specs.Lists.{AreDistinct};
    ghost use Rattle.id_groups.specs.Name.{Name as NameBytes};

    ghost Value = { List NameBytes };

    ghost view = { λ members. members.names.items };

    ghost invariant = { λ members. AreDistinct members.names.items };
}

impl Members {
    /// The set without commits. It takes no memory.
    pub(crate) fn none(alloc: Global) -> Members
        ensures { result ≡ [] }
    {
        Members {
            names: Vec::new(alloc),
        }
    }

    /// Whether the commit of this name is a member.
    pub(crate) fn has(&self, name: &Name) -> bool
        ensures { IsTrue result ↔ IsIn name.now self.now }
    {
        for held in &self.names {
            if held.is(name) {
                return true;
            }
        }
        false
    }

    /// Makes the commit of this name a member, if it isn't one. `AllocError` only for want of memory.
    pub(crate) fn add(&mut self, name: &Name) -> Result<(), AllocError>
        ensures { OnOk result ((x : NameBytes) → IsIn x self.new ↔ (IsIn x self.old ⊎ (x ≡ name.now))) }
    {
        if self.has(name) {
            return Ok(());
        }
        self.names.push(*name)?;
        Ok(())
    }

    /// Makes the commits of these names members. `AllocError` only for want of memory.
    pub(crate) fn add_all(&mut self, names: &[Name]) -> Result<(), AllocError>
        ensures { OnOk result ((x : NameBytes) → IsIn x self.new ↔ (IsIn x self.old ⊎ IsIn x names.now)) }
    {
        for name in names {
            self.add(name)?;
        }
        Ok(())
    }

    /// The names, each once.
    pub(crate) fn names(&self) -> &[Name]
        ensures { result.now ≡ self.now }
    {
        self.names.as_slice()
    }

    /// Whether one of the names is that of a member.
    pub(crate) fn has_any(&self, names: &[Name]) -> bool
        ensures { IsTrue result ↔ ((x : NameBytes) × IsIn x names.now × IsIn x self.now) }
    {
        for name in names {
            if self.has(name) {
                return true;
            }
        }
        false
    }

    /// The same set once more. `AllocError` only for want of memory.
    pub(crate) fn copy(&self, alloc: Global) -> Result<Members, AllocError>
        ensures { IfOk result (λ members. (x : NameBytes) → IsIn x members ↔ IsIn x self.now) }
    {
        let mut members = Members::none(alloc);
        members.add_all(self.names.as_slice())?;
        Ok(members)
    }

    /// The members of either set. `AllocError` only for want of memory.
    pub(crate) fn union(&self, alloc: Global, other: &Members) -> Result<Members, AllocError>
        ensures { IfOk result (λ members. (x : NameBytes) → IsIn x members ↔ (IsIn x self.now ⊎ IsIn x other.now)) }
    {
        let mut members = self.copy(alloc)?;
        members.add_all(other.names.as_slice())?;
        Ok(members)
    }

    /// The members of both sets. `AllocError` only for want of memory.
    pub(crate) fn inter(&self, alloc: Global, other: &Members) -> Result<Members, AllocError>
        ensures { IfOk result (λ members. (x : NameBytes) → IsIn x members ↔ (IsIn x self.now × IsIn x other.now)) }
    {
        let mut members = Members::none(alloc);
        for name in &self.names {
            if other.has(name) {
                members.add(name)?;
            }
        }
        Ok(members)
    }

    /// The members that the other set hasn't. `AllocError` only for want of memory.
    pub(crate) fn minus(&self, alloc: Global, other: &Members) -> Result<Members, AllocError>
        ensures { IfOk result (λ members. (x : NameBytes) → IsIn x members ↔ (IsIn x self.now × ¬ (IsIn x other.now))) }
    {
        let mut members = Members::none(alloc);
        for name in &self.names {
            if !other.has(name) {
                members.add(name)?;
            }
        }
        Ok(members)
    }
}

/// The first n of the names, or all where there are fewer.
pub(crate) fn first_names(names: &[Name], n: u64) -> &[Name]
    ensures { result.now ≡ take n names.now }
{
    if n < names.len() as u64 {
        names.split_at(n as usize).0
    } else {
        names
    }
}
