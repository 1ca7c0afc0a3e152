//! Which name of clone data may not stand where it stands, and which are missing.

ghost use Rattle.std.specs.Prelude.{◌≡◌, ◌+◌, ◌<◌, ◌^◌, ◌&&◌, ℕ, List, length, map, IfOk, IsTrue, nat_lt, [], ◌∷◌, ◌++◌};
ghost use Rattle.std.specs.Option.{option_to_list};
ghost use Rattle.id_groups.specs.Lists.{AreDistinct};
ghost use Rattle.remote_rules.specs.CloneData.{KnownName as PlainName, first_false, names_fit, name_fits, names_at};
ghost use Rattle.remote_trait.specs.Broken.{HasSeen, AscendFrom};

use crate::clone::KnownName;
use crate::fronts::have_own_fronts;
use id_groups::Name;
use std::alloc::{AllocError, Global};
use std::collections::BTreeSet;

/// The number of the first name that may not stand behind those before it, the first of which has the number `first`: its id is one of
/// the segments', which end there, and above the ids before, and its name is new.
pub(crate) fn first_bad_name(
    alloc: Global,
    names: &[KnownName],
    end: u128,
    first: u64,
) -> Result<Option<u64>, AllocError>
    requires { first + length names.now < 2 ^ 64 }
    ensures { IfOk result (λ found. found ≡ first_false first (names_fit end [] names.now)) }
{
    if have_own_fronts(alloc, names)? {
        return Ok(first_bad_id(names, end, first));
    }
    first_bad_of_any(alloc, names, end, first)
}

/// The same of names no two of which are the same.
fn first_bad_id(names: &[KnownName], end: u128, first: u64) -> Option<u64>
    requires room { first + length names.now < 2 ^ 64 }
    requires distinct { AreDistinct (map (λ k. k.name) names.now) }
    ensures { result ≡ first_false first (names_fit end [] names.now) }
{
    let mut next = 0;
    'names: for k in 0..names.len() {
        let known = &names[k];
        let id = u128::from(known.id);
        if end <= id || id < next {
            return Some(first + k as u64);
        }
        next = id + 1;
    }
    None
}

/// The same of any names: each is sought among those before it.
fn first_bad_of_any(
    alloc: Global,
    names: &[KnownName],
    end: u128,
    first: u64,
) -> Result<Option<u64>, AllocError>
    requires { first + length names.now < 2 ^ 64 }
    ensures { IfOk result (λ found. found ≡ first_false first (names_fit end [] names.now)) }
{
    let mut seen = SeenNames::new(alloc);
    'names: for k in 0..names.len() {
        let known = &names[k];
        let fits = seen.add(known, end)?;
        if !fits {
            return Ok(Some(first + k as u64));
        }
    }
    Ok(None)
}

/// The names that stand before another, and the lowest id that may stand behind theirs.
#[derive(Drop)]
struct SeenNames {
    names: BTreeSet<[u8; 20]>,
    next: u128,
}

impl SeenNames {
    /// No names.
    fn new(alloc: Global) -> SeenNames
        ensures { HasSeen [] result.names result.next }
    {
        SeenNames {
            names: BTreeSet::new(alloc),
            next: 0,
        }
    }

    /// Puts a name behind the others; whether it may stand there, where the segments end here.
    fn add(&mut self, known: &KnownName, end: u128) -> Result<bool, AllocError>
        ensures fits { (before : List PlainName) → HasSeen before self.old.names self.old.next → IfOk result (λ fits. fits ≡ (nat_lt known.now.id end && name_fits before known.now)) }
        ensures seen { (before : List PlainName) → HasSeen before self.old.names self.old.next → IfOk result (λ fits. IsTrue fits → HasSeen (before ++ known.now ∷ []) self.new.names self.new.next) }
    {
        let id = u128::from(known.id);
        if end <= id || id < self.next {
            return Ok(false);
        }
        self.next = id + 1;
        let is_new = self.names.insert(bytes_of(&known.name))?;
        Ok(is_new)
    }
}

/// The bytes of a name.
fn bytes_of(name: &Name) -> [u8; 20]
    ensures { result ≡ name.now }
{
    let mut bytes = [0; 20];
    bytes.copy_from_slice(name.lend().bytes);
    bytes
}

/// The name of the id, among names whose ids ascend.
pub(crate) fn name_of(names: &[KnownName], id: u64) -> Option<Name>
    requires { AscendFrom 0 names.now }
    ensures { names_at names.now id ≡ option_to_list result }
{
    let place = names.partition_point(|known| known.id < id);
    if names.len() <= place {
        return None;
    }
    let known = &names[place];
    if known.id == id {
        Some(known.name)
    } else {
        None
    }
}
