//! The names of the commits outside master, by numbers.

ghost use Rattle.std.specs.Prelude.{◌≡◌, ◌≤◌, ◌+◌, ◌*◌, ◌++◌, ◌∷◌, ◌<◌, List, map, length, take, drop, slice_index_or, None, Some, ℕ, OnOk, IfOk, IsTrue};
ghost use Rattle.assign_ids.specs.Numbers.{AreBelow};
ghost use Rattle.change_parts.specs.Moves.{name_at};
ghost use Rattle.payload_tables.specs.Pending.{HeldRow, HoldsRows};
ghost use Rattle.batch_codec.specs.Payload.{Payload as PlainPayload};
ghost use Rattle.batch_codec.specs.Building.{IsBuilt};
ghost use Rattle.name_map.specs.Part.{upward};

use batch_codec::BatchBuild;
use id_groups::NameRef;
use payload_tables::{OthersTable, PendingRows};
use std::alloc::AllocError;

/// The names of the stored other ids and of the pending rows.
pub fn names_of<'a>(bytes: &'a [u8], others: &OthersTable, pending: &'a PendingRows) -> Names<'a>
    requires stored { others.now.names + 20 * others.now.count ≤ length bytes.now }
    requires pending { length pending.now.names ≡ 20 * length pending.now.places }
    requires rows { (rows : List HeldRow) × HoldsRows pending.now rows }
    ensures stored { result.stored.now ≡ take (20 * others.now.count) (drop others.now.names bytes.now) }
    ensures pending { result.pending.now ≡ pending.now.names }
    ensures count { result.count ≡ others.now.count }
    ensures more { result.more ≡ length pending.now.places }
{
    Names {
        stored: others.names(bytes),
        count: others.count(),
        pending: pending.names(),
        more: pending.len(),
    }
}

/// The names of the numbers: those of the stored other ids, and behind them the pending ones.
#[derive(Clone, Copy)]
pub struct Names<'a> {
    /// Those of the stored other ids.
    pub stored: &'a [u8],
    /// How many of these there are.
    pub count: u32,
    /// Those of the pending rows.
    pub pending: &'a [u8],
    /// How many of these there are.
    pub more: u32,
    ghost stored_size: { length stored.now ≡ 20 * count },
    ghost pending_size: { length pending.now ≡ 20 * more },
}

/// 20 bytes at a place.
fn piece<'a>(bytes: &'a [u8], at: usize) -> NameRef<'a>
    requires { at + 20 ≤ length bytes.now }
    ensures { result.bytes.now ≡ take 20 (drop at bytes.now) }
{
    let (_, rest) = bytes.split_at(at);
    let (name, _) = rest.split_at(20);
    NameRef::over(name)
}

impl<'a> Names<'a> {
    /// The name of the number k.
    pub fn at(&self, k: u32) -> NameRef<'a>
        requires { k < self.now.count + self.now.more }
        ensures { result.bytes.now ≡ name_at (self.now.stored.now ++ self.now.pending.now) k }
    {
        if k < self.count {
            return piece(self.stored, 20 * k as usize);
        }
        piece(self.pending, 20 * (k - self.count) as usize)
    }

    /// The names of so many numbers from k on, all of which are stored.
    fn stored_from(&self, k: u32, len: usize) -> &'a [u8]
        requires { k + len ≤ self.now.count }
        ensures { result.now ≡ take (20 * len) (drop (20 * k) self.now.stored.now) }
    {
        let (_, rest) = self.stored.split_at(20 * k as usize);
        let (names, _) = rest.split_at(20 * len);
        names
    }
}

/// Whether the number that comes behind so many that go on one by one from the first goes on so too, and is below n.
fn goes_on(numbers: &[u32], first: u32, len: usize, n: u32) -> bool
    ensures { IsTrue result → (len < length numbers.now) × (slice_index_or numbers.now len 0 ≡ first + len) × (first + len < n) }
{
    match numbers.get(len) {
        Some(number) => *number < n && u64::from(*number) == u64::from(first) + len as u64,
        None => false,
    }
}

/// How many of the numbers go on one by one from the first, below n.
fn count_in_turn(numbers: &[u32], first: u32, n: u32) -> usize
    ensures turn { take result numbers.now ≡ upward first result }
    ensures fits { result ≤ length numbers.now }
    ensures below { 0 < result → first + result ≤ n }
{
    let mut len = 0;
    'turn: while goes_on(numbers, first, len, n) {
        len += 1;
    }
    len
}

/// Adds the names of the first of these numbers, and of those that go on from it one by one, where these are stored. The answer
/// is the numbers behind them.
fn add_names_in_turn<'a>(
    build: &mut BatchBuild,
    names: &Names<'_>,
    first: u32,
    numbers: &'a [u32],
) -> Result<&'a [u32], AllocError>
    requires first { (more : List ℕ) × (numbers.now ≡ first ∷ more) }
    requires names { AreBelow (names.now.count + names.now.more) numbers.now }
    ensures built { IfOk result (λ left. (done : List ℕ) × (numbers.now ≡ done ++ left.now) × (0 < length done) × ((p : PlainPayload) → IsBuilt build.old p
        → IsBuilt build.new (record p { other_names = p.other_names ++ map (name_at (names.now.stored.now ++ names.now.pending.now)) done }))) }
    ensures count { build.new.other_count ≡ build.old.other_count }
{
    let len = count_in_turn(numbers, first, names.count);
    if len == 0 {
        let name = names.at(first).to_name();
        build.other_name(&name)?;
        let (_, left) = numbers.split_at(1);
        return Ok(left);
    }
    build.other_names(names.stored_from(first, len))?;
    let (_, left) = numbers.split_at(len);
    Ok(left)
}

/// Adds the names of these numbers: those that are stored one behind the other at once.
pub fn add_other_names(
    build: &mut BatchBuild,
    names: &Names<'_>,
    numbers: &[u32],
) -> Result<(), AllocError>
    requires { AreBelow (names.now.count + names.now.more) numbers.now }
    ensures built { OnOk result ((p : PlainPayload) → IsBuilt build.old p
        → IsBuilt build.new (record p { other_names = p.other_names ++ map (name_at (names.now.stored.now ++ names.now.pending.now)) numbers.now })) }
    ensures count { build.new.other_count ≡ build.old.other_count }
{
    let mut left = numbers;
    'numbers: while let Some(first) = left.first() {
        left = add_names_in_turn(build, names, *first, left)?;
    }
    Ok(())
}
