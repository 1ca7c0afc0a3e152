//! A record that is lent, and the list of its parents.

ghost use Rattle.std.specs.Prelude.{◌≡◌, ◌<◌, ◌≤◌, ◌^◌, flat_map};
ghost use Rattle.std.specs.List.{AllByRecursion, AllByRecursion-prop};
ghost use Rattle.std.specs.Coded.{le_prop};
ghost use Rattle.segment_codec.specs.Number.{number_bytes, numbers_in};

/// A segment whose record is lent.
#[derive(Clone, Copy)]
pub struct SegmentRef<'a> {
    pub(crate) low: u64,
    pub(crate) high: u64,
    pub(crate) level: u8,
    pub(crate) parents: &'a [u8],
    ghost order: { low ≤ high },
    ghost valid: { high < 2 ^ 57 },
    ghost spelled: { parents.now ≡ flat_map number_bytes (numbers_in parents.now) },
    ghost below: { AllByRecursion (λ p. p < low) (numbers_in parents.now) } by { AllByRecursion-prop _ (λ _. le_prop) (numbers_in parents.now) },
}

/// The parents of a segment, in their order.
#[derive(Clone, Copy, Drop)]
pub struct Parents<'a> {
    pub(crate) rest: &'a [u8],
    ghost spelled: { rest.now ≡ flat_map number_bytes (numbers_in rest.now) },
    ghost valid: { AllByRecursion (λ p. p < 2 ^ 57) (numbers_in rest.now) } by { AllByRecursion-prop _ (λ _. le_prop) (numbers_in rest.now) },
}
