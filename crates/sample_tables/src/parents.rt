//! Tests of the parents of a commit.

ghost use Rattle.std.specs.Prelude.{◌<◌, ◌↔◌, IsTrue};
ghost use Rattle.std.specs.List.{AllByRecursion};
ghost use Rattle.id_groups.specs.Lists.{AreDistinct, IsIn};

use id_groups::Id;

/// Whether each id lies below the number.
pub(crate) fn are_below(ids: &[Id], end: u64) -> bool
    ensures { IsTrue result ↔ AllByRecursion (λ p. p < end) ids.now }
{
    match ids {
        [] => true,
        [first, others @ ..] => first.number() < end && are_below(others, end),
    }
}

/// Whether the id is one of these.
fn is_among(id: Id, ids: &[Id]) -> bool
    ensures { IsTrue result ↔ IsIn id ids.now }
{
    match ids {
        [] => false,
        [first, others @ ..] => id.number() == first.number() || is_among(id, others),
    }
}

/// Whether no id stands there twice.
pub(crate) fn are_distinct(ids: &[Id]) -> bool
    ensures { IsTrue result ↔ AreDistinct ids.now }
{
    match ids {
        [] => true,
        [first, others @ ..] => !is_among(*first, others) && are_distinct(others),
    }
}
