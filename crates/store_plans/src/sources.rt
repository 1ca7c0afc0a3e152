//! Where names are found that the log hasn't.

use lazy_names::LazyNames;

/// Where names are found that the log hasn't: the names that mirrors gave before, and the mirrors.
#[derive(Drop)]
pub struct NameSources<'c, 'm, R> {
    /// The names that mirrors gave before.
    pub cache: &'c mut LazyNames,
    /// The mirrors.
    pub mirrors: &'m mut Vec<R>,
}
