//! How many bytes the parts of a known id take in a payload.

/// An id.
pub(crate) const ID_BYTES: u64 = 8;

/// A name, which stands behind its id.
pub(crate) const NAME_BYTES: u64 = 20;

/// An id and its name.
pub(crate) const ENTRY_BYTES: u64 = 28;
