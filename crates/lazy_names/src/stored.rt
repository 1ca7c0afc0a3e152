//! What is stored of a graph and its names.

use name_map::NameMap;
use std::alloc::AllocError;

/// What is stored of a graph and its names: the table of its segments, the map of known names, and the bytes that both stand in.
pub struct Stored<'a, T> {
    /// The segments.
    pub table: &'a T,
    /// The known names.
    pub known: &'a NameMap,
    /// The bytes.
    pub bytes: &'a [u8],
}

impl<'a, T> Clone for Stored<'a, T> {
    ghost use Rattle.std.specs.Prelude.{◌≡◌, ⊤};

    ghost is_clone = { λ stored copy. copy ≡ stored };

    ghost is_infallible = { λ _. ⊤ };

    fn clone(&self) -> Result<Self, AllocError> {
        Ok(*self)
    }
}

impl<'a, T> Copy for Stored<'a, T> {}
