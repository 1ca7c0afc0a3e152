//! A payload that is lent, and its sections.

ghost use Rattle.std.specs.Prelude.{◌≡◌, ◌^◌, ◌*◌, true, length, flat_map};
ghost use Rattle.segment_codec.specs.Record.{segment_bytes};
ghost use Rattle.batch_codec.specs.Reading.{segments_in, ids_in, ids_ascend};

use id_groups::{Id, NameRef};

/// Records of segments, one after another.
#[derive(Clone, Copy)]
pub struct SegmentSlice<'a> {
    pub(crate) count: u32,
    pub(crate) bytes: &'a [u8],
    pub(crate) start: u64,
    ghost many: { length (segments_in count bytes.now) ≡ count },
    ghost spelled: { bytes.now ≡ flat_map segment_bytes (segments_in count bytes.now) },
}

/// Known ids with their names, ascending.
#[derive(Clone, Copy)]
pub struct KnownSlice<'a> {
    pub(crate) count: u32,
    pub(crate) bytes: &'a [u8],
    pub(crate) start: u64,
    ghost size: { length bytes.now ≡ 28 * count },
    ghost ascending: { ids_ascend 0 (2 ^ 57) (ids_in count bytes.now) ≡ true },
}

/// Names, one after another.
#[derive(Clone, Copy)]
pub struct NameSlice<'a> {
    pub(crate) count: u32,
    pub(crate) bytes: &'a [u8],
    pub(crate) start: u64,
    ghost size: { length bytes.now ≡ 20 * count },
}

/// A known id and its name.
#[derive(Clone, Copy)]
pub struct KnownRef<'a> {
    /// The id.
    pub id: Id,
    /// Its name.
    pub name: NameRef<'a>,
}

/// The sections of a payload, as they were read one after another. That together they are one in the grammar, each at its
/// place, is what `BatchRef` keeps of them.
#[derive(Clone, Copy)]
pub struct Parts<'a> {
    pub(crate) version: u8,
    pub(crate) kind: u8,
    pub(crate) before: u64,
    pub(crate) after: u64,
    pub(crate) cloned: u64,
    pub(crate) master: SegmentSlice<'a>,
    pub(crate) levels: SegmentSlice<'a>,
    pub(crate) known: KnownSlice<'a>,
    pub(crate) heads: NameSlice<'a>,
    pub(crate) others: SegmentSlice<'a>,
    pub(crate) other_names: NameSlice<'a>,
}
