//! What the sections of a payload lend.

ghost use Rattle.std.specs.Prelude.{◌≡◌, ◌*◌, ◌<◌, Some, length, flat_map, slice_get, slice_index};
ghost use Rattle.segment_codec.specs.Record.{segment_bytes};
ghost use Rattle.batch_codec.specs.Lent.{segments_of, knowns_of, lent_ids, lent_names, lent_known, payload_of};

use crate::fixed::{front_u64, piece};
use crate::lent::{KnownRef, KnownSlice, NameSlice, SegmentSlice};
use crate::whole::BatchRef;
use id_groups::{Id, NameRef};

impl<'a> SegmentSlice<'a> {
    /// How many records there are.
    pub fn len(&self) -> u32
        ensures { result ≡ length (segments_of self.now) }
    {
        self.count
    }

    /// The records, one after another.
    pub fn bytes(&self) -> &'a [u8]
        ensures { result.now ≡ flat_map segment_bytes (segments_of self.now) }
    {
        self.bytes
    }

    /// The place in the payload at which the first record stands or would stand.
    pub fn start(&self) -> u64
        ensures { result ≡ self.now.start }
    {
        self.start
    }
}

impl<'a> KnownSlice<'a> {
    /// How many ids there are.
    pub fn len(&self) -> u32
        ensures { result ≡ length (knowns_of self.now) }
    {
        self.count
    }

    /// The number of the id at place `i`.
    pub(crate) fn number_at(&self, i: u32) -> u64
        requires { i < self.now.count }
        ensures { result ≡ slice_index (lent_ids self.now) i }
    {
        let (_, entry) = self.bytes.split_at(28 * i as usize);
        front_u64(entry)
    }

    /// The id at place `i`, with its name. `i` is below `len`.
    pub fn at(&self, i: u32) -> KnownRef<'a>
        requires { i < length (knowns_of self.now) }
        ensures { slice_get (knowns_of self.now) i ≡ Some (lent_known result) }
    {
        KnownRef {
            id: Id::from_number(self.number_at(i)),
            name: NameRef::over(piece(self.bytes, 28 * i as usize + 8, 20)),
        }
    }

    /// The ids and their names, one after another: eight bytes for an id, and 20 for its name.
    pub fn bytes(&self) -> &'a [u8]
        ensures bytes { result.now ≡ self.now.bytes.now }
        ensures size { length result.now ≡ 28 * length (knowns_of self.now) }
    {
        self.bytes
    }

    /// The place in the payload at which the first id stands or would stand.
    pub fn start(&self) -> u64
        ensures { result ≡ self.now.start }
    {
        self.start
    }
}

impl<'a> NameSlice<'a> {
    /// How many names there are.
    pub fn len(&self) -> u32
        ensures { result ≡ length (lent_names self.now) }
    {
        self.count
    }

    /// The name at place `i`. `i` is below `len`.
    pub fn at(&self, i: u32) -> NameRef<'a>
        requires { i < length (lent_names self.now) }
        ensures { slice_get (lent_names self.now) i ≡ Some result.bytes.now }
    {
        NameRef::over(piece(self.bytes, 20 * i as usize, 20))
    }

    /// The names, one after another.
    pub fn bytes(&self) -> &'a [u8]
        ensures bytes { result.now ≡ self.now.bytes.now }
        ensures size { length result.now ≡ 20 * length (lent_names self.now) }
    {
        self.bytes
    }

    /// The place in the payload at which the first name stands or would stand.
    pub fn start(&self) -> u64
        ensures { result ≡ self.now.start }
    {
        self.start
    }
}

impl<'a> BatchRef<'a> {
    /// The version of the payload's format.
    pub fn version(&self) -> u8
        ensures { result ≡ (payload_of self.now).version }
    {
        self.parts.version
    }

    /// 1 is a flush, 2 a clone, 3 a whole store.
    pub fn kind(&self) -> u8
        ensures { result ≡ (payload_of self.now).kind }
    {
        self.parts.kind
    }

    /// The size of the master group before.
    pub fn before(&self) -> u64
        ensures { result ≡ (payload_of self.now).before }
    {
        self.parts.before
    }

    /// The size of the master group after.
    pub fn after(&self) -> u64
        ensures { result ≡ (payload_of self.now).after }
    {
        self.parts.after
    }

    /// How many of the master ids were cloned: none by a flush, all by a clone.
    pub fn cloned(&self) -> u64
        ensures { result ≡ (payload_of self.now).cloned }
    {
        self.parts.cloned
    }

    /// The records of the new master ids.
    pub fn master_segments(&self) -> SegmentSlice<'a>
        ensures segments { segments_of result ≡ (payload_of self.now).master }
        ensures start { result.start ≡ self.now.parts.master.start }
    {
        self.parts.master
    }

    /// The records of the new segments of the levels above the flat ones, by level and then by id.
    pub fn level_segments(&self) -> SegmentSlice<'a>
        ensures segments { segments_of result ≡ (payload_of self.now).levels }
        ensures start { result.start ≡ self.now.parts.levels.start }
    {
        self.parts.levels
    }

    /// The new known ids.
    pub fn known(&self) -> KnownSlice<'a>
        ensures known { knowns_of result ≡ (payload_of self.now).known }
        ensures start { result.start ≡ self.now.parts.known.start }
    {
        self.parts.known
    }

    /// The heads of the remote that was cloned.
    pub fn heads(&self) -> NameSlice<'a>
        ensures names { lent_names result ≡ (payload_of self.now).heads }
        ensures start { result.start ≡ self.now.parts.heads.start }
    {
        self.parts.heads
    }

    /// The records of all other ids.
    pub fn other_segments(&self) -> SegmentSlice<'a>
        ensures segments { segments_of result ≡ (payload_of self.now).others }
        ensures start { result.start ≡ self.now.parts.others.start }
    {
        self.parts.others
    }

    /// The names of all other ids, in their order.
    pub fn other_names(&self) -> NameSlice<'a>
        ensures names { lent_names result ≡ (payload_of self.now).other_names }
        ensures start { result.start ≡ self.now.parts.other_names.start }
    {
        self.parts.other_names
    }
}
