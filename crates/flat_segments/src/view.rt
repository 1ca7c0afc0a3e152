//! A view of a table, lent with the log's bytes.

ghost use Rattle.std.specs.Prelude.{◌≡◌, ◌<◌, ◌^◌, ◌+◌, ◌-◌, ◌++◌, true, length};
ghost use Rattle.segment_codec.specs.Flat.{is_lawful};
ghost use Rattle.flat_segments.specs.Maximal.{begin_of};
ghost use Rattle.flat_segments.specs.Runs.{flats_in};

use crate::run::Run;

/// The segments of a table below a master count, and of the sections that were joined to it.
#[derive(Clone, Copy)]
pub struct FlatView<'a> {
    pub(crate) master: Run<'a>,
    pub(crate) others: Run<'a>,
    pub(crate) pending: Run<'a>,
    ghost lawful: { is_lawful master.end (pending.end - 2 ^ 56) (flats_in master.bytes.now master.end master.entries.now)
        (flats_in others.bytes.now others.end others.entries.now ++ flats_in pending.bytes.now pending.end pending.entries.now) ≡ true },
    ghost other_ids: { begin_of others.end (flats_in others.bytes.now others.end others.entries.now) ≡ 2 ^ 56 },
    ghost pending_ids: { begin_of pending.end (flats_in pending.bytes.now pending.end pending.entries.now) ≡ others.end },
    ghost few: { length master.entries.now + length others.entries.now + length pending.entries.now < 2 ^ 32 },
}
