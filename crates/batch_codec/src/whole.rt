//! A payload that is lent.

ghost use Rattle.std.specs.Prelude.{◌≡◌, Some};
ghost use Rattle.std.specs.Coded.{Coded-set, coded_option};
ghost use Rattle.batch_codec.specs.Codes.{coded_payload};
ghost use Rattle.batch_codec.specs.Parts.{payload_in};
ghost use Rattle.batch_codec.specs.Payload.{master_start, levels_start, known_start, heads_start, others_start, names_start};
ghost use Rattle.batch_codec.specs.Reading.{payload_at};

use crate::lent::Parts;

/// A payload in the grammar.
#[derive(Clone, Copy)]
pub struct BatchRef<'a> {
    pub(crate) parts: Parts<'a>,
    pub(crate) payload: &'a [u8],
    ghost read: { payload_at payload.now ≡ Some (payload_in parts) } by { Coded-set (coded_option coded_payload) _ _ },
    ghost master_place: { parts.master.start ≡ master_start (payload_in parts) },
    ghost levels_place: { parts.levels.start ≡ levels_start (payload_in parts) },
    ghost known_place: { parts.known.start ≡ known_start (payload_in parts) },
    ghost heads_place: { parts.heads.start ≡ heads_start (payload_in parts) },
    ghost others_place: { parts.others.start ≡ others_start (payload_in parts) },
    ghost names_place: { parts.other_names.start ≡ names_start (payload_in parts) },
}
