//! A law of the payloads.

ghost use Rattle.std.specs.Prelude.{List, []};
ghost use Rattle.id_groups.specs.Name.{Name as NameBytes};
ghost use Rattle.commit_graph.specs.World.{World, IsNamedWorld};
ghost use Rattle.batch_codec.specs.Payload.{Payload as PlainPayload};
ghost use Rattle.change_rules.specs.Lawful.{AreLawful};
ghost use Rattle.change_rules.specs.Tables.{StandFor};

/// Lawful payloads stand for some world.
pub fn payloads_stand_for_a_world()
    ensures { (payloads : List PlainPayload) → AreLawful [] payloads → (w : World NameBytes) × IsNamedWorld w × StandFor payloads w }
{}
