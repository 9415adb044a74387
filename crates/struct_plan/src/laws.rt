ghost use Rattle.struct_plan.specs.Sources.{PacketIsSource, WalksEnd};

/// A walk whose values come from a packet is that over the packet.
#[tactic(auto, using(crate::proofs::SourceFacts::packet_is_source))]
pub fn packet_is_source()
    ensures { PacketIsSource }
{}

/// Each walk over a sound database ends within as many steps as one over a packet may take, whatever its values come from.
#[tactic(auto, using(crate::proofs::EndFacts::walks_end))]
pub fn walks_end()
    ensures { WalksEnd }
{}
