//! Packets, what is kept, alarms and ends.

ghost use Rattle.mib_examples.specs.PacketExamples.{PacketExamples, StateExamples, EndExamples};

#[tactic(auto, using(crate::proofs::ComputedPackets::packet_examples))]
pub fn packet_examples()
    ensures { PacketExamples }
{}

#[tactic(auto, using(crate::proofs::ComputedPackets::state_examples))]
pub fn state_examples()
    ensures { StateExamples }
{}

#[tactic(auto, using(crate::proofs::ComputedPackets::end_examples))]
pub fn end_examples()
    ensures { EndExamples }
{}
