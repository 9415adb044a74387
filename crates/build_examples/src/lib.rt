//! Worked examples of packets that are built, computed by the checker.
//!
//! Each function has an empty body, and its contract is a record of examples: what the definitions of `build_rules` say of
//! tables and asks that are written out. It rests on `build_rules` and takes its tables from `mib_examples`; nothing rests on it.
#![tactic(auto)]

ghost use Rattle.build_examples.specs.AskExamples.{AskExamples, FaultExamples, PacketExamples, PlaceExamples};

#[tactic(auto, using(crate::proofs::Computed::packet_examples))]
pub fn packet_examples()
    ensures { PacketExamples }
{}

#[tactic(auto, using(crate::proofs::Computed::place_examples))]
pub fn place_examples()
    ensures { PlaceExamples }
{}

#[tactic(auto, using(crate::proofs::Computed::fault_examples))]
pub fn fault_examples()
    ensures { FaultExamples }
{}

#[tactic(auto, using(crate::proofs::Computed::ask_examples))]
pub fn ask_examples()
    ensures { AskExamples }
{}
