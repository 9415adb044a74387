//! The register, desks, plans and changes of edition.

ghost use Rattle.mib_examples.specs.CarryExamples.{CarryExamples};
ghost use Rattle.mib_examples.specs.RegisterExamples.{ReplyExamples, DeskExamples, PlanExamples, EditionExamples};

#[tactic(auto, using(crate::proofs::ComputedRegisters::reply_examples))]
pub fn reply_examples()
    ensures { ReplyExamples }
{}

#[tactic(auto, using(crate::proofs::ComputedRegisters::desk_examples))]
pub fn desk_examples()
    ensures { DeskExamples }
{}

#[tactic(auto, using(crate::proofs::ComputedRegisters::plan_examples))]
pub fn plan_examples()
    ensures { PlanExamples }
{}

#[tactic(auto, using(crate::proofs::ComputedRegisters::edition_examples))]
pub fn edition_examples()
    ensures { EditionExamples }
{}

#[tactic(auto, using(crate::proofs::ComputedRegisters::carry_examples))]
pub fn carry_examples()
    ensures { CarryExamples }
{}
