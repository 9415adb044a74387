//! What a desk leaves, preludes, and what is said of entries, packets and walks.

ghost use Rattle.mib_examples.specs.DeskExamples.{WantExamples, PreludeExamples, WordedExamples};

#[tactic(auto, using(crate::proofs::DerivedDesks::want_examples))]
pub fn want_examples()
    ensures { WantExamples }
{}

#[tactic(auto, using(crate::proofs::DerivedDesks::prelude_examples))]
pub fn prelude_examples()
    ensures { PreludeExamples }
{}

#[tactic(auto, using(crate::proofs::DerivedDesks::worded_examples))]
pub fn worded_examples()
    ensures { WordedExamples }
{}
