//! Decimals, counts, whole numbers, encodings and bits.

ghost use Rattle.mib_examples.specs.NumberExamples.{DecimalExamples, CountExamples, WholeNumberExamples, EncodingExamples, BitExamples};

#[tactic(auto, using(crate::proofs::ComputedNumbers::decimal_examples))]
pub fn decimal_examples()
    ensures { DecimalExamples }
{}

#[tactic(auto, using(crate::proofs::ComputedNumbers::count_examples))]
pub fn count_examples()
    ensures { CountExamples }
{}

#[tactic(auto, using(crate::proofs::ComputedNumbers::whole_number_examples))]
pub fn whole_number_examples()
    ensures { WholeNumberExamples }
{}

#[tactic(auto, using(crate::proofs::ComputedNumbers::encoding_examples))]
pub fn encoding_examples()
    ensures { EncodingExamples }
{}

#[tactic(auto, using(crate::proofs::ComputedNumbers::bit_examples))]
pub fn bit_examples()
    ensures { BitExamples }
{}
