//! Words of the command line, scripts and texts.

ghost use Rattle.mib_examples.specs.ToolExamples.{WordExamples, LineExamples, SummaryExamples};

#[tactic(auto, using(crate::proofs::ComputedTools::word_examples))]
pub fn word_examples()
    ensures { WordExamples }
{}

#[tactic(auto, using(crate::proofs::ComputedTools::line_examples))]
pub fn line_examples()
    ensures { LineExamples }
{}

#[tactic(auto, using(crate::proofs::ComputedTools::summary_examples))]
pub fn summary_examples()
    ensures { SummaryExamples }
{}
