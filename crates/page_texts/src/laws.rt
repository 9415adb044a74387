//! Worked examples of the definitions.

ghost use Rattle.page_texts.specs.Examples.{EndExamples, PageFileExamples};

/// Files of names that are accepted, and the lines for which others are refused.
#[tactic(auto, using(crate::proofs::Computed::page_file_examples))]
pub fn page_file_examples()
    ensures { PageFileExamples }
{}

/// Lines and numbers of a board's ends.
#[tactic(auto, using(crate::proofs::Computed::end_examples))]
pub fn end_examples()
    ensures { EndExamples }
{}
