//! Worked examples of pages, computed by the checker.
//!
//! Each function has an empty body, and its contract is a record of examples: the text that `display_pages` gives of what the
//! interpreter keeps after packets that are written out. Nothing rests on it.
#![tactic(auto)]

ghost use Rattle.page_examples.specs.PageExamples.{PageExamples};

#[tactic(auto, using(crate::proofs::Computed::page_examples))]
pub fn page_examples()
    ensures { PageExamples }
{}
