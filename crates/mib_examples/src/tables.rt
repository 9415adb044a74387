//! Lines, fields, rows, keys and first faults.

ghost use Rattle.mib_model.specs.declared.tables.Tables.{Tables};
ghost use Rattle.mib_examples.specs.TableExamples.{DatabaseExamples, TextExamples, RowExamples, FirstFaultExamples};

#[tactic(auto, using(crate::proofs::ComputedTables::text_examples))]
pub fn text_examples()
    ensures { TextExamples }
{}

#[tactic(auto, using(crate::proofs::ComputedTables::row_examples))]
pub fn row_examples()
    ensures { RowExamples }
{}

#[tactic(auto, using(crate::proofs::ComputedTables::first_fault_examples))]
pub fn first_fault_examples()
    ensures { FirstFaultExamples }
{}

pub fn database_examples()
    ensures { (t : Tables) → DatabaseExamples t }
{}
