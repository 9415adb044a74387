//! What the definitions of an audit come to, and worked examples of them.

ghost use Rattle.tm_audit.specs.CodeExamples.{CodeExamples};
ghost use Rattle.tm_audit.specs.Examples.{AuditExamples};
ghost use Rattle.tm_audit.specs.Laws.{AloneIsSame, PartsInLine};

/// Texts are one where no line of theirs differs.
#[tactic(auto, using(crate::proofs::PartFacts::alone_is_same))]
pub fn alone_is_same()
    ensures { AloneIsSame }
{}

/// The first line that differs is the one in which the first octet does.
#[tactic(auto, using(crate::proofs::PartFacts::parts_in_line))]
pub fn parts_in_line()
    ensures { PartsInLine }
{}

/// Audits of texts as they are printed, and of texts that are not.
#[tactic(auto, using(crate::proofs::Computed::audit_examples))]
pub fn audit_examples()
    ensures { AuditExamples }
{}

/// Lines and numbers of audits' ends.
#[tactic(auto, using(crate::proofs::Computed::code_examples))]
pub fn code_examples()
    ensures { CodeExamples }
{}
