//! Audits of printed texts: whether a text follows from tables, a feed, a script and the editions that it shows.
//!
//! The definitions say what is expected of a text and what an audit finds of it. `ShownEditions` gives the editions that a
//! text shows, line by line, and `Comparison` tells the line in which it parts from what is expected, of which no octet
//! is kept. It rests on the definitions and types of `mib_model`, and on `itoa` for digits, and on `record_text`
//! for the lines of ends that a decoding has too.
#![tactic(auto)]

mod code;
mod comparison;
mod ends;
mod laws;
mod lines;
mod shown;

pub use code::{AuditCode, AuditInput, TEXT_MOST};
pub use comparison::Comparison;
pub use laws::{alone_is_same, audit_examples, code_examples, parts_in_line};
pub use shown::{ShownEditions, first_unknown};
