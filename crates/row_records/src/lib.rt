//! The records of packets, by the raw rows of the databases that they are stamped with, one packet after the other.
//!
//! `Course` is where the interpretation of packets stands: what is kept of parameters, and the edition of the packet before.
//! `Course::take` appends the record of the next packet to a text, as the definition of an interpreter of one packet after the other says
//! it. It rests on `row_searches`, `row_walk` and `row_curves` for the rows, on `row_interpreter` for checks and what is kept, and on
//! `record_text` for the lines.
#![tactic(auto)]

mod carry;
mod course;
mod entering;
mod finishing;
mod telling;
mod values;

pub use course::{Course, Stamped};
