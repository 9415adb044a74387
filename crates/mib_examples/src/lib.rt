//! Worked examples of the definitions, computed by the checker.
//!
//! Each function has an empty body, and its contract is a record of examples: what a definition of `mib_model` says
//! of tables, packets and texts that are written out. It rests on `mib_model` alone; `build_examples` takes tables from it.
#![tactic(auto)]

mod desks;
mod numbers;
mod packets;
mod registers;
mod runs;
mod tables;
mod tools;

pub use desks::{prelude_examples, want_examples, worded_examples};
pub use numbers::{
    bit_examples, count_examples, decimal_examples, encoding_examples, whole_number_examples,
};
pub use packets::{end_examples, packet_examples, state_examples};
pub use registers::{
    carry_examples, desk_examples, edition_examples, plan_examples, reply_examples,
};
pub use runs::{
    calibrations_runs, checks_runs, curves_runs, edition_runs, layouts_runs, limits_runs,
    places_runs, structures_runs,
};
pub use tables::{database_examples, first_fault_examples, row_examples, text_examples};
pub use tools::{line_examples, summary_examples, word_examples};
