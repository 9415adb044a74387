//! Rows of tables that are the same, column by column: then they are equal.
//!
//! `same_row`, `all_same` and `same_if_any` compare a row, a list of rows and a row that may be missing with another, by
//! the test of the definition `touched`, and promise that what passes it is equal. It rests on the definitions of
//! `mib_model` and on the law of `row_laws` that the values of two rows are the same exactly where they are equal.
#![tactic(auto)]

mod rows;
mod same;

pub use same::{Same, all_same, same_if_any, same_row};
