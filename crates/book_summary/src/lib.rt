//! The summary of a monitoring database: how many rows each of its tables has, and how many plans it asks for.
//!
//! `summary_of` makes exactly the text that the definitions of `mib_model` give for the database of a `Book`. It rests
//! on those definitions, on the `Book` of `mib_tables`, and on `itoa` for the digits of a number.
#![tactic(auto)]

mod plans;
mod summary;

pub use summary::summary_of;
