//! The values of packets of variable structure, by the raw rows of a database.
//!
//! `structure_values` walks the rows of a structure as the definition of a walk says it: a row is read, and it tells which
//! rows come next. The rows that are still to walk stand on a stack of rows with the number of times that they are walked. It
//! rests on `row_searches` for the rows and on `bit_field` for the bits of values.
#![tactic(auto)]

mod subject;
mod to_walk;
mod walk;

pub use walk::structure_values;
