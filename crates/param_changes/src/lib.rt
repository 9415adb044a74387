//! The plans of all parameters of a database beside those of another one, where few rows differ.
//!
//! `params_with` gives what `params_of` of param_set does. Where tables are known to be the same, or parameters have the same names and
//! few rows differ place by place, it takes over by handle all blocks of plans that no changed name touches, and gathers rows for the
//! parameters alone that are touched. It rests on mib_keys for the tables in which two books differ, on row_sameness for rows that are
//! the same, on row_keys for their names, and on param_set for rows, plans and the names of those that were compiled.
#![tactic(auto)]

mod beside;
mod changed;
mod touch;

pub use beside::params_with;
