//! The raw rows of a sound database, set up for searches.
//!
//! `RowSearches` answers what a search through all rows of a table finds, each as its definition in `mib_model` says it:
//! what a packet is, parameters, structures, checks and curves by their names. No row is compiled. It rests on
//! `row_interpreter` for the searches, on `mib_tables` for the rows, and on `mib_laws` for what sound structures are.
#![tactic(auto)]

mod searches;

pub use searches::RowSearches;
