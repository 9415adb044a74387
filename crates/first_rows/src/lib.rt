//! Rows found by a key: of several rows with one key, the first.
//!
//! `FirstRows` keeps rows in their order beside a hash map from each key to the place of the first row that has it. So
//! `find` takes one probe, for one row or for 100,000, and no memory; its answer is that of a search through the rows.
//! Made by `with_numbers`, it has most rows also at places that their keys give them, where they are found without a probe.
//! It rests on std alone.
#![tactic(auto)]

mod fast;
mod first_rows;
mod seen;

pub use fast::ByNumber;
pub use first_rows::{By, FirstRows};
pub use seen::GhostRows;
