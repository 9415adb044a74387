//! Rows found by a key: all rows with that key, in their order.
//!
//! `RowGroups` keeps a hash map from each key to the rows that have it. So `of` takes one probe, for one row or for
//! 100,000, and no memory; its answer is that of a filter over the rows. It rests on std and on the ways to look up rows
//! of `first_rows`.
#![tactic(auto)]

mod group;
mod row_groups;

pub use first_rows::By;
pub use row_groups::RowGroups;
