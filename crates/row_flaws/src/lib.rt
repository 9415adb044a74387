//! The flaw of one row of a monitoring database: what the rules of its table find in it.
//!
//! `row_flaw` answers the first flaw of a row whose key stands in no row before it, of any table. It looks up what a row refers
//! to in `Lookups`: the index of a book, with packets, points of curves and rows of structures beside it. It rests on the
//! definitions of `mib_model`, on the `Book` of `mib_tables`, on `mib_index` for rows by their keys, on the numbers of `dec_num`
//! and on the types of `bit_field`.
#![tactic(auto)]

mod flaw;
mod groups;
mod lookups;
mod points;
mod rows;
mod rules;
mod structures;
mod types;

pub use lookups::Lookups;
pub use points::before;
pub use rows::row_flaw;
