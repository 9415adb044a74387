//! The tables of a monitoring database as operators edit them: rows are put and taken out by their keys.
//!
//! A `Book` is seen as the database that its rows are, and each call says exactly which rows stand afterwards. It rests
//! on the definitions of `mib_model`.
#![tactic(auto)]

mod book;
mod shared;
mod table;
mod table_set;

pub use book::Book;
pub use table::{DelFault, Put};
pub use table_set::TableSet;
