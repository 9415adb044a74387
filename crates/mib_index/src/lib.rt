//! Rows found by a key, where they stand: the first, or all.
//!
//! `Firsts` gives the first row of a key and its place, `Groups` all rows of a key and how many there are, in one probe of a
//! hash map that is made with one for each row; `listed` makes no map, and looks through the rows. An `Index` has both for the
//! keys of a book by which its rules and its plans look rows up. It rests on `first_rows` and `row_keys` for the ways to look up
//! rows, on mib_model for rows and on mib_tables for the book.
#![tactic(auto)]

mod firsts;
mod groups;
mod index;

pub use first_rows::By;
pub use firsts::{Firsts, note, noted};
pub use groups::Groups;
pub use index::Index;
