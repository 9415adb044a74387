//! The names of a page by a file on a shelf.
//!
//! `page_names` turns a shelf to a file, reads as much of it as is needed and cuts it into names, or answers the end of a board that its
//! refusal is. It stands on `tm_io` and `whole_texts` for shelves and on `page_texts` for names and for ends.
#![tactic(auto)]

mod page_file;

pub use page_file::page_names;
