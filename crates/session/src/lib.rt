//! The tables of a monitoring database, loaded from a folder.
//!
//! `load` reads the 15 tables in their order and answers a `Book` of their rows, or the first fault of the first faulty
//! one. It stands on `tm_io` and `whole_texts` for files, on `mib_rows` for rows, on `mib_tables` for the book, and on `mib_model` for
//! all definitions.
#![tactic(auto)]

mod load_fault;
mod loading;
mod text_file;

pub use load_fault::LoadFault;
pub use loading::load;
