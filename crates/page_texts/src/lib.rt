//! The texts of a display: a page as it is written, the file of the names that it shows, and how a call ends.
//!
//! `write_page` gives a sink the text of a page. `names_in` cuts a file into the names of a page, or tells the line for which
//! it is refused. `BoardCode` has the exit statuses and their lines. What a page is stands in `display_pages`; sinks are those of
//! `tm_io`, names and lines those of `mib_model`, and the lines that other commands have too are those of `record_text`.
#![tactic(auto)]

mod code;
mod ends;
mod laws;
mod lines;
mod page_file;
mod page_text;

pub use code::{BoardCode, BoardInput};
pub use laws::{end_examples, page_file_examples};
pub use page_file::{PAGE_FILE_MOST, PageFileFault, names_in};
pub use page_text::write_page;
