//! The inputs of a board: tables, a feed, a desk and the names of a page, opened in this order.
//!
//! `open_inputs` answers the edition with which a run begins and the names of its page, or the first end that hinders it. It stands on
//! `folder_edition` for tables, on `page_files` for names, on `page_texts` for ends and on `tool_words` for words.
#![tactic(auto)]

mod inputs;

pub use inputs::open_inputs;
