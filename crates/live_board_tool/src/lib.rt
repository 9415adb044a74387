//! The command `board DIR FEED DESK PAGE`: a live run that shows a page of parameters on a screen while it goes on.
//!
//! The call `board_tool` promises what a live run does, which pages the screen was given, and with which status it ends. It stands on
//! `board_inputs` for tables, feed, desk and names, on `live_session` for the run, on `run_pages` and `page_screen` for the pages, and on
//! `mib_model` for all definitions.
#![tactic(auto)]

mod board;
mod codes;
mod command;
mod laws;
mod opening;

pub use command::{BoardStatus, board_tool};
pub use laws::{a_bad_page_is_refused, boarding_is_complete};
