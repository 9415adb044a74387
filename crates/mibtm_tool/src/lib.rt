//! The commands of the monitoring tool: `check DIR` reads the tables of a monitoring database from a folder, tests them and
//! prints a summary; `decode DIR FEED` cuts a feed into space packets and prints the values of each by such tables;
//! `live DIR FEED DESK` does so while the lines of a desk edit the tables and put new editions of them to use; `drill SEED`
//! decodes a generated feed, and prints counts.
//!
//! The call `tool` promises what is printed for these tables and this feed, and with which status it ends. It stands on
//! `folder_tables` and `folder_edition` for sound tables, on `book_summary` for the summary, on `decode_session` for runs, on
//! `live_session` for live ones, on `tm_drill` for a generated one, and on `mib_model` for all definitions.
#![tactic(auto)]

mod check;
mod codes;
mod commands;
mod decode;
mod drill;
mod live;
mod print;

pub use commands::{
    a_missing_feed_is_refused, a_script_up_to_its_go_decides, bad_tables_are_refused,
    checking_is_complete, decoding_is_complete, drilling_is_complete, living_is_complete, tool,
};
pub use live_session::Status;
