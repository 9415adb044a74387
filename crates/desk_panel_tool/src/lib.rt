//! The command `panel DIR FEED DESK1 ..`: a live run beside which one to four desks edit the tables.
//!
//! The call `panel_tool` promises what is printed and what each desk does and is replied, and with which status it ends. It stands on `panel_session` for
//! the run, on `folder_edition` for tables, on `tool_words` for words, and on `mib_model` for all definitions.
#![tactic(auto)]

mod command;
mod inputs;
mod laws;
mod panel;

pub use command::panel_tool;
pub use laws::{
    a_missing_desk_is_refused, a_missing_feed_is_refused, bad_tables_are_refused,
    paneling_is_complete,
};
pub use live_session::Status;
