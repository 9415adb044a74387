//! The command `audit DIR FEED DESK TEXT` of the monitoring tool: whether a printed text follows from the tables of a folder, a feed, a
//! desk's script and the editions that the text shows, by raw rows alone.
//!
//! The call `audit_tool` promises what is told of which text, and what is read of the feed for it. It stands on `tm_audit` for the definition
//! and for the comparison, on `row_records` for what is expected of a packet, on `script_tables` for the tables that a script saves,
//! on `folder_tables` for sound tables, on `packet_feed` for packets, and on `tool_objects` for what is said of files and sinks.
#![tactic(auto)]

mod audit;
mod command;
mod comparing;
mod inputs;
mod text;

pub use command::audit_tool;
