//! The command `build DIR ASKS` of the monitoring tool: it reads the tables of a monitoring database from a folder, and writes
//! the packets that the lines of a file ask for, one after the other.
//!
//! The call `build_tool` promises what is written for these tables and these lines, and with which status it ends. It stands on
//! `tm_build` for packets, on `build_asks` for what a line asks for, on `folder_tables` for sound tables, on `desk_lines` for the lines of a file, on
//! `tool_objects` for what is said of files and sinks, and on `build_rules` for the definitions.
#![tactic(auto)]

mod code;
mod command;
mod inputs;
mod line;
mod run;

pub use code::BuildCode;
pub use command::build_tool;
