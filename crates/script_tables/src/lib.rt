//! The tables that a desk's script saves.
//!
//! `saved_books` follows the lines of a script from its source on: rows are put into a draft and taken out of it by their keys, and each `save` of a
//! sound draft gives the tables of a further edition, up to 64. It rests on `desk_lines` for lines, on `mib_rows` for
//! rows, on `mib_tables` for drafts, on `mib_keys` for soundness, and on `tm_audit` for the definition.
#![tactic(auto)]

mod saving;
mod script;

pub use script::{ScriptFault, saved_books};
