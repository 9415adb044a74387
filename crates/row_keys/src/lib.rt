//! The keys by which rows are found: the name that a row has, the SPID of its packet, the TPSD of its structure.
//!
//! A row says which name (`Named`) and which packet (`OfPacket`) it has, once for all crates that look rows up; `ByName`, `BySpid`,
//! `ByTpsd` and `ByStructure` are the ways of `first_rows` made of that. It rests on `first_rows` for ways and on mib_model for rows, and
//! takes no memory.
#![tactic(auto)]

mod named;
mod packets;
mod structures;

pub use first_rows::By;
pub use named::{ByName, Named};
pub use packets::{BySpid, OfPacket};
pub use structures::{ByStructure, ByTpsd};
