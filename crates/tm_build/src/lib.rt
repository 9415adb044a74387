//! Packets of telemetry, built of a SPID, a sequence count and raw numbers.
//!
//! `build` lays items as the layout or the structure of the SPID's row says, and writes them with the headers and the
//! discriminants; or it tells the first fault. It rests on build_rules for the definitions, on struct_plan and numbered_plans for
//! walks, on first_rows and row_groups for rows by their keys, and on bit_writer for the bits.
#![tactic(auto)]

mod building;
mod laws;
mod laying;
mod layout;
mod numbers;
mod tables;
mod writes;

pub use build_rules::{BuildFault, Item};
pub use building::{Builder, OCTETS_MOST, build};
pub use laws::builds_what_is_right;
