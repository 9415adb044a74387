//! What a packet that is built gives back: identification tells its SPID, and its layout or structure ends whole with the items
//! that it was built of.
//!
//! Laws of the definitions of `build_rules`: each is a function with an empty body, and its contract holds of each database.
//! They rest on `bit_writer`, whose writes are read again, on `struct_plan`, whose walk is one over a packet and over items,
//! and on `row_laws`, by which rows that are read fit their types.
#![tactic(auto)]

mod laws;

pub use laws::{built_gives_back, built_of_read_gives_back};
