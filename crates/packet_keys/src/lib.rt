//! What a packet is identified by: its types, its discriminants, and the keys of the rows of pid and pic that it agrees with.
//!
//! `types` and `discriminants` read a packet's octets, `found_by` says what it is by the row that was found, and `ByCriterion` and
//! `ByPacket` are the ways to look that row up. A plan and an audit search by them, each in its own rows. The crate rests on
//! `mib_model` for definitions, on `bit_field` for numbers in a packet, and on `first_rows` for ways to look rows up.
#![tactic(auto)]

mod keys;
mod reading;

pub use keys::{ByCriterion, ByPacket, CriterionKey, PacketKey, packet_key};
pub use reading::{discriminants, found_by, types};
