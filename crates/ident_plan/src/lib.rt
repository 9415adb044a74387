//! What a packet is, by a plan made of the tables pid and pic.
//!
//! `Ident::find` answers what a search through the rows answers (`match_by` of mib_model), in at most three probes of
//! hash maps, for one row or for 100,000, and takes no memory. Where an APID has one row of pid alone, that row is compared
//! in place of a probe. It rests on mib_model for the definitions and types, on first_rows for the maps, and on packet_keys for
//! what a packet is identified by.
#![tactic(auto)]

mod fast;
mod ident;

pub use ident::Ident;
pub use mib_model::{BadWhy, Found};
