//! The packets of a feed: octets that come in pieces of any size, cut by the length fields of their headers alone
//! (CCSDS 133.0-B).
//!
//! `Feed::next` gives the packets of the one cut there is, reads no octet past the packet that it gives, and tells
//! the end, a rest that begins no whole packet, and a fault apart. It stands on `tm_io` for sources and on
//! `mib_model` for headers.
#![tactic(auto)]

mod feed;
mod next;

pub use feed::{Feed, PACKET_SIZE, cut_is_unique, header_at, packet_at};
pub use mib_model::Header;
pub use next::Next;
