//! What a source has left, read whole or up to a limit.
//!
//! `read_up_to` reads a source to its end or to so many octets, whichever comes first, and tells apart that the source failed and
//! that memory ran out. It stands on `tm_io` for sources.
#![tactic(auto)]

mod reading;
mod text_fault;

pub use reading::read_up_to;
pub use text_fault::TextFault;
