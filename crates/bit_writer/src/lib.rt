//! Numbers that are written into the bits of octets, as `bit_field` reads them.
//!
//! `write_all` puts a list of writes into octets, and tells the least bit that one of them sets to 1 and another to 0. A
//! number that was written without such a clash, and has room in its field, is read again (`written_is_read`). It rests on
//! mib_model for the numbering of bits and the orders of octets, and on byteorder for numbers of eight octets.
#![tactic(auto)]

mod clash;
mod fast;
mod laws;
mod part;
mod set;
mod write;
mod writing;

pub use laws::written_is_read;
pub use write::Write;
pub use writing::{octets_for, write_all};
