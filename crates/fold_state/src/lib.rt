//! What is kept of each parameter from packet to packet, and the records of packets.
//!
//! A `Board` has a slot for each plan of an edition. `Board::finish` takes the values of one packet: it enters their raw
//! numbers, then calibrates and checks each one, appends the packet's record and leaves what is kept, exactly as a step of
//! the interpreter of `mib_model` does; it takes no memory. `Board::carry` takes over what was kept where the edition
//! changes. It rests on `param_plan` and `check_plan` for the plans and on `record_text` for the lines.
#![tactic(auto)]

mod board;
mod carry;
mod check;
mod enter;
mod fast;
mod finish;
mod laws;
mod room;
mod seated;
mod shown;

pub use board::Board;
pub use check_plan::Holds;
pub use finish::{Seen, TEXT_BEFORE};
pub use laws::finish_is_a_step;
pub use mib_model::MadeFor;
pub use room::BoardRoom;
