//! The words of runs: the register of editions and its histories, the lines of desks and their replies, what a run prints, the words
//! of a command line, and how a program ends.
//!
//! In `specs/` stands every definition of these that a contract cites. Nothing here reads, waits or prints; the crates above are proved
//! against it. It rests on `mib_model` for tables, packets and the interpreter, and on `histories` for the words on histories of a
//! sequential machine.
#![tactic(auto)]

mod code;
mod register;
mod reply;

pub use code::{Code, Input, Misuse};
pub use register::{Answer, Entry, Register, Scheduled};
pub use reply::Reply;
