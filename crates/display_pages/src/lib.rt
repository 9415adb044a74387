//! The pages of a display: what is kept of chosen parameters after a packet.
//!
//! In `specs/`: the page after a packet, by what the interpreter keeps then, and its text (`Pages`). It rests on mib_model alone.
#![tactic(auto)]

mod page;

pub use page::{Cell, MOST_CELLS, Page};
