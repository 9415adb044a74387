//! What a packet that is built from raw numbers consists of.
//!
//! In `specs/`: the values that items are at their places (`Laying`), the bits that they and the headers are written into and the
//! packet of those, or the first fault (`Building`), and the lines that ask for packets (`Asks`). It rests on mib_model for the
//! tables and their places, on struct_plan for walks over any source of values, and on bit_writer for bits that are written.
#![tactic(auto)]

mod fault;
mod item;

pub use fault::BuildFault;
pub use item::Item;
