//! The values of packets of variable structure, by plans made of the structures' rows.
//!
//! `walk` goes over the rows of a structure as they say: choices, references, deduced parameters, groups that are
//! repeated, offsets; it gives the values and tells how they end (`structure_values` of mib_model). Names and types are
//! looked up when a structure is compiled; the walk finds a structure or a deduced parameter by one call of the caller's
//! `Structures`. `walk_by` does the same with values from any source, a `Numbers` of the caller's. Neither takes memory: groups that are still to be repeated are kept in the slots of the list of values that
//! aren't in use, two in a slot, and two outside it. Each repetition gives a value, so no more of them can be reached than
//! there are slots. It rests on mib_model for the definitions and types, on mib_laws for the law that walks end, on bit_field for the
//! values and on first_rows for looking rows up.
#![tactic(auto)]

mod course;
mod entry;
mod group;
mod laws;
mod numbers;
mod place;
mod stack;
mod structure;
mod walks;

pub use bit_field::Values;
pub use entry::ValueField;
pub use laws::{packet_is_source, walks_end};
pub use mib_model::{Ended, TypeItem};
pub use numbers::{Numbers, PacketNumbers, WalkEnd};
pub use structure::{Structure, Structures};
pub use walks::{walk, walk_by};
