//! Packets interpreted by the raw rows of a database: each search is one through all rows.
//!
//! Each call is its definition in `mib_model`: what a packet is, the values of a fixed layout, what is kept of parameters,
//! the class of a sample and a step of an alarm. No row is compiled; where rows are searched by a key, `first_rows` and `row_groups` answer what a
//! search through all of them does. It rests on `bit_field` for the bits of values
//! and on `dec_num` for counts.
#![tactic(auto)]

mod alarm;
mod checks;
mod class;
mod curves;
mod kept;
mod keys;
mod layout;
mod memory;
mod ordered;
mod packets;
mod parameters;
mod sample;

pub use alarm::alarm_step;
pub use checks::CheckRows;
pub use class::class_of;
pub use curves::CalibrationRows;
pub use kept::KeptOf;
pub use layout::read_places;
pub use memory::Memory;
pub use ordered::{ByPlace, OrderedRows};
pub use packets::PacketRows;
pub use parameters::{ParameterRows, shape_for};
pub use sample::Checked;
