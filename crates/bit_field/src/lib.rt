//! Numbers at any bit of a packet, and the values of parameters.
//!
//! `unsigned` reads a field out of the eight octets from its first on, or out of the last eight where fewer are left, as
//! one number, and where these don't hold it out of the nine at most that do, by one call of `byteorder` and two shifts.
//! So a field of any width at any bit takes a constant number of steps, and none goes over bits. A field of the
//! order `Little` is put together from its octets, eight at most. It rests on `mib_model` for definitions and types,
//! which it passes on, and on `byteorder`, and takes no memory.
#![tactic(auto)]

mod encoding;
mod fast;
mod field;
mod laws;
mod value;
mod values;

pub use encoding::shape_of;
pub use fast::take_in_eight;
pub use field::{number_at, signed, unsigned};
pub use laws::bits_are_a_sum;
pub use mib_model::{Ended, Endian, MOST_VALUES, Order, Shape, Sort, Value};
pub use value::{number, take};
pub use values::Values;
