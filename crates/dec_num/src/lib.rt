//! Exact numbers: scaled decimals read from their texts, counts of 10^-12 and their texts, and the sums of
//! calibration curves.
//!
//! Each call gives what its definition in `mib_model` gives, in whole numbers of 128 bits and without a floating-point
//! step, or names why there is no answer. It rests on `mib_model` for definitions and types, which it passes on, and
//! on `itoa` for digits, and takes no memory.
#![tactic(auto)]

mod count;
mod curve;
mod digits;
mod fast;
mod parts;
mod polynomial;
mod read;
mod rounding;
mod spaces;
mod steps;
mod whole;
mod zeros;

pub use count::{eng_of, write_eng};
pub use curve::{Point, interp};
pub use digits::{are_digits, digits_number};
pub use mib_model::{Dec, DecFault, Eng, Over};
pub use polynomial::{PolyCurve, poly};
pub use read::read_dec;
pub use spaces::trim;
pub use whole::{decimal_whole, whole_number};
