//! What a calibration curve makes of raw numbers, by a plan made of the curve's rows.
//!
//! `Curve::apply` gives what the rows give (`calibration` of mib_model). Points and ranges of texts are read and put in
//! order when a curve is compiled, and an index of them is made, so that applying it mostly looks at one of them, and takes no
//! memory. It rests on mib_model for the definitions and types and on dec_num for the numbers.
#![tactic(auto)]

mod curve;
mod fast;
mod pair;
mod points;
mod ranges;
mod rows;

pub use curve::Curve;
pub use mib_model::Cal;
pub use rows::CurveRows;
