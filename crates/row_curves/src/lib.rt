//! Calibration by the raw rows of curves.
//!
//! `calibrated` looks up the curve of a parameter and says what it makes of a raw number, each as its definition in `mib_model`
//! says it: points are put in order and their pairs gone through, texts are searched in the order of their file. It rests on
//! `row_searches` for the rows and on `dec_num` for the numbers.
#![tactic(auto)]

mod curve;
mod line;
mod points;
mod texts;

pub use curve::{RowCurve, calibrated};
