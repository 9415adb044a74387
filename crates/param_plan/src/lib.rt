//! Parameters, by plans made of their rows: their validity, their curves and their checks.
//!
//! A `Param` calibrates raw numbers as a search through the tables does (`curve_of` and `calibration` of mib_model) and
//! depends on no rows but those of its slice; laws tie slices to the tables. `Params` finds a plan by its name by
//! halving. It rests on mib_model for the definitions and types, on curve_plan for curves and on check_plan for checks.
#![tactic(auto)]

mod blocks;
mod choice;
mod laws;
mod param;
mod params;
mod rows;

pub use blocks::{BLOCK, Block};
pub use check_plan::{Checks, Holds};
pub use curve_plan::{Cal, Curve, CurveRows};
pub use laws::{slices_are_of_plans, slices_have_curves, sound_curves_stand_apart};
pub use param::Param;
pub use params::Params;
pub use rows::ParamRows;
