//! What is kept of one parameter from packet to packet, and what its plan makes and demands of its values.
//!
//! A `ParamSlot` keeps the latest raw number, the last checked number and the alarm of a parameter; `carried` says what stays of them where the edition
//! changes. `is_raw`, `sample_for` and `tail_for` say what a plan makes of a value, and `demands_of` what plans ask of the values at their places. It rests
//! on `param_plan` and `check_plan` for the plans and on `record_text` for the lines.
#![tactic(auto)]

mod carrying;
mod demands;
mod fast;
mod lines;
mod slot;
mod value;

pub use carrying::carried;
pub use demands::{Demand, demands_of, is_asked, is_plain};
pub use fast::{STRIDE, read_rows_ahead, read_slots_ahead};
pub use lines::{add_change, add_plain_value};
pub use slot::ParamSlot;
pub use value::{bare_value, is_raw, sample_for, tail_for};
