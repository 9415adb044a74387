//! The class of a checked sample, and the alarms of a parameter.
//!
//! `Checks::class_of` gives the class that the rows of ocp give (`class_of` of mib_model), over whatever holds the kept
//! raw numbers; bounds are counts already when a plan is compiled. `Alarm::step` takes one step of a parameter's alarm.
//! It rests on mib_model for the definitions and types and on dec_num for the numbers.
#![tactic(auto)]

mod alarm;
mod apart;
mod asked;
mod check_set;
mod checks;
mod condition;
mod fast;
mod limit;
mod sample;
mod state;

pub use alarm::Alarm;
pub use checks::Checks;
pub use condition::{Holds, Nothing, is_met};
pub use mib_model::{Change, Class};
pub use sample::Sample;
