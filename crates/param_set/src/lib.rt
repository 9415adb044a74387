//! The plans of all parameters of a database, with those that a base has of the same rows shared.
//!
//! `params_of` compiles a plan for each parameter that has one, and takes over by handle each plan of a base whose rows
//! are the same, in the same order. The rows of a parameter are found by hash maps that are made once, so that its time
//! grows with the rows, but for what is sorted. `ParamSources` has the rows of a parameter, a `ParamPlan` what was made of them, for who
//! makes plans of few parameters. It rests on mib_tables for the rows, on mib_index for finding rows by their names, and on
//! param_plan for the plans.
#![tactic(auto)]

mod compiled;
mod curves;
mod laws;
mod order;
mod same;
mod set;
mod sources;

pub use laws::{
    all_plans_are_new_to_nothing, new_plans_are_touched, param_slices_are_of_the_database,
    param_slices_have_the_planned_names,
};
pub use same::same_rows;
pub use set::{MadeParams, ParamPlan, note, params_of};
pub use sources::ParamSources;
