//! The plans of a database beside those of a base: which are taken over, and which are compiled, by name.
//!
//! A `PlanSets` is seen by contracts as the database of its plans: the plan of identification, the plans of parameters, of
//! fixed layouts and of structures, and deduced parameters. `PlanSets::beside` makes it of a sound book beside the plans of
//! another, shares each plan of the same rows, and names each plan that it compiled, once, in the order in which the
//! definition `touched` has them: it promises that these names are `touched`, and a step for each. `PlanSets::alone` compiles
//! all. It rests on param_changes and numbered_plans for the plans of each kind, on param_set too for what was compiled of them, on
//! ident_plan for that of identification, on mib_keys for the tables that two books have in common, and on row_sameness
//! for rows that are the same.
#![tactic(auto)]

mod ident;
mod keyed;
mod names;
mod plan_sets;

pub use keyed::KeyedPlans;
pub use mib_model::PlanName;
pub use plan_sets::{MadeSets, PlanSets};
