//! The plans of a book that are found by a number: fixed layouts by SPID, structures by TPSD; and its deduced parameters.
//!
//! A `PlanSet` is seen by contracts as the database whose plans it has: a `LayoutSet` or a `StructureSet`. It is made beside a
//! base: a plan that the base has of the same rows and type items is shared with it, and each other one is compiled, in one
//! step. `NumberedPlan` says of each of both kinds of plans what its numbers are and what it is compiled of.
//! It rests on layout_plan and struct_plan for the plans, on type_items, mib_index, first_rows and row_groups for rows by their keys,
//! on row_sameness for rows that are the same, on edition_plans for what the layout of a SPID is, and on mib_keys and
//! mib_laws for laws of rows.
#![tactic(auto)]

mod before;
mod building;
mod deduced;
mod known;
mod layout_sources;
mod layouts;
mod numbered;
mod order;
mod plan_set;
mod plans;
mod sources;
mod structure_sources;
mod structures;
mod ways;

pub use deduced::Deduced;
pub use layout_plan::Layout;
pub use numbered::NumberedPlan;
pub use plan_set::{LayoutSet, MadeSet, PlanSet, StructureSet};
pub use struct_plan::{Structure, TypeItem};
