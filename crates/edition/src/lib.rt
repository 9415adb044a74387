//! Editions: sound tables with the plans that are compiled of them.
//!
//! An `Edition` is seen by contracts as its database. Its type keeps that the database is sound, and that its plans are
//! those of the database: the plan of identification, a layout for each packet of fixed layout, a structure for each TPSD,
//! a plan for each parameter, and the names of packets. `compile` makes one of a book alone, `amend` one beside a base, with
//! which it shares each plan that depends on the same rows, and names each other. It rests on mib_keys for soundness, on
//! edition_diff for the plans beside those of a base, and on the crates of the plans.
#![tactic(auto)]

mod compiled;
mod edition;
mod fault;
mod titles;

pub use compiled::Compiled;
pub use edition::{Amended, Edition};
pub use edition_diff::PlanName;
pub use edition_plans::{Ident, Layout, Param, Params, Plans, Structure, Structures};
pub use fault::SaveFault;
