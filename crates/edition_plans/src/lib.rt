//! The plans of sound tables, as decoding sees them.
//!
//! `Plans` is what decoding asks of an edition: the plan of identification, the layout of a SPID, the plans of all
//! parameters and the names of packets, beside the structures and deduced parameters of `Structures`. Each call answers
//! for one and the same sound database, and no rows can be had through it but the slices of the plans. It rests on
//! ident_plan, layout_plan, struct_plan and param_plan for the plans, and on mib_model for the definitions.
#![tactic(auto)]

mod laws;
mod plans;

pub use ident_plan::Ident;
pub use laws::found_packets_have_layouts;
pub use layout_plan::Layout;
pub use param_plan::{Param, Params};
pub use plans::Plans;
pub use struct_plan::{Structure, Structures};
