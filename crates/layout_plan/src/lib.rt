//! The values of packets of fixed layout, by a plan made of a packet's rows.
//!
//! `Layout::extract` gives the values that the rows of plf name, in their order, and tells how they end (`values_at` of
//! mib_model over `layout_places`). Places, types and strides are computed when a layout is compiled; extraction is one
//! pass and takes no memory. It rests on mib_model for the definitions and types and on bit_field for the values.
#![tactic(auto)]

mod layout;
mod span;

pub use bit_field::Values;
pub use layout::Layout;
pub use mib_model::{Ended, TypeItem};
