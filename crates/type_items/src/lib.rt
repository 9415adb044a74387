//! The type items of parameters, found by their names.
//!
//! `TypeItems` gives what layouts and structures depend on of the parameters that their rows name: for a row or for all
//! rows of a plan, with one probe a name. `same_items` tells whether two lists of them are equal, as a plan is kept
//! where they are, and `same_types` whether those of two lists of parameters are. It rests on mib_model for definitions and
//! types, and on mib_index for finding parameters.
#![tactic(auto)]

mod alike;
mod items;
mod same;

pub use alike::same_types;
pub use items::{TypeItems, item_of};
pub use mib_model::TypeItem;
pub use same::same_items;
