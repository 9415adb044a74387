//! Where the plans of a packet's values are found: first where those of the packet of the same kind before were found.
//!
//! `Places::place` gives the place of the plan of a name, whatever was guessed: one comparison of names tells whether a guess is right, and only
//! a wrong one costs a search by halving. It rests on `param_plan` for the plans.
#![tactic(auto)]

mod fast;
mod places;

pub use fast::ahead::{FAR, plan_at, touch_parts, touch_plans};
pub use fast::guesses::Guesses;
pub use places::{Places, kind_of};
