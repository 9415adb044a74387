//! Laws of the definitions of runs: what holds of every history of the register and of every desk.
//!
//! Each law is the contract of a function with an empty body, and its proof a lemma that the crates above may cite.
//! It rests on `run_model` for the definitions and on `mib_laws` for laws of the interpreter.
#![tactic(auto)]

mod desk;
mod interpreter;
mod register;

pub use desk::{desk_first_decides, desk_goes_by_parts, lines_alone_decide, lines_decide};
pub use interpreter::one_edition;
pub use register::{editions_only_grow, seat_shows_stamps, stamps_count_up, what_is_stamped_stays};
