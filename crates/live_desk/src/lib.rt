//! The desk's side of a live run: the lines of a script, one after the other, over the register that the intake uses too.
//!
//! `work` handles lines to the script's end, or up to and with a `go`, by an `Operator`: `Desk`, which is alone, or one of
//! several. What it does to the register, what draft it leaves and what replies it writes are the definitions' over the moves of
//! the desk's seat; each end has its cause. It rests on `desk_lines` for the lines, on `desk` for what each does, and on
//! `edition_register` for the history.
#![tactic(auto)]

mod desk_end;
mod line;
mod operator;
mod script;
mod single;
mod working;

pub use desk_end::DeskEnd;
pub use operator::{Operator, Place};
pub use working::work;
