//! The desk of one operator among several.
//!
//! `PanelDesk::line` handles one line of its script: what it enters into the register, what it replies and what the desk is
//! then are those of the definitions. A save adds on the draft's base, and is refused where there is a newer edition; `take`
//! makes the draft the newest edition; an edition is looked at before it is used. The crate rests on `desk` for what a single
//! desk does too, on `panel_lines` for what a line asks for, and on `edition_register` for the register. As an `Operator` of
//! `live_desk` it works through a script.
#![tactic(auto)]

mod operator;
mod panel_desk;
mod using;

pub use panel_desk::PanelDesk;
