//! Several desks beside a live run, over one register.
//!
//! `panel_run` handles the lines of each desk up to its first `go`, one desk after the other and before a packet is stamped, and then the
//! packets in one thread and the other lines of each desk in a thread of its own. What it prints is the interpreter's text over the packets,
//! each with the edition that its stamp in the register's history has; what a desk is replied is what the definitions have for its lines
//! and their entries in that history. It rests on `panel_desk` for the lines, on `edition_register` for the history, and on
//! `live_session` for the packets.
#![tactic(auto)]

mod beginning;
mod code;
mod opening;
mod panel;
mod side;
mod station;
mod work;

pub use panel::{PanelLived, panel_run};
pub use side::DeskSide;
pub use station::{Post, Station};
