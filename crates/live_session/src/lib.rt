//! A live run: the packets of a feed beside the lines of a desk, over one register of editions.
//!
//! `live_run` handles the lines up to the first `go`, and then the packets in one thread and the other lines in another. What
//! it prints is the interpreter's text over the packets, each with the edition that its stamp in the register's history has;
//! what it replies is what the definitions have for the lines and their entries in that history. A `LiveRun` is such a run with a
//! watch, which is told of each packet whose record was written whole. It rests on `packet_run` for
//! the packets, on `live_desk` for the lines, and on `edition_register` for the history.
#![tactic(auto)]

mod code;
mod host;
mod live;
mod opening;
mod sides;
mod status;

pub use code::{code_of_end, merged};
pub use host::Host;
pub use live::{Lived, Watched, live_run};
pub use opening::{LiveRun, at_first};
pub use sides::{IntakeSide, run_intake};
pub use status::Status;
