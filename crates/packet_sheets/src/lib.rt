//! Packets one behind the other, and the sheet that is drawn of them.
//!
//! A `Stretch` has whole packets in room that is reserved once. `draw_stretch` decodes them in turn and draws their records as a sheet, as
//! far as that has room, and `draw_packet` does so with one packet, by the plans of an edition and what they demand alone, so any thread may do it. It rests on `packet_feed` for the
//! size of packets, and on `decode_one` and `line_sheets` for their records.
#![tactic(auto)]

mod drawing;
mod stretch;
mod tool;

pub use drawing::{draw_packet, draw_stretch};
pub use stretch::{PACKETS_MOST, STRETCH_MOST, Stretch};
pub use tool::DrawingTool;
