//! A whole run over a feed by one edition.
//!
//! `decode_run` reads packets, decodes and finishes them in their order. With several workers it has the packets that are at hand
//! drawn as sheets ahead, and plays those in their order. What it writes is the text of the definitions, whatever the number of
//! workers. It reads at most 64 packets ahead of what it has written, hands on what it wrote before it may wait for its feed, and
//! takes no memory after its opening. It rests on `packet_feed` for packets, on `packet_sheets` for sheets, on `decode_pool` for
//! workers, on `frame_region` for buffers, on `decode_one` for a packet's record, and on `mib_laws` for runs in parts.
#![tactic(auto)]

mod ahead;
mod alone;
mod batch;
mod cell;
mod drawing;
mod ending;
mod job;
mod playing;
mod room;
mod run;
mod stock;

pub use batch::{Filled, MOST_PACKETS, Unread, read_packet};
pub use cell::PacketCell;
pub use ending::{RunEnd, RunFault, Stop};
pub use room::{Buffers, Room};
pub use run::{decode_run, hand_on_before_wait, write_cut};
pub use stock::Home;
