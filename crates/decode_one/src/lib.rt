//! One packet, decoded and finished by the plans of an edition.
//!
//! `PacketValues::decode` tells what a packet is and takes its values, by its layout or its structure; it needs nothing of the packets
//! before. `finish` appends the packet's record and leaves what is kept. Together they are one step of the interpreter of `mib_model`,
//! and take no memory. `draw_record` and `play_sheet` are the same for packets whose records are drawn as a sheet. They rest on
//! `edition_plans` for the plans, on `ident_plan`, `layout_plan` and `struct_plan` for a packet's values, on `fold_state` for its
//! record, and on `line_sheets` for sheets.
#![tactic(auto)]

mod decoding;
mod finishing;
mod half;
mod laws;
mod sheets;
mod values;

pub use finishing::finish;
pub use laws::{found_structures_exist, sound_values};
pub use sheets::{draw_record, play_sheet};
pub use values::PacketValues;
