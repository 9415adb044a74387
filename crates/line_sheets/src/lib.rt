//! The records of a stretch of packets as a sheet: text, and between its parts what is to be done with what is kept.
#![tactic(auto)]

mod drawing;
mod noted;
mod playing;
mod reading;
mod sheet;

pub use playing::play;
pub use sheet::{EVENT_ROOM, SHEET_ROOM, Sheet, TEXT_MOST, VALUES_MOST};
