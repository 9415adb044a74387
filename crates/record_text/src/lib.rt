//! The printed lines of records.
//!
//! A packet's record is appended to `Lines`, a buffer that is reserved once: a head line, a line for each value and each
//! change of an alarm, and a line that tells how the values end. Each call appends exactly the text that a definition of
//! `mib_model` gives, in one pass and without taking memory, and says how many octets it may append at most. It rests on
//! `mib_model` for definitions and types, on `line_text` for words, names and numbers in a line, and on `bit_field` for the bits
//! of raw values.
#![tactic(auto)]

mod lines;
mod page;
mod raw;
mod record;
mod tail;
mod value;
mod written;

pub use lines::{
    BEGIN_ROOM, END_ROOM, HEAD_ROOM, LINE_MOST, LINES_ROOM, Lines, NOTE_ROOM, VALUE_ROOM,
};
pub use record::{change_line, cut_line, edition_line, ended_line, head_line};
pub use tail::Tail;
pub use value::{begin_value, end_plain_value, end_value, value_line};
pub use written::add_written;
