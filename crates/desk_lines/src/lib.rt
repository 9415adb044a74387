//! The lines of a desk's script, read from a source, and what each line asks for.
//!
//! `DeskReader::next` gives the lines one by one, whatever the pieces in which the octets come, and tells the end of the
//! script, its limit and a fault apart; `request_of` reads one line. It rests on `tm_io` for sources, on `mib_model`
//! for the definitions, and on `dec_num` for numbers, and takes no memory.
#![tactic(auto)]

mod laws;
mod next_line;
mod piece;
mod reader;
mod request;

pub use laws::{limit_at_start, long_asks_as_front, still_at_start};
pub use next_line::NextLine;
pub use reader::{Bookmark, DeskReader, LINE_ROOM};
pub use request::{LINE_MOST, Request, is_comment, request_of, without_return};
