//! What a line asks for: a packet of a SPID with a sequence count, and items.
//!
//! `ask_in` reads one line, whose words are parted by single spaces, and `is_passed_over` tells a comment or an empty line. It
//! rests on `build_rules` for the definitions, on `desk_lines` for words, and on `dec_num` for digits.
#![tactic(auto)]

mod ask;
mod words;

pub use ask::{Ask, ask_in, is_passed_over};
