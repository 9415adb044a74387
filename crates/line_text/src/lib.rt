//! Text laid into a line: words, names, numbers and octets, each appended at a place of a slice that has room for it.
//!
//! Each call writes its text behind what stands in the line and tells where it ends. Texts of numbers below 10,000 are made once
//! (`ShortTexts`) and copied, longer ones are written by fours; octets that stand as themselves are told by sixteens and copied by
//! loads that overlap. A line knows no packet and no record. The crate rests on `mib_model` for definitions, on `bit_field` for the
//! bits of a packet, on `dec_num` for engineering values and on `itoa` for digits, and takes memory for the short texts alone.
#![tactic(auto)]

mod bits;
mod count;
mod digits;
mod fast;
mod octets;
mod place;

pub use bits::field;
pub use count::add_count;
pub use digits::add_digits;
pub use fast::number::add_number;
pub use fast::short_texts::{ShortTexts, Shorts};
pub use octets::{Digits, Quoted, Spelling, add_hex_number, add_octets_at, add_quoted};
pub use place::{add_ends, add_indented, add_name, add_octet, add_text, add_word};
