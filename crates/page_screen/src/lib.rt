//! The screen of a board: what is written of the pages that its viewer gets.
//!
//! A `Display` looks at the board in a thread of its own and writes each page whose number is above that of the page before, until it is
//! told that the run has ended; then it catches up, and writes the page after the last packet. The board is that of `page_board`, the text
//! of a page that of `page_texts`, sinks are those of `tm_io`.
#![tactic(auto)]

mod display;
mod showing;

pub use display::Display;
