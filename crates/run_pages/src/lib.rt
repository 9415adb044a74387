//! The pages of a run on a screen.
//!
//! `open_display` makes a pager and the display of its board. A run is watched by a `BoundPager`, whose names and board are those of its type
//! while it is told of packets. Behind the run `finish` brings the display what was published, and the page after the last packet. It rests on
//! `page_watch` and `page_screen`.
#![tactic(auto)]

mod bound;
mod finishing;
mod opening;

pub use bound::{BoundPager, PageBoard};
pub use finishing::finish;
pub use opening::open_display;
