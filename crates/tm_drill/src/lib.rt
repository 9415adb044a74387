//! A generated run: its tables, its feed by a seed, and the counts of what is printed of it.
//!
//! `drill_tables` and `drill_feed` make exactly what the definitions say, and the feed is cut into its packets. A
//! `Counter` is a sink that tells the counts of the lines it was given. It rests on `mib_model` for rows and packets, on
//! the `Book` of `mib_tables`, on `tm_io` for sinks, and on `itoa` for digits.
#![tactic(auto)]

mod counter;
mod counts;
mod draws;
mod feed;
mod replay;
mod tables;

pub use counter::{COUNTED_MOST, Counter};
pub use counts::Counts;
pub use feed::{PACKETS, drill_feed, feed_is_cut};
pub use replay::Replay;
pub use tables::{KINDS, PARAMETERS, drill_tables, tables_are_sound};
