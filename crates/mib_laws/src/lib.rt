//! Laws of the definitions of tables and packets: what holds of every database and list of packets.
//!
//! Each law is the contract of a function with an empty body, and its proof a lemma that the crates above may cite.
//! It rests on `mib_model` alone.
#![tactic(auto)]

mod cut;
mod interpreter;
mod layout;
mod matching;
mod walk;

pub use cut::each_feed_is_cut;
pub use interpreter::runs_in_parts;
pub use layout::slices_suffice;
pub use matching::unknown_without_a_row;
pub use walk::{limit_serves, walks_end};
