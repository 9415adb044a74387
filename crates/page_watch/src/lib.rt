//! A watch that publishes pages of chosen parameters.
//!
//! A `Pager` is told of each packet whose record was written, and makes the page of its names, which it publishes on a board of
//! `page_board`: its pages are those of packets that it was told of, in their order, and its last page is that of the last. What a
//! watch is stands in `packet_run`, what a page is in `display_pages`, and what is kept of a parameter in `fold_state`.
#![tactic(auto)]

mod laying;
mod pager;
mod paging;

pub use page_board::{Note, Viewer};
pub use pager::Pager;
