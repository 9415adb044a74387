use edition::Edition;
use page_screen::Display;
use page_watch::Pager;

/// What the run of a board begins with: its first edition, how many workers decode, the pager that is told of packets, and the display of the pager's board.
#[derive(Drop)]
pub(crate) struct Opening {
    pub first: Edition,
    pub workers: u8,
    pub pager: Pager,
    pub display: Display,
}
