ghost use Rattle.std.specs.Prelude.{◌≡◌, ◌≤◌, ◌-◌, drop, length, replicate};
ghost use Rattle.display_pages.specs.Pages.{no_cell};
ghost use Rattle.page_board.specs.Sheets.{cells_in};

use display_pages::MOST_CELLS;
use mib_model::Name;
use page_board::{PageWords, Publisher};

/// What is told of packets and publishes the pages of its names.
#[derive(Drop)]
pub struct Pager {
    pub(crate) names: Vec<Name>,
    // Where each name was found last. It says nothing.
    pub(crate) found: [usize; MOST_CELLS],
    // The page after the last packet.
    pub(crate) sheet: PageWords,
    pub(crate) publisher: Publisher,
    ghost few: { length names.items ≤ 64 },
    ghost blank: { drop (length names.items) (cells_in sheet) ≡ replicate (64 - length names.items) no_cell },
}
