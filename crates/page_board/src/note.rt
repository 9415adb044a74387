ghost use Rattle.std.specs.Prelude.{◌≡◌, []};
ghost use Rattle.crossbeam_utils.specs.Seq.{cell_view};
ghost use Rattle.page_board.specs.Views.{page_shown};

use crate::rule::BoardPass;

/// What a pager had published at a moment, to be brought to its viewer. `shown` is the number of the last of these pages, or 0.
#[derive(Drop)]
pub struct Note {
    pub(crate) pass: BoardPass,
    pub shown: u64,
    ghost number: { shown ≡ (page_shown (cell_view pass).seen).number },
    ghost bare: { pass.me.1 ≡ [] },
}
