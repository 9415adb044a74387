ghost use Rattle.std.specs.Prelude.{◌≡◌, true};
ghost use Rattle.std.specs.Arc.{arc_value};
ghost use Rattle.crossbeam_utils.specs.Seq.{cell_view};
ghost use Rattle.page_board.specs.Views.{page_shown};

use crate::rule::{BoardCell, BoardPass};
use std::sync::Arc;
use std::sync::atomic::AtomicBool;

/// The end of a board that publishes pages. `shown` is the number of the last one, or 0.
#[derive(Drop)]
pub struct Publisher {
    pub(crate) cell: Arc<BoardCell>,
    pub(crate) pass: BoardPass,
    pub shown: u64,
    // Whether the viewer looked since the last page came.
    pub(crate) looked: Arc<AtomicBool>,
    ghost seated: { pass.table_id ≡ (arc_value cell).table.shared.table_id },
    ghost publishes: { (cell_view pass).publishes ≡ true },
    ghost number: { shown ≡ (page_shown (cell_view pass).seen).number },
}
