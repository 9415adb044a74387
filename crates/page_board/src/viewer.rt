ghost use Rattle.std.specs.Prelude.{◌≡◌};
ghost use Rattle.std.specs.Arc.{arc_value};

use crate::rule::{BoardCell, BoardPass};
use std::sync::Arc;
use std::sync::atomic::AtomicBool;

/// The end of a board that looks at pages.
#[derive(Drop)]
pub struct Viewer {
    pub(crate) cell: Arc<BoardCell>,
    pub(crate) pass: BoardPass,
    pub(crate) looked: Arc<AtomicBool>,
    ghost seated: { pass.table_id ≡ (arc_value cell).table.shared.table_id },
}
