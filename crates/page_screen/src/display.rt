ghost use Rattle.std.specs.Prelude.{◌≤◌, length};

use mib_model::Name;
use page_board::Viewer;

/// What writes the pages of a board to a screen: the names of its pages, its viewer, and the number of the page that was written
/// last, or 0.
#[derive(Drop)]
pub struct Display {
    pub(crate) names: Vec<Name>,
    pub(crate) viewer: Viewer,
    pub shown: u64,
    ghost few: { length names.items ≤ 64 },
}
