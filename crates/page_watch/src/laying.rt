// The cells of names in a sheet.
ghost use Rattle.std.specs.Prelude.{◌≡◌, ◌≤◌, ◌++◌, drop, length, map, slice_index};
ghost use Rattle.fold_state.specs.Boards.{memory_of};
ghost use Rattle.display_pages.specs.Pages.{cell_of};
ghost use Rattle.page_board.specs.Sheets.{cells_in};

use display_pages::{Cell, MOST_CELLS};
use fold_state::Board;
use mib_model::Name;
use page_board::{PageWords, lay_cell};

/// Lays the cells of names, each at its place. A name is looked for first where it was found last.
pub fn lay_cells(
    sheet: &mut PageWords,
    names: &[Name],
    found: &mut [usize; MOST_CELLS],
    board: &Board,
)
    requires { length names.now ≤ 64 }
    ensures cells { cells_in sheet.new ≡ map (cell_of (memory_of board.now)) names.now ++ drop (length names.now) (cells_in sheet.old) }
    ensures number { slice_index sheet.new 0 ≡ slice_index sheet.old 0 }
    ensures edition { slice_index sheet.new 1 ≡ slice_index sheet.old 1 }
{
    for (place, name) in names.iter().enumerate() {
        let (raw, spoken) = board.latest_and_spoken(name, &mut found[place]);
        lay_cell(sheet, place, Cell { raw, spoken });
    }
}
