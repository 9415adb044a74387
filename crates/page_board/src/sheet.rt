// A page in the words of a cell that threads share.
ghost use Rattle.std.specs.Prelude.{◌≡◌, ◌<◌, ◌≤ℤ◌, ◌<ℤ◌, ◌-ℤ◌, pos, set, slice_index, IfSome};
ghost use Rattle.page_board.specs.Sheets as Spec;
ghost use Rattle.page_board.specs.Sheets.{cells_in, class_marked, page_in, raw_marked};
ghost use Rattle.page_board.specs.Views.{no_page};

use display_pages::{Cell, MOST_CELLS, Page};
use mib_model::Class;

/// A page as words: its number, its edition, and two words for each cell.
pub type PageWords = [u64; 130];

// How far a number below zero lies from the one that is kept for it.
const TURN: i128 = 18_446_744_073_709_551_616;

// The mark of a class.
fn mark_of_class(spoken: Option<Class>) -> u64
    ensures class { class_marked result ≡ spoken }
    ensures below { result < 8 }
{
    match spoken {
        None => 0,
        Some(Class::Hard) => 1,
        Some(Class::Status) => 2,
        Some(Class::Delta) => 3,
        Some(Class::Soft) => 4,
        Some(Class::Nominal) => 5,
    }
}

// The class of a mark.
fn class_of_mark(mark: u64) -> Option<Class>
    ensures { result ≡ class_marked mark }
{
    match mark {
        1 => Some(Class::Hard),
        2 => Some(Class::Status),
        3 => Some(Class::Delta),
        4 => Some(Class::Soft),
        5 => Some(Class::Nominal),
        _ => None,
    }
}

// The mark and the last 64 bits of a number.
fn mark_of_raw(raw: Option<i128>) -> (u64, u64)
    requires { IfSome raw (λ number. ((pos 0 -ℤ pos 18446744073709551616) ≤ℤ number) × (number <ℤ pos 18446744073709551616)) }
    ensures raw { raw_marked result.0 result.1 ≡ raw }
    ensures below { result.0 < 8 }
{
    match raw {
        None => (0, 0),
        Some(number) if number < 0 => (2, (number + TURN) as u64),
        Some(number) => (1, number as u64),
    }
}

// The number of a mark and its last 64 bits.
fn raw_of_mark(mark: u64, bits: u64) -> Option<i128>
    ensures { result ≡ raw_marked mark bits }
{
    match mark {
        1 => Some(i128::from(bits)),
        2 => Some(i128::from(bits) - TURN),
        _ => None,
    }
}

// The cell at a place.
fn cell_at(sheet: &PageWords, place: usize) -> Cell
    requires { place < 64 }
    ensures { result ≡ Spec.cell_at sheet.now place }
{
    let bits = sheet[2 * place + 2];
    let marks = sheet[2 * place + 3];
    Cell {
        raw: raw_of_mark(marks / 8, bits),
        spoken: class_of_mark(marks % 8),
    }
}

/// Lays a cell at a place. Its number has at most 64 bits beside its sign.
pub fn lay_cell(sheet: &mut PageWords, place: usize, cell: Cell)
    requires place { place < 64 }
    requires range { IfSome cell.raw (λ number. ((pos 0 -ℤ pos 18446744073709551616) ≤ℤ number) × (number <ℤ pos 18446744073709551616)) }
    ensures cells { cells_in sheet.new ≡ set (cells_in sheet.old) place cell }
    ensures number { slice_index sheet.new 0 ≡ slice_index sheet.old 0 }
    ensures edition { slice_index sheet.new 1 ≡ slice_index sheet.old 1 }
{
    let (mark, bits) = mark_of_raw(cell.raw);
    sheet[2 * place + 2] = bits;
    sheet[2 * place + 3] = 8 * mark + mark_of_class(cell.spoken);
}

/// Lays the number and the edition of a page.
pub fn lay_head(sheet: &mut PageWords, number: u64, edition: u32)
    ensures number { (page_in sheet.new).number ≡ number }
    ensures edition { (page_in sheet.new).edition ≡ edition }
    ensures cells { cells_in sheet.new ≡ cells_in sheet.old }
{
    sheet[0] = number;
    sheet[1] = u64::from(edition);
}

/// The sheet of no packet.
pub fn empty_sheet() -> PageWords
    ensures { page_in result ≡ no_page }
{
    let mut sheet = [0; 130];
    sheet[1] = 1;
    sheet
}

/// The page of a sheet.
pub fn page_of(sheet: &PageWords) -> Page
    ensures { result ≡ page_in sheet.now }
{
    let mut cells = [Cell {
        raw: None,
        spoken: None,
    }; MOST_CELLS];
    for place in 0..MOST_CELLS {
        cells[place] = cell_at(sheet, place);
    }
    Page {
        number: sheet[0],
        edition: (sheet[1] % 0x1_0000_0000) as u32,
        cells,
    }
}
