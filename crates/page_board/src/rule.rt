// The rule of a board, and its kinds of step.
ghost use Rattle.std.specs.Prelude.{[]};
ghost use Rattle.page_board.specs.Sheets.{page_in};
ghost use Rattle.page_board.specs.Views.{Kept, Looks, Publishes, onlooker, publisher, told_of};

use crate::sheet::PageWords;
use crate::view::BoardView;
use atomic_table::{Join, Split};
use crossbeam_utils::atomic::seq_cell::{Pass, RuledSeqCell};
use crossbeam_utils::rule::{Outcome, Protocol};

/// The rule: one end publishes, and each knows some of the pages.
pub struct Pages;

impl Protocol<PageWords, BoardView> for Pages {
    ghost holds = { λ sheet. Kept (page_in sheet) };

    ghost first = { publisher };
}

/// Publishes a page.
pub struct Publish;

impl Outcome<PageWords, BoardView> for Publish {
    ghost then = { λ v x y w. Publishes v (page_in y) w };
}

/// Takes the last page.
pub struct BoardLook;

impl Outcome<PageWords, BoardView> for BoardLook {
    ghost then = { λ v x y w. Looks v (page_in x) w };
}

/// Makes an end that knows what was published.
pub struct Tell;

impl Split<BoardView> for Tell {
    ghost left = { λ v. v };

    ghost right = { λ v. onlooker v.seen };
}

/// Takes in what another end knew.
pub struct Learn;

impl Join<BoardView> for Learn {
    ghost both = { told_of };

    ghost spent = { onlooker [] };
}

/// The cell of a board.
pub type BoardCell = RuledSeqCell<PageWords, BoardView, Pages, 130>;

/// What an end of a board holds of its cell.
pub type BoardPass = Pass<PageWords, BoardView>;
