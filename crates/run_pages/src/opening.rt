// A pager and its display at their start.
ghost use Rattle.std.specs.Prelude.{◌≡◌, ◌≤◌, [], length, IfOk};
ghost use Rattle.page_screen.specs.Ends as Screen;
ghost use Rattle.page_watch.specs.Ends.{PagerStandsFor, board_of, names_of};

use mib_model::Name;
use page_screen::Display;
use page_watch::Pager;
use std::alloc::{AllocError, Global};
use std::sync::Wait;

/// A pager of at most 64 names, and the display of its board, which has written nothing. An error is want of memory.
pub fn open_display<X: Wait>(
    rt: &X,
    alloc: Global,
    names: Vec<Name>,
) -> Result<(Pager, Display), AllocError>
    requires few { length names.items ≤ 64 }
    ensures stands { IfOk result (λ ends. PagerStandsFor ends.0 []) }
    ensures names { IfOk result (λ ends. names_of ends.0 ≡ names.items) }
    ensures display { IfOk result (λ ends. Screen.names_of ends.1 ≡ names.items) }
    ensures board { IfOk result (λ ends. Screen.board_of ends.1 ≡ board_of ends.0) }
    ensures shown { IfOk result (λ ends. ends.1.shown ≡ 0) }
{
    let shown = Vec::from_slice(alloc, &names)?;
    let (pager, viewer) = Pager::new(rt, names)?;
    Ok((pager, Display::new(shown, viewer)))
}
