// A viewer that catches up with what was published.
ghost use Rattle.std.specs.Prelude.{◌≡◌};
ghost use Rattle.std.specs.List.{AllByRecursion};
ghost use Rattle.page_board.specs.Ends.{board_noted, board_seen_by, known_by, pages_noted};
ghost use Rattle.page_board.specs.Views.{BeginsWith, IsShownBy, RisesAbove, page_shown};

use crate::note::Note;
use crate::viewer::Viewer;
use display_pages::Page;
use std::sync::Wait;

// Looks until the page has this number.
fn look_for<R: Wait>(rt: &R, viewer: &mut Viewer, number: u64) -> Page
    ensures number { result.number ≡ number }
    ensures shown { result ≡ page_shown (known_by viewer.new).seen }
    ensures later { BeginsWith (known_by viewer.new).seen (known_by viewer.old).seen }
    ensures same { ((known_by viewer.new).told ≡ (known_by viewer.old).told) × (board_seen_by viewer.new ≡ board_seen_by viewer.old) }
    ensures rises { RisesAbove 0 (known_by viewer.new).seen }
    ensures told { AllByRecursion (BeginsWith (known_by viewer.new).seen) (known_by viewer.new).told }
    ensures got { AllByRecursion (IsShownBy (known_by viewer.new).seen) (known_by viewer.new).got }
{
    for _ in rt.forever() {
        let page = viewer.look(rt);
        if page.number == number {
            return page;
        }
    }
    unreachable!()
}

/// The page that was published last, once a viewer has learned a note: afterwards it has seen all that was published then, and
/// each page that it got is one of these or the one before them. It waits for good where more was published since.
pub fn catch_up<R: Wait>(rt: &R, viewer: &mut Viewer, note: Note) -> Page
    requires { board_noted note ≡ board_seen_by viewer.old }
    ensures last { result ≡ page_shown (pages_noted note) }
    ensures number { result.number ≡ note.shown }
    ensures seen { (known_by viewer.new).seen ≡ pages_noted note }
    ensures later { BeginsWith (pages_noted note) (known_by viewer.old).seen }
    ensures got { AllByRecursion (IsShownBy (pages_noted note)) (known_by viewer.new).got }
    ensures board { board_seen_by viewer.new ≡ board_seen_by viewer.old }
{
    let number = note.shown;
    viewer.learn(note);
    look_for(rt, viewer, number)
}
