// The pages behind a run.
ghost use Rattle.std.specs.Prelude.{◌≡◌, ◌⊎◌, max, OnErr, OnOk, IsErr};
ghost use Rattle.std.specs.Result.{is_err};
ghost use Rattle.page_board.specs.Ends.{board_noted, pages_noted};
ghost use Rattle.page_board.specs.Views.{BeginsWith, IsShownBy, page_shown};
ghost use Rattle.page_screen.specs.Ends.{names_of, seen_by};
ghost use Rattle.page_screen.specs.Ends as Screen;
ghost use Rattle.page_screen.specs.Shows.{Shows};
ghost use Rattle.page_watch.specs.Ends.{board_of, last_of, pages_of, shown_of};
ghost use Rattle.tm_io.specs.Causes.{HasCause};

use page_screen::Display;
use page_watch::{Note, Pager};
use std::sync::Wait;
use tm_io::{Failed, Sink};

// A note of all pages that were published, asked for until memory is there.
fn note_of<X: Wait>(rt: &X, pager: &mut Pager) -> Note
    ensures pages { pages_noted result ≡ pages_of pager.old }
    ensures board { board_noted result ≡ board_of pager.old }
    ensures shown { result.shown ≡ shown_of pager.old }
{
    for _ in rt.forever() {
        if let Ok(note) = pager.tell() {
            return note;
        }
    }
    unreachable!()
}

/// Brings a display what was published in a run that has ended, and writes what of it was not yet written, with the page after the last packet
/// behind it; nothing where the screen has failed before, as `shown` says.
pub fn finish<S: Sink, X: Wait>(
    rt: &X,
    shown: Result<(), Failed>,
    pager: &mut Pager,
    display: &mut Display,
    screen: &mut S,
) -> Result<(), Failed>
    requires board { board_of pager.old ≡ Screen.board_of display.old }
    ensures later { BeginsWith (pages_of pager.old) (seen_by display.old) }
    ensures shows { OnOk shown (Shows (names_of display.old) (λ page. IsShownBy (pages_of pager.old) page ⊎ (page ≡ last_of pager.old)) (is_err result)
        display.old.shown display.new.shown (S.written screen.old) (S.written screen.new)) }
    ensures number { OnOk result (display.new.shown ≡ max (max display.old.shown (shown_of pager.old)) (last_of pager.old).number) }
    ensures handed { OnOk result (S.handed screen.old ≡ S.written screen.old → S.handed screen.new ≡ S.written screen.new) }
    ensures cause { OnOk shown (HasCause (S.faults screen.old) (S.faults screen.new) result) }
    ensures stopped { OnErr shown ((screen.new ≡ screen.old) × IsErr result) }
{
    let last = pager.last();
    let note = note_of(rt, pager);
    match shown {
        Ok(()) => display.show_last(rt, note, &last, screen),
        Err(failed) => {
            let _page = display.catch_up(rt, note);
            Err(failed)
        }
    }
}
