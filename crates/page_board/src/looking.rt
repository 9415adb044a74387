// What a viewer does.
ghost use Rattle.std.specs.Prelude.{◌≡◌};
ghost use Rattle.page_board.specs.Ends.{board_noted, board_seen_by, known_by, pages_noted};
ghost use Rattle.page_board.specs.Views.{Looks, onlooker, told_of};

use crate::note::Note;
use crate::rule::{BoardLook, Learn};
use crate::sheet::page_of;
use crate::viewer::Viewer;
use display_pages::Page;
use std::sync::Wait;
use std::sync::atomic::Ordering;

impl Viewer {
    /// The page that was published last, or that before the first. It may wait while a page is published.
    pub fn look<R: Wait>(&mut self, rt: &R) -> Page
        ensures looks { Looks (known_by self.old) result (known_by self.new) }
        ensures board { board_seen_by self.new ≡ board_seen_by self.old }
    {
        let sheet = self.cell.load_as::<BoardLook, R>(rt, &mut self.pass);
        self.looked.store(true, Ordering::Release);
        page_of(&sheet)
    }

    /// Takes in a note: no page that the viewer gets from now on is older than the last that was published then.
    pub fn learn(&mut self, note: Note)
        requires { board_noted note ≡ board_seen_by self.old }
        ensures learns { known_by self.new ≡ told_of (known_by self.old) (onlooker (pages_noted note)) }
        ensures board { board_seen_by self.new ≡ board_seen_by self.old }
    {
        let Note { pass, shown: _ } = note;
        self.cell.join_pass::<Learn>(&mut self.pass, pass);
    }
}
