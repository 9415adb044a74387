// What a publisher does.
ghost use Rattle.std.specs.Prelude.{◌≡◌, ◌<◌, ◌++◌, [], ◌∷◌, IfOk};
ghost use Rattle.page_board.specs.Ends.{board_noted, board_of, board_seen_by, known_by, pages_noted, pages_of};
ghost use Rattle.page_board.specs.Sheets.{page_in};
ghost use Rattle.page_board.specs.Views.{onlooker};

use crate::note::Note;
use crate::publisher::Publisher;
use crate::rule::{BoardCell, BoardPass, Publish, Tell};
use crate::sheet::{PageWords, empty_sheet};
use crate::viewer::Viewer;
use std::alloc::{AllocError, Global};
use std::sync::atomic::{AtomicBool, Ordering};
use std::sync::{Arc, Wait};

impl Publisher {
    /// A publisher of a new board, and its viewer. An error is want of memory.
    pub fn new(alloc: Global) -> Result<(Publisher, Viewer), AllocError>
        ensures pages { IfOk result (λ ends. pages_of ends.0 ≡ []) }
        ensures viewer { IfOk result (λ ends. known_by ends.1 ≡ onlooker []) }
        ensures board { IfOk result (λ ends. board_seen_by ends.1 ≡ board_of ends.0) }
    {
        let (cell, mut pass): (BoardCell, BoardPass) = BoardCell::ruled(alloc, empty_sheet())?;
        let cell = Arc::new(alloc, cell)?;
        let looked = Arc::new(alloc, AtomicBool::new(true))?;
        let viewer = Viewer {
            pass: cell.split_pass::<Tell>(&mut pass),
            cell: cell.clone()?,
            looked: looked.clone()?,
        };
        Ok((
            Publisher {
                cell,
                pass,
                shown: 0,
                looked,
            },
            viewer,
        ))
    }

    /// Whether the viewer looked since the last page was published, or none was published yet. Where it didn't, a page may wait for the next one.
    pub fn is_awaited(&self) -> bool {
        self.looked.load(Ordering::Acquire)
    }

    /// Publishes a page of a greater number than the last one. It may wait while the viewer copies a page.
    pub fn publish<R: Wait>(&mut self, rt: &R, sheet: &PageWords)
        requires { self.old.shown < (page_in sheet.now).number }
        ensures pages { pages_of self.new ≡ pages_of self.old ++ page_in sheet.now ∷ [] }
        ensures shown { self.new.shown ≡ (page_in sheet.now).number }
        ensures board { board_of self.new ≡ board_of self.old }
    {
        self.looked.store(false, Ordering::Release);
        self.cell.swap_as::<Publish, R>(rt, &mut self.pass, *sheet);
        self.shown = sheet[0];
    }

    /// A note of the pages that were published so far.
    pub fn tell(&mut self) -> Note
        ensures pages { pages_of self.new ≡ pages_of self.old }
        ensures shown { self.new.shown ≡ self.old.shown }
        ensures board { board_of self.new ≡ board_of self.old }
        ensures noted { pages_noted result ≡ pages_of self.old }
        ensures noted_board { board_noted result ≡ board_of self.old }
        ensures noted_number { result.shown ≡ self.old.shown }
    {
        Note {
            pass: self.cell.split_pass::<Tell>(&mut self.pass),
            shown: self.shown,
        }
    }
}
