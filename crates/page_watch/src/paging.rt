// What a pager does.
ghost use Rattle.std.specs.Prelude.{◌≡◌, ◌≤◌, [], List, length, IfOk};
ghost use Rattle.fold_state.specs.Boards.{memory_of};
ghost use Rattle.display_pages.specs.Pages.{page};
ghost use Rattle.packet_run.specs.Told.{Member};
ghost use Rattle.page_board.specs.Ends.{board_noted, board_seen_by, known_by, pages_noted};
ghost use Rattle.page_board.specs.Views.{onlooker};
ghost use Rattle.page_watch.specs.Ends.{MayPublish, PagerStandsFor, board_of, last_of, names_of, pages_of, shown_of};

use crate::laying::lay_cells;
use crate::pager::Pager;
use display_pages::{MOST_CELLS, Page};
use fold_state::Board;
use mib_model::Name;
use packet_run::Watch;
use page_board::{Note, Publisher, Viewer, empty_sheet, lay_head, page_of};
use param_plan::Params;
use std::alloc::AllocError;
use std::sync::Wait;

impl Pager {
    /// A pager for the page of at most 64 names, and its viewer. An error is want of memory.
    pub fn new<R: Wait>(_rt: &R, names: Vec<Name>) -> Result<(Pager, Viewer), AllocError>
        requires few { length names.items ≤ 64 }
        ensures names { IfOk result (λ ends. names_of ends.0 ≡ names.items) }
        ensures stands { IfOk result (λ ends. PagerStandsFor ends.0 []) }
        ensures pages { IfOk result (λ ends. pages_of ends.0 ≡ []) }
        ensures viewer { IfOk result (λ ends. known_by ends.1 ≡ onlooker []) }
        ensures board { IfOk result (λ ends. board_seen_by ends.1 ≡ board_of ends.0) }
    {
        let (publisher, viewer) = Publisher::new(*names.allocator())?;
        let pager = Pager {
            names,
            found: [0; MOST_CELLS],
            sheet: empty_sheet(),
            publisher,
        };
        Ok((pager, viewer))
    }

    /// The names of the page.
    pub fn names(&self) -> &[Name]
        ensures { result.now ≡ names_of self.now }
    {
        &self.names
    }

    /// The page after the last packet, whether or not it was published.
    pub fn last(&self) -> Page
        ensures { result ≡ last_of self.now }
    {
        page_of(&self.sheet)
    }

    // Makes the page of a packet the last one.
    fn lay(&mut self, number: u64, edition: u32, board: &Board)
        ensures last { last_of self.new ≡ page (names_of self.old) number edition (memory_of board.now) }
        ensures names { names_of self.new ≡ names_of self.old }
        ensures publisher { self.new.publisher ≡ self.old.publisher }
    {
        lay_head(&mut self.sheet, number, edition);
        lay_cells(&mut self.sheet, &self.names, &mut self.found, board);
    }

    /// Makes the page of a packet the last one, and publishes it where the viewer looked since the page before, unless a page of this number or a
    /// later one was published. It may wait while the viewer copies a page.
    pub fn show<R: Wait>(&mut self, rt: &R, number: u64, edition: u32, board: &Board)
        ensures last { last_of self.new ≡ page (names_of self.old) number edition (memory_of board.now) }
        ensures names { names_of self.new ≡ names_of self.old }
        ensures pages { MayPublish self.old self.new (last_of self.new) }
        ensures board { board_of self.new ≡ board_of self.old }
    {
        self.lay(number, edition, board);
        if self.publisher.is_awaited() {
            self.publish(rt);
        }
    }

    /// Publishes the last page, unless a page of its number or a later one was published. It may wait while the viewer copies a page.
    pub fn publish<R: Wait>(&mut self, rt: &R)
        ensures last { last_of self.new ≡ last_of self.old }
        ensures names { names_of self.new ≡ names_of self.old }
        ensures pages { MayPublish self.old self.new (last_of self.new) }
        ensures board { board_of self.new ≡ board_of self.old }
        ensures stands { (members : List Member) → PagerStandsFor self.old members → PagerStandsFor self.new members }
    {
        if self.sheet[0] > self.publisher.shown {
            self.publisher.publish(rt, &self.sheet);
        }
    }

    /// A note of the pages that were published so far. An error is want of memory.
    pub fn tell(&mut self) -> Result<Note, AllocError>
        ensures same { (names_of self.new ≡ names_of self.old) × (last_of self.new ≡ last_of self.old) }
        ensures pages { (pages_of self.new ≡ pages_of self.old) × (shown_of self.new ≡ shown_of self.old) × (board_of self.new ≡ board_of self.old) }
        ensures note { IfOk result (λ note. (pages_noted note ≡ pages_of self.old) × (board_noted note ≡ board_of self.old)) }
        ensures shown { IfOk result (λ note. note.shown ≡ shown_of self.old) }
    {
        Ok(self.publisher.tell())
    }
}

impl Watch for Pager {
    ghost stands = { PagerStandsFor };

    fn committed<R: Wait>(
        &mut self,
        rt: &R,
        number: u64,
        edition: u32,
        _params: &Params,
        board: &Board,
    ) {
        self.show(rt, number, edition, board);
    }

    fn rests<R: Wait>(&mut self, rt: &R) {
        self.publish(rt);
    }
}
