// What a display writes.
ghost use Rattle.std.specs.Prelude.{◌≡◌, ◌≤◌, ◌⊎◌, length, max, OnOk};
ghost use Rattle.std.specs.Result.{is_err};
ghost use Rattle.page_board.specs.Ends.{board_noted, board_seen_by, known_by, pages_noted};
ghost use Rattle.page_board.specs.Views.{BeginsWith, IsShownBy, page_shown};
ghost use Rattle.page_screen.specs.Ends.{board_of, names_of, seen_by};
ghost use Rattle.page_screen.specs.Shows.{Shows};
ghost use Rattle.tm_io.specs.Causes.{HasCause};

use crate::display::Display;
use display_pages::Page;
use mib_model::Name;
use page_board::{Note, Viewer, catch_up};
use page_texts::write_page;
use std::sync::Wait;
use std::sync::atomic::{AtomicBool, Ordering};
use std::thread;
use tm_io::{Failed, Sink};

// For how many turns other threads go on between two looks. A look copies the words that a page is published in, which whoever publishes
// then waits for.
const TURNS: u32 = 256;

// Lets other threads go on for a while, or until it is told that no more pages come: whether it was.
fn rest(ended: &AtomicBool) -> bool {
    for _ in 0..TURNS {
        if ended.load(Ordering::Acquire) {
            return true;
        }
        thread::yield_now();
    }
    false
}

impl Display {
    /// A display of at most 64 names that has written nothing.
    pub fn new(names: Vec<Name>, viewer: Viewer) -> Display
        requires { length names.items ≤ 64 }
        ensures names { names_of result ≡ names.items }
        ensures seen { seen_by result ≡ (known_by viewer).seen }
        ensures board { board_of result ≡ board_seen_by viewer }
        ensures shown { result.shown ≡ 0 }
    {
        Display {
            names,
            viewer,
            shown: 0,
        }
    }

    // Writes a page, unless its number isn't above that of the page before.
    fn write<S: Sink>(&mut self, page: &Page, screen: &mut S) -> Result<(), Failed>
        ensures shows { Shows (names_of self.old) (λ p. p ≡ page.now) (is_err result) self.old.shown self.new.shown
            (S.written screen.old) (S.written screen.new) }
        ensures shown { OnOk result (self.new.shown ≡ max self.old.shown page.now.number) }
        ensures viewer { self.new.viewer ≡ self.old.viewer }
        ensures names { names_of self.new ≡ names_of self.old }
        ensures handed { OnOk result (S.handed screen.old ≡ S.written screen.old → S.handed screen.new ≡ S.written screen.new) }
        ensures cause { HasCause (S.faults screen.old) (S.faults screen.new) result }
        ensures borrow { S.borrow screen.new ≡ S.borrow screen.old }
    {
        if page.number <= self.shown {
            return Ok(());
        }
        write_page(&self.names, page, screen)?;
        self.shown = page.number;
        Ok(())
    }

    /// Looks at the board, and writes its page where its number is above that of the page before. It may wait while a page is published.
    pub fn show<S: Sink, R: Wait>(&mut self, rt: &R, screen: &mut S) -> Result<(), Failed>
        ensures shows { Shows (names_of self.old) (IsShownBy (seen_by self.new)) (is_err result) self.old.shown self.new.shown
            (S.written screen.old) (S.written screen.new) }
        ensures later { BeginsWith (seen_by self.new) (seen_by self.old) }
        ensures names { names_of self.new ≡ names_of self.old }
        ensures board { board_of self.new ≡ board_of self.old }
        ensures handed { OnOk result (S.handed screen.old ≡ S.written screen.old → S.handed screen.new ≡ S.written screen.new) }
        ensures cause { HasCause (S.faults screen.old) (S.faults screen.new) result }
        ensures borrow { S.borrow screen.new ≡ S.borrow screen.old }
    {
        let page = self.viewer.look(rt);
        self.write(&page, screen)
    }

    /// Writes pages of the board, of numbers that rise, until it is told that no more come. It waits for that.
    pub fn show_until<S: Sink, R: Wait>(
        &mut self,
        rt: &R,
        ended: &AtomicBool,
        screen: &mut S,
    ) -> Result<(), Failed>
        ensures shows { Shows (names_of self.old) (IsShownBy (seen_by self.new)) (is_err result) self.old.shown self.new.shown
            (S.written screen.old) (S.written screen.new) }
        ensures names { names_of self.new ≡ names_of self.old }
        ensures board { board_of self.new ≡ board_of self.old }
        ensures handed { OnOk result (S.handed screen.old ≡ S.written screen.old → S.handed screen.new ≡ S.written screen.new) }
        ensures cause { HasCause (S.faults screen.old) (S.faults screen.new) result }
        ensures borrow { S.borrow screen.new ≡ S.borrow screen.old }
    {
        for _ in rt.forever() {
            self.show(rt, screen)?;
            if rest(ended) {
                return Ok(());
            }
        }
        unreachable!()
    }

    /// Takes in a note of what was published of a board on which no more is published, and writes nothing, as where the screen has failed: the
    /// page that was published last.
    pub fn catch_up<R: Wait>(&mut self, rt: &R, note: Note) -> Page
        requires { board_noted note ≡ board_of self.old }
        ensures last { result ≡ page_shown (pages_noted note) }
        ensures seen { seen_by self.new ≡ pages_noted note }
        ensures later { BeginsWith (pages_noted note) (seen_by self.old) }
        ensures names { names_of self.new ≡ names_of self.old }
        ensures shown { self.new.shown ≡ self.old.shown }
    {
        catch_up(rt, &mut self.viewer, note)
    }

    /// Writes what was not yet written of a board on which no more is published: the page that was published last, by a note that was made
    /// then, and this page behind it. A page whose number isn't above that of the page before is not written.
    pub fn show_last<S: Sink, R: Wait>(
        &mut self,
        rt: &R,
        note: Note,
        last: &Page,
        screen: &mut S,
    ) -> Result<(), Failed>
        requires { board_noted note ≡ board_of self.old }
        ensures seen { seen_by self.new ≡ pages_noted note }
        ensures later { BeginsWith (pages_noted note) (seen_by self.old) }
        ensures shows { Shows (names_of self.old) (λ page. IsShownBy (pages_noted note) page ⊎ (page ≡ last.now)) (is_err result) self.old.shown self.new.shown
            (S.written screen.old) (S.written screen.new) }
        ensures shown { OnOk result (self.new.shown ≡ max (max self.old.shown note.shown) last.now.number) }
        ensures names { names_of self.new ≡ names_of self.old }
        ensures handed { OnOk result (S.handed screen.old ≡ S.written screen.old → S.handed screen.new ≡ S.written screen.new) }
        ensures cause { HasCause (S.faults screen.old) (S.faults screen.new) result }
        ensures borrow { S.borrow screen.new ≡ S.borrow screen.old }
    {
        let page = catch_up(rt, &mut self.viewer, note);
        self.write(&page, screen)?;
        self.write(last, screen)
    }
}
