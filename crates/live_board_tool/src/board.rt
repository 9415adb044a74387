// The run of a board, from its inputs on: a live run with the pages of its packets on a screen.
ghost use Rattle.std.specs.Prelude.{◌≡◌, IfSome, IsSomeAnd, OnOk, option_map};
ghost use Rattle.std.specs.Result.{is_err};
ghost use Rattle.edition_register.specs.Seats.{history_of};
ghost use Rattle.live_board_tool.specs.Board.{Boarded, RanBy};
ghost use Rattle.live_board_tool.specs.Opening.{IsReadyToShow};
ghost use Rattle.live_session.specs.Live.{EndsAs, Leaves};
ghost use Rattle.live_session.specs.Opened.{IsOpened, first_in, watch_in};
ghost use Rattle.mib_model.specs.declared.database.Database.{Database};
ghost use Rattle.page_board.specs.Views.{IsShownBy};
ghost use Rattle.page_screen.specs.Ends.{board_of, names_of, seen_by};
ghost use Rattle.page_screen.specs.Shows.{Shows};
ghost use Rattle.page_watch.specs.Ends as Watching;
ghost use Rattle.tm_io.specs.Causes.{HasCause};
ghost use Rattle.tool_objects.specs.Objects.{shelf, sink};
ghost use Rattle.tool_words.specs.Boards.{words_by};

use crate::codes::merged;
use crate::command::BoardStatus;
use crate::opening::Opening;
use board_inputs::open_inputs;
use folder_edition::let_go;
use live_session::{Host, LiveRun, Lived, Watched};
use packet_run::{MOST_WORKERS, Watch};
use page_screen::Display;
use page_texts::BoardCode;
use run_pages::{BoundPager, PageBoard, finish, open_display};
use std::marker::Brand;
use std::sync::Wait;
use std::sync::atomic::{AtomicBool, Ordering};
use std::thread;
use std::thread::Threads;
use tm_io::{Failed, Gate, Shelf, Sink, Source};
use tool_words::BoardRequest;

/// A call of a board: what it shares with the threads of its run, and what its words ask for.
pub(crate) struct BoardCall<'a, X, G> {
    pub host: Host<'a, X, G>,
    pub request: BoardRequest<'a>,
}

/// By hand, so that it asks nothing of `X` and `G`.
impl<'a, X, G> Drop for BoardCall<'a, X, G> {
    fn drop(self) {
        let BoardCall {
            host: _,
            request: _,
        } = self;
    }
}

// Runs what was opened, and tells behind it that no more pages come.
fn run_told<
    X: Threads + Wait + Sync,
    F: Source,
    D: Source + Send,
    O: Sink,
    R: Sink + Send,
    G: Gate + Sync,
    W: Watch + Drop,
>(
    host: &Host<'_, X, G>,
    opened: &mut Option<LiveRun<W>>,
    ended: &AtomicBool,
    feed: &mut F,
    desk: &mut D,
    out: &mut O,
    replies: &mut R,
) -> Watched<W>
    requires opened { IsSomeAnd opened.old (λ run. IsOpened run) }
    ensures leaves { IfSome opened.old (λ run. Leaves W.stands result.lived.code (first_in run) result.lived.closed
        (shelf feed.old feed.new F.holds F.left F.faults F.missed) (shelf desk.old desk.new D.holds D.left D.faults D.missed)
        (sink out.old out.new O.written O.handed O.faults) (sink replies.old replies.new R.written R.handed R.faults) (watch_in run) result.watch) }
{
    let Some(run) = opened.take() else {
        unreachable!();
    };
    let watched = run.run(host, feed, desk, out, replies);
    ended.store(true, Ordering::Release);
    watched
}

// Runs what was opened in this thread, while a display writes the pages of its board in another.
fn run_shown<
    X: Threads + Wait + Sync,
    F: Source,
    D: Source + Send,
    O: Sink,
    R: Sink + Send,
    S: Sink + Send,
    G: Gate + Sync,
    W: Watch + Drop,
>(
    host: &Host<'_, X, G>,
    opened: LiveRun<W>,
    display: &mut Display,
    feed: &mut F,
    desk: &mut D,
    out: &mut O,
    replies: &mut R,
    screen: &mut S,
) -> (Watched<W>, Result<(), Failed>)
    requires opened { IsOpened opened }
    ensures leaves { Leaves W.stands result.0.lived.code (first_in opened) result.0.lived.closed (shelf feed.old feed.new F.holds F.left F.faults F.missed)
        (shelf desk.old desk.new D.holds D.left D.faults D.missed) (sink out.old out.new O.written O.handed O.faults)
        (sink replies.old replies.new R.written R.handed R.faults) (watch_in opened) result.0.watch }
    ensures shows { Shows (names_of display.old) (IsShownBy (seen_by display.new)) (is_err result.1) display.old.shown display.new.shown
        (S.written screen.old) (S.written screen.new) }
    ensures names { names_of display.new ≡ names_of display.old }
    ensures board { board_of display.new ≡ board_of display.old }
    ensures screen_handed { OnOk result.1 (S.handed screen.old ≡ S.written screen.old → S.handed screen.new ≡ S.written screen.new) }
    ensures cause { HasCause (S.faults screen.old) (S.faults screen.new) result.1 }
{
    let rt = host.rt;
    let ended = AtomicBool::new(false);
    let mut opened = Some(opened);
    let (shown, watched) = thread::join_mut(
        rt,
        &mut || display.show_until(rt, &ended, screen),
        &mut || -> Watched<W>
            requires opened { IsSomeAnd opened (λ run. IsOpened run) }
        { run_told(host, &mut opened, &ended, feed, desk, out, replies) },
    );
    (watched, shown)
}

// A live run that a pager watches, whose names and board are those of a type, beside the display of its board; behind it the display writes what of the
// pages was not yet written.
fn run_picked<
    N: PageBoard,
    X: Threads + Wait + Sync,
    F: Shelf,
    D: Shelf + Send,
    O: Sink,
    R: Sink + Send,
    S: Sink + Send,
    G: Gate + Sync,
>(
    host: &Host<'_, X, G>,
    opening: Opening,
    feed: &mut F,
    desk: &mut D,
    out: &mut O,
    replies: &mut R,
    screen: &mut S,
) -> BoardStatus
    requires ready { IsReadyToShow opening }
    requires names { Watching.names_of opening.pager ≡ N.names }
    requires board { Watching.board_of opening.pager ≡ N.board }
    ensures ran { RanBy result.code (option_map history_of result.closed) opening.first N.names
        (shelf feed.old feed.new F.holds F.left F.faults F.missed)
        (shelf desk.old desk.new D.holds D.left D.faults D.missed)
        (sink out.old out.new O.written O.handed O.faults)
        (sink replies.old replies.new R.written R.handed R.faults)
        (sink screen.old screen.new S.written S.handed S.faults) }
    ensures numbers { IfSome result.closed (λ closed. EndsAs opening.first closed) }
{
    let Opening {
        first,
        workers,
        pager,
        mut display,
    } = opening;
    let Ok(opened) = LiveRun::open(host.alloc, first, workers, BoundPager::<N>::new(pager)) else {
        return BoardStatus::unopened(BoardCode::Want);
    };
    let (Watched { lived, watch }, shown) = run_shown(
        host,
        opened,
        &mut display,
        feed,
        desk,
        out,
        replies,
        screen,
    );
    let mut pager = watch.into_pager();
    let shown = finish(host.rt, shown, &mut pager, &mut display, screen);
    let Lived { code, closed } = lived;
    BoardStatus {
        code: merged(code, shown),
        closed: Some(closed),
    }
}

/// Does what the words of a board ask for: prints the feed by the tables of the folder and by the editions that the desk makes of them, with
/// the pages of the names in the page's file on the screen.
pub(crate) fn board<
    X: Threads + Wait + Sync,
    T: Shelf,
    F: Shelf,
    D: Shelf + Send,
    P: Shelf,
    O: Sink,
    R: Sink + Send,
    S: Sink + Send,
    G: Gate + Sync,
>(
    call: &BoardCall<'_, X, G>,
    tables: &mut T,
    feed: &mut F,
    desk: &mut D,
    page: &mut P,
    out: &mut O,
    replies: &mut R,
    screen: &mut S,
) -> BoardStatus
    ensures boards { Boarded result.code (option_map history_of result.closed) (words_by call.now.request)
        (shelf tables.old tables.new T.holds T.left T.faults T.missed)
        (shelf feed.old feed.new F.holds F.left F.faults F.missed)
        (shelf desk.old desk.new D.holds D.left D.faults D.missed)
        (shelf page.old page.new P.holds P.left P.faults P.missed)
        (sink out.old out.new O.written O.handed O.faults)
        (sink replies.old replies.new R.written R.handed R.faults)
        (sink screen.old screen.new S.written S.handed S.faults) }
    ensures numbers { IfSome result.closed (λ closed. (first : Database) × EndsAs first closed) }
{
    let BoardCall { host, request } = call;
    match open_inputs(host.alloc, request, tables, feed, desk, page) {
        Ok((first, names)) => match open_display(host.rt, host.alloc, names) {
            Ok((pager, display)) => {
                let workers = request.workers.clamp(1, MOST_WORKERS);
                let opening = Opening {
                    first,
                    workers,
                    pager,
                    display,
                };
                run_picked::<Brand, X, F, D, O, R, S, G>(
                    host, opening, feed, desk, out, replies, screen,
                )
            }
            Err(_) => {
                let_go(first);
                BoardStatus::unopened(BoardCode::Want)
            }
        },
        Err(code) => BoardStatus::unopened(code),
    }
}
