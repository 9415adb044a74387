// The command `live`: tables, a feed, and a desk beside it.
ghost use Rattle.std.specs.Prelude.{◌≡◌, option_map};
ghost use Rattle.edition_register.specs.Seats.{history_of};
ghost use Rattle.mibtm_tool.specs.Live.{LivedBeside};
ghost use Rattle.mibtm_tool.specs.Statement.{LivedBy, TellsItsEnd, names, shelves};
ghost use Rattle.tool_objects.specs.Objects.{shelf, sink};

use edition::{Compiled, Edition};
use folder_edition::{folder_edition, let_go};
use live_session::{Host, Lived, Status, live_run};
use packet_run::MOST_WORKERS;
use run_model::{Code, Input};
use std::sync::Wait;
use std::thread::Threads;
use tm_io::{Gate, Shelf, Sink};

/// What a live run is asked for: the folder of its tables, the files of its feed and its desk, and how many workers decode.
#[derive(Clone, Copy)]
pub(crate) struct LiveRequest<'a> {
    pub folder: &'a str,
    pub feed: &'a str,
    pub desk: &'a str,
    pub workers: u8,
}

// The run from an edition on, where the feed is turned to.
fn live_beside<
    F: Shelf,
    D: Shelf + Send,
    O: Sink,
    P: Sink + Send,
    G: Gate + Sync,
    X: Threads + Wait + Sync,
>(
    host: &Host<'_, X, G>,
    edition: Edition,
    asked: &LiveRequest<'_>,
    feed: &mut F,
    desk: &mut D,
    out: &mut O,
    replies: &mut P,
) -> Status<Compiled>
    ensures lives { LivedBeside result.code (option_map history_of result.closed) edition asked.now.desk.now
        (shelf feed.old feed.new F.holds F.left F.faults F.missed)
        (shelf desk.old desk.new D.holds D.left D.faults D.missed)
        (sink out.old out.new O.written O.handed O.faults)
        (sink replies.old replies.new P.written P.handed P.faults) }
    ensures numbers { TellsItsEnd result.closed }
{
    match desk.aim(asked.desk) {
        Ok(true) => (),
        Ok(false) => {
            let_go(edition);
            return Status::unopened(Code::NoFile(Input::Desk));
        }
        Err(_) => {
            let_go(edition);
            return Status::unopened(Code::DeskFault);
        }
    }
    let Host { rt, alloc, gate } = *host;
    let workers = asked.workers.clamp(1, MOST_WORKERS);
    match live_run(rt, alloc, edition, feed, desk, out, replies, gate, workers) {
        Ok(Lived { code, closed }) => Status {
            code,
            closed: Some(closed),
        },
        Err(_) => Status::unopened(Code::Want),
    }
}

/// Prints the feed that is asked for by the tables of the folder and by the editions that the desk makes of them, decoded by one worker at
/// least. The replies to the desk's lines go to `replies`.
pub(crate) fn live<
    T: Shelf,
    F: Shelf,
    D: Shelf + Send,
    O: Sink,
    P: Sink + Send,
    G: Gate + Sync,
    X: Threads + Wait + Sync,
>(
    host: &Host<'_, X, G>,
    asked: &LiveRequest<'_>,
    tables: &mut T,
    feed: &mut F,
    desk: &mut D,
    out: &mut O,
    replies: &mut P,
) -> Status<Compiled>
    ensures lives { LivedBy result.code (option_map history_of result.closed) (names asked.now.folder.now asked.now.feed.now asked.now.desk.now)
        (shelves (shelf tables.old tables.new T.holds T.left T.faults T.missed)
        (shelf feed.old feed.new F.holds F.left F.faults F.missed)
        (shelf desk.old desk.new D.holds D.left D.faults D.missed))
        (sink out.old out.new O.written O.handed O.faults)
        (sink replies.old replies.new P.written P.handed P.faults) }
    ensures numbers { TellsItsEnd result.closed }
{
    let edition = match folder_edition(host.alloc, asked.folder, tables) {
        Ok(edition) => edition,
        Err(refusal) => return Status::unopened(Code::from(refusal)),
    };
    match feed.aim(asked.feed) {
        Ok(true) => live_beside(host, edition, asked, feed, desk, out, replies),
        Ok(false) => {
            let_go(edition);
            Status::unopened(Code::NoFile(Input::Feed))
        }
        Err(_) => {
            let_go(edition);
            Status::unopened(Code::FeedFault)
        }
    }
}
