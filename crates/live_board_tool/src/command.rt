ghost use Rattle.std.specs.Prelude.{◌≡◌, ◌⊎◌, None, IfErr, IfOk, IfSome, map, option_map, string_bytes};
ghost use Rattle.edition_register.specs.Seats.{history_of};
ghost use Rattle.live_board_tool.specs.Board.{Boarded};
ghost use Rattle.live_session.specs.Live.{EndsAs};
ghost use Rattle.mib_model.specs.declared.database.Database.{Database};
ghost use Rattle.tool_objects.specs.Objects.{shelf, sink};
ghost use Rattle.tool_words.specs.Boards.{board_in};

use crate::board::{BoardCall, board};
use edition::Compiled;
use edition_register::Closed;
use fold_state::BoardRoom;
use live_session::Host;
use page_texts::BoardCode;
use std::alloc::Global;
use std::sync::Wait;
use std::thread::Threads;
use tm_io::{Gate, Shelf, Sink};
use tool_words::{WordsFault, board_request_in};

/// How a call of a board ended. One whose run opened hands out its register, closed; contracts see its history.
#[derive(Drop)]
pub struct BoardStatus {
    pub code: BoardCode,
    pub closed: Option<Closed<Compiled, BoardRoom>>,
}

impl BoardStatus {
    /// The status of a call that opened no run.
    pub(crate) fn unopened(code: BoardCode) -> BoardStatus
        ensures code { result.code ≡ code }
        ensures closed { result.closed ≡ None }
    {
        BoardStatus { code, closed: None }
    }
}

/// Does what the words ask for, which stand behind the program's name: `board DIR FEED DESK PAGE` reads tables from `tables` and the names of a
/// page from `page`, and decodes the packets of `feed` to `out`, by as many workers as `--workers` says, while the lines of `desk` edit the
/// tables, with replies to `replies`. Beside the run a thread writes pages of these names to `screen`, as they are after packets whose records
/// were written; the last is that after the last of them. It waits for the run and for the pages. A worker calls `gate` with the number of a
/// packet before it works on it.
pub fn board_tool<
    T: Shelf,
    F: Shelf + Send,
    D: Shelf + Send,
    P: Shelf,
    O: Sink + Send,
    R: Sink + Send,
    S: Sink + Send,
    G: Gate + Sync,
    X: Threads + Wait + Sync,
>(
    rt: &X,
    alloc: Global,
    words: &[String],
    tables: &mut T,
    feed: &mut F,
    desk: &mut D,
    page: &mut P,
    out: &mut O,
    replies: &mut R,
    screen: &mut S,
    gate: &G,
) -> BoardStatus
    // Wrong words are answered before any object is called, unless memory runs out first.
    ensures misuse { IfErr (board_in (map string_bytes words.now)) (λ misuse. (result.code ≡ BoardCode.Usage misuse) ⊎ (result.code ≡ BoardCode.Want)) }
    ensures misuse_closed { IfErr (board_in (map string_bytes words.now)) (λ misuse. result.closed ≡ None) }
    ensures misuse_shelves { IfErr (board_in (map string_bytes words.now)) (λ misuse.
        (tables.new ≡ tables.old) × (feed.new ≡ feed.old) × (desk.new ≡ desk.old) × (page.new ≡ page.old)) }
    ensures misuse_sinks { IfErr (board_in (map string_bytes words.now)) (λ misuse.
        (out.new ≡ out.old) × (replies.new ≡ replies.old) × (screen.new ≡ screen.old)) }

    ensures boards { IfOk (board_in (map string_bytes words.now)) (λ asked. Boarded result.code (option_map history_of result.closed) asked
        (shelf tables.old tables.new T.holds T.left T.faults T.missed)
        (shelf feed.old feed.new F.holds F.left F.faults F.missed)
        (shelf desk.old desk.new D.holds D.left D.faults D.missed)
        (shelf page.old page.new P.holds P.left P.faults P.missed)
        (sink out.old out.new O.written O.handed O.faults)
        (sink replies.old replies.new R.written R.handed R.faults)
        (sink screen.old screen.new S.written S.handed S.faults)) }
    ensures numbers { IfSome result.closed (λ closed. (first : Database) × EndsAs first closed) }
{
    match board_request_in(alloc, words) {
        Ok(request) => {
            let call = BoardCall {
                host: Host { rt, alloc, gate },
                request,
            };
            board(&call, tables, feed, desk, page, out, replies, screen)
        }
        Err(WordsFault::Misuse(misuse)) => BoardStatus::unopened(BoardCode::Usage(misuse)),
        Err(WordsFault::Memory) => BoardStatus::unopened(BoardCode::Want),
    }
}
