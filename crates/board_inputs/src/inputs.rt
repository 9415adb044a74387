// Tables, a feed, a desk and the names of a page.
ghost use Rattle.std.specs.Prelude.{◌≡◌, ◌≤◌, length, IfOk, IfErr};
ghost use Rattle.board_inputs.specs.Inputs.{AreHad, AreNotHad, AreOpened, AreRefused, code_of_refusal};
ghost use Rattle.display_pages.specs.declared.page.TheConstants.{MOST_CELLS};
ghost use Rattle.tool_objects.specs.Objects.{shelf};
ghost use Rattle.tool_words.specs.Boards.{words_by};

use edition::Edition;
use folder_edition::{folder_edition, let_go};
use folder_tables::Refusal;
use mib_model::Name;
use page_files::page_names;
use page_texts::{BoardCode, BoardInput};
use std::alloc::Global;
use tm_io::Shelf;
use tool_words::BoardRequest;

// The end of a board whose tables are refused so.
fn code_of_refusal(refusal: Refusal) -> BoardCode
    ensures { result ≡ code_of_refusal refusal }
{
    match refusal {
        Refusal::Mib(fault) => BoardCode::BadMib(fault),
        Refusal::Failed => BoardCode::TablesFault,
        Refusal::Memory => BoardCode::Want,
    }
}

// Turns feed and desk to their files and reads the names of the page, in this order.
fn open_files<F: Shelf, D: Shelf, P: Shelf>(
    alloc: Global,
    request: &BoardRequest<'_>,
    feed: &mut F,
    desk: &mut D,
    page: &mut P,
) -> Result<Vec<Name>, BoardCode>
    ensures few { IfOk result (λ names. length names.items ≤ MOST_CELLS) }
    ensures had { IfOk result (λ names. AreHad names.items (words_by request.now) (shelf feed.old feed.new F.holds F.left F.faults F.missed)
        (shelf desk.old desk.new D.holds D.left D.faults D.missed) (shelf page.old page.new P.holds P.left P.faults P.missed)) }
    ensures refused { IfErr result (λ code. AreNotHad code (words_by request.now) (shelf feed.old feed.new F.holds F.left F.faults F.missed)
        (shelf desk.old desk.new D.holds D.left D.faults D.missed) (shelf page.old page.new P.holds P.left P.faults P.missed)) }
{
    match feed.aim(request.feed) {
        Ok(true) => (),
        Ok(false) => return Err(BoardCode::NoFile(BoardInput::Feed)),
        Err(_) => return Err(BoardCode::FeedFault),
    }
    match desk.aim(request.desk) {
        Ok(true) => (),
        Ok(false) => return Err(BoardCode::NoFile(BoardInput::Desk)),
        Err(_) => return Err(BoardCode::DeskFault),
    }
    page_names(alloc, request.page, page)
}

/// The edition of the tables of a folder and the names of a page, with feed and desk turned to their files. Tables are read first, then feed and desk
/// are turned, then the names are read; an error is the end of the call, and what stands behind its cause was not called.
pub fn open_inputs<T: Shelf, F: Shelf, D: Shelf, P: Shelf>(
    alloc: Global,
    request: &BoardRequest<'_>,
    tables: &mut T,
    feed: &mut F,
    desk: &mut D,
    page: &mut P,
) -> Result<(Edition, Vec<Name>), BoardCode>
    ensures few { IfOk result (λ opened. length opened.1.items ≤ MOST_CELLS) }
    ensures opened { IfOk result (λ opened. AreOpened opened.0 opened.1.items (words_by request.now)
        (shelf tables.old tables.new T.holds T.left T.faults T.missed)
        (shelf feed.old feed.new F.holds F.left F.faults F.missed)
        (shelf desk.old desk.new D.holds D.left D.faults D.missed) (shelf page.old page.new P.holds P.left P.faults P.missed)) }
    ensures refused { IfErr result (λ code. AreRefused code (words_by request.now) (shelf tables.old tables.new T.holds T.left T.faults T.missed)
        (shelf feed.old feed.new F.holds F.left F.faults F.missed)
        (shelf desk.old desk.new D.holds D.left D.faults D.missed) (shelf page.old page.new P.holds P.left P.faults P.missed)) }
{
    let edition = match folder_edition(alloc, request.folder, tables) {
        Ok(edition) => edition,
        Err(refusal) => return Err(code_of_refusal(refusal)),
    };
    match open_files(alloc, request, feed, desk, page) {
        Ok(names) => Ok((edition, names)),
        Err(code) => {
            let_go(edition);
            Err(code)
        }
    }
}
