// The end of a board by that of its live run and by its screen.
ghost use Rattle.std.specs.Prelude.{◌≡◌};
ghost use Rattle.std.specs.Result.{is_err};
ghost use Rattle.live_board_tool.specs.Codes.{code_by, code_of_live};

use page_texts::{BoardCode, BoardInput};
use run_model::{Code, Input};
use tm_io::Failed;

// The end of a board that ends as its live run does.
fn live_code(code: Code) -> BoardCode
    ensures { result ≡ code_of_live code }
{
    match code {
        Code::Ok => BoardCode::Ok,
        Code::Usage(misuse) => BoardCode::Usage(misuse),
        Code::BadMib(fault) => BoardCode::BadMib(fault),
        Code::NoFile(Input::Feed) => BoardCode::NoFile(BoardInput::Feed),
        Code::NoFile(Input::Desk) => BoardCode::NoFile(BoardInput::Desk),
        Code::Cut(octets) => BoardCode::Cut(octets),
        Code::TablesFault => BoardCode::TablesFault,
        Code::FeedFault => BoardCode::FeedFault,
        Code::DeskFault => BoardCode::DeskFault,
        Code::OutFault => BoardCode::OutFault,
        Code::ReplyFault => BoardCode::ReplyFault,
        Code::Limit => BoardCode::Limit,
        Code::Want => BoardCode::Want,
    }
}

/// The end of a board whose live run ended so, and whose screen failed or did not: the screen's fault goes behind those of the run's objects.
pub(crate) fn merged(code: Code, shown: Result<(), Failed>) -> BoardCode
    ensures { result ≡ code_by code (is_err shown) }
{
    match (code, shown) {
        (Code::Ok | Code::Cut(_) | Code::Limit, Err(_)) => BoardCode::ScreenFault,
        (code, _) => live_code(code),
    }
}
