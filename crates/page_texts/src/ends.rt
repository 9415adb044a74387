// The exit statuses of a board, and the lines of its ends.
ghost use Rattle.std.specs.Prelude.{◌≡◌, ◌≤◌, ◌++◌, codes, decimal, [], length};
ghost use Rattle.page_texts.specs.Codes as Spec;

use crate::code::{BoardCode, BoardInput};
use mib_model::Line;
use reply_text::{add_number, code_line};
use run_model::{Code, Input};

// Writes the line of a file of names that is refused into an empty line.
fn add_bad_page(line: u32, out: &mut Line)
    requires { out.old ≡ [] }
    ensures text { out.new ≡ codes "BADPAGE " ++ decimal line }
    ensures room { length out.new ≤ 150 }
{
    out.add(b"BADPAGE ");
    add_number(line, out);
}

impl BoardCode {
    // The code of a live run that ends so too; none of an end that a board alone has.
    fn plain(&self) -> Option<Code>
        ensures { result ≡ Spec.plain_code self.now }
    {
        Some(match self {
            BoardCode::Ok => Code::Ok,
            BoardCode::Usage(misuse) => Code::Usage(*misuse),
            BoardCode::BadMib(fault) => Code::BadMib(*fault),
            BoardCode::NoFile(BoardInput::Feed) => Code::NoFile(Input::Feed),
            BoardCode::NoFile(BoardInput::Desk) => Code::NoFile(Input::Desk),
            BoardCode::Cut(octets) => Code::Cut(*octets),
            BoardCode::TablesFault => Code::TablesFault,
            BoardCode::FeedFault => Code::FeedFault,
            BoardCode::DeskFault => Code::DeskFault,
            BoardCode::OutFault => Code::OutFault,
            BoardCode::ReplyFault => Code::ReplyFault,
            BoardCode::Limit => Code::Limit,
            BoardCode::Want => Code::Want,
            _ => return None,
        })
    }

    // The exit status of an end that a board alone has.
    fn own_number(&self) -> u8
        ensures { result ≡ Spec.own_number self.now }
    {
        match self {
            BoardCode::NoFile(_) => 4,
            BoardCode::ScreenFault => 13,
            BoardCode::PageFault => 14,
            BoardCode::BadPage { .. } => 15,
            _ => 0,
        }
    }

    /// The exit status, from 0 to 15.
    #[tactic(auto, unfolding(crate::specs::Codes::board_number))]
    pub fn number(&self) -> u8
        ensures { result ≡ Spec.board_number self.now }
    {
        match self.plain() {
            Some(code) => code.number(),
            None => self.own_number(),
        }
    }

    // Writes the line of an end that a board alone has into an empty line.
    fn own_line(&self, out: &mut Line)
        requires { out.old ≡ [] }
        ensures text { out.new ≡ Spec.own_line self.now }
        ensures room { length out.new ≤ 150 }
    {
        match self {
            BoardCode::NoFile(_) => out.add(b"NOFILE PAGE"),
            BoardCode::ScreenFault => out.add(b"FAULT SCREEN"),
            BoardCode::PageFault => out.add(b"FAULT PAGE"),
            BoardCode::BadPage { line } => add_bad_page(*line, out),
            _ => {}
        }
    }

    /// Writes the line of an end, without its line feed, into an empty line. It stays empty where all is well.
    #[tactic(auto, unfolding(crate::specs::Codes::board_line))]
    pub fn line(&self, out: &mut Line)
        requires { out.old ≡ [] }
        ensures text { out.new ≡ Spec.board_line self.now }
        ensures room { length out.new ≤ 150 }
    {
        match self.plain() {
            Some(code) => code_line(&code, out),
            None => self.own_line(out),
        }
    }
}
