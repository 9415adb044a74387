// The words of a board.
ghost use Rattle.std.specs.Prelude.{◌≡◌, map, string_bytes, option_map, option_and_then};
ghost use Rattle.run_model.specs.Words.{parted};
ghost use Rattle.tool_words.specs.Behind.{or_wrong};
ghost use Rattle.tool_words.specs.Boards.{AsksBoard, board_asked, board_in, board_of_words, words_by};
ghost use Rattle.tool_words.specs.Requests.{texts};

use crate::behind::{share_standard, words_behind};
use crate::line::{line_matches, values};
use crate::request::{WordsFault, workers_of};
use run_model::Misuse;
use std::alloc::Global;

/// What the words of a board ask for: the names of a folder of tables, a feed, a desk and a file of names, and the number of workers.
#[derive(Clone, Copy, Debug, PartialEq, Eq)]
pub struct BoardRequest<'a> {
    pub folder: &'a str,
    pub feed: &'a str,
    pub desk: &'a str,
    pub page: &'a str,
    pub workers: u8,
}

// The request of a board with its words.
fn board_of<'a>(words: &[&'a str], workers: u8) -> Option<BoardRequest<'a>>
    ensures { option_map words_by result ≡ board_of_words workers (texts words.now) }
{
    match words {
        [folder, feed, desk, page] if !share_standard(&[*feed, *desk, *page]) => {
            Some(BoardRequest {
                folder,
                feed,
                desk,
                page,
                workers,
            })
        }
        _ => None,
    }
}

// The request of a board with its words and the numbers of workers.
fn board_by<'a>(words: &[&'a str], workers: &[&'a str]) -> Option<BoardRequest<'a>>
    ensures { option_map words_by result ≡ board_asked (record { positional = texts words.now; workers = texts workers.now }) }
{
    match workers_of(workers) {
        Some(workers) => board_of(words, workers),
        None => None,
    }
}

// What the words behind `board` ask for.
fn board_behind<'a>(alloc: Global, words: &'a [String]) -> Result<BoardRequest<'a>, WordsFault>
    ensures { AsksBoard result (or_wrong (option_and_then board_asked (parted (map string_bytes words.now)))) }
{
    let matches = match line_matches(alloc, words) {
        Ok(matches) => matches,
        Err(fault) => return Err(fault),
    };
    let none: [&str; 0] = [];
    let positional = values(&matches, "words", &none);
    let workers = values(&matches, "workers", &none);
    match board_by(positional, workers) {
        Some(request) => Ok(request),
        None => Err(WordsFault::Misuse(Misuse::Words)),
    }
}

/// What the words behind the program's name ask a board for.
pub fn board_request_in<'a>(
    alloc: Global,
    words: &'a [String],
) -> Result<BoardRequest<'a>, WordsFault>
    ensures { AsksBoard result (board_in (map string_bytes words.now)) }
{
    match words_behind("board", words) {
        Some(rest) => board_behind(alloc, rest),
        None => Err(WordsFault::Misuse(Misuse::Command)),
    }
}
