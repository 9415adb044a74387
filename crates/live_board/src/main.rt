//! A display board of a live run, as a program: `main` hands the words of its command line, real files and standard streams to the call
//! `board_tool` of `live_board_tool`, which promises what is printed, replied and shown, and with which status it ends. Records go to standard
//! output, replies and pages to standard error, and behind them the line of the status. It stands on `tm_io` for files and streams and on
//! `program_ends` for words and status.
#![tactic(auto)]

use live_board_tool::board_tool;
use mib_model::Line;
use page_texts::BoardCode;
use program_ends::{Ending, arguments};
use std::alloc::{AllocError, Global};
use std::process::ExitCode;
use std::rt::{Stderr, Stdout};
use std::sync::Wait;
use std::thread::Threads;
use tm_io::{FileShelf, NoGate, StdSink};
use tool_words::WordsFault;

// The files and streams that a call is handed.
#[derive(Drop)]
struct BoardOutside {
    tables: FileShelf<HostRuntime>,
    feed: FileShelf<HostRuntime>,
    desk: FileShelf<HostRuntime>,
    page: FileShelf<HostRuntime>,
    out: StdSink<Stdout>,
    replies: StdSink<Stderr>,
    screen: StdSink<Stderr>,
}

impl BoardOutside {
    fn new(rt: HostRuntime) -> Result<BoardOutside, AllocError> {
        Ok(BoardOutside {
            tables: FileShelf::new(rt, rt.alloc())?,
            feed: FileShelf::new(rt, rt.alloc())?,
            desk: FileShelf::new(rt, rt.alloc())?,
            page: FileShelf::new(rt, rt.alloc())?,
            out: StdSink::new(rt.stdout(), rt.alloc())?,
            replies: StdSink::new(rt.stderr(), rt.alloc())?,
            screen: StdSink::new(rt.stderr(), rt.alloc())?,
        })
    }
}

// The words, and real files and streams.
fn prepare(rt: HostRuntime) -> Result<(Vec<String>, BoardOutside), BoardCode> {
    let words = match arguments(&rt) {
        Ok(words) => words,
        Err(WordsFault::Misuse(misuse)) => return Err(BoardCode::Usage(misuse)),
        Err(WordsFault::Memory) => return Err(BoardCode::Want),
    };
    match BoardOutside::new(rt) {
        Ok(outside) => Ok((words, outside)),
        Err(_) => Err(BoardCode::Want),
    }
}

// Runs the board that the words ask for.
fn call<X: Threads + Wait + Sync>(
    rt: &X,
    alloc: Global,
    words: &[String],
    outside: &mut BoardOutside,
) -> BoardCode {
    let BoardOutside {
        tables,
        feed,
        desk,
        page,
        out,
        replies,
        screen,
    } = outside;
    board_tool(
        rt, alloc, words, tables, feed, desk, page, out, replies, screen, &NoGate,
    )
    .code
}

fn main(rt: HostRuntime) -> ExitCode {
    let code = match prepare(rt) {
        Ok((words, mut outside)) => call(&rt, rt.alloc(), &words, &mut outside),
        Err(code) => code,
    };
    let mut line = Line::new();
    code.line(&mut line);
    ExitCode::from(Ending::new(code.number(), line).tell(&mut rt.stderr()))
}
