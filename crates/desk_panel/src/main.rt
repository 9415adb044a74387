//! Several desks beside a live run, as a program: `main` hands the words of its command line, real files and standard streams to the call
//! `panel_tool` of `desk_panel_tool`, which promises what is printed and replied, and with which status it ends. Records go to standard output,
//! the replies of all desks to standard error, and behind them the line of the status. It stands on `tm_io` for files and streams and on
//! `program_ends` for words and status.
#![tactic(auto)]

use desk_panel_tool::panel_tool;
use mib_model::Line;
use panel_session::Station;
use program_ends::{Ending, arguments};
use reply_text::code_line;
use run_model::Code;
use std::alloc::{AllocError, Global};
use std::process::ExitCode;
use std::rt::{Stderr, Stdout};
use std::sync::Wait;
use std::thread::Threads;
use tm_io::{FileShelf, NoGate, StdSink};
use tool_words::{MOST_DESKS, WordsFault};

// A station whose desk is a file, with its own way to standard error.
type FileStation = Station<FileShelf<HostRuntime>, StdSink<Stderr>>;

// The files and streams that a call is handed.
#[derive(Drop)]
struct PanelOutside {
    tables: FileShelf<HostRuntime>,
    feed: FileShelf<HostRuntime>,
    stations: [FileStation; MOST_DESKS],
    out: StdSink<Stdout>,
}

fn station(rt: HostRuntime) -> Result<FileStation, AllocError> {
    Ok(Station {
        desk: FileShelf::new(rt, rt.alloc())?,
        replies: StdSink::new(rt.stderr(), rt.alloc())?,
    })
}

impl PanelOutside {
    fn new(rt: HostRuntime) -> Result<PanelOutside, AllocError> {
        Ok(PanelOutside {
            tables: FileShelf::new(rt, rt.alloc())?,
            feed: FileShelf::new(rt, rt.alloc())?,
            stations: [station(rt)?, station(rt)?, station(rt)?, station(rt)?],
            out: StdSink::new(rt.stdout(), rt.alloc())?,
        })
    }
}

// The words, and real files and streams.
fn prepare(rt: HostRuntime) -> Result<(Vec<String>, PanelOutside), Code> {
    let words = match arguments(&rt) {
        Ok(words) => words,
        Err(WordsFault::Misuse(misuse)) => return Err(Code::Usage(misuse)),
        Err(WordsFault::Memory) => return Err(Code::Want),
    };
    match PanelOutside::new(rt) {
        Ok(outside) => Ok((words, outside)),
        Err(_) => Err(Code::Want),
    }
}

// Runs the panel that the words ask for.
fn call<X: Threads + Wait + Sync>(
    rt: &X,
    alloc: Global,
    words: &[String],
    outside: &mut PanelOutside,
) -> Code {
    let PanelOutside {
        tables,
        feed,
        stations,
        out,
    } = outside;
    panel_tool(rt, alloc, words, tables, feed, stations, out, &NoGate).code
}

fn main(rt: HostRuntime) -> ExitCode {
    let code = match prepare(rt) {
        Ok((words, mut outside)) => call(&rt, rt.alloc(), &words, &mut outside),
        Err(code) => code,
    };
    let mut line = Line::new();
    code_line(&code, &mut line);
    ExitCode::from(Ending::new(code.number(), line).tell(&mut rt.stderr()))
}
