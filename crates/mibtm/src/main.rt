//! The monitoring half of a spacecraft control system in the manner of SCOS-2000, as a program: `main` hands the words of its
//! command line, real files and standard streams to the call `tool` of `mibtm_tool`, to `build_tool` of `mibtm_build` or to `audit_tool` of
//! `mibtm_audit`, which promise what is printed and with which status they end. The line of that status goes to standard error. It stands on `tm_io`
//! for files and streams, and on `program_ends` for words and status.
#![tactic(auto)]

use mib_model::Line;
use mibtm_audit::audit_tool;
use mibtm_build::{BuildCode, build_tool};
use mibtm_tool::tool;
use program_ends::{Ending, arguments};
use reply_text::code_line;
use run_model::Code;
use std::alloc::{AllocError, Global};
use std::process::ExitCode;
use std::rt::{Stderr, Stdout};
use std::sync::Wait;
use std::thread::Threads;
use tm_audit::AuditCode;
use tm_io::{FileShelf, NoGate, StdSink};
use tool_words::WordsFault;

// What wrong words come to.
fn code_of(fault: WordsFault) -> Code {
    match fault {
        WordsFault::Misuse(misuse) => Code::Usage(misuse),
        WordsFault::Memory => Code::Want,
    }
}

// How the program ends with a code of `tool`.
fn ending_of(code: &Code) -> Ending {
    let mut line = Line::new();
    code_line(code, &mut line);
    Ending::new(code.number(), line)
}

// How it ends with a code of `build_tool`.
fn ending_of_build(code: &BuildCode) -> Ending {
    let mut line = Line::new();
    code.line(&mut line);
    Ending::new(code.number(), line)
}

// How it ends with a code of `audit_tool`.
fn ending_of_audit(code: &AuditCode) -> Ending {
    let mut line = Line::new();
    code.line(&mut line);
    Ending::new(code.number(), line)
}

// The files and streams that a call is handed.
#[derive(Drop)]
struct ToolOutside {
    tables: FileShelf<HostRuntime>,
    feed: FileShelf<HostRuntime>,
    desk: FileShelf<HostRuntime>,
    text: FileShelf<HostRuntime>,
    out: StdSink<Stdout>,
    replies: StdSink<Stderr>,
}

impl ToolOutside {
    fn new(rt: HostRuntime) -> Result<ToolOutside, AllocError> {
        Ok(ToolOutside {
            tables: FileShelf::new(rt, rt.alloc())?,
            feed: FileShelf::new(rt, rt.alloc())?,
            desk: FileShelf::new(rt, rt.alloc())?,
            text: FileShelf::new(rt, rt.alloc())?,
            out: StdSink::new(rt.stdout(), rt.alloc())?,
            replies: StdSink::new(rt.stderr(), rt.alloc())?,
        })
    }
}

// The words, and real files and streams.
fn prepare(rt: HostRuntime) -> Result<(Vec<String>, ToolOutside), Code> {
    let words = arguments(&rt).map_err(code_of)?;
    match ToolOutside::new(rt) {
        Ok(outside) => Ok((words, outside)),
        Err(_) => Err(Code::Want),
    }
}

// Does what the words ask for: each call reads its command from the first of them.
fn call<X: Threads + Wait + Sync>(
    rt: &X,
    alloc: Global,
    words: &[String],
    outside: &mut ToolOutside,
) -> Ending {
    let ToolOutside {
        tables,
        feed,
        desk,
        text,
        out,
        replies,
    } = outside;
    match words {
        [word, ..] if word.as_str() == "build" => {
            ending_of_build(&build_tool(alloc, words, tables, desk, out))
        }
        [word, ..] if word.as_str() == "audit" => {
            ending_of_audit(&audit_tool(alloc, words, tables, feed, desk, text, out))
        }
        _ => ending_of(&tool(rt, alloc, words, tables, feed, desk, out, replies, &NoGate).code),
    }
}

fn main(rt: HostRuntime) -> ExitCode {
    let ending = match prepare(rt) {
        Ok((words, mut outside)) => call(&rt, rt.alloc(), &words, &mut outside),
        Err(code) => ending_of(&code),
    };
    ExitCode::from(ending.tell(&mut rt.stderr()))
}
