use mib_model::Line;
use mibtm_audit::audit_tool;
use std::alloc::Global;
use std::process::Abort;
use std::test::Fail;
use tm_audit::AuditCode;
use tm_io::{MemFile, MemShelf, MemSink};

const PCF: &[u8] = b"T1\t\t\t\t3\t12\t\t\t\tN\tR\tC1\n";

const PID: &[u8] = b"3\t25\t100\t\t\t4001\n";

const PLF: &[u8] = b"T1\t4001\t10\t0\n";

const CAF: &[u8] = b"C1\t\tR\tU\tD\t\t\tF\n";

const CAP: &[u8] = b"C1\t0\t-50\nC1\t4000\t150\n";

const FEED: &[u8] = &[
    0x08, 0x64, 0xC0, 0, 0, 5, 0x10, 3, 25, 0, 0x07, 0xD0, 0x08, 0x64, 0xC0, 0, 0, 5, 0x10, 3, 25,
    0, 0x07, 0xD0, 0x08, 0x64, 0xC0, 0, 0, 5, 0x10, 3, 25, 0, 0x07, 0xD0,
];

const DESK: &[u8] = b"put cap\tC1\t2000\t100\nsave\nuse 2 from 2\ngo\n";

const TEXT: &[u8] = b"PKT 1 APID 100 COUNT 0 TYPE 3/25 SPID 4001
  T1 2000 = 50
EDITION 2
PKT 2 APID 100 COUNT 0 TYPE 3/25 SPID 4001
  T1 2000 = 100
PKT 3 APID 100 COUNT 0 TYPE 3/25 SPID 4001
  T1 2000 = 100
";

const WITHOUT_EDITION: &[u8] = b"PKT 1 APID 100 COUNT 0 TYPE 3/25 SPID 4001
  T1 2000 = 50
PKT 2 APID 100 COUNT 0 TYPE 3/25 SPID 4001
  T1 2000 = 100
PKT 3 APID 100 COUNT 0 TYPE 3/25 SPID 4001
  T1 2000 = 100
";

const EDITION_3: &[u8] = b"PKT 1 APID 100 COUNT 0 TYPE 3/25 SPID 4001
  T1 2000 = 50
EDITION 3
";

fn file(alloc: Global, name: &str, octets: &[u8], fails: &[u64]) -> Result<MemFile, Fail> {
    Ok(MemFile {
        name: String::from_str(alloc, name)?,
        bytes: Vec::from_slice(alloc, octets)?,
        fails: Vec::from_slice(alloc, fails)?,
    })
}

fn shelf(alloc: Global, name: &str, octets: &[u8], fails: &[u64]) -> Result<MemShelf, Fail> {
    let files = vec![in alloc; file(alloc, name, octets, fails)?]?;
    Ok(MemShelf::new(files, 7))
}

fn tables(alloc: Global) -> Result<MemShelf, Fail> {
    let files = vec![in alloc;
        file(alloc, "mib/pcf.dat", PCF, &[])?,
        file(alloc, "mib/pid.dat", PID, &[])?,
        file(alloc, "mib/plf.dat", PLF, &[])?,
        file(alloc, "mib/caf.dat", CAF, &[])?,
        file(alloc, "mib/cap.dat", CAP, &[])?,
    ]?;
    Ok(MemShelf::new(files, 4096))
}

fn words(alloc: Global, words: &[&str]) -> Result<Vec<String>, Fail> {
    let mut all = Vec::new(alloc);
    for word in words {
        all.push(String::from_str(alloc, word)?)?;
    }
    Ok(all)
}

// Where feed, desk, text and output fail.
#[derive(Clone, Copy)]
struct Failing<'a> {
    feed: &'a [u64],
    desk: &'a [u64],
    text: &'a [u64],
    out: &'a [u64],
}

const WELL: Failing<'static> = Failing {
    feed: &[],
    desk: &[],
    text: &[],
    out: &[],
};

// What came of an audit of a text by these words: its code, and what it wrote.
fn audit(
    alloc: Global,
    given: &[&str],
    text: &[u8],
    failing: Failing<'_>,
) -> Result<(AuditCode, MemSink), Fail> {
    let given = words(alloc, given)?;
    let mut feed = shelf(alloc, "feed", FEED, failing.feed)?;
    let mut desk = shelf(alloc, "desk", DESK, failing.desk)?;
    let mut text = shelf(alloc, "text", text, failing.text)?;
    let mut out = MemSink::new(alloc, 5, Vec::from_slice(alloc, failing.out)?)?;
    let mut tables = tables(alloc)?;
    let code = audit_tool(
        alloc,
        &given,
        &mut tables,
        &mut feed,
        &mut desk,
        &mut text,
        &mut out,
    );
    Ok((code, out))
}

const WORDS: &[&str] = &["audit", "mib", "feed", "desk", "text"];

// An audit by these words writes this text, and ends with this status and line.
fn comes_to<X: Abort>(
    rt: &X,
    alloc: Global,
    given: &[&str],
    text: &[u8],
    failing: Failing<'_>,
    written: &[u8],
    status: u8,
    told: &[u8],
) -> Result<(), Fail> {
    let (code, out) = audit(alloc, given, text, failing)?;
    let mut line = Line::new();
    code.line(&mut line);
    assert_eq!(rt; code.number(), status);
    assert_eq!(rt; line.bytes(), told);
    assert_eq!(rt; out.bytes(), written);
    Ok(())
}

#[test]
fn a_printed_text_is_the_same(rt: HostRuntime) -> Result<(), Fail> {
    comes_to(&rt, rt.alloc(), WORDS, TEXT, WELL, b"SAME\n", 0, b"")
}

#[test]
fn a_changed_text_differs_in_its_line(rt: HostRuntime) -> Result<(), Fail> {
    let alloc = rt.alloc();
    let differs = b"DIFFERS 4\n";
    comes_to(&rt, alloc, WORDS, WITHOUT_EDITION, WELL, differs, 13, b"")?;
    let unknown = b"NOEDITION 3 COUNT 2\n";
    comes_to(&rt, alloc, WORDS, EDITION_3, WELL, unknown, 14, b"")?;
    comes_to(&rt, alloc, WORDS, b"", WELL, b"DIFFERS 1\n", 13, b"")
}

#[test]
fn wrong_words_and_missing_inputs_are_told(rt: HostRuntime) -> Result<(), Fail> {
    let alloc = rt.alloc();
    let ended = &["audit", "mib", "--", "feed", "desk", "text"];
    comes_to(&rt, alloc, ended, TEXT, WELL, b"SAME\n", 0, b"")?;
    let shared = &["audit", "mib", "-", "desk", "-"];
    comes_to(&rt, alloc, shared, TEXT, WELL, b"", 2, b"USAGE WORDS")?;
    let few = &["audit", "mib", "feed", "desk"];
    comes_to(&rt, alloc, few, TEXT, WELL, b"", 2, b"USAGE WORDS")?;
    let no_text = &["audit", "mib", "feed", "desk", "none"];
    comes_to(&rt, alloc, no_text, TEXT, WELL, b"", 4, b"NOFILE TEXT")?;
    let no_feed = &["audit", "mib", "none", "desk", "text"];
    comes_to(&rt, alloc, no_feed, TEXT, WELL, b"", 4, b"NOFILE FEED")?;
    comes_to(&rt, alloc, &["live"], TEXT, WELL, b"", 2, b"USAGE COMMAND")
}

#[test]
fn what_fails_is_told(rt: HostRuntime) -> Result<(), Fail> {
    let alloc = rt.alloc();
    let desk = Failing { desk: &[9], ..WELL };
    comes_to(&rt, alloc, WORDS, TEXT, desk, b"", 8, b"FAULT DESK")?;
    let text = Failing { text: &[9], ..WELL };
    comes_to(&rt, alloc, WORDS, TEXT, text, b"", 15, b"FAULT TEXT")?;
    let feed = Failing { feed: &[9], ..WELL };
    comes_to(&rt, alloc, WORDS, TEXT, feed, b"", 7, b"FAULT FEED")?;
    // The text parts in the first packet, and the octets behind it aren't read.
    let behind = Failing {
        feed: &[20],
        ..WELL
    };
    comes_to(&rt, alloc, WORDS, b"PKT 2", behind, b"DIFFERS 1\n", 13, b"")?;
    let out = Failing { out: &[3], ..WELL };
    comes_to(&rt, alloc, WORDS, TEXT, out, b"SAM", 9, b"FAULT OUT")
}
