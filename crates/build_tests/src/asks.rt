ghost use Rattle.std.specs.Prelude.{◌≤◌};

use mib_model::Line;
use mibtm_build::{BuildCode, build_tool};
use std::alloc::Global;
use std::process::Abort;
use std::test::Fail;
use tm_io::{MemFile, MemShelf, MemSink};

const PCF: &[u8] =
    b"T1\t\t\t\t3\t12\t\t\t\tN\tR\nN\t\t\t\t3\t4\t\t\t\tN\tR\nV\t\t\t\t3\t4\t\t\t\tN\tR\n";

const PID: &[u8] = b"3\t25\t100\t\t\t4001\n3\t25\t101\t\t\t4002\t\t\t10\t4\n";

const PLF: &[u8] = b"T1\t4001\t10\t0\n";

const VPD: &[u8] = b"10\t1\tN\t2\n10\t2\tN\t1\t3\n10\t3\tV\n";

const PACKET: &[u8] = &[
    0x08, 0x64, 0xC0, 0x00, 0x00, 0x05, 0x10, 0x03, 0x19, 0x00, 0x07, 0xD0,
];

const COUNTED: &[u8] = &[
    0x08, 0x65, 0xC0, 0x00, 0x00, 0x0A, 0x10, 0x03, 0x19, 0x00, 0x02, 0x01, 0x02, 0x03, 0x04, 0x05,
    0x06,
];

fn file(alloc: Global, name: &str, octets: &[u8], fails: &[u64]) -> Result<MemFile, Fail> {
    Ok(MemFile {
        name: String::from_str(alloc, name)?,
        bytes: Vec::from_slice(alloc, octets)?,
        fails: Vec::from_slice(alloc, fails)?,
    })
}

fn tables(alloc: Global) -> Result<MemShelf, Fail> {
    let files = vec![in alloc;
        file(alloc, "mib/pcf.dat", PCF, &[])?,
        file(alloc, "mib/pid.dat", PID, &[])?,
        file(alloc, "mib/plf.dat", PLF, &[])?,
        file(alloc, "mib/vpd.dat", VPD, &[])?,
    ]?;
    Ok(MemShelf::new(files, 4096))
}

fn words(alloc: Global, words: &[&str]) -> Result<Vec<String>, Fail> {
    let mut all = Vec::new(alloc);
    for word in words {
        all.push(String::from_str(alloc, word)?)?;
    }
    Ok(all)
}

// What came of a call: its code, and what it wrote.
struct CallEnd {
    code: BuildCode,
    out: MemSink,
}

impl Drop for CallEnd {
    fn drop(self) {
        let CallEnd { code: _, out: _out } = self;
    }
}

// Asks that fail at these octets, and an output that fails at these.
fn build(
    alloc: Global,
    given: &[&str],
    lines: &[u8],
    asks_fail: &[u64],
    out_fails: &[u64],
) -> Result<CallEnd, Fail> {
    let given = words(alloc, given)?;
    let mut asks = MemShelf::new(vec![in alloc; file(alloc, "asks", lines, asks_fail)?]?, 7);
    let mut out = MemSink::new(alloc, 5, Vec::from_slice(alloc, out_fails)?)?;
    let code = build_tool(alloc, &given, &mut tables(alloc)?, &mut asks, &mut out);
    Ok(CallEnd { code, out })
}

// A call with these words and asks writes these octets, and ends with this status and line.
fn comes_to<X: Abort>(
    rt: &X,
    alloc: Global,
    given: &[&str],
    lines: &[u8],
    octets: &[u8],
    status: u8,
    told: &[u8],
) -> Result<(), Fail> {
    let came = build(alloc, given, lines, &[], &[])?;
    let mut line = Line::new();
    came.code.line(&mut line);
    assert_eq!(rt; came.code.number(), status);
    assert_eq!(rt; line.bytes(), told);
    assert_eq!(rt; came.out.bytes(), octets);
    Ok(())
}

const BUILD: &[&str] = &["build", "mib", "asks"];

#[test]
fn packets_are_built_of_lines(rt: HostRuntime) -> Result<(), Fail> {
    let alloc = rt.alloc();
    comes_to(&rt, alloc, BUILD, b"4001 0 T1 2000", PACKET, 0, b"")?;
    comes_to(
        &rt,
        alloc,
        BUILD,
        b"# none\r\n\n4001 0 T1 2000\r\n",
        PACKET,
        0,
        b"",
    )?;
    let counted = b"4002 0 N 2 V 1 V 2 V 3 V 4 V 5 V 6\n";
    comes_to(&rt, alloc, BUILD, counted, COUNTED, 0, b"")
}

#[test]
fn the_first_line_that_builds_no_packet_is_told(rt: HostRuntime) -> Result<(), Fail> {
    let alloc = rt.alloc();
    comes_to(
        &rt,
        alloc,
        BUILD,
        b"4001 0 T1 65536\n",
        b"",
        13,
        b"REFUSED 1 RANGE 1",
    )?;
    comes_to(
        &rt,
        alloc,
        BUILD,
        b"4001 0 T1 2000\n4001 0\n",
        PACKET,
        13,
        b"REFUSED 2 ITEMS 1",
    )?;
    comes_to(
        &rt,
        alloc,
        BUILD,
        b"4294967296 0\n",
        b"",
        13,
        b"REFUSED 1 NOSPID",
    )?;
    comes_to(
        &rt,
        alloc,
        BUILD,
        b"4001 16384 T1 1\n",
        b"",
        13,
        b"REFUSED 1 ASK",
    )
}

#[test]
fn wrong_words_and_missing_asks_are_told(rt: HostRuntime) -> Result<(), Fail> {
    let alloc = rt.alloc();
    comes_to(
        &rt,
        alloc,
        &["build", "mib", "none"],
        b"",
        b"",
        4,
        b"NOFILE DESK",
    )?;
    comes_to(
        &rt,
        alloc,
        &["build", "--", "mib", "asks"],
        b"4001 0 T1 2000",
        PACKET,
        0,
        b"",
    )?;
    comes_to(
        &rt,
        alloc,
        &["build", "--workers=2", "mib", "asks"],
        b"",
        b"",
        2,
        b"USAGE WORDS",
    )?;
    comes_to(&rt, alloc, &["drill", "0"], b"", b"", 2, b"USAGE COMMAND")
}

#[test]
fn what_fails_is_told_behind_whole_packets(rt: HostRuntime) -> Result<(), Fail> {
    let alloc = rt.alloc();
    let lines = b"4001 0 T1 2000\n4001 0 T1 2000\n";
    let asks = build(alloc, BUILD, lines, &[20], &[])?;
    assert_eq!(rt; asks.code.number(), 8);
    assert_eq!(rt; asks.out.bytes(), PACKET);
    assert_eq!(rt; asks.out.handed(), PACKET);
    let out = build(alloc, BUILD, lines, &[], &[10])?;
    assert_eq!(rt; out.code.number(), 9);
    assert_eq!(rt; out.out.bytes(), &PACKET[..10]);
    Ok(())
}
