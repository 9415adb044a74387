ghost use Rattle.std.specs.Prelude.{◌≤◌};

use mibtm_tool::tool;
use run_model::{Code, Input};
use std::alloc::Global;
use std::sync::Wait;
use std::test::Fail;
use std::thread::Threads;
use tm_io::{MemFile, MemShelf, MemSink, NoGate, Source};

pub(crate) const PCF: &[u8] = b"T1\t\t\t\t3\t12\t\t\t\tN\tR\n";

pub(crate) const PID: &[u8] = b"3\t25\t100\t\t\t4001\n";

pub(crate) const PLF: &[u8] = b"T1\t4001\t10\t0\n";

pub(crate) const PACKET: &[u8] = &[
    0x08, 0x64, 0xC0, 0x00, 0x00, 0x05, 0x10, 0x03, 0x19, 0x00, 0x07, 0xD0,
];

const TWO_PACKETS: &[u8] = &[
    0x08, 0x64, 0xC0, 0x00, 0x00, 0x05, 0x10, 0x03, 0x19, 0x00, 0x07, 0xD0, 0x08, 0x64, 0xC0, 0x00,
    0x00, 0x05, 0x10, 0x03, 0x19, 0x00, 0x07, 0xD0,
];

const RECORDS: &[u8] =
    b"PKT 1 APID 100 COUNT 0 TYPE 3/25 SPID 4001\n  T1 2000\nPKT 2 APID 100 COUNT 0 TYPE 3/25 SPID 4001\n  T1 2000\n";

// The octets of one record of these.
const RECORD_SIZE: usize = 53;

pub(crate) fn file(
    alloc: Global,
    name: &str,
    octets: &[u8],
    fails: &[u64],
) -> Result<MemFile, Fail> {
    Ok(MemFile {
        name: String::from_str(alloc, name)?,
        bytes: Vec::from_slice(alloc, octets)?,
        fails: Vec::from_slice(alloc, fails)?,
    })
}

// The tables of a folder `mib`.
fn tables(alloc: Global, pcf: &[u8], pid: &[u8], plf: &[u8], most: usize) -> Result<MemShelf, Fail>
    requires { 1 ≤ most }
{
    let files = vec![in alloc;
        file(alloc, "mib/pcf.dat", pcf, &[])?,
        file(alloc, "mib/pid.dat", pid, &[])?,
        file(alloc, "mib/plf.dat", plf, &[])?,
    ]?;
    Ok(MemShelf::new(files, most))
}

pub(crate) fn feed(
    alloc: Global,
    octets: &[u8],
    fails: &[u64],
    most: usize,
) -> Result<MemShelf, Fail>
    requires { 1 ≤ most }
{
    let files = vec![in alloc; file(alloc, "feed", octets, fails)?]?;
    Ok(MemShelf::new(files, most))
}

pub(crate) fn sink(alloc: Global, fails: &[u64], most: usize) -> Result<MemSink, Fail>
    requires { 1 ≤ most }
{
    Ok(MemSink::new(alloc, most, Vec::from_slice(alloc, fails)?)?)
}

pub(crate) fn words(alloc: Global, words: &[&str]) -> Result<Vec<String>, Fail> {
    let mut all = Vec::new(alloc);
    for word in words {
        all.push(String::from_str(alloc, word)?)?;
    }
    Ok(all)
}

// Calls the tool for these words.
pub(crate) fn call<X: Threads + Wait + Sync>(
    rt: &X,
    alloc: Global,
    given: &[&str],
    tables: &mut MemShelf,
    feed: &mut MemShelf,
    out: &mut MemSink,
) -> Result<Code, Fail> {
    let given = words(alloc, given)?;
    let mut desk = MemShelf::new(Vec::new(alloc), 1);
    let mut replies = sink(alloc, &[], 1)?;
    let status = tool(
        rt,
        alloc,
        &given,
        tables,
        feed,
        &mut desk,
        out,
        &mut replies,
        &NoGate,
    );
    Ok(status.code)
}

const DECODE: &[&str] = &["decode", "mib", "feed"];

// Tables with one row each, printed for the two packets into a sink with these faults.
fn two_packets<X: Threads + Wait + Sync>(
    rt: &X,
    alloc: Global,
    feed_fails: &[u64],
    out: &mut MemSink,
) -> Result<Code, Fail> {
    call(
        rt,
        alloc,
        DECODE,
        &mut tables(alloc, PCF, PID, PLF, 7)?,
        &mut feed(alloc, TWO_PACKETS, feed_fails, 5)?,
        out,
    )
}

#[test]
fn a_fault_of_the_feed_leaves_the_records_before_it(rt: HostRuntime) -> Result<(), Fail> {
    for at in 0..25 {
        let mut out = sink(rt.alloc(), &[], 9)?;
        let code = two_packets(&rt, rt.alloc(), &[at], &mut out)?;
        assert_eq!(rt; code, Code::FeedFault, "at {at}");
        let whole = match at {
            0..12 => &RECORDS[..0],
            12..24 => &RECORDS[..RECORD_SIZE],
            _ => RECORDS,
        };
        assert_eq!(rt; out.bytes(), whole, "at {at}");
    }
    Ok(())
}

#[test]
fn behind_a_fault_of_the_feed_nothing_is_read(rt: HostRuntime) -> Result<(), Fail> {
    let alloc = rt.alloc();
    for at in 0..24 {
        let mut shelf = feed(alloc, TWO_PACKETS, &[at], 24)?;
        let mut out = sink(alloc, &[], 9)?;
        let code = call(
            &rt,
            alloc,
            DECODE,
            &mut tables(alloc, PCF, PID, PLF, 7)?,
            &mut shelf,
            &mut out,
        )?;
        assert_eq!(rt; code, Code::FeedFault, "at {at}");
        let read = shelf.read(&mut [0u8; 24]);
        assert_eq!(rt; read.ok(), Some(24 - at as usize), "at {at}");
    }
    Ok(())
}

#[test]
fn a_fault_of_the_output_leaves_what_was_written_before(rt: HostRuntime) -> Result<(), Fail> {
    for at in [0_usize, 1, 20, 42, 43, 52, 53, 54, 95, 105] {
        let mut out = sink(rt.alloc(), &[at as u64], 9)?;
        let code = two_packets(&rt, rt.alloc(), &[], &mut out)?;
        assert_eq!(rt; code, Code::OutFault, "at {at}");
        assert_eq!(rt; out.bytes(), &RECORDS[..at], "at {at}");
    }
    Ok(())
}

#[test]
fn a_failed_flush_is_a_fault_of_the_output(rt: HostRuntime) -> Result<(), Fail> {
    for fails in [&[][..], &[12][..]] {
        let mut out = sink(rt.alloc(), &[], 9)?;
        out.fail_flush();
        let code = two_packets(&rt, rt.alloc(), fails, &mut out)?;
        assert_eq!(rt; code, Code::OutFault);
        assert!(rt; !out.bytes().is_empty());
    }
    Ok(())
}

#[test]
fn a_failing_turn_or_read_of_a_table_is_a_fault_of_the_tables(rt: HostRuntime) -> Result<(), Fail> {
    let alloc = rt.alloc();
    for skip in 0..15 {
        let mut shelf = tables(alloc, PCF, PID, PLF, 7)?;
        shelf.fail_aim(skip);
        let mut out = sink(alloc, &[], 9)?;
        let code = call(
            &rt,
            alloc,
            DECODE,
            &mut shelf,
            &mut feed(alloc, PACKET, &[], 5)?,
            &mut out,
        )?;
        assert_eq!(rt; code, Code::TablesFault, "turn {skip}");
        assert!(rt; out.bytes().is_empty());
    }
    for failing in ["mib/pcf.dat", "mib/pid.dat", "mib/plf.dat"] {
        let mut files = Vec::new(alloc);
        for (name, octets) in [
            ("mib/pcf.dat", PCF),
            ("mib/pid.dat", PID),
            ("mib/plf.dat", PLF),
        ] {
            let fails: &[u64] = if name == failing { &[0] } else { &[] };
            files.push(file(alloc, name, octets, fails)?)?;
        }
        let code = call(
            &rt,
            alloc,
            DECODE,
            &mut MemShelf::new(files, 7),
            &mut feed(alloc, PACKET, &[], 5)?,
            &mut sink(alloc, &[], 9)?,
        )?;
        assert_eq!(rt; code, Code::TablesFault, "{failing}");
    }
    Ok(())
}

#[test]
fn a_failing_turn_to_the_feed_is_a_fault_and_a_missing_feed_is_none(
    rt: HostRuntime,
) -> Result<(), Fail> {
    let alloc = rt.alloc();
    let mut failing = feed(alloc, PACKET, &[], 5)?;
    failing.fail_aim(0);
    let missing = MemShelf::new(Vec::new(alloc), 5);
    for (mut shelf, expected) in [
        (failing, Code::FeedFault),
        (missing, Code::NoFile(Input::Feed)),
    ] {
        let mut out = sink(alloc, &[], 9)?;
        let code = call(
            &rt,
            alloc,
            DECODE,
            &mut tables(alloc, PCF, PID, PLF, 7)?,
            &mut shelf,
            &mut out,
        )?;
        assert_eq!(rt; code, expected);
        assert!(rt; out.bytes().is_empty());
    }
    Ok(())
}
