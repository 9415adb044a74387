use crate::folders::{PACKET, PCF, PID, PLF, call, feed, file, sink};
use mib_model::Line;
use reply_text::code_line;
use run_model::Code;
use std::alloc::Global;
use std::process::Abort;
use std::sync::Wait;
use std::test::Fail;
use std::thread::Threads;
use tm_io::{MemFile, MemShelf};

// A table that a case changes: its file, and its text with `|` for each tab.
pub(crate) type Change<'a> = (&'a str, &'a [u8]);

// The text of a table.
pub(crate) fn text(alloc: Global, short: &[u8]) -> Result<Vec<u8>, Fail> {
    let mut text = Vec::new(alloc);
    for octet in short {
        text.push(if *octet == b'|' { b'\t' } else { *octet })?;
    }
    Ok(text)
}

// A folder of one parameter at one place of one packet, with these changes.
pub(crate) fn folder(alloc: Global, changes: &[Change<'_>]) -> Result<MemShelf, Fail> {
    let mut files = Vec::new(alloc);
    for change in changes {
        files.push(MemFile {
            name: String::from_str(alloc, change.0)?,
            bytes: text(alloc, change.1)?,
            fails: Vec::new(alloc),
        })?;
    }
    files.push(file(alloc, "mib/pcf.dat", PCF, &[])?)?;
    files.push(file(alloc, "mib/pid.dat", PID, &[])?)?;
    files.push(file(alloc, "mib/plf.dat", PLF, &[])?)?;
    Ok(MemShelf::new(files, 4096))
}

// The tables in the order in which they are read.
const TABLES: [&str; 15] = [
    "pcf", "pid", "pic", "tpcf", "plf", "vpd", "cur", "caf", "cap", "txf", "txp", "mcf", "lgf",
    "ocf", "ocp",
];

// A check over two tables alone has this line on its end: a table that is marked, and one that can't be read.
fn told_of_two<X: Abort + Threads + Wait + Sync>(
    rt: &X,
    alloc: Global,
    marked: &str,
    unread: &str,
    line: &str,
) -> Result<(), Fail> {
    let marked = format!(in alloc; "mib/{marked}.dat")?;
    let unread = format!(in alloc; "mib/{unread}.dat")?;
    let files = vec![in alloc;
        file(alloc, &marked, b"\xEF\xBB\xBF", &[])?,
        file(alloc, &unread, b"", &[0])?,
    ]?;
    let mut out = sink(alloc, &[], 4096)?;
    let code = call(
        rt,
        alloc,
        &["check", "mib"],
        &mut MemShelf::new(files, 4096),
        &mut feed(alloc, PACKET, &[], 4096)?,
        &mut out,
    )?;
    let mut told = Line::new();
    code_line(&code, &mut told);
    assert_eq!(rt; told.bytes(), line.as_bytes());
    assert!(rt; out.bytes().is_empty());
    Ok(())
}

#[test]
fn a_table_is_refused_or_fails_before_the_next_is_read(rt: HostRuntime) -> Result<(), Fail> {
    let alloc = rt.alloc();
    for at in 0..14 {
        let first = TABLES[at];
        let next = TABLES[at + 1];
        let refused = format!(in alloc; "BADMIB {first} 0 MARK")?;
        told_of_two(&rt, alloc, first, next, &refused)?;
        told_of_two(&rt, alloc, next, first, "FAULT TABLES")?;
    }
    Ok(())
}

#[test]
fn a_fault_of_the_output_leaves_the_front_of_a_summary(rt: HostRuntime) -> Result<(), Fail> {
    let alloc = rt.alloc();
    for at in 0..10 {
        let mut out = sink(alloc, &[at], 3)?;
        let code = call(
            &rt,
            alloc,
            &["check", "mib"],
            &mut folder(alloc, &[])?,
            &mut MemShelf::new(Vec::new(alloc), 1),
            &mut out,
        )?;
        assert_eq!(rt; code, Code::OutFault, "at {at}");
        assert_eq!(rt; out.bytes(), &b"pcf 1\npid 1\n"[..at as usize], "at {at}");
    }
    Ok(())
}
