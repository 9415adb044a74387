// What a board is handed.
ghost use Rattle.std.specs.Prelude.{◌≤◌};

use live_board_tool::board_tool;
use page_texts::BoardCode;
use std::alloc::Global;
use std::sync::Wait;
use std::test::Fail;
use std::thread::Threads;
use tm_io::{MemFile, MemShelf, MemSink, NoGate};

// A parameter at one place of one packet, and behind that a soft limit of it that takes three samples.
pub(crate) const TABLES: [(&str, &[u8]); 5] = [
    ("mib/pcf.dat", b"T1\t\t\t\t3\t12\t\t\t\tN\tR\n"),
    ("mib/pid.dat", b"3\t25\t100\t\t\t4001\n"),
    ("mib/plf.dat", b"T1\t4001\t10\t0\n"),
    ("mib/ocf.dat", b"T1\t3\t\tU\n"),
    ("mib/ocp.dat", b"T1\t1\tS\t0\t1000\n"),
];

pub(crate) const PAGE: &[u8] = b"T1\nNOPE\n";

#[derive(Drop)]
pub(crate) struct BoardObjects {
    pub tables: MemShelf,
    pub feed: MemShelf,
    pub desk: MemShelf,
    pub page: MemShelf,
    pub out: MemSink,
    pub replies: MemSink,
    pub screen: MemSink,
}

fn file(alloc: Global, name: &str, octets: &[u8], fails: &[u64]) -> Result<MemFile, Fail> {
    Ok(MemFile {
        name: String::from_str(alloc, name)?,
        bytes: Vec::from_slice(alloc, octets)?,
        fails: Vec::from_slice(alloc, fails)?,
    })
}

// A shelf with one file, whose reads at these places fail.
pub(crate) fn shelf(
    alloc: Global,
    name: &str,
    octets: &[u8],
    fails: &[u64],
) -> Result<MemShelf, Fail> {
    let files = vec![in alloc; file(alloc, name, octets, fails)?]?;
    Ok(MemShelf::new(files, 25))
}

pub(crate) fn folder(alloc: Global, tables: &[(&str, &[u8])]) -> Result<MemShelf, Fail> {
    let mut files = Vec::new(alloc);
    for table in tables {
        files.push(file(alloc, table.0, table.1, &[])?)?;
    }
    Ok(MemShelf::new(files, 4096))
}

pub(crate) fn sink(alloc: Global, fails: &[u64]) -> Result<MemSink, Fail> {
    Ok(MemSink::new(alloc, 9, Vec::from_slice(alloc, fails)?)?)
}

// Packets with these values.
pub(crate) fn packets(alloc: Global, values: &[u16]) -> Result<Vec<u8>, Fail> {
    let mut octets = Vec::new(alloc);
    for value in values {
        octets.extend_from_slice(&[0x08, 0x64, 0xC0, 0, 0, 5, 0x10, 3, 25, 0])?;
        octets.extend_from_slice(&value.to_be_bytes())?;
    }
    Ok(octets)
}

pub(crate) fn words(alloc: Global, words: &[&str]) -> Result<Vec<String>, Fail> {
    let mut all = Vec::new(alloc);
    for word in words {
        all.push(String::from_str(alloc, word)?)?;
    }
    Ok(all)
}

impl BoardObjects {
    // Packets with these values, an empty desk, and the page of the parameter and of a name that the tables lack.
    pub fn new(alloc: Global, values: &[u16]) -> Result<BoardObjects, Fail> {
        Ok(BoardObjects {
            tables: folder(alloc, &TABLES)?,
            feed: shelf(alloc, "feed", &packets(alloc, values)?, &[])?,
            desk: shelf(alloc, "desk", b"", &[])?,
            page: shelf(alloc, "page", PAGE, &[])?,
            out: sink(alloc, &[])?,
            replies: sink(alloc, &[])?,
            screen: sink(alloc, &[])?,
        })
    }

    // The end of the board of these words, and whether its run opened.
    pub fn board<X: Threads + Wait + Sync>(
        &mut self,
        rt: &X,
        alloc: Global,
        given: &[&str],
    ) -> Result<(BoardCode, bool), Fail> {
        let given = words(alloc, given)?;
        let status = board_tool(
            rt,
            alloc,
            &given,
            &mut self.tables,
            &mut self.feed,
            &mut self.desk,
            &mut self.page,
            &mut self.out,
            &mut self.replies,
            &mut self.screen,
            &NoGate,
        );
        Ok((status.code, status.closed.is_some()))
    }
}
