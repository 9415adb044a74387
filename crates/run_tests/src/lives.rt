// Live runs over objects in memory, by one worker, by two and by four.
use crate::checks::{Change, folder, text};
use crate::folders::{PACKET, feed, file, sink, words};
use mibtm_tool::tool;
use run_model::Code;
use std::alloc::Global;
use std::sync::Wait;
use std::test::Fail;
use std::thread::Threads;
use tm_io::{MemShelf, MemSink, NoGate};

// A line through two points calibrates the parameter.
pub(crate) const CURVE: &[Change<'_>] = &[
    ("mib/pcf.dat", b"T1||||3|12||||N|R|C1\n"),
    ("mib/caf.dat", b"C1||R|U|D|||F\n"),
    ("mib/cap.dat", b"C1|0|-50\nC1|4000|150\n"),
];

// What a live run is handed.
#[derive(Drop)]
pub(crate) struct LiveObjects {
    pub tables: MemShelf,
    pub feed: MemShelf,
    pub desk: MemShelf,
    pub out: MemSink,
    pub replies: MemSink,
}

impl LiveObjects {
    // A folder with these changes, these packets, and a script with `|` for each tab.
    pub fn new(
        alloc: Global,
        changes: &[Change<'_>],
        packets: &[u8],
        script: &[u8],
    ) -> Result<LiveObjects, Fail> {
        let script = text(alloc, script)?;
        let desk = file(alloc, "desk", &script, &[])?;
        Ok(LiveObjects {
            tables: folder(alloc, changes)?,
            feed: feed(alloc, packets, &[], 25)?,
            desk: MemShelf::new(vec![in alloc; desk]?, 5),
            out: sink(alloc, &[], 50)?,
            replies: sink(alloc, &[], 7)?,
        })
    }
}

// How a live run by so many workers ends: its code, and the next number and the editions of its register where it opened.
pub(crate) fn live<X: Threads + Wait + Sync>(
    rt: &X,
    alloc: Global,
    objects: &mut LiveObjects,
    workers: &str,
) -> Result<(Code, Option<(u64, u32)>), Fail> {
    let given = words(
        alloc,
        &["live", "mib", "feed", "desk", "--workers", workers],
    )?;
    let status = tool(
        rt,
        alloc,
        &given,
        &mut objects.tables,
        &mut objects.feed,
        &mut objects.desk,
        &mut objects.out,
        &mut objects.replies,
        &NoGate,
    );
    let closed = status.closed.map(|closed| (closed.next, closed.editions));
    Ok((status.code, closed))
}
