// A live run whose objects fail: each at the borders of what it gives or takes, and at every tenth place between.
use crate::folders::{PACKET, feed, file, sink};
use crate::lives::{CURVE, LiveObjects, live};
use run_model::Code;
use std::alloc::Global;
use std::process::Abort;
use std::sync::Wait;
use std::test::Fail;
use std::thread::Threads;
use tm_io::MemShelf;

const SCRIPT: &[u8] = b"put cap|C1|2000|100\nsave\nuse 2 from 2\ngo\n";

const REPLIES: &[u8] = b"ADDED\nSAVED 2 PLANS 1\nUSED 2 FROM 2\nGO\n";

const RECORDS: &[u8] =
    b"PKT 1 APID 100 COUNT 0 TYPE 3/25 SPID 4001\n  T1 2000 = 50\nEDITION 2\nPKT 2 APID 100 COUNT 0 TYPE 3/25 SPID 4001\n  T1 2000 = 100\nPKT 3 APID 100 COUNT 0 TYPE 3/25 SPID 4001\n  T1 2000 = 100\n";

// How long the text of so many packets is, from none to three.
const TEXT_OF: [usize; 4] = [0, 58, 127, 186];

const OLD_RECORDS: &[u8] =
    b"PKT 1 APID 100 COUNT 0 TYPE 3/25 SPID 4001\n  T1 2000 = 50\nPKT 2 APID 100 COUNT 0 TYPE 3/25 SPID 4001\n  T1 2000 = 50\nPKT 3 APID 100 COUNT 0 TYPE 3/25 SPID 4001\n  T1 2000 = 50\n";

// The replies to the lines whose LF stands among so many octets of the script.
fn replied_before(place: usize) -> &'static [u8] {
    match place {
        0..20 => &REPLIES[..0],
        20..25 => &REPLIES[..6],
        25..38 => &REPLIES[..22],
        38..41 => &REPLIES[..36],
        _ => REPLIES,
    }
}

// Whether a run is tried whose object fails at this place.
fn is_tried(place: usize, borders: &[usize]) -> bool {
    place % 10 == 5 || borders.contains(&place)
}

// Three packets, behind whose first a better curve is used.
fn objects(alloc: Global) -> Result<LiveObjects, Fail> {
    let mut packets = Vec::new(alloc);
    for _ in 0..3 {
        packets.extend_from_slice(PACKET)?;
    }
    LiveObjects::new(alloc, CURVE, &packets, SCRIPT)
}

// A run over these objects ends with this code, and leaves these octets.
fn leaves<X: Abort + Threads + Wait + Sync>(
    rt: &X,
    alloc: Global,
    mut objects: LiveObjects,
    workers: &str,
    code: Code,
    printed: &[u8],
    replies: &[u8],
) -> Result<(), Fail> {
    let (ended, _) = live(rt, alloc, &mut objects, workers)?;
    assert_eq!(rt; ended, code);
    assert_eq!(rt; objects.out.bytes(), printed);
    assert_eq!(rt; objects.replies.bytes(), replies);
    Ok(())
}

#[test]
fn a_feed_that_fails_leaves_the_records_before(rt: HostRuntime) -> Result<(), Fail> {
    let alloc = rt.alloc();
    let mut packets = Vec::new(alloc);
    for _ in 0..3 {
        packets.extend_from_slice(PACKET)?;
    }
    for place in 0..37_usize {
        if !is_tried(place, &[0, 11, 12, 23, 24, 35, 36]) {
            continue;
        }
        for workers in ["1", "2", "4"] {
            let mut run = objects(alloc)?;
            run.feed = feed(alloc, &packets, &[place as u64], 25)?;
            let printed = &RECORDS[..TEXT_OF[place / 12]];
            leaves(&rt, alloc, run, workers, Code::FeedFault, printed, REPLIES)?;
        }
    }
    Ok(())
}

#[test]
fn an_output_that_fails_holds_what_was_written(rt: HostRuntime) -> Result<(), Fail> {
    let alloc = rt.alloc();
    for place in 0..186_usize {
        if !is_tried(place, &[0, 57, 58, 67, 68, 126, 127, 184]) {
            continue;
        }
        for workers in ["1", "2", "4"] {
            let mut run = objects(alloc)?;
            run.out = sink(alloc, &[place as u64], 50)?;
            let printed = &RECORDS[..place];
            leaves(&rt, alloc, run, workers, Code::OutFault, printed, REPLIES)?;
        }
    }
    for workers in ["1", "2", "4"] {
        let mut run = objects(alloc)?;
        run.out.fail_flush();
        leaves(&rt, alloc, run, workers, Code::OutFault, RECORDS, REPLIES)?;
    }
    Ok(())
}

#[test]
fn replies_that_fail_end_the_desk(rt: HostRuntime) -> Result<(), Fail> {
    let alloc = rt.alloc();
    for place in 0..39_usize {
        if !is_tried(place, &[0, 6, 21, 22, 36, 38]) {
            continue;
        }
        for workers in ["1", "2", "4"] {
            let mut run = objects(alloc)?;
            run.replies = sink(alloc, &[place as u64], 7)?;
            let printed = if place < 22 { OLD_RECORDS } else { RECORDS };
            let replies = &REPLIES[..place];
            leaves(&rt, alloc, run, workers, Code::ReplyFault, printed, replies)?;
        }
    }
    Ok(())
}

#[test]
fn a_desk_that_fails_has_handled_the_lines_before(rt: HostRuntime) -> Result<(), Fail> {
    let alloc = rt.alloc();
    let script = b"put cap\tC1\t2000\t100\nsave\nuse 2 from 2\ngo\n";
    for place in 0..42_usize {
        if !is_tried(place, &[0, 19, 20, 24, 37, 38, 40, 41]) {
            continue;
        }
        for workers in ["1", "2", "4"] {
            let mut run = objects(alloc)?;
            let desk = file(alloc, "desk", script, &[place as u64])?;
            run.desk = MemShelf::new(vec![in alloc; desk]?, 5);
            let printed = if place < 38 { OLD_RECORDS } else { RECORDS };
            let replies = replied_before(place);
            leaves(&rt, alloc, run, workers, Code::DeskFault, printed, replies)?;
        }
    }
    Ok(())
}

#[test]
fn tables_that_fail_open_no_run(rt: HostRuntime) -> Result<(), Fail> {
    let alloc = rt.alloc();
    for skip in [0, 1, 7, 14] {
        let mut run = objects(alloc)?;
        run.tables.fail_aim(skip);
        leaves(&rt, alloc, run, "1", Code::TablesFault, b"", b"")?;
    }
    Ok(())
}
