// A desk that is answered while the feed waits.
use crate::checks::folder;
use crate::folders::{PACKET, sink, words};
use mibtm_tool::tool;
use run_model::Code;
use std::alloc::Global;
use std::sync::Wait;
use std::sync::atomic::{AtomicU64, Ordering};
use std::test::Fail;
use std::thread;
use std::thread::Threads;
use tm_io::{Failed, MemSink, NoGate, Shelf, Sink, Source};

const MOST_TURNS: u32 = 1_000_000;

const REPLIES: &[u8] = b"GO\nUSED 1 FROM 2\n";

const RECORDS: &[u8] =
    b"PKT 1 APID 100 COUNT 0 TYPE 3/25 SPID 4001\n  T1 2000\nPKT 2 APID 100 COUNT 0 TYPE 3/25 SPID 4001\n  T1 2000\n";

// Waits until a count has come so far, and tells whether it has within a million turns.
fn has_come(count: &AtomicU64, wanted: u64) -> bool {
    for _ in 0..MOST_TURNS {
        if count.load(Ordering::SeqCst) >= wanted {
            return true;
        }
        thread::yield_now();
    }
    false
}

// Octets that come in two parts: the second only once a count has come so far. It tells the other side as it waits.
#[derive(Drop)]
struct Parts<'a> {
    first: &'a [u8],
    second: &'a [u8],
    asked: &'a AtomicU64,
    awaited: &'a AtomicU64,
    wanted: u64,
    has_waited: bool,
    is_late: bool,
}

impl<'a> Parts<'a> {
    // Two parts, of which the second comes once so much was counted.
    fn new(
        first: &'a [u8],
        second: &'a [u8],
        asked: &'a AtomicU64,
        awaited: &'a AtomicU64,
        wanted: u64,
    ) -> Parts<'a> {
        Parts {
            first,
            second,
            asked,
            awaited,
            wanted,
            has_waited: false,
            is_late: false,
        }
    }
}

impl Parts<'_> {
    // What is left of the first part, and behind that the second, for which it waits.
    fn next_part(&mut self) {
        if self.first.is_empty() && !self.has_waited {
            self.asked.fetch_add(1, Ordering::SeqCst);
            self.is_late = !has_come(self.awaited, self.wanted);
            self.has_waited = true;
            self.first = self.second;
        }
    }
}

impl Source for Parts<'_> {
    ghost use Rattle.std.specs.Prelude.{None};

    ghost left = { λ _. None };

    ghost faults = { λ _. 0 };

    fn read(&mut self, buf: &mut [u8]) -> Result<usize, Failed> {
        self.next_part();
        let count = self.first.len().min(buf.len());
        let (given, rest) = self.first.split_at(count);
        buf[..count].copy_from_slice(given);
        self.first = rest;
        Ok(count)
    }

    fn at_hand(&self) -> &[u8] {
        &[]
    }
}

impl Shelf for Parts<'_> {
    fn aim(&mut self, _name: &str) -> Result<bool, Failed> {
        Ok(true)
    }
}

// Counts the octets that are written to a sink.
#[derive(Drop)]
struct OctetCounter<'a> {
    sink: MemSink,
    count: &'a AtomicU64,
}

impl Sink for OctetCounter<'_> {
    ghost written = { λ s. ⟦<MemSink as Sink>⟧.written s.sink };

    ghost handed = { λ s. ⟦<MemSink as Sink>⟧.handed s.sink };

    ghost faults = { λ s. ⟦<MemSink as Sink>⟧.faults s.sink };

    ghost borrow = { λ s. ⟦<MemSink as Sink>⟧.borrow s.sink };

    fn write(&mut self, piece: &[u8]) -> Result<usize, Failed> {
        let taken = self.sink.write(piece)?;
        self.count.fetch_add(taken as u64, Ordering::SeqCst);
        Ok(taken)
    }

    fn flush(&mut self) -> Result<(), Failed> {
        self.sink.flush()
    }
}

// What a run came to, whether a side waited in vain, and what was printed and replied.
#[derive(Drop)]
struct Answered {
    code: Code,
    is_late: bool,
    out: MemSink,
    replies: MemSink,
}

// A live run by so many workers, whose desk gives its second line once the feed is asked for its second packet, which comes once that line is
// replied to.
fn run_waiting<X: Threads + Wait + Sync>(
    rt: &X,
    alloc: Global,
    workers: &str,
) -> Result<Answered, Fail> {
    let (asked, told, replied) = (AtomicU64::new(0), AtomicU64::new(0), AtomicU64::new(0));
    let mut feed = Parts::new(PACKET, PACKET, &asked, &replied, REPLIES.len() as u64);
    let mut desk = Parts::new(b"go\n", b"use 1\n", &told, &asked, 1);
    let mut out = sink(alloc, &[], 50)?;
    let mut replies = OctetCounter {
        sink: sink(alloc, &[], 50)?,
        count: &replied,
    };
    let given = words(
        alloc,
        &["live", "mib", "feed", "desk", "--workers", workers],
    )?;
    let mut tables = folder(alloc, &[])?;
    let status = tool(
        rt,
        alloc,
        &given,
        &mut tables,
        &mut feed,
        &mut desk,
        &mut out,
        &mut replies,
        &NoGate,
    );
    Ok(Answered {
        code: status.code,
        is_late: feed.is_late || desk.is_late,
        out,
        replies: replies.sink,
    })
}

#[test]
fn a_desk_is_answered_while_the_feed_waits(rt: HostRuntime) -> Result<(), Fail> {
    for workers in ["1", "2", "4"] {
        let run = run_waiting(&rt, rt.alloc(), workers)?;
        assert_eq!(rt; run.code, Code::Ok, "by {workers}");
        assert!(rt; !run.is_late, "by {workers}");
        assert_eq!(rt; run.replies.handed(), REPLIES, "by {workers}");
        assert_eq!(rt; run.out.handed(), RECORDS, "by {workers}");
    }
    Ok(())
}
