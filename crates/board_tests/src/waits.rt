// A page that comes while the feed waits.
use crate::objects::{TABLES, folder, packets, shelf, sink, words};
use live_board_tool::board_tool;
use page_texts::BoardCode;
use std::sync::atomic::{AtomicU64, Ordering};
use std::test::Fail;
use std::thread;
use tm_io::{Failed, MemSink, NoGate, Shelf, Sink, Source};

const MOST_TURNS: u32 = 1_000_000;

// Waits until a page was handed on, and tells whether one was within a million turns.
fn has_come(shown: &AtomicU64) -> bool {
    for _ in 0..MOST_TURNS {
        if shown.load(Ordering::SeqCst) > 0 {
            return true;
        }
        thread::yield_now();
    }
    false
}

// Octets that come in two parts, the second only once a page was shown.
#[derive(Drop)]
struct Waiting<'a> {
    first: &'a [u8],
    second: &'a [u8],
    shown: &'a AtomicU64,
    has_waited: bool,
    is_late: bool,
}

impl Waiting<'_> {
    // What is left of the first part, and behind that the second, for which it waits.
    fn next_part(&mut self) {
        if self.first.is_empty() && !self.has_waited {
            self.is_late = !has_come(self.shown);
            self.has_waited = true;
            self.first = self.second;
        }
    }
}

impl Source for Waiting<'_> {
    ghost use Rattle.std.specs.Prelude.{None};

    ghost left = { λ _. None };

    ghost faults = { λ _. 0 };

    fn read(&mut self, buf: &mut [u8]) -> Result<usize, Failed> {
        self.next_part();
        let count = self.first.len().min(buf.len());
        let (given, rest) = self.first.split_at(count);
        buf[..count].copy_from_slice(given);
        self.first = rest;
        Ok(count)
    }

    fn at_hand(&self) -> &[u8] {
        &[]
    }
}

impl Shelf for Waiting<'_> {
    fn aim(&mut self, _name: &str) -> Result<bool, Failed> {
        Ok(true)
    }
}

// A screen that counts the pages that were handed on.
#[derive(Drop)]
struct FlushCounter<'a> {
    sink: MemSink,
    shown: &'a AtomicU64,
}

impl Sink for FlushCounter<'_> {
    ghost written = { λ s. ⟦<MemSink as Sink>⟧.written s.sink };

    ghost handed = { λ s. ⟦<MemSink as Sink>⟧.handed s.sink };

    ghost faults = { λ s. ⟦<MemSink as Sink>⟧.faults s.sink };

    ghost borrow = { λ s. ⟦<MemSink as Sink>⟧.borrow s.sink };

    fn write(&mut self, piece: &[u8]) -> Result<usize, Failed> {
        self.sink.write(piece)
    }

    fn flush(&mut self) -> Result<(), Failed> {
        self.sink.flush()?;
        self.shown.fetch_add(1, Ordering::SeqCst);
        Ok(())
    }
}

// A feed of two parts of which nothing was read.
fn unread<'a>(first: &'a [u8], second: &'a [u8], shown: &'a AtomicU64) -> Waiting<'a> {
    Waiting {
        first,
        second,
        shown,
        has_waited: false,
        is_late: false,
    }
}

// The last of 65 packets comes once a page was shown. A run reads no 65th packet before it has printed one.
#[test]
fn a_page_comes_while_the_feed_waits(rt: HostRuntime) -> Result<(), Fail> {
    let alloc = rt.alloc();
    let first = packets(alloc, &[2000; 64])?;
    let last = packets(alloc, &[2000])?;
    for workers in ["1", "4"] {
        let shown = AtomicU64::new(0);
        let mut feed = unread(&first, &last, &shown);
        let mut screen = FlushCounter {
            sink: sink(alloc, &[])?,
            shown: &shown,
        };
        let given = words(
            alloc,
            &["board", "mib", "feed", "desk", "page", "--workers", workers],
        )?;
        let status = board_tool(
            &rt,
            alloc,
            &given,
            &mut folder(alloc, &TABLES[..3])?,
            &mut feed,
            &mut shelf(alloc, "desk", b"", &[])?,
            &mut shelf(alloc, "page", b"T1", &[])?,
            &mut sink(alloc, &[])?,
            &mut sink(alloc, &[])?,
            &mut screen,
            &NoGate,
        );
        assert_eq!(rt; status.code, BoardCode::Ok, "by {workers}");
        assert!(rt; !feed.is_late, "by {workers}");
        assert!(rt;
            screen
                .sink
                .handed()
                .ends_with(b"PAGE 65 EDITION 1\n  T1 2000 -\n")
        );
    }
    Ok(())
}
