// A standard stream as a sink. It tells no content.
ghost use Rattle.std.specs.Prelude.{◌≡◌, ◌≤◌, ◌<◌, None, length, IfSome, IfOk};
ghost use Rattle.std.specs.Io.{WritesAtMost};
ghost use Rattle.tm_io.specs.Causes.{HasCause, HasRisen};
ghost use Rattle.tm_io.specs.Octets.{TakesSome};

use crate::{Failed, Sink};
use std::alloc::{AllocError, Global};
use std::io::{BufWriter, ErrorKind, Write};

// How many octets are given to the system at once.
const WRITE_BEHIND: usize = 65_536;

/// Standard output or standard error, as `StdSink::new(rt.stdout(), rt.alloc())`. Behind its first fault nothing more is asked of
/// the stream: what was kept back is let go, and each call fails.
#[derive(Drop)]
pub struct StdSink<W: Write + Drop> {
    // None once it failed.
    stream: Option<BufWriter<W>>,
    faults: u64,
}

impl<W: Write + Drop> StdSink<W> {
    // A sink over a stream that keeps so many octets back.
    fn with_room(stream: W, alloc: Global, room: usize) -> Result<StdSink<W>, AllocError>
        ensures { IfOk result (λ sink. ⟦<StdSink<W> as Sink>⟧.faults sink ≡ 0) }
    {
        match BufWriter::with_capacity(alloc, room, stream) {
            Ok(stream) => Ok(StdSink {
                stream: Some(stream),
                faults: 0,
            }),
            Err(_) => Err(AllocError),
        }
    }

    /// A sink over a stream. Octets go to the system by 64 KiB and more, and by `flush`.
    pub fn new(stream: W, alloc: Global) -> Result<StdSink<W>, AllocError>
        ensures { IfOk result (λ sink. ⟦<StdSink<W> as Sink>⟧.faults sink ≡ 0) }
    {
        StdSink::with_room(stream, alloc, WRITE_BEHIND)
    }

    // Whether so many octets are kept back, with none of those that were before them given to the system.
    #[inline(always)]
    fn keeps_back(&self, octets: usize) -> bool {
        let Some(stream) = &self.stream else {
            return false;
        };
        let kept = stream.buffer().len();
        let most = stream.capacity();
        kept <= most && octets < most - kept
    }

    // Counts a fault, and lets the stream go without writing what it keeps back, as a `BufWriter` that is dropped would.
    fn fail(&mut self) -> Failed
        ensures rises { HasRisen self.old.faults self.new.faults }
    {
        if let Some(stream) = self.stream.take() {
            let (_stream, _kept_back) = stream.into_parts();
        }
        self.faults = self.faults.saturating_add(1);
        Failed
    }

    // Takes some first octets of a piece, where the system may be given some.
    #[inline(never)]
    fn write_through(&mut self, piece: &[u8]) -> Result<usize, Failed>
        ensures bound { WritesAtMost result piece.now }
        ensures some { TakesSome result piece.now }
        ensures cause { HasCause self.old.faults self.new.faults result }
    {
        let written = match &mut self.stream {
            Some(stream) => write_some(stream, piece),
            None => None,
        };
        match written {
            Some(count) => Ok(count),
            None => Err(self.fail()),
        }
    }
}

// Writes some first octets of a piece, again where a signal came in between. None says that none were taken.
fn write_some<W: Write>(stream: &mut W, piece: &[u8]) -> Option<usize>
    ensures bound { IfSome result (λ count. count ≤ length piece.now) }
    ensures some { IfSome result (λ count. 0 < length piece.now → 0 < count) }
{
    for _ in 0..u64::MAX {
        match stream.write(piece) {
            Ok(0) if !piece.is_empty() => return None,
            Ok(count) => return Some(count),
            Err(e) if e.kind() == ErrorKind::Interrupted => {}
            Err(_) => return None,
        }
    }
    None
}

// Hands on what was taken, again where a signal came in between. False says that it failed.
fn flush_all<W: Write>(stream: &mut W) -> bool {
    for _ in 0..u64::MAX {
        match stream.flush() {
            Ok(()) => return true,
            Err(e) if e.kind() == ErrorKind::Interrupted => {}
            Err(_) => return false,
        }
    }
    false
}

impl<W: Write + Drop> Sink for StdSink<W> {
    ghost written = { λ _. None };

    ghost handed = { λ _. None };

    ghost faults = { λ s. s.faults };

    #[inline(always)]
    fn write(&mut self, piece: &[u8]) -> Result<usize, Failed> {
        if self.keeps_back(piece.len()) {
            if let Some(stream) = &mut self.stream {
                match stream.write(piece) {
                    Ok(count) if count > 0 || piece.is_empty() => return Ok(count),
                    _ => {}
                }
            }
        }
        self.write_through(piece)
    }

    fn flush(&mut self) -> Result<(), Failed> {
        let is_done = match &mut self.stream {
            Some(stream) => flush_all(stream),
            None => false,
        };
        if is_done { Ok(()) } else { Err(self.fail()) }
    }
}
