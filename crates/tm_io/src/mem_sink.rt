// A sink in memory, with faults where a test wants them.
ghost use Rattle.std.specs.Prelude.{◌≡◌, ◌≤◌, ◌==◌, ◌&&◌, ◌||◌, not, is_err, length, take, vec_len, vec_capacity, Some, [], IfOk, OnOk, false};
ghost use Rattle.std.specs.Io.{WritesAtMost};
ghost use Rattle.std.specs.Io.KnownBytes.{WriteAppends};
ghost use Rattle.tm_io.specs.Causes.{HasCause};
ghost use Rattle.tm_io.specs.Octets.{TakesSome};
ghost use Rattle.tm_io.specs.Stops.{is_stop};
ghost use Rattle.tm_io.specs.declared.mem_sink.TheConstants.{MEM_SINK_ROOM};

use crate::stops::{count_to_stop, is_stop_at, spend_stop};
use crate::{Failed, Sink};
use std::alloc::{AllocError, Global};

/// How many octets a sink in memory holds at most.
pub const MEM_SINK_ROOM: usize = 67_108_864;

/// A sink in memory. A write takes at most so many octets, passes none of the positions at which the sink fails, and
/// fails once at each of them.
#[derive(Drop)]
pub struct MemSink {
    bytes: Vec<u8>,
    // How many of them were handed on.
    handed: usize,
    most: usize,
    fails: Vec<u64>,
    fails_flush: bool,
    faults: u64,
    ghost handed_on: { handed ≤ vec_len bytes },
    ghost takes_some: { 1 ≤ most },
    ghost within: { vec_len bytes ≤ MEM_SINK_ROOM },
    ghost reserved: { MEM_SINK_ROOM ≤ vec_capacity bytes },
}

impl MemSink {
    ghost use Rattle.tm_io.specs.MemSink.{stops, most_of, fails_flush, failing_flush};

    /// An empty sink whose room is reserved. Positions in `fails` count the octets that it holds.
    pub fn new(alloc: Global, most: usize, fails: Vec<u64>) -> Result<MemSink, AllocError>
        requires { 1 ≤ most }
        ensures written { IfOk result (λ sink. ⟦<MemSink as Sink>⟧.written sink ≡ Some []) }
        ensures handed { IfOk result (λ sink. ⟦<MemSink as Sink>⟧.handed sink ≡ Some []) }
        ensures faults { IfOk result (λ sink. ⟦<MemSink as Sink>⟧.faults sink ≡ 0) }
        ensures most { IfOk result (λ sink. most_of sink ≡ most) }
        ensures stops { IfOk result (λ sink. stops sink ≡ fails.items) }
        ensures flush { IfOk result (λ sink. fails_flush sink ≡ false) }
    {
        Ok(MemSink {
            bytes: Vec::with_capacity(alloc, MEM_SINK_ROOM)?,
            handed: 0,
            most,
            fails,
            fails_flush: false,
            faults: 0,
        })
    }

    /// What was written.
    pub fn bytes(&self) -> &[u8]
        ensures { ⟦<MemSink as Sink>⟧.written self.now ≡ Some result.now }
    {
        &self.bytes
    }

    /// What was handed on.
    pub fn handed(&self) -> &[u8]
        ensures { ⟦<MemSink as Sink>⟧.handed self.now ≡ Some result.now }
    {
        &self.bytes[..self.handed]
    }

    /// Makes the next flush fail.
    pub fn fail_flush(&mut self)
        ensures { self.new ≡ failing_flush self.old }
    {
        self.fails_flush = true;
    }
}

impl Sink for MemSink {
    ghost use Rattle.tm_io.specs.MemSink.{position, stops, most_of, fails_flush, Writes};

    ghost written = { λ s. Some s.bytes.items };

    ghost handed = { λ s. Some (take s.handed s.bytes.items) };

    ghost faults = { λ s. s.faults };

    #[tactic(auto, using(crate::proofs::StopFacts::without_none))]
    fn write(&mut self, piece: &[u8]) -> Result<usize, Failed>
        ensures bound { WritesAtMost result piece.now }
        ensures some { TakesSome result piece.now }
        ensures bytes { WriteAppends (⟦<MemSink as Sink>⟧.written self.old) (⟦<MemSink as Sink>⟧.written self.new) result piece.now }
        ensures handed { ⟦<MemSink as Sink>⟧.handed self.new ≡ ⟦<MemSink as Sink>⟧.handed self.old }
        ensures cause { HasCause (⟦<MemSink as Sink>⟧.faults self.old) (⟦<MemSink as Sink>⟧.faults self.new) result }

        // It fails at a stop, and where a piece comes when the room is used up.
        ensures fails { is_err result ≡ (is_stop (stops self.old) (position self.old) || not (length piece.now == 0) && (position self.old == MEM_SINK_ROOM)) }
        ensures writes { Writes self.old self.new result }
    {
        let at = self.bytes.len();
        if is_stop_at(&self.fails, at as u64) {
            spend_stop(&mut self.fails, at as u64);
            self.faults = self.faults.saturating_add(1);
            return Err(Failed);
        }
        let room = MEM_SINK_ROOM - at;
        let most = piece.len().min(self.most).min(room);
        let count = count_to_stop(&self.fails, at as u64, most);
        if count == 0 && !piece.is_empty() {
            self.faults = self.faults.saturating_add(1);
            return Err(Failed);
        }
        // The room is reserved.
        self.bytes.extend_from_slice(&piece[..count]).unwrap();
        Ok(count)
    }

    fn flush(&mut self) -> Result<(), Failed>
        ensures bytes { ⟦<MemSink as Sink>⟧.written self.new ≡ ⟦<MemSink as Sink>⟧.written self.old }
        ensures handed { OnOk result (⟦<MemSink as Sink>⟧.handed self.new ≡ ⟦<MemSink as Sink>⟧.written self.new) }
        ensures cause { HasCause (⟦<MemSink as Sink>⟧.faults self.old) (⟦<MemSink as Sink>⟧.faults self.new) result }
        ensures borrow { ⟦<MemSink as Sink>⟧.borrow self.new ≡ ⟦<MemSink as Sink>⟧.borrow self.old }

        // It fails once where it was asked to.
        ensures fails { is_err result ≡ fails_flush self.old }
        ensures once { fails_flush self.new ≡ false }
        ensures kept { (stops self.new ≡ stops self.old) × (most_of self.new ≡ most_of self.old) }
    {
        if self.fails_flush {
            self.fails_flush = false;
            self.faults = self.faults.saturating_add(1);
            return Err(Failed);
        }
        self.handed = self.bytes.len();
        Ok(())
    }
}
