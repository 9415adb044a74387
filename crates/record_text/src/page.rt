// Where the octets of lines are written.
ghost use Rattle.std.specs.Prelude.{◌≡◌, ◌≤◌, ◌<◌, ◌+◌, [], length, take, IfOk, IsFalse, IsTrue};
ghost use Rattle.record_text.specs.declared.lines.TheConstants.{LINES_ROOM, LINE_MOST};

use crate::lines::{LINE_MOST, LINES_ROOM};
use std::alloc::{AllocError, Global};
use std::marker::Model;

/// The octets that are made ready at once, more than any line has.
const READY: usize = 16_384;

/// The octets so far of lines that are being written. Others stand ready behind them, so that an octet is appended by
/// storing it. Contracts see the octets, and how many there may be before more are made ready.
pub(crate) struct LinePage {
    pub octets: Vec<u8>,
    pub used: usize,
}

/// By hand, so that whoever lets one go proves one call.
impl Drop for LinePage {
    fn drop(self) {
        let LinePage {
            octets: _octets,
            used: _,
        } = self;
    }
}

impl Model for LinePage {
    ghost use Rattle.std.specs.Prelude.{◌≤◌, length, take, vec_capacity};
    ghost use Rattle.record_text.specs.Pages.{Written};
    ghost use Rattle.record_text.specs.declared.lines.TheConstants.{LINES_ROOM};

    ghost Value = { Written };

    ghost view = { λ page. record { octets = take page.used page.octets.items; limit = length page.octets.items } };

    ghost invariant = { λ page. (page.used ≤ length page.octets.items) × (LINES_ROOM ≤ vec_capacity page.octets) };
}

impl LinePage {
    /// An empty page. An error is want of memory.
    pub(crate) fn new(alloc: Global) -> Result<LinePage, AllocError>
        ensures { IfOk result (λ page. page.octets ≡ []) }
    {
        Ok(LinePage {
            octets: Vec::with_capacity(alloc, LINES_ROOM)?,
            used: 0,
        })
    }

    /// The octets so far.
    pub(crate) fn bytes(&self) -> &[u8]
        ensures { result.now ≡ self.now.octets }
    {
        &self.octets[..self.used]
    }

    /// Makes it empty again.
    pub(crate) fn clear(&mut self)
        ensures { self.new.octets ≡ [] }
    {
        self.used = 0;
    }

    /// Whether so many octets are ready that a line can be appended.
    #[inline(always)]
    pub(crate) fn is_ready(&self) -> bool
        ensures ready { IsTrue result → length self.now.octets + LINE_MOST ≤ self.now.limit }
        ensures short { IsFalse result → self.now.limit < length self.now.octets + LINE_MOST }
    {
        self.used + LINE_MOST <= self.octets.len()
    }

    /// Makes so many octets ready that a line can be appended.
    #[inline(always)]
    pub(crate) fn make_ready(&mut self)
        requires { length self.old.octets + LINE_MOST ≤ LINES_ROOM }
        ensures octets { self.new.octets ≡ self.old.octets }
        ensures limit { length self.new.octets + LINE_MOST ≤ self.new.limit }
    {
        if !self.is_ready() {
            self.widen();
        }
    }

    #[cold]
    #[inline(never)]
    fn widen(&mut self)
        requires room { length self.old.octets + LINE_MOST ≤ LINES_ROOM }
        requires short { self.old.limit < length self.old.octets + LINE_MOST }
        ensures octets { self.new.octets ≡ self.old.octets }
        ensures limit { length self.new.octets + LINE_MOST ≤ self.new.limit }
    {
        let ready = (self.used + READY).min(LINES_ROOM);
        let _widened = self.octets.resize(ready, 0);
    }
}
