ghost use Rattle.std.specs.Prelude.{◌≡◌, ◌+◌, ◌++◌, ◌∷◌, [], length, Some, IfOk, OnOk, MatchResult};
ghost use Rattle.std.specs.List.{position};
ghost use Rattle.mib_model.specs.Lines.{is_feed};
ghost use Rattle.tm_io.specs.Causes.{HasCause};
ghost use Rattle.tm_drill.specs.Counts.{counts_of};
ghost use Rattle.tm_drill.specs.Told.{IsOneLine};

use crate::counts::Counts;
use mib_model::Line;
use std::alloc::{AllocError, Global};
use std::marker::Model;
use std::snapshot::Snapshot;
use tm_io::{Failed, Sink};

/// The most octets of a line that is counted.
pub const COUNTED_MOST: usize = 4_096;

/// A sink that counts the printed lines that it is given. It keeps the octets of the line that isn't whole yet, and of
/// the lines before it none: a longer line than `COUNTED_MOST` octets is a fault. Contracts see the text that it was given.
#[derive(Drop)]
pub struct Counter {
    counts: Counts,
    line: Line,
    // The whole lines, as contracts see them: these have no octets.
    lines: Vec<Snapshot<Line>>,
    // How many lines were handed on, and the front of the next one behind them.
    handed: usize,
    handed_front: Snapshot<Line>,
    faults: u64,
}

impl Model for Counter {
    ghost use Rattle.std.specs.Prelude.{take};
    ghost use Rattle.tm_drill.specs.Told.{Told, IsKept, text_of, shown};

    ghost Value = { Told };

    ghost view = { λ c. record {
      text = text_of (shown c.lines.items) c.line;
      handed = text_of (take c.handed (shown c.lines.items)) c.handed_front.value;
      faults = c.faults;
    } };

    ghost invariant = { λ c. IsKept c.counts (shown c.lines.items) c.line c.handed };
}

// The place of the first LF.
fn end_of_line(piece: &[u8]) -> Option<usize>
    ensures { result ≡ position is_feed piece.now }
{
    piece.iter().position(|octet| *octet == b'\n')
}

impl Counter {
    /// A counter that was given nothing.
    pub fn new(alloc: Global) -> Counter
        ensures { result ≡ record { text = []; handed = []; faults = 0 } }
    {
        let line = Line::new();
        let handed_front = Snapshot::of(&line);
        Counter {
            counts: Counts::none(),
            line,
            lines: Vec::new(alloc),
            handed: 0,
            handed_front,
            faults: 0,
        }
    }

    /// The counts of the whole lines so far.
    pub fn counts(&self) -> Counts
        ensures { result ≡ counts_of self.now.text }
    {
        self.counts
    }

    // Takes the front of a line.
    fn add_front(&mut self, part: &[u8]) -> Result<usize, Failed>
        requires { IsOneLine part.now }
        ensures text { MatchResult result (λ n. (n ≡ length part.now) × (self.new.text ≡ self.old.text ++ part.now)) (λ _. self.new.text ≡ self.old.text) }
        ensures handed { self.new.handed ≡ self.old.handed }
        ensures cause { HasCause self.old.faults self.new.faults result }
    {
        if part.len() + self.line.bytes().len() > COUNTED_MOST {
            self.faults = self.faults.saturating_add(1);
            return Err(Failed);
        }
        self.line.add(part);
        Ok(part.len())
    }

    // Takes the last part of a line, and its LF behind it.
    fn end_line(&mut self, part: &[u8]) -> Result<usize, Failed>
        requires { IsOneLine part.now }
        ensures text { MatchResult result (λ n. (n ≡ length part.now + 1) × (self.new.text ≡ self.old.text ++ (part.now ++ 10 ∷ [])))
            (λ _. self.new.text ≡ self.old.text) }
        ensures handed { self.new.handed ≡ self.old.handed }
        ensures cause { HasCause self.old.faults self.new.faults result }
    {
        if part.len() + self.line.bytes().len() > COUNTED_MOST || self.lines.reserve(1).is_err() {
            self.faults = self.faults.saturating_add(1);
            return Err(Failed);
        }
        self.line.add(part);
        self.counts.add(self.line.bytes());
        self.lines.push_reserved(Snapshot::of(&self.line));
        self.line.clear();
        Ok(part.len() + 1)
    }
}

impl Sink for Counter {
    ghost written = { λ c. Some c.text };

    ghost handed = { λ c. Some c.handed };

    ghost faults = { λ c. c.faults };

    fn write(&mut self, piece: &[u8]) -> Result<usize, Failed> {
        match end_of_line(piece) {
            Some(end) => self.end_line(&piece[..end]),
            None => self.add_front(piece),
        }
    }

    fn flush(&mut self) -> Result<(), Failed> {
        self.handed = self.lines.len();
        self.handed_front = Snapshot::of(&self.line);
        Ok(())
    }
}
