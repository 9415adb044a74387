// Packets that are drawn ahead at once.
ghost use Rattle.std.specs.Prelude.{◌≤◌, ◌+◌, length};
ghost use Rattle.decode_session.specs.Run.{most_in_flight, most_packets};

use line_sheets::Sheet;
use packet_feed::packet_at;
use packet_sheets::Stretch;
use record_text::Lines;
use std::alloc::{AllocError, Global};
use work_queue::Numbered;

/// The most packets that are read and not printed yet.
const MOST_AHEAD: usize = 64;

/// Packets, numbered from a number on, and the sheet of the first of them, so many.
#[derive(Drop)]
pub(crate) struct DrawingJob {
    pub number: u64,
    pub stretch: Stretch,
    pub drawn: usize,
    pub sheet: Sheet,
    ghost few: { length stretch.packets ≤ most_in_flight },
    ghost low: { number + length stretch.packets ≤ most_packets },
}

impl Numbered for DrawingJob {
    ghost number_of = { λ job. job.number };

    fn number(&self) -> u64 {
        self.number
    }
}

impl DrawingJob {
    ghost use Rattle.std.specs.Prelude.{◌≡◌, take, IfOk};
    ghost use Rattle.std.specs.List.{concat};
    ghost use Rattle.decode_session.specs.Ahead.{IsJob, IsUnused};
    ghost use Rattle.mib_model.specs.declared.database.Database.{Database};

    /// No packets, and a sheet that shares the texts of small numbers. An error is want of memory.
    pub fn new(alloc: Global, lines: &Lines) -> Result<DrawingJob, AllocError>
        ensures { IfOk result (λ job. IsUnused job) }
    {
        Ok(DrawingJob {
            number: 0,
            stretch: Stretch::new(alloc)?,
            drawn: 0,
            sheet: Sheet::new(alloc, lines)?,
        })
    }

    /// Takes the packets that octets begin with, numbered from a number on, behind so many octets no further one, and tells how many octets they have.
    pub fn take(&mut self, number: u64, octets: &[u8], share: usize) -> usize
        requires { number + most_in_flight ≤ most_packets }
        ensures number { self.new.number ≡ number }
        ensures job { (db : Database) → IsJob db self.new }
        ensures within { result ≤ length octets.now }
        ensures octets { concat self.new.stretch.packets ≡ take result octets.now }
    {
        self.stretch.clear();
        self.drawn = 0;
        self.number = number;
        let mut at = 0;
        while at < share && self.stretch.len() < MOST_AHEAD && !self.stretch.is_full() {
            let Some(packet) = packet_at(&octets[at..]) else {
                return at;
            };
            self.stretch.add(packet);
            at += packet.len();
        }
        at
    }
}
