ghost use Rattle.std.specs.Prelude.{◌≡◌, [], IfOk};

use crate::page::LinePage;
use bit_field::MOST_VALUES;
use line_text::ShortTexts;
use mib_model::Line;
use std::alloc::{AllocError, Global};
use std::marker::Model;
use std::sync::Arc;

/// The octets that a record's text has room for, more than any record has.
pub const LINES_ROOM: usize = 40_000_000;

/// The octets for which there must be room before a line is appended, more than any line has.
pub const LINE_MOST: usize = 5_000;

/// The most octets of a head line.
pub const HEAD_ROOM: usize = 600;

/// The most octets of the line of a value up to its tail.
pub const BEGIN_ROOM: usize = 4_138;

/// The most octets of a value's tail and the end of its line.
pub const END_ROOM: usize = 262;

/// The most octets of the line of a value.
pub const VALUE_ROOM: usize = BEGIN_ROOM + END_ROOM;

/// The most octets of any other line.
pub const NOTE_ROOM: usize = 60;

// A record of 8,192 values fits, and behind it there is room for another line.
const _: () = prove!(
    NOTE_ROOM + HEAD_ROOM + MOST_VALUES as usize * (VALUE_ROOM + NOTE_ROOM) + NOTE_ROOM + LINE_MOST
        <= LINES_ROOM
);

/// The text of records that are being written, with room for 40,000,000 octets that is reserved once. Contracts see the
/// octets so far.
pub struct Lines {
    pub(crate) page: LinePage,
    pub(crate) shorts: Arc<ShortTexts>,
    pub(crate) number: Line,
}

/// By hand, so that whoever lets one go proves one call.
impl Drop for Lines {
    fn drop(self) {
        let Lines {
            page: _page,
            shorts: _shorts,
            number: _number,
        } = self;
    }
}

impl Model for Lines {
    ghost use Rattle.std.specs.Prelude.{List, ℕ};

    ghost Value = { List ℕ };

    ghost view = { λ lines. lines.page.octets };
}

impl Lines {
    /// An empty text. An error is want of memory.
    pub fn new(alloc: Global) -> Result<Lines, AllocError>
        ensures { IfOk result (λ lines. lines ≡ []) }
    {
        Ok(Lines {
            page: LinePage::new(alloc)?,
            shorts: Arc::new(alloc, ShortTexts::new(alloc)?)?,
            number: Line::new(),
        })
    }

    /// An empty text that shares the texts of small numbers with this one. An error is want of memory.
    pub fn beside(&self, alloc: Global) -> Result<Lines, AllocError>
        ensures { IfOk result (λ lines. lines ≡ []) }
    {
        Ok(Lines {
            page: LinePage::new(alloc)?,
            shorts: Arc::try_clone(&self.shorts)?,
            number: Line::new(),
        })
    }

    /// The octets so far.
    pub fn bytes(&self) -> &[u8]
        ensures { result.now ≡ self.now }
    {
        self.page.bytes()
    }

    /// Makes it empty again.
    pub fn clear(&mut self)
        ensures { self.new ≡ [] }
    {
        self.page.clear();
    }
}
