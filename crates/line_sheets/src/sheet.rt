// A sheet: the text of a stretch of records, and what is done between two parts of it.
ghost use Rattle.std.specs.Prelude.{◌≡◌, ◌<◌, ◌≤◌, ◌+◌, ◌≤ℤ◌, ◌++◌, [], IfOk, IfSome, IsTrue, length, vec_capacity, vec_len};
ghost use Rattle.line_sheets.specs.Lying.{act_of, counts_of, held_raw, raws_of};
ghost use Rattle.line_sheets.specs.Sheets.{Calmed, Entered, Opened, no_sheet, with_act};
ghost use Rattle.line_sheets.specs.declared.sheet.TheConstants.{EVENT_ROOM, SHEET_ROOM, TEXT_MOST, VALUES_MOST};
ghost use Rattle.line_sheets.specs.Readings.{held_size};
ghost use Rattle.mib_model.specs.WholeNumbers.{greatest_raw, least_raw};

use crate::reading::Reading;
use mib_model::Eng;
use record_text::{END_ROOM, HEAD_ROOM, LINE_MOST, LINES_ROOM, Lines, NOTE_ROOM, VALUE_ROOM};
use std::alloc::{AllocError, Global};
use std::marker::Model;

/// The octets of text behind which a record may be drawn.
pub const TEXT_MOST: usize = 1_048_576;

/// The values that a packet may have whose record is drawn.
pub const VALUES_MOST: usize = 1_024;

/// The plans whose names may have seats.
pub(crate) const SEATS_MOST: usize = 4_294_967_295;

/// The octets of text that a sheet may have.
pub const SHEET_ROOM: usize = 8_388_608;

/// The events for which a sheet has room.
pub const EVENT_ROOM: usize = 32_768;

// A record that may be drawn fits behind a text.
const _: () = prove!(TEXT_MOST + HEAD_ROOM + VALUES_MOST * VALUE_ROOM + NOTE_ROOM <= SHEET_ROOM);

// What a sheet tells when it is played fits behind a record's text.
const _: () = prove!(
    65_536 + SHEET_ROOM + EVENT_ROOM * (END_ROOM + NOTE_ROOM) + LINE_MOST <= LINES_ROOM
);

/// What is done at a place of a sheet's text. Numbers stand beside the events, in their order.
#[derive(Clone, Copy)]
pub enum Deed {
    /// A raw number is entered; whether it is below 0.
    Enter(bool),
    /// The alarm takes a step after a nominal number.
    Calm,
    /// A value without a raw number is finished.
    Open,
    /// A value is finished; whether its raw number is below 0.
    OpenRaw(bool),
}

/// What is done with the name that has a seat, behind so many octets of text.
#[derive(Clone, Copy)]
pub struct SheetEvent {
    pub at: u32,
    pub seat: u32,
    pub deed: Deed,
}

// A sheet goes from the memory of one processor to that of another, so it is small.
const _: () = prove!(size_of::<SheetEvent>() == 12);

/// The records of a stretch of packets, in room that is reserved once. Contracts see the parts of the text, each with what is done
/// behind it.
pub struct Sheet {
    pub(crate) text: Lines,
    events: Vec<SheetEvent>,
    raws: Vec<u64>,
    counts: Vec<Eng>,
}

/// By hand, so that whoever lets one go proves one call.
impl Drop for Sheet {
    fn drop(self) {
        let Sheet {
            text: _text,
            events: _events,
            raws: _raws,
            counts: _counts,
        } = self;
    }
}

impl Model for Sheet {
    ghost use Rattle.std.specs.Prelude.{◌≡◌, ◌≤◌, length, vec_capacity, vec_len};
    ghost use Rattle.line_sheets.specs.Lying.{AreHeld, sheet_in};
    ghost use Rattle.line_sheets.specs.Sheets.{SheetView};
    ghost use Rattle.line_sheets.specs.declared.sheet.TheConstants.{EVENT_ROOM, SHEET_ROOM};

    ghost Value = { SheetView };

    ghost view = { λ sheet. sheet_in sheet.text sheet.events.items sheet.raws.items sheet.counts.items };

    ghost invariant = { λ sheet. AreHeld 0 sheet.events.items sheet.raws.items sheet.counts.items (length sheet.text)
        × (length sheet.text ≤ SHEET_ROOM) × (vec_len sheet.events ≡ length sheet.events.items) × (vec_len sheet.events ≤ EVENT_ROOM)
        × (vec_len sheet.raws ≤ vec_len sheet.events) × (vec_len sheet.counts ≤ vec_len sheet.events)
        × (EVENT_ROOM ≤ vec_capacity sheet.events) × (EVENT_ROOM ≤ vec_capacity sheet.raws) × (EVENT_ROOM ≤ vec_capacity sheet.counts) };
}

// Whether a raw number is below 0, and how far it is from 0.
#[inline(always)]
fn apart(raw: i128) -> (bool, u64)
    requires low { least_raw ≤ℤ raw }
    requires high { raw ≤ℤ greatest_raw }
    ensures { held_raw result.0 result.1 ≡ raw }
{
    (raw < 0, raw.unsigned_abs() as u64)
}

// Notes the raw number of a deed behind others, where it takes one.
#[inline(always)]
fn note_raw(deed: Deed, raw: u64, raws: &mut Vec<u64>)
    requires room { vec_len raws.old < vec_capacity raws.old }
    ensures items { raws.new.items ≡ raws.old.items ++ raws_of deed raw }
    ensures few { vec_len raws.new ≤ vec_len raws.old + 1 }
    ensures capacity { vec_capacity raws.new ≡ vec_capacity raws.old }
{
    match deed {
        Deed::Enter(_) | Deed::OpenRaw(_) => raws.push_reserved(raw),
        _ => {}
    }
}

// Notes the number of a deed's sample behind others, where it takes one.
#[inline(always)]
fn note_count(deed: Deed, number: Eng, counts: &mut Vec<Eng>)
    requires room { vec_len counts.old < vec_capacity counts.old }
    ensures items { counts.new.items ≡ counts.old.items ++ counts_of deed number }
    ensures few { vec_len counts.new ≤ vec_len counts.old + 1 }
    ensures capacity { vec_capacity counts.new ≡ vec_capacity counts.old }
{
    match deed {
        Deed::Calm => counts.push_reserved(number),
        _ => {}
    }
}

impl Sheet {
    /// A sheet of nothing, whose text shares the texts of small numbers with others. An error is want of memory.
    pub fn new(alloc: Global, lines: &Lines) -> Result<Sheet, AllocError>
        ensures { IfOk result (λ sheet. sheet ≡ no_sheet) }
    {
        Ok(Sheet {
            text: lines.beside(alloc)?,
            events: Vec::with_capacity(alloc, EVENT_ROOM)?,
            raws: Vec::with_capacity(alloc, EVENT_ROOM)?,
            counts: Vec::with_capacity(alloc, EVENT_ROOM)?,
        })
    }

    /// Makes it one of nothing again.
    pub fn clear(&mut self)
        ensures { self.new ≡ no_sheet }
    {
        self.text.clear();
        self.events.clear();
        self.raws.clear();
        self.counts.clear();
    }

    /// Whether the record of a packet of so many values may be drawn behind it.
    #[tactic(auto, using(crate::proofs::LyingFacts::events_many))]
    pub(crate) fn has_room(&self, values: usize) -> bool
        ensures values { IsTrue result → values ≤ VALUES_MOST }
        ensures text { IsTrue result → self.now.size ≤ TEXT_MOST }
        ensures events { IsTrue result → length self.now.runs + (values + values) ≤ EVENT_ROOM }
    {
        if values > VALUES_MOST || self.text.bytes().len() > TEXT_MOST {
            return false;
        }
        let events: &[SheetEvent] = &self.events;
        events.len() <= EVENT_ROOM - 2 * VALUES_MOST
    }

    // A deed is done behind it now, with the numbers that it takes.
    #[inline(always)]
    fn push(&mut self, seat: u32, deed: Deed, raw: u64, number: Eng)
        requires { length self.old.runs < EVENT_ROOM }
        ensures { self.new ≡ with_act self.old (act_of seat deed raw number) }
    {
        let at = self.text.bytes().len() as u32;
        note_raw(deed, raw, &mut self.raws);
        note_count(deed, number, &mut self.counts);
        self.events.push_reserved(SheetEvent { at, seat, deed });
    }

    /// A raw number is entered behind it now, of the name that has a seat.
    #[inline(always)]
    pub(crate) fn enter(&mut self, seat: u32, raw: i128)
        requires low { least_raw ≤ℤ raw }
        requires high { raw ≤ℤ greatest_raw }
        requires room { length self.old.runs < EVENT_ROOM }
        ensures { self.new ≡ with_act self.old (Entered seat raw) }
    {
        let (below, magnitude) = apart(raw);
        self.push(seat, Deed::Enter(below), magnitude, Eng { count: 0 });
    }

    /// The alarm of the name that has a seat takes a step after a nominal number behind it now.
    #[inline(always)]
    pub(crate) fn calm(&mut self, seat: u32, number: Eng)
        requires { length self.old.runs < EVENT_ROOM }
        ensures { self.new ≡ with_act self.old (Calmed seat number.count) }
    {
        self.push(seat, Deed::Calm, 0, number);
    }

    /// A value stands behind it now, with its raw number where it has one, whose line goes on by what is kept.
    pub(crate) fn open(&mut self, seat: u32, raw: Option<i128>)
        requires raw { IfSome raw (λ number. (least_raw ≤ℤ number) × (number ≤ℤ greatest_raw)) }
        requires room { length self.old.runs < EVENT_ROOM }
        ensures { self.new ≡ with_act self.old (Opened seat raw) }
    {
        let Some(raw) = raw else {
            self.push(seat, Deed::Open, 0, Eng { count: 0 });
            return;
        };
        let (below, magnitude) = apart(raw);
        self.push(seat, Deed::OpenRaw(below), magnitude, Eng { count: 0 });
    }

    /// All of it, to be read.
    pub(crate) fn read(&self) -> Reading<'_>
        ensures reading { result ≡ record { pending = []; left = self.now } }
        ensures size { held_size self.now ≤ SHEET_ROOM }
        ensures events { length self.now.runs ≤ EVENT_ROOM }
    {
        Reading::of(self.text.bytes(), &self.events, &self.raws, &self.counts)
    }
}
