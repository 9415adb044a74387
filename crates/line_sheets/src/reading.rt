// What is left of a sheet that is read.
ghost use Rattle.mib_model.specs.WholeNumbers.{greatest_raw, least_raw};
ghost use Rattle.std.specs.Prelude.{◌≡◌, ◌≤◌, ◌≤ℤ◌, ◌++◌, ℕ, drop, get_or, length, take, IfSome, IsNone, [], pos};
ghost use Rattle.line_sheets.specs.Readings.{HasRaw, IsPassed};
ghost use Rattle.line_sheets.specs.Lying.{AreHeld, act_as, act_of, counts_taken, held_raw, no_count, raws_taken, sheet_in};

use crate::sheet::{Deed, SheetEvent};
use mib_model::Eng;
use std::marker::Model;

// The farthest from 0 that a raw number below 0 is.
const MOST_BELOW: u64 = 9_223_372_036_854_775_808;

/// What is to be done with the name that has a seat.
#[derive(Clone, Copy)]
pub enum SheetWork {
    /// A raw number is entered.
    Enter(i128),
    /// The alarm takes a step after a nominal number.
    Calm(Eng),
    /// A value is finished, with its raw number where it has one.
    Open(Option<i128>),
}

/// What is left of a sheet, and the octets in front of it that were not handed out yet. Contracts see both.
pub struct Reading<'a> {
    text: &'a [u8],
    written: usize,
    from: usize,
    events: &'a [SheetEvent],
    raws: &'a [u64],
    counts: &'a [Eng],
}

/// By hand, so that whoever lets one go proves one call.
impl Drop for Reading<'_> {
    fn drop(self) {
        let Reading {
            text: _,
            written: _,
            from: _,
            events: _,
            raws: _,
            counts: _,
        } = self;
    }
}

impl<'a> Model for Reading<'a> {
    ghost use Rattle.std.specs.Prelude.{◌≤◌, length};
    ghost use Rattle.line_sheets.specs.Readings.{LeftView, left_from};
    ghost use Rattle.line_sheets.specs.Lying.{AreHeld};

    ghost Value = { LeftView };

    ghost view = { λ r. left_from r.text.now r.written r.from r.events.now r.raws.now r.counts.now };

    ghost invariant = { λ r. AreHeld r.from r.events.now r.raws.now r.counts.now (length r.text.now) × (r.written ≤ r.from) };
}

// The octets from one place to another.
#[inline(always)]
fn part(text: &[u8], start: usize, end: usize) -> &[u8]
    requires order { start ≤ end }
    requires within { end ≤ length text.now }
    ensures { result.now ≡ drop start (take end text.now) }
{
    &text[start..end]
}

// The first raw number.
#[inline(always)]
fn first_raw(raws: &[u64]) -> u64
    ensures { result ≡ get_or raws.now 0 0 }
{
    if raws.is_empty() { 0 } else { raws[0] }
}

// The first number of a sample.
#[inline(always)]
fn first_count(counts: &[Eng]) -> Eng
    ensures { result ≡ get_or counts.now 0 no_count }
{
    if counts.is_empty() {
        Eng { count: 0 }
    } else {
        counts[0]
    }
}

// The raw numbers behind those that a deed takes.
#[inline(always)]
fn other_raws(deed: Deed, raws: &[u64]) -> &[u64]
    requires { raws_taken deed ≤ length raws.now }
    ensures { result.now ≡ drop (raws_taken deed) raws.now }
{
    match deed {
        Deed::Enter(_) | Deed::OpenRaw(_) => &raws[1..],
        _ => raws,
    }
}

// The numbers of samples behind those that a deed takes.
#[inline(always)]
fn other_counts(deed: Deed, counts: &[Eng]) -> &[Eng]
    requires { counts_taken deed ≤ length counts.now }
    ensures { result.now ≡ drop (counts_taken deed) counts.now }
{
    match deed {
        Deed::Calm => &counts[1..],
        _ => counts,
    }
}

// A raw number by its sign and how far it is from 0.
#[inline(always)]
fn together(below: bool, magnitude: u64) -> i128
    ensures value { result ≡ held_raw below magnitude }
    ensures low { least_raw ≤ℤ result }
    ensures high { result ≤ℤ greatest_raw }
{
    if below {
        -i128::from(magnitude.min(MOST_BELOW))
    } else {
        i128::from(magnitude)
    }
}

// What a deed is with its numbers.
#[inline(always)]
fn work_of(deed: Deed, raw: u64, number: Eng) -> SheetWork
    ensures act { (seat : ℕ) → act_as seat result ≡ act_of seat deed raw number }
    ensures raw { HasRaw result }
{
    match deed {
        Deed::Enter(below) => SheetWork::Enter(together(below, raw)),
        Deed::Calm => SheetWork::Calm(number),
        Deed::Open => SheetWork::Open(None),
        Deed::OpenRaw(below) => SheetWork::Open(Some(together(below, raw))),
    }
}

impl<'a> Reading<'a> {
    // All of a sheet.
    pub(crate) fn of(
        text: &'a [u8],
        events: &'a [SheetEvent],
        raws: &'a [u64],
        counts: &'a [Eng],
    ) -> Reading<'a>
        requires { AreHeld 0 events.now raws.now counts.now (length text.now) }
        ensures { result ≡ record { pending = []; left = sheet_in text.now events.now raws.now counts.now } }
    {
        Reading {
            text,
            written: 0,
            from: 0,
            events,
            raws,
            counts,
        }
    }

    /// The events that are left. They say nothing.
    #[inline(always)]
    pub(crate) fn ahead(&self) -> &'a [SheetEvent] {
        self.events
    }

    /// Passes the first run: the seat of a name, and what is to be done there. The run's octets are pending.
    pub fn pass(&mut self) -> Option<(u32, SheetWork)>
        ensures passed { IfSome result (λ r. IsPassed r.0 r.1 self.old self.new) }
        ensures raw { IfSome result (λ r. HasRaw r.1) }
        ensures end { IsNone result → self.old.left.runs ≡ [] }
        ensures same { IsNone result → self.new ≡ self.old }
    {
        let (first, others) = self.events.split_first()?;
        let SheetEvent { at, seat, deed } = *first;
        let work = work_of(deed, first_raw(self.raws), first_count(self.counts));
        self.raws = other_raws(deed, self.raws);
        self.counts = other_counts(deed, self.counts);
        self.events = others;
        self.from = at as usize;
        Some((seat, work))
    }

    /// Hands out the octets that are pending.
    pub fn flush(&mut self) -> &'a [u8]
        ensures octets { result.now ≡ self.old.pending }
        ensures left { self.new ≡ record { pending = []; left = self.old.left } }
    {
        let octets = part(self.text, self.written, self.from);
        self.written = self.from;
        octets
    }

    /// The octets that are pending, and all that are left, where no run is left.
    pub fn rest(&self) -> &'a [u8]
        ensures { self.now.left.runs ≡ [] → result.now ≡ self.now.pending ++ self.now.left.tail }
    {
        let end = self.text.len();
        if self.events.is_empty() {
            part(self.text, self.written, end)
        } else {
            &[]
        }
    }
}
