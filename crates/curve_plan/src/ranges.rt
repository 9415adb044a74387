// Curves by status texts.
ghost use Rattle.std.specs.Prelude.{◌≡◌, ◌&&◌, ℤ, true, int_le, filter_map, length, IfOk, IsTrue};
ghost use Rattle.std.specs.List.{AllAdjacentBelow, find};
ghost use Rattle.std.specs.Option.{option_copied};
ghost use Rattle.mib_model.specs.CalibrationViews.{calibrated_as};
ghost use Rattle.curve_plan.specs.Ranges.{range_of, holds_raw, text_of_range, precedes, AreSeparate};

use crate::fast;
use crate::fast::index::PointIndex;
use dec_num::decimal_whole;
use mib_model::{Cal, Text, TxpRow};
use std::alloc::{AllocError, Global};

/// A range of raw numbers with its status text.
#[derive(Clone, Copy)]
pub struct Range {
    pub(crate) low: i128,
    pub(crate) high: i128,
    text: Text,
}

impl Range {
    fn holds(&self, raw: i128) -> bool
        ensures { result ≡ holds_raw raw self.now }
    {
        self.low <= raw && raw <= self.high
    }

    fn precedes(&self, next: &Range) -> bool
        ensures { result ≡ precedes self.now next.now }
    {
        self.low <= next.low && self.high < next.low
    }
}

/// The ranges of a curve: in ascending order where they are separate, else in file order.
#[derive(Drop)]
pub struct RangeCurve {
    pub(crate) ranges: Vec<Range>,
    pub(crate) separate: bool,
    pub(crate) index: PointIndex,
}

// The range of a row, where its bounds are whole numbers.
fn range_of(row: &TxpRow) -> Option<Range>
    ensures { result ≡ range_of row.now }
{
    let low = decimal_whole(row.low.bytes())?;
    let high = decimal_whole(row.high.bytes())?;
    Some(Range {
        low,
        high,
        text: row.altxt,
    })
}

// The ranges of rows, in their order.
fn ranges_of(alloc: Global, txps: &[TxpRow]) -> Result<Vec<Range>, AllocError>
    ensures { IfOk result (λ ranges. ranges.items ≡ filter_map range_of txps.now) }
{
    let mut ranges = Vec::new(alloc);
    for row in txps {
        if let Some(range) = range_of(row) {
            ranges.push(range)?;
        }
    }
    Ok(ranges)
}

// Whether each range ends before the next begins, and begins no later.
fn are_separate(ranges: &[Range]) -> bool
    ensures { IsTrue result → AreSeparate ranges.now }
{
    for at in 1..ranges.len() {
        if !ranges[at - 1].precedes(&ranges[at]) {
            return false;
        }
    }
    true
}

// The first range that holds a raw number.
fn scanned(ranges: &[Range], raw: i128) -> Option<&Range>
    ensures { option_copied result ≡ find (holds_raw raw) ranges.now }
{
    ranges.iter().find(|range| range.holds(raw))
}

// The only range that holds a raw number, found by halving.
fn halved(ranges: &[Range], raw: i128) -> Option<&Range>
    requires { AreSeparate ranges.now }
    ensures { option_copied result ≡ find (holds_raw raw) ranges.now }
{
    let end = ranges.partition_point(|range| range.low <= raw);
    let range = &ranges[end.checked_sub(1)?];
    if raw <= range.high { Some(range) } else { None }
}

impl RangeCurve {
    /// A number made of a range in the middle.
    pub fn touch(&self) -> usize {
        match self.ranges.get(self.ranges.len() / 2) {
            Some(range) => usize::from(range.low < 0),
            None => 0,
        }
    }

    /// Reads the ranges of a curve's rows.
    pub fn compile(alloc: Global, txps: &[TxpRow]) -> Result<RangeCurve, AllocError>
        ensures ranges { IfOk result (λ curve. (raw : ℤ) → find (holds_raw raw) curve.ranges.items
            ≡ find (holds_raw raw) (filter_map range_of txps.now)) }
        ensures separate { IfOk result (λ curve. curve.separate ≡ true → AreSeparate curve.ranges.items) }
    {
        let ranges = ranges_of(alloc, txps)?;
        let mut ascending = Vec::from_slice(alloc, &ranges)?;
        ascending.sort_by_key(|range| range.low)?;
        let index = PointIndex::compile(alloc, &fast::ranges::starts_of(alloc, &ascending)?)?;
        if are_separate(&ascending) {
            Ok(RangeCurve {
                ranges: ascending,
                separate: true,
                index,
            })
        } else {
            Ok(RangeCurve {
                ranges,
                separate: false,
                index,
            })
        }
    }

    // The range that holds a raw number, searched for among all.
    #[cold]
    #[inline(never)]
    fn searched(&self, raw: i128) -> Option<&Range>
        requires { self.now.separate ≡ true → AreSeparate self.now.ranges.items }
        ensures { option_copied result ≡ find (holds_raw raw) self.now.ranges.items }
    {
        if self.separate {
            halved(&self.ranges, raw)
        } else {
            scanned(&self.ranges, raw)
        }
    }

    // The range that a raw number's text is taken from.
    #[inline(always)]
    fn range(&self, raw: i128) -> Option<&Range>
        requires { self.now.separate ≡ true → AreSeparate self.now.ranges.items }
        ensures { option_copied result ≡ find (holds_raw raw) self.now.ranges.items }
    {
        match fast::ranges::indexed(self, raw) {
            Some(range) => Some(range),
            None => self.searched(raw),
        }
    }

    /// The text of the first range in file order that holds a raw number.
    #[inline(always)]
    pub fn at(&self, raw: i128) -> Cal<'_>
        requires { self.now.separate ≡ true → AreSeparate self.now.ranges.items }
        ensures { calibrated_as result ≡ text_of_range (find (holds_raw raw) self.now.ranges.items) }
    {
        match self.range(raw) {
            Some(range) => Cal::Text(&range.text),
            None => Cal::NoText,
        }
    }
}
