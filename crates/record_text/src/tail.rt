// What stands behind a raw value.
ghost use Rattle.std.specs.Prelude.{◌≡◌, ◌≤◌, ◌+◌, ◌++◌, ℕ, false, length, take};
ghost use Rattle.mib_model.specs.CalibrationViews.{calibrated_as};
ghost use Rattle.mib_model.specs.Texts as Spec;
ghost use Rattle.record_text.specs.TailViews.{gives, tail_as};
ghost use Rattle.record_text.specs.declared.tail.TheConstants.{TAIL_ROOM};

use line_text::{Shorts, add_count, add_quoted, add_word};
use mib_model::{Cal, Line};

/// The most octets of a tail: a status text of 64 octets.
pub(crate) const TAIL_ROOM: usize = 261;

/// What stands behind a raw value: nothing, what a calibration gave and the decimals of its number, or that the value is
/// invalid.
#[derive(Clone, Copy)]
pub enum Tail<'a> {
    Plain,
    Given { cal: Cal<'a>, decimals: u8 },
    Invalid,
}

// Appends why a calibration gave nothing.
#[inline(never)]
fn add_failed(cal: &Cal<'_>, line: &mut [u8], used: usize) -> usize
    requires nothing { gives cal.now ≡ false }
    requires room { used + 12 ≤ length line.old }
    ensures text { (decimals : ℕ) → take result line.new ≡ take used line.old ++ Spec.given_text (calibrated_as cal.now) decimals }
    ensures room { result ≤ used + 12 }
    ensures kept { length line.new ≡ length line.old }
{
    match cal {
        Cal::Value(_) | Cal::Text(_) => used,
        Cal::NoText => add_word(b" ! NOTEXT", line, used),
        Cal::Outside => add_word(b" ! OUTSIDE", line, used),
        Cal::Over => add_word(b" ! OVER", line, used),
        Cal::LogCurve => add_word(b" ! LOGCURVE", line, used),
        Cal::RealCurve => add_word(b" ! REALCURVE", line, used),
    }
}

// Appends what a calibration gave.
#[inline(always)]
fn add_given(
    cal: &Cal<'_>,
    decimals: u8,
    shorts: Shorts<'_>,
    number: &mut Line,
    line: &mut [u8],
    used: usize,
) -> usize
    requires { used + TAIL_ROOM ≤ length line.old }
    ensures text { take result line.new ≡ take used line.old ++ Spec.given_text (calibrated_as cal.now) decimals }
    ensures room { result ≤ used + TAIL_ROOM }
    ensures kept { length line.new ≡ length line.old }
{
    match cal {
        Cal::Value(v) => {
            let used = add_word(b" = ", line, used);
            add_count(*v, decimals, shorts, number, line, used)
        }
        Cal::Text(text) => {
            let used = add_word(b" = ", line, used);
            add_quoted(text.bytes(), line, used)
        }
        _ => add_failed(cal, line, used),
    }
}

/// Appends the text of a tail.
#[inline(always)]
pub(crate) fn add_tail(
    tail: &Tail<'_>,
    shorts: Shorts<'_>,
    number: &mut Line,
    line: &mut [u8],
    used: usize,
) -> usize
    requires { used + TAIL_ROOM ≤ length line.old }
    ensures text { take result line.new ≡ take used line.old ++ Spec.tail_text (tail_as tail.now) }
    ensures room { result ≤ used + TAIL_ROOM }
    ensures kept { length line.new ≡ length line.old }
{
    match tail {
        Tail::Plain => used,
        Tail::Given { cal, decimals } => add_given(cal, *decimals, shorts, number, line, used),
        Tail::Invalid => add_word(b" ? INVALID", line, used),
    }
}
