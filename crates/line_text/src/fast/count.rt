// A value on a line takes 401 instead of 558 instructions: one whose count fits 64 bits is written by its digits, without arithmetic of 128 bits.
ghost use Rattle.std.specs.Prelude.{◌≡◌, ◌≤◌, ◌<◌, ◌+◌, ◌-◌, ◌*◌, ◌^◌, ◌++◌, ◌&&◌, length, take, pos, nat_abs, nat_le, int_lt, IfSome, OnSome};
ghost use Rattle.mib_model.specs.Counts.{count_text};
ghost use Rattle.line_text.specs.DigitTexts.{behind_text, minus_text, digits_text};
ghost use Rattle.line_text.specs.declared.fast.short_texts.TheConstants.{SHORT_BOUND};

use crate::fast::number::add_number;
use crate::fast::short_texts::{SHORT_BOUND, Shorts};
use crate::place::{add_first, add_octet};
use mib_model::Eng;

// The counts of 10^-12 in one of 10^-4.
const FOURTH_DECIMAL: u64 = 100_000_000;

/// An engineering value rounded to some decimals, by the digits of its text: whether a minus stands before them, the whole
/// part, and the number of four decimals, of which the text has the first ones.
#[derive(Clone, Copy)]
pub(crate) struct CountDigits {
    pub minus: bool,
    pub whole: u64,
    pub behind: u64,
}

// Half of one in the last of so many decimals, in counts of 10^-12.
#[inline(always)]
fn half_of_last(decimals: u8) -> u64
    requires { decimals ≤ 4 }
    ensures value { result ≡ 5 * 10 ^ (11 - decimals) }
    ensures most { result ≤ 500_000_000_000 }
{
    match decimals {
        0 => 500_000_000_000,
        1 => 50_000_000_000,
        2 => 5_000_000_000,
        3 => 500_000_000,
        4 => 50_000_000,
        _ => 0,
    }
}

// Whether a minus stands before a count that is rounded: it is below zero, and half of one at least.
#[inline(always)]
fn has_minus(count: i64, half: u64) -> bool
    ensures { result ≡ (int_lt count (pos 0) && nat_le half (nat_abs count)) }
{
    count < 0 && half <= count.unsigned_abs()
}

// A count's digits with four decimals at most.
#[inline(always)]
#[tactic(auto, using(crate::proofs::DigitFacts::by_digits))]
fn rounded_digits(count: i64, decimals: u8) -> CountDigits
    requires { decimals ≤ 4 }
    ensures text { digits_text result decimals ≡ count_text count decimals }
    ensures behind { result.behind < SHORT_BOUND }
{
    let half = half_of_last(decimals);
    let digits = (count.unsigned_abs() + half) / FOURTH_DECIMAL;
    let whole = digits / SHORT_BOUND;
    CountDigits {
        minus: has_minus(count, half),
        whole,
        behind: digits - whole * SHORT_BOUND,
    }
}

/// An engineering value with some decimals, where these are four at most and its count fits 64 bits.
#[inline(always)]
pub(crate) fn count_digits(v: Eng, decimals: u8) -> Option<CountDigits>
    ensures few { OnSome result (decimals ≤ 4) }
    ensures text { IfSome result (λ digits. digits_text digits decimals ≡ count_text v.count decimals) }
    ensures behind { IfSome result (λ digits. digits.behind < SHORT_BOUND) }
{
    match i64::try_from(v.count) {
        Ok(count) if decimals <= 4 => Some(rounded_digits(count, decimals)),
        _ => None,
    }
}

// Appends a minus, or nothing.
#[inline(always)]
fn add_minus(minus: bool, line: &mut [u8], used: usize) -> usize
    requires { used < length line.old }
    ensures text { take result line.new ≡ take used line.old ++ minus_text minus }
    ensures room { result ≤ used + 1 }
    ensures kept { length line.new ≡ length line.old }
{
    add_first(b"-", u8::from(minus), line, used)
}

// Appends the first of four decimals behind a point.
#[inline(always)]
#[tactic(auto, using(crate::proofs::DigitFacts::behinds))]
fn add_behind(four: u64, decimals: u8, shorts: Shorts<'_>, line: &mut [u8], used: usize) -> usize
    requires four { four < SHORT_BOUND }
    requires decimals { decimals ≤ 4 }
    requires room { used + 5 ≤ length line.old }
    ensures text { take result line.new ≡ take used line.old ++ behind_text decimals four }
    ensures room { result ≤ used + 5 }
    ensures kept { length line.new ≡ length line.old }
{
    if decimals == 0 {
        return used;
    }
    let short = shorts.at(four);
    let behind = add_octet(b'.', line, used);
    add_first(&short.four, decimals, line, behind)
}

/// Appends an engineering value by its digits.
#[inline(always)]
pub(crate) fn add_count_digits(
    digits: CountDigits,
    decimals: u8,
    shorts: Shorts<'_>,
    line: &mut [u8],
    used: usize,
) -> usize
    requires behind { digits.behind < SHORT_BOUND }
    requires decimals { decimals ≤ 4 }
    requires room { used + 60 ≤ length line.old }
    ensures text { take result line.new ≡ take used line.old ++ digits_text digits decimals }
    ensures room { result ≤ used + 60 }
    ensures kept { length line.new ≡ length line.old }
{
    let used = add_minus(digits.minus, line, used);
    let used = add_number(digits.whole, shorts, line, used);
    add_behind(digits.behind, decimals, shorts, line, used)
}
