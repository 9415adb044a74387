// A value of 16 bits takes 156 instead of 229 instructions: a number is written by fours, each by a text made once.
ghost use Rattle.std.specs.Prelude.{◌≡◌, ◌≤◌, ◌<◌, ◌+◌, ◌/◌, ◌%◌, ◌++◌, length, take, decimal};
ghost use Rattle.line_text.specs.ShortTexts.{digits_of, four_digits};
ghost use Rattle.line_text.specs.declared.fast.number.TheConstants.{EIGHT_BOUND, TWELVE_BOUND};
ghost use Rattle.line_text.specs.declared.fast.short_texts.TheConstants.{SHORT_BOUND};

use crate::fast::short::Short;
use crate::fast::short_texts::{SHORT_BOUND, Shorts};
use crate::place::{add_first, add_word};

// The numbers below this one have eight digits at most.
const EIGHT_BOUND: u64 = SHORT_BOUND * SHORT_BOUND;

// The numbers below this one have twelve digits at most.
const TWELVE_BOUND: u64 = EIGHT_BOUND * SHORT_BOUND;

// Appends the digits of a short text.
#[inline(always)]
fn add_short(short: Short, line: &mut [u8], used: usize) -> usize
    requires { used + 4 ≤ length line.old }
    ensures text { take result line.new ≡ take used line.old ++ digits_of short }
    ensures from { used ≤ result }
    ensures room { result ≤ used + 4 }
    ensures kept { length line.new ≡ length line.old }
{
    add_first(&short.digits, short.count, line, used)
}

// Appends the last eight digits of a number, with zeros in front.
#[inline(always)]
fn add_last(n: u64, shorts: Shorts<'_>, line: &mut [u8], used: usize) -> usize
    requires { used + 8 ≤ length line.old }
    ensures text { take result line.new ≡ take used line.old ++ four_digits (n / 10000 % 10000) ++ four_digits (n % 10000) }
    ensures room { result ≡ used + 8 }
    ensures kept { length line.new ≡ length line.old }
{
    let high = shorts.at(n / SHORT_BOUND % SHORT_BOUND);
    let low = shorts.at(n % SHORT_BOUND);
    let behind = add_word(&high.four, line, used);
    add_word(&low.four, line, behind)
}

// Appends the digits of a number of at most eight.
#[inline(always)]
fn add_eight(n: u64, shorts: Shorts<'_>, line: &mut [u8], used: usize) -> usize
    requires room { used + 8 ≤ length line.old }
    requires few { n < EIGHT_BOUND }
    ensures text { take result line.new ≡ take used line.old ++ decimal n }
    ensures from { used ≤ result }
    ensures room { result ≤ used + 8 }
    ensures kept { length line.new ≡ length line.old }
{
    if n < SHORT_BOUND {
        return add_short(shorts.at(n), line, used);
    }
    let high = shorts.at(n / SHORT_BOUND);
    let low = shorts.at(n % SHORT_BOUND);
    let behind = add_short(high, line, used);
    add_word(&low.four, line, behind)
}

// Appends the digits of a number of at most twelve.
#[inline(always)]
fn add_twelve(n: u64, shorts: Shorts<'_>, line: &mut [u8], used: usize) -> usize
    requires room { used + 12 ≤ length line.old }
    requires few { n < TWELVE_BOUND }
    ensures text { take result line.new ≡ take used line.old ++ decimal n }
    ensures from { used ≤ result }
    ensures room { result ≤ used + 12 }
    ensures kept { length line.new ≡ length line.old }
{
    if n < EIGHT_BOUND {
        return add_eight(n, shorts, line, used);
    }
    let first = shorts.at(n / EIGHT_BOUND);
    let behind = add_short(first, line, used);
    add_last(n, shorts, line, behind)
}

// Puts the digits of a number of more than eight at a place, and gives their count. It is a small one also where the compiler
// sees no more of this than its type.
#[inline(never)]
fn put_longer(n: u64, shorts: Shorts<'_>, line: &mut [u8], used: usize) -> u8
    requires room { used + 20 ≤ length line.old }
    requires long { EIGHT_BOUND ≤ n }
    ensures text { take (used + result) line.new ≡ take used line.old ++ decimal n }
    ensures room { result ≤ 20 }
    ensures kept { length line.new ≡ length line.old }
{
    let behind = add_twelve(n / EIGHT_BOUND, shorts, line, used);
    let end = add_last(n, shorts, line, behind);
    (end - used) as u8
}

// Appends the digits of a number that has no short text, by fours.
#[inline(always)]
fn add_long(n: u64, shorts: Shorts<'_>, line: &mut [u8], used: usize) -> usize
    requires room { used + 40 ≤ length line.old }
    requires long { SHORT_BOUND ≤ n }
    ensures text { take result line.new ≡ take used line.old ++ decimal n }
    ensures room { result ≤ used + 40 }
    ensures kept { length line.new ≡ length line.old }
{
    if n < EIGHT_BOUND {
        add_eight(n, shorts, line, used)
    } else {
        used + usize::from(put_longer(n, shorts, line, used))
    }
}

/// Appends a number's digits at a place, and gives the place behind them.
#[inline(always)]
pub fn add_number(n: u64, shorts: Shorts<'_>, line: &mut [u8], used: usize) -> usize
    requires { used + 40 ≤ length line.old }
    ensures text { take result line.new ≡ take used line.old ++ decimal n }
    ensures room { result ≤ used + 40 }
    ensures kept { length line.new ≡ length line.old }
{
    if n < SHORT_BOUND {
        add_short(shorts.at(n), line, used)
    } else {
        add_long(n, shorts, line, used)
    }
}
