// Engineering values, at a place of a line.
ghost use Rattle.std.specs.Prelude.{◌≡◌, ◌≤◌, ◌+◌, ◌++◌, length, take};
ghost use Rattle.mib_model.specs.Counts.{count_text};

use crate::fast::count::{add_count_digits, count_digits};
use crate::fast::short_texts::Shorts;
use crate::place::add_text;
use dec_num::write_eng;
use mib_model::{Eng, Line};

// Puts any engineering value at a place, and gives the count of its octets.
#[cold]
#[inline(never)]
fn put_any(v: Eng, decimals: u8, number: &mut Line, line: &mut [u8], used: usize) -> u8
    requires { used + 60 ≤ length line.old }
    ensures text { take (used + result) line.new ≡ take used line.old ++ count_text v.count decimals }
    ensures room { result ≤ 60 }
    ensures kept { length line.new ≡ length line.old }
{
    number.clear();
    write_eng(v, decimals, number);
    let text = number.bytes();
    let _end = add_text(text, line, used);
    text.len() as u8
}

/// Appends an engineering value with some decimals. A text of many digits is made apart, in place of what is there.
#[inline(always)]
pub fn add_count(
    v: Eng,
    decimals: u8,
    shorts: Shorts<'_>,
    number: &mut Line,
    line: &mut [u8],
    used: usize,
) -> usize
    requires { used + 60 ≤ length line.old }
    ensures text { take result line.new ≡ take used line.old ++ count_text v.count decimals }
    ensures room { result ≤ used + 60 }
    ensures kept { length line.new ≡ length line.old }
{
    match count_digits(v, decimals) {
        Some(digits) => add_count_digits(digits, decimals, shorts, line, used),
        None => used + usize::from(put_any(v, decimals, number, line, used)),
    }
}
