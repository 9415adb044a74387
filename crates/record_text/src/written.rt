// Octets of lines that were written elsewhere.
ghost use Rattle.std.specs.Prelude.{◌≡◌, ◌≤◌, ◌+◌, ◌++◌, length, take};
ghost use Rattle.record_text.specs.declared.lines.TheConstants.{LINES_ROOM, LINE_MOST, VALUE_ROOM};

use crate::lines::{LINE_MOST, Lines};
use line_text::{add_ends, add_text};

// Appends octets at a place of a line, a few of them by two stores.
#[inline(always)]
fn add_few(text: &[u8], line: &mut [u8], used: usize) -> usize
    requires { used + length text.now ≤ length line.old }
    ensures text { take result line.new ≡ take used line.old ++ text.now }
    ensures room { result ≡ used + length text.now }
    ensures kept { length line.new ≡ length line.old }
{
    match text.len() {
        17..=32 => add_ends::<16>(text, line, used),
        8..=16 => add_ends::<8>(text, line, used),
        33..=64 => add_ends::<32>(text, line, used),
        _ => add_text(text, line, used),
    }
}

// Puts octets behind what is there.
#[inline(always)]
fn put_written(text: &[u8], octets: &mut [u8], used: usize) -> usize
    requires room { used + LINE_MOST ≤ length octets.old }
    requires few { length text.now ≤ VALUE_ROOM }
    ensures text { take result octets.new ≡ take used octets.old ++ text.now }
    ensures room { result ≡ used + length text.now }
    ensures kept { length octets.new ≡ length octets.old }
{
    let line = &mut octets[used..used + LINE_MOST];
    used + add_few(text, line, 0)
}

/// Appends octets that were written already, no more than the line of a value may have. There must be room for 5,000 octets.
#[inline(always)]
pub fn add_written(text: &[u8], out: &mut Lines)
    requires room { length out.old + LINE_MOST ≤ LINES_ROOM }
    requires few { length text.now ≤ VALUE_ROOM }
    ensures text { out.new ≡ out.old ++ text.now }
    ensures room { length out.new ≤ length out.old + VALUE_ROOM }
{
    out.page.make_ready();
    out.page.used = put_written(text, &mut out.page.octets, out.page.used);
}
