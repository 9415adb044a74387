// The digits of numbers of any size, at a place of a line.
ghost use Rattle.std.specs.Prelude.{◌≡◌, ◌≤◌, ◌+◌, ◌++◌, length, take};

use crate::place::add_text;
use itoa::{Buffer, Integer};

/// Appends the digits of a number of any size.
#[cold]
#[inline(never)]
pub fn add_digits<I: Integer>(n: I, line: &mut [u8], used: usize) -> usize
    requires { used + 40 ≤ length line.old }
    ensures text { take result line.new ≡ take used line.old ++ I.text n }
    ensures room { result ≤ used + 40 }
    ensures kept { length line.new ≡ length line.old }
{
    add_text(Buffer::new().format(n).as_bytes(), line, used)
}
