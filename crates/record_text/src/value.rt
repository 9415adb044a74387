// The line of a value.
ghost use Rattle.std.specs.Prelude.{◌≡◌, ◌≤◌, ◌+◌, ◌++◌, codes, length, take, true};
ghost use Rattle.mib_model.specs.Bits as Bits;
ghost use Rattle.mib_model.specs.Tails.{Plain};
ghost use Rattle.mib_model.specs.Texts.{value_text};
ghost use Rattle.record_text.specs.TailViews.{tail_as};
ghost use Rattle.record_text.specs.ValueParts.{begin_text, end_text};
ghost use Rattle.record_text.specs.declared.lines.TheConstants.{BEGIN_ROOM, END_ROOM, LINES_ROOM, LINE_MOST, VALUE_ROOM};

use crate::lines::{LINE_MOST, Lines};
use crate::raw::add_raw;
use crate::tail::{Tail, add_tail};
use line_text::{Shorts, add_indented, add_octet};
use mib_model::{Line, Value};

// Appends a value's name and raw text.
#[inline(always)]
fn add_begin(
    value: &Value,
    packet: &[u8],
    shorts: Shorts<'_>,
    line: &mut [u8],
    used: usize,
) -> usize
    requires inside { Bits.is_inside packet.now value.now.at value.now.shape.width ≡ true }
    requires room { used + BEGIN_ROOM ≤ length line.old }
    ensures text { take result line.new ≡ take used line.old ++ begin_text value.now packet.now }
    ensures room { result ≤ used + BEGIN_ROOM }
    ensures kept { length line.new ≡ length line.old }
{
    let used = add_indented(&value.name, line, used);
    add_raw(value, packet, shorts, line, used)
}

// Appends a tail and ends the line.
#[inline(always)]
fn add_end(
    tail: &Tail<'_>,
    shorts: Shorts<'_>,
    number: &mut Line,
    line: &mut [u8],
    used: usize,
) -> usize
    requires room { used + END_ROOM ≤ length line.old }
    ensures text { take result line.new ≡ take used line.old ++ end_text (tail_as tail.now) }
    ensures room { result ≤ used + END_ROOM }
    ensures kept { length line.new ≡ length line.old }
{
    let used = add_tail(tail, shorts, number, line, used);
    add_octet(b'\n', line, used)
}

// Puts a value's name and raw text behind what is there. The line has a known length, so that the compiler sees of each octet
// that it falls inside.
#[inline(always)]
fn put_begin(
    value: &Value,
    packet: &[u8],
    shorts: Shorts<'_>,
    octets: &mut [u8],
    used: usize,
) -> usize
    requires inside { Bits.is_inside packet.now value.now.at value.now.shape.width ≡ true }
    requires room { used + LINE_MOST ≤ length octets.old }
    ensures text { take result octets.new ≡ take used octets.old ++ begin_text value.now packet.now }
    ensures room { result ≤ used + BEGIN_ROOM }
    ensures kept { length octets.new ≡ length octets.old }
{
    let line = &mut octets[used..used + LINE_MOST];
    used + add_begin(value, packet, shorts, line, 0)
}

// Puts a tail behind what is there, and ends the line.
#[inline(always)]
fn put_end(
    tail: &Tail<'_>,
    shorts: Shorts<'_>,
    number: &mut Line,
    octets: &mut [u8],
    used: usize,
) -> usize
    requires room { used + LINE_MOST ≤ length octets.old }
    ensures text { take result octets.new ≡ take used octets.old ++ end_text (tail_as tail.now) }
    ensures room { result ≤ used + END_ROOM }
    ensures kept { length octets.new ≡ length octets.old }
{
    let line = &mut octets[used..used + LINE_MOST];
    used + add_end(tail, shorts, number, line, 0)
}

// Begins the line of a value where more octets may have to be made ready.
#[cold]
#[inline(never)]
fn begin_on_more(value: &Value, packet: &[u8], out: &mut Lines)
    requires inside { Bits.is_inside packet.now value.now.at value.now.shape.width ≡ true }
    requires room { length out.old + LINE_MOST ≤ LINES_ROOM }
    ensures text { out.new ≡ out.old ++ begin_text value.now packet.now }
    ensures room { length out.new ≤ length out.old + BEGIN_ROOM }
{
    out.page.make_ready();
    let shorts = out.shorts.all();
    out.page.used = add_begin(value, packet, shorts, &mut out.page.octets, out.page.used);
}

/// Begins the line of a value, whose bits must be in the packet: its name and its raw text. There must be room for 5,000
/// octets.
#[inline(always)]
pub fn begin_value(value: &Value, packet: &[u8], out: &mut Lines)
    requires inside { Bits.is_inside packet.now value.now.at value.now.shape.width ≡ true }
    requires room { length out.old + LINE_MOST ≤ LINES_ROOM }
    ensures text { out.new ≡ out.old ++ begin_text value.now packet.now }
    ensures room { length out.new ≤ length out.old + BEGIN_ROOM }
{
    if !out.page.is_ready() {
        begin_on_more(value, packet, out);
        return;
    }
    let shorts = out.shorts.all();
    out.page.used = put_begin(value, packet, shorts, &mut out.page.octets, out.page.used);
}

/// Ends the line of a value: its tail. There must be room for 5,000 octets.
#[inline(always)]
pub fn end_value(tail: &Tail<'_>, out: &mut Lines)
    requires room { length out.old + LINE_MOST ≤ LINES_ROOM }
    ensures text { out.new ≡ out.old ++ end_text (tail_as tail.now) }
    ensures room { length out.new ≤ length out.old + END_ROOM }
{
    out.page.make_ready();
    let shorts = out.shorts.all();
    out.page.used = put_end(
        tail,
        shorts,
        &mut out.number,
        &mut out.page.octets,
        out.page.used,
    );
}

/// Ends the line of a value behind its raw text. There must be room for 5,000 octets.
#[inline(always)]
pub fn end_plain_value(out: &mut Lines)
    requires room { length out.old + LINE_MOST ≤ LINES_ROOM }
    ensures text { out.new ≡ out.old ++ end_text Plain }
    ensures room { length out.new ≤ length out.old + END_ROOM }
{
    out.page.make_ready();
    out.page.used = add_octet(b'\n', &mut out.page.octets, out.page.used);
}

// Appends the line of a value.
#[inline(never)]
#[tactic(auto, unfolding(mib_model::specs::Texts::value_text))]
fn add_value(
    value: &Value,
    packet: &[u8],
    tail: &Tail<'_>,
    shorts: Shorts<'_>,
    number: &mut Line,
    line: &mut [u8],
    used: usize,
) -> usize
    requires inside { Bits.is_inside packet.now value.now.at value.now.shape.width ≡ true }
    requires room { used + VALUE_ROOM ≤ length line.old }
    ensures text { take result line.new ≡ take used line.old ++ value_text value.now packet.now (tail_as tail.now) }
    ensures room { result ≤ used + VALUE_ROOM }
{
    let used = add_begin(value, packet, shorts, line, used);
    add_end(tail, shorts, number, line, used)
}

/// Appends the line of a value, whose bits must be in the packet: its name, its raw text and its tail. There must be
/// room for 5,000 octets.
pub fn value_line(value: &Value, packet: &[u8], tail: &Tail<'_>, out: &mut Lines)
    requires inside { Bits.is_inside packet.now value.now.at value.now.shape.width ≡ true }
    requires room { length out.old + LINE_MOST ≤ LINES_ROOM }
    ensures text { out.new ≡ out.old ++ value_text value.now packet.now (tail_as tail.now) }
    ensures room { length out.new ≤ length out.old + VALUE_ROOM }
{
    out.page.make_ready();
    let shorts = out.shorts.all();
    out.page.used = add_value(
        value,
        packet,
        tail,
        shorts,
        &mut out.number,
        &mut out.page.octets,
        out.page.used,
    );
}
