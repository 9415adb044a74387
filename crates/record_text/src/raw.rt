// The texts of raw values.
ghost use Rattle.std.specs.Prelude.{◌≡◌, ◌≤◌, ◌<◌, ◌+◌, ◌*◌, ◌/◌, ◌++◌, length, take, codes, decimal, false, true};
ghost use Rattle.std.specs.Fmt.{signed_decimal};
ghost use Rattle.std.specs.List.{flat_map};
ghost use Rattle.mib_model.specs.Bits as Bits;
ghost use Rattle.mib_model.specs.Kept.{has_number};
ghost use Rattle.mib_model.specs.RawTexts as Spec;
ghost use Rattle.record_text.specs.declared.raw.TheConstants.{RAW_ROOM};

use bit_field::number;
use line_text::{
    Digits, Quoted, Shorts, add_digits, add_hex_number, add_number, add_octet, add_octets_at,
    add_word, field,
};
use mib_model::{Shape, Sort, Value};

/// The most octets of a raw text: 1,024 octets of 4 octets each, and 4 around them.
pub(crate) const RAW_ROOM: usize = 4100;

// Appends a number's digits, by a word of 64 bits where it is that small.
fn add_magnitude(n: u128, shorts: Shorts<'_>, line: &mut [u8], used: usize) -> usize
    requires room { used + 40 ≤ length line.old }
    ensures text { take result line.new ≡ take used line.old ++ decimal n }
    ensures room { result ≤ used + 40 }
    ensures kept { length line.new ≡ length line.old }
{
    match u64::try_from(n) {
        Ok(n) => add_number(n, shorts, line, used),
        Err(_) => add_digits(n, line, used),
    }
}

// Appends the digits of a raw number that is below zero or past 64 bits.
#[inline(never)]
fn add_far_integer(raw: i128, shorts: Shorts<'_>, line: &mut [u8], used: usize) -> usize
    requires room { used + 41 ≤ length line.old }
    ensures text { take result line.new ≡ take used line.old ++ signed_decimal raw }
    ensures room { result ≤ used + 41 }
    ensures kept { length line.new ≡ length line.old }
{
    let mut end = used;
    if raw < 0 {
        end = add_octet(b'-', line, used);
    }
    add_magnitude(raw.unsigned_abs(), shorts, line, end)
}

// Appends a raw number's digits.
#[inline(always)]
fn add_integer(raw: i128, shorts: Shorts<'_>, line: &mut [u8], used: usize) -> usize
    requires room { used + 41 ≤ length line.old }
    ensures text { take result line.new ≡ take used line.old ++ signed_decimal raw }
    ensures room { result ≤ used + 41 }
    ensures kept { length line.new ≡ length line.old }
{
    match u64::try_from(raw) {
        Ok(raw) => add_number(raw, shorts, line, used),
        Err(_) => add_far_integer(raw, shorts, line, used),
    }
}

// The hexadecimal digits of a real number.
fn real_digits(shape: Shape) -> u8
    requires { shape.sort ≡ Sort.Real }
    ensures value { result ≡ shape.width / 4 }
    ensures most { result ≤ 16 }
    ensures width { shape.width ≤ 64 }
{
    (shape.width() / 4) as u8
}

// Appends the bits of a real number, 4 a digit.
fn add_real(shape: Shape, packet: &[u8], at: u64, line: &mut [u8], used: usize) -> usize
    requires sort { shape.sort ≡ Sort.Real }
    requires inside { at + shape.width ≤ 8 * length packet.now }
    requires room { used + 21 ≤ length line.old }
    ensures text { take result line.new ≡ take used line.old ++ codes "REAL:"
        ++ Spec.hex_text (shape.width / 4) (Bits.field_number shape.order packet.now at shape.width) }
    ensures room { result ≤ used + 21 }
    ensures kept { length line.new ≡ length line.old }
{
    let digits = real_digits(shape);
    let used = add_word(b"REAL:", line, used);
    add_hex_number(number(packet, at, shape).unwrap_or(0), digits, line, used)
}

// Appends so many octets from a bit on, in hexadecimal digits.
fn add_hex_field(packet: &[u8], at: u64, count: u16, line: &mut [u8], used: usize) -> usize
    requires count { count ≤ 1024 }
    requires inside { at + 8 * count ≤ 8 * length packet.now }
    requires room { used + RAW_ROOM ≤ length line.old }
    ensures text { take result line.new ≡ take used line.old ++ codes "HEX:" ++ flat_map (Spec.hex_text 2) (Spec.octets_at packet.now at count) }
    ensures room { result ≤ used + RAW_ROOM }
    ensures kept { length line.new ≡ length line.old }
{
    let used = add_word(b"HEX:", line, used);
    add_octets_at::<Digits>(packet, at, count, line, used)
}

// Appends so many octets from a bit on, in quotes.
#[tactic(auto, unfolding(mib_model::specs::RawTexts::quoted))]
fn add_quoted_field(packet: &[u8], at: u64, count: u16, line: &mut [u8], used: usize) -> usize
    requires count { count ≤ 1024 }
    requires inside { at + 8 * count ≤ 8 * length packet.now }
    requires room { used + RAW_ROOM ≤ length line.old }
    ensures text { take result line.new ≡ take used line.old ++ Spec.quoted (Spec.octets_at packet.now at count) }
    ensures room { result ≤ used + RAW_ROOM }
    ensures kept { length line.new ≡ length line.old }
{
    let used = add_octet(b'"', line, used);
    let used = add_octets_at::<Quoted>(packet, at, count, line, used);
    add_octet(b'"', line, used)
}

// Appends days, milliseconds of the day and, with 64 bits, microseconds of the millisecond.
fn add_day_time(
    packet: &[u8],
    at: u64,
    width: u16,
    shorts: Shorts<'_>,
    line: &mut [u8],
    used: usize,
) -> usize
    requires width { 48 ≤ width }
    requires inside { at + width ≤ 8 * length packet.now }
    requires room { used + 127 ≤ length line.old }
    ensures text { take result line.new ≡ take used line.old ++ codes "TIME:" ++ Spec.day_time_text packet.now at width }
    ensures room { result ≤ used + 127 }
    ensures kept { length line.new ≡ length line.old }
{
    let used = add_word(b"TIME:", line, used);
    let used = add_number(field(packet, at, 0, 16), shorts, line, used);
    let used = add_octet(b':', line, used);
    let used = add_number(field(packet, at, 16, 32), shorts, line, used);
    if width != 64 {
        return used;
    }
    let used = add_octet(b':', line, used);
    add_number(field(packet, at, 48, 16), shorts, line, used)
}

// Appends coarse and fine time, by their numbers of octets.
fn add_octet_time(
    packet: &[u8],
    at: u64,
    coarse: u8,
    fine: u8,
    shorts: Shorts<'_>,
    line: &mut [u8],
    used: usize,
) -> usize
    requires coarse { coarse ≤ 8 }
    requires fine { fine ≤ 8 }
    requires inside { at + 8 * coarse + 8 * fine ≤ 8 * length packet.now }
    requires room { used + 86 ≤ length line.old }
    ensures text { take result line.new ≡ take used line.old ++ codes "TIME:"
        ++ decimal (Bits.bits packet.now at (8 * coarse)) ++ Spec.fine_text packet.now (at + 8 * coarse) fine }
    ensures room { result ≤ used + 86 }
    ensures kept { length line.new ≡ length line.old }
{
    let mut end = add_word(b"TIME:", line, used);
    end = add_number(field(packet, at, 0, 8 * coarse), shorts, line, end);
    if fine > 0 {
        end = add_octet(b':', line, end);
        end = add_number(
            field(packet, at, 8 * u16::from(coarse), 8 * fine),
            shorts,
            line,
            end,
        );
    }
    end
}

// Appends the raw text of a value that has no number.
#[inline(never)]
#[tactic(auto, unfolding(mib_model::specs::RawTexts::raw_text))]
fn add_other(
    value: &Value,
    packet: &[u8],
    shorts: Shorts<'_>,
    line: &mut [u8],
    used: usize,
) -> usize
    requires inside { Bits.is_inside packet.now value.now.at value.now.shape.width ≡ true }
    requires sort { has_number value.now.shape.sort ≡ false }
    requires room { used + RAW_ROOM ≤ length line.old }
    ensures text { take result line.new ≡ take used line.old ++ Spec.raw_text value.now packet.now }
    ensures room { result ≤ used + RAW_ROOM }
    ensures kept { length line.new ≡ length line.old }
{
    let Value { at, shape, .. } = *value;
    let width = shape.width();
    match shape.sort() {
        Sort::Unsigned | Sort::Signed => used,
        Sort::Real => add_real(shape, packet, at, line, used),
        Sort::Octets => add_hex_field(packet, at, width / 8, line, used),
        Sort::Chars => add_quoted_field(packet, at, width / 8, line, used),
        Sort::Cds => add_day_time(packet, at, width, shorts, line, used),
        Sort::Cuc { coarse, fine } => {
            add_octet_time(packet, at, coarse, fine, shorts, line, used)
        }
        Sort::Deduced => used,
    }
}

/// Appends the raw text of a value.
#[inline(always)]
#[tactic(auto, unfolding(mib_model::specs::RawTexts::raw_text))]
pub(crate) fn add_raw(
    value: &Value,
    packet: &[u8],
    shorts: Shorts<'_>,
    line: &mut [u8],
    used: usize,
) -> usize
    requires inside { Bits.is_inside packet.now value.now.at value.now.shape.width ≡ true }
    requires room { used + RAW_ROOM ≤ length line.old }
    ensures text { take result line.new ≡ take used line.old ++ Spec.raw_text value.now packet.now }
    ensures room { result ≤ used + RAW_ROOM }
    ensures kept { length line.new ≡ length line.old }
{
    match value.shape.sort() {
        Sort::Unsigned | Sort::Signed => add_integer(value.raw, shorts, line, used),
        _ => add_other(value, packet, shorts, line, used),
    }
}
