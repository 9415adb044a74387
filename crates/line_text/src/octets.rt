// Octets in quotes and in hexadecimal digits.
ghost use Rattle.std.specs.Prelude.{◌≡◌, ◌≤◌, ◌<◌, ◌+◌, ◌*◌, ◌^◌, ◌++◌, ◌∷◌, List, ℕ, codes, length, take};
ghost use Rattle.std.specs.List.{flat_map};
ghost use Rattle.mib_model.specs.RawTexts as Spec;

use crate::bits::{field, whole_octets};
use crate::fast::stand::{eights_stand, fours_stand, sixteens_stand, twos_stand};
use crate::place::{add_ends, add_octet, add_word};

// A hexadecimal digit, in upper case.
fn hex_digit(n: u8) -> u8
    requires { n < 16 }
    ensures { result ≡ Spec.hex_digit n }
{
    if n < 10 { b'0' + n } else { b'A' - 10 + n }
}

// Appends the two digits of an octet.
fn add_hex_octet(octet: u8, line: &mut [u8], used: usize) -> usize
    requires { used + 2 ≤ length line.old }
    ensures text { take result line.new ≡ take used line.old ++ Spec.hex_text 2 octet }
    ensures room { result ≡ used + 2 }
    ensures kept { length line.new ≡ length line.old }
{
    add_word(&[hex_digit(octet / 16), hex_digit(octet % 16)], line, used)
}

// The last eight digits of a number.
#[inline(always)]
fn eight_digits(number: u64) -> [u8; 8]
    ensures { result ≡ Spec.hex_text 8 number }
{
    [
        hex_digit((number / 0x1000_0000 % 16) as u8),
        hex_digit((number / 0x100_0000 % 16) as u8),
        hex_digit((number / 0x10_0000 % 16) as u8),
        hex_digit((number / 0x1_0000 % 16) as u8),
        hex_digit((number / 0x1000 % 16) as u8),
        hex_digit((number / 0x100 % 16) as u8),
        hex_digit((number / 0x10 % 16) as u8),
        hex_digit((number % 16) as u8),
    ]
}

// Appends a number in so many digits, one after another.
fn add_digits(number: u64, digits: u8, line: &mut [u8], used: usize) -> usize
    requires digits { digits ≤ 16 }
    requires room { used + 16 ≤ length line.old }
    ensures text { take result line.new ≡ take used line.old ++ Spec.hex_text digits number }
    ensures room { result ≤ used + digits }
    ensures kept { length line.new ≡ length line.old }
{
    let mut end = used;
    for i in 0..digits {
        let behind = digits - 1 - i;
        let digit = hex_digit(((number >> (4 * behind)) % 16) as u8);
        end = add_octet(digit, line, end);
    }
    end
}

/// Appends a number in so many digits.
pub fn add_hex_number(number: u64, digits: u8, line: &mut [u8], used: usize) -> usize
    requires digits { digits ≤ 16 }
    requires room { used + 16 ≤ length line.old }
    ensures text { take result line.new ≡ take used line.old ++ Spec.hex_text digits number }
    ensures room { result ≤ used + digits }
    ensures kept { length line.new ≡ length line.old }
{
    match digits {
        8 => add_word(&eight_digits(number), line, used),
        16 => {
            let end = add_word(&eight_digits(number / 0x1_0000_0000), line, used);
            add_word(&eight_digits(number), line, end)
        }
        _ => add_digits(number, digits, line, used),
    }
}

// From a space to a tilde, but for the quote and the backslash.
fn stands_as_itself(octet: u8) -> bool
    ensures { result ≡ Spec.stands_as_itself octet }
{
    (0x20..=0x7E).contains(&octet) && octet != b'"' && octet != b'\\'
}

// Appends an octet that doesn't stand as itself, by its digits.
fn add_escaped(octet: u8, line: &mut [u8], used: usize) -> usize
    requires { used + 4 ≤ length line.old }
    ensures text { take result line.new ≡ take used line.old ++ Spec.backslash ∷ codes "x" ++ Spec.hex_text 2 octet }
    ensures room { result ≡ used + 4 }
    ensures kept { length line.new ≡ length line.old }
{
    let escaped = [b'\\', b'x', hex_digit(octet / 16), hex_digit(octet % 16)];
    add_word(&escaped, line, used)
}

/// How an octet is written.
pub trait Spelling {
    ghost spelled: { ℕ → List ℕ };

    fn add(octet: u8, line: &mut [u8], used: usize) -> usize
        requires { used + 4 ≤ length line.old }
        ensures text { take result line.new ≡ take used line.old ++ spelled octet }
        ensures room { result ≤ used + 4 }
        ensures kept { length line.new ≡ length line.old };
}

/// As two hexadecimal digits.
pub struct Digits;

impl Spelling for Digits {
    ghost spelled = { Spec.hex_text 2 };

    fn add(octet: u8, line: &mut [u8], used: usize) -> usize {
        add_hex_octet(octet, line, used)
    }
}

/// As it stands in quotes.
pub struct Quoted;

impl Spelling for Quoted {
    ghost spelled = { Spec.quoted_octet };

    #[inline(always)]
    fn add(octet: u8, line: &mut [u8], used: usize) -> usize {
        if stands_as_itself(octet) {
            add_octet(octet, line, used)
        } else {
            add_escaped(octet, line, used)
        }
    }
}

// Appends octets.
fn add_octets<S: Spelling>(octets: &[u8], line: &mut [u8], used: usize) -> usize
    requires { used + 4 * length octets.now ≤ length line.old }
    ensures text { take result line.new ≡ take used line.old ++ flat_map S.spelled octets.now }
    ensures room { result ≤ used + 4 * length octets.now }
    ensures kept { length line.new ≡ length line.old }
{
    let mut end = used;
    for octet in octets {
        end = S::add(*octet, line, end);
    }
    end
}

// Appends so many octets from a bit on.
fn add_shifted<S: Spelling>(
    packet: &[u8],
    at: u64,
    count: u16,
    line: &mut [u8],
    used: usize,
) -> usize
    requires count { count ≤ 1024 }
    requires inside { at + 8 * count ≤ 8 * length packet.now }
    requires room { used + 4 * count ≤ length line.old }
    ensures text { take result line.new ≡ take used line.old ++ flat_map S.spelled (Spec.octets_at packet.now at count) }
    ensures room { result ≤ used + 4 * count }
    ensures kept { length line.new ≡ length line.old }
{
    let mut end = used;
    for k in 0..count {
        end = S::add(field(packet, at, 8 * k, 8) as u8, line, end);
    }
    end
}

/// Appends so many octets from a bit on, from the packet itself where that bit is an octet's first.
pub fn add_octets_at<S: Spelling>(
    packet: &[u8],
    at: u64,
    count: u16,
    line: &mut [u8],
    used: usize,
) -> usize
    requires count { count ≤ 1024 }
    requires inside { at + 8 * count ≤ 8 * length packet.now }
    requires room { used + 4 * count ≤ length line.old }
    ensures text { take result line.new ≡ take used line.old ++ flat_map S.spelled (Spec.octets_at packet.now at count) }
    ensures room { result ≤ used + 4 * count }
    ensures kept { length line.new ≡ length line.old }
{
    match whole_octets(packet, at, count) {
        Some(octets) => add_octets::<S>(octets, line, used),
        None => add_shifted::<S>(packet, at, count, line, used),
    }
}

// Appends octets as they stand in quotes: a short text at once where each stands as itself.
#[inline(always)]
fn add_spelled(octets: &[u8], line: &mut [u8], used: usize) -> usize
    requires { used + 4 * length octets.now ≤ length line.old }
    ensures text { take result line.new ≡ take used line.old ++ flat_map Spec.quoted_octet octets.now }
    ensures room { result ≤ used + 4 * length octets.now }
    ensures kept { length line.new ≡ length line.old }
{
    match octets.len() {
        8..=16 if eights_stand(octets) => add_ends::<8>(octets, line, used),
        4..8 if fours_stand(octets) => add_ends::<4>(octets, line, used),
        2..4 if twos_stand(octets) => add_ends::<2>(octets, line, used),
        17..=32 if sixteens_stand(octets) => add_ends::<16>(octets, line, used),
        _ => add_octets::<Quoted>(octets, line, used),
    }
}

/// Appends octets in quotes.
#[inline(always)]
#[tactic(auto, unfolding(mib_model::specs::RawTexts::quoted))]
pub fn add_quoted(octets: &[u8], line: &mut [u8], used: usize) -> usize
    requires { used + (4 * length octets.now + 2) ≤ length line.old }
    ensures text { take result line.new ≡ take used line.old ++ Spec.quoted octets.now }
    ensures room { result ≤ used + (4 * length octets.now + 2) }
    ensures kept { length line.new ≡ length line.old }
{
    let used = add_octet(b'"', line, used);
    let used = add_spelled(octets, line, used);
    add_octet(b'"', line, used)
}
