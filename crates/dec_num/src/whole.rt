// Whole numbers that texts stand for.
ghost use Rattle.std.specs.Prelude.{◌≡◌, ◌<◌, ◌≤◌, ◌+◌, ◌*◌, ◌*ℤ◌, ◌^◌, pos, fold, length, true};
ghost use Rattle.std.specs.List.{list_all};
ghost use Rattle.mib_model.specs.WholeNumbers as Spec;

use crate::read::read_dec;
use crate::spaces::trim;
use crate::steps::scaled_up;
use mib_model::{Dec, RAW_LEAST, RAW_MOST};

/// What an octal number may not reach, 2^64.
const OCTAL_BOUND: u128 = 18_446_744_073_709_551_616;

// A number, where it is a raw number.
fn if_raw(number: i128) -> Option<i128>
    ensures { result ≡ Spec.if_raw number }
{
    if RAW_LEAST <= number && number <= RAW_MOST {
        Some(number)
    } else {
        None
    }
}

// The whole number that a decimal is.
fn whole_of(d: Dec) -> Option<i128>
    ensures { result ≡ Spec.whole_of d.m d.e }
{
    if d.e < 0 {
        return None;
    }
    if_raw(scaled_up(i128::from(d.m), d.e as u32)?)
}

/// The whole number that a decimal text is, from -2^63 to 2^64 - 1, with or without spaces around it.
#[tactic(auto, unfolding(mib_model::specs::WholeNumbers::decimal_whole))]
pub fn decimal_whole(text: &[u8]) -> Option<i128>
    ensures { result ≡ Spec.decimal_whole text.now }
{
    match read_dec(trim(text)) {
        Ok(d) => whole_of(d),
        Err(_) => None,
    }
}

fn is_hex_digit(octet: u8) -> bool
    ensures { result ≡ Spec.is_hex_digit octet }
{
    octet.is_ascii_digit() || (b'A'..=b'F').contains(&octet) || (b'a'..=b'f').contains(&octet)
}

fn is_octal_digit(octet: u8) -> bool
    ensures { result ≡ Spec.is_octal_digit octet }
{
    (b'0'..=b'7').contains(&octet)
}

fn are_hex_digits(text: &[u8]) -> bool
    ensures { result ≡ list_all Spec.is_hex_digit text.now }
{
    text.iter().all(|octet| is_hex_digit(*octet))
}

fn are_octal_digits(text: &[u8]) -> bool
    ensures { result ≡ list_all Spec.is_octal_digit text.now }
{
    text.iter().all(|octet| is_octal_digit(*octet))
}

// What a hexadecimal digit stands for.
fn digit_value(octet: u8) -> u8
    requires { Spec.is_hex_digit octet ≡ true }
    ensures value { result ≡ Spec.hex_digit_value octet }
    ensures small { result < 16 }
{
    if octet >= b'a' {
        octet - b'a' + 10
    } else if octet >= b'A' {
        octet - b'A' + 10
    } else {
        octet - b'0'
    }
}

// The number of at most 22 digits in a base of at most 16.
fn value_in(base: u8, digits: &[u8]) -> u128
    requires base { base ≤ 16 }
    requires count { length digits.now ≤ 22 }
    requires digits { list_all Spec.is_hex_digit digits.now ≡ true }
    ensures value { result ≡ fold (λ value digit. base * value + Spec.hex_digit_value digit) 0 digits.now }
    ensures within { result < 16 ^ 22 }
{
    let mut value = 0;
    for digit in digits {
        value = u128::from(base) * value + u128::from(digit_value(*digit));
    }
    value
}

// The number of 1 to 16 hexadecimal digits.
fn hex_whole(text: &[u8]) -> Option<i128>
    ensures { result ≡ Spec.hex_whole text.now }
{
    if text.is_empty() || text.len() > 16 || !are_hex_digits(text) {
        return None;
    }
    Some(value_in(16, text) as i128)
}

// The number of at most 22 octal digits.
#[tactic(auto, using(crate::proofs::BaseFacts::octal))]
fn octal_value(digits: &[u8]) -> u128
    requires count { length digits.now ≤ 22 }
    requires digits { list_all Spec.is_octal_digit digits.now ≡ true }
    ensures value { result ≡ Spec.octal_value digits.now }
    ensures within { result < 16 ^ 22 }
{
    value_in(8, digits)
}

// The number of 1 to 22 octal digits, where it is below 2^64.
fn octal_whole(text: &[u8]) -> Option<i128>
    ensures { result ≡ Spec.octal_whole text.now }
{
    if text.is_empty() || text.len() > 22 || !are_octal_digits(text) {
        return None;
    }
    let value = octal_value(text);
    if value < OCTAL_BOUND {
        Some(value as i128)
    } else {
        None
    }
}

/// The whole number of a text in a radix, `D`, `H` or `O` (SCOS-2000 Database Import ICD, the radix of a curve; the
/// forms are this profile's). Spaces around the text don't count.
#[tactic(auto, unfolding(mib_model::specs::WholeNumbers::whole_number))]
pub fn whole_number(radix: u8, text: &[u8]) -> Option<i128>
    ensures { result ≡ Spec.whole_number radix text.now }
{
    match radix {
        b'H' => hex_whole(trim(text)),
        b'O' => octal_whole(trim(text)),
        _ => decimal_whole(text),
    }
}
