ghost use Rattle.std.specs.Prelude.{◌≡◌, ◌≤◌, ◌<◌, ◌≤ℤ◌, ◌+◌, ◌+ℤ◌, ◌-ℤ◌, ◌++◌, ◌^◌, pos, negsuc, length, IsTrue, nat_le, ◌&&◌, true};
ghost use Rattle.std.specs.Char.{is_ascii_digit};
ghost use Rattle.std.specs.List.{list_all};
ghost use Rattle.mib_model.specs.Decimals as Spec;
ghost use Rattle.mib_model.specs.Digits.{digits_value};

use crate::digits::{all_digits, digits_behind, digits_number};
use crate::parts::{exponent, split_sign, split_text};
use crate::zeros::{without_leading, without_trailing};
use mib_model::{Dec, DecFault};

/// The greatest number of significant digits of a decimal.
const DIGITS_MOST: usize = 17;

/// The greatest exponent of a decimal; the least is as far below 0.
const EXPONENT_MOST: i128 = 30;

// Whether the two parts are digits alone, and at least one.
fn have_digits(whole: &[u8], fraction: &[u8]) -> bool
    ensures whole { IsTrue result → list_all is_ascii_digit whole.now ≡ true }
    ensures fraction { IsTrue result → list_all is_ascii_digit fraction.now ≡ true }
    ensures both { result ≡ (nat_le 1 (length (whole.now ++ fraction.now)) && list_all is_ascii_digit (whole.now ++ fraction.now)) }
{
    if whole.is_empty() && fraction.is_empty() {
        return false;
    }
    all_digits(whole) && all_digits(fraction)
}

// The number that at most 17 digits in two parts spell.
fn digits_in_two(whole: &[u8], fraction: &[u8]) -> u128
    requires short { length whole.now + length fraction.now ≤ DIGITS_MOST }
    requires whole { list_all is_ascii_digit whole.now ≡ true }
    requires fraction { list_all is_ascii_digit fraction.now ≡ true }
    ensures value { result ≡ digits_value (whole.now ++ fraction.now) }
    ensures small { result < 10 ^ 17 }
{
    digits_behind(digits_number(whole), whole.len(), fraction)
}

// The number of digits before and behind the point, with its sign.
fn signed_digits(minus: bool, whole: &[u8], fraction: &[u8]) -> i64
    requires short { length whole.now + length fraction.now ≤ DIGITS_MOST }
    requires whole { list_all is_ascii_digit whole.now ≡ true }
    requires fraction { list_all is_ascii_digit fraction.now ≡ true }
    ensures { result ≡ Spec.with_sign minus (digits_value (whole.now ++ fraction.now)) }
{
    let value = digits_in_two(whole, fraction) as i64;
    if minus { -value } else { value }
}

// The decimal of significant digits in two parts, the last of which has this exponent.
fn scaled(minus: bool, whole: &[u8], fraction: &[u8], exponent: i128) -> Result<Dec, DecFault>
    requires whole { list_all is_ascii_digit whole.now ≡ true }
    requires fraction { list_all is_ascii_digit fraction.now ≡ true }
    requires fits { length whole.now + length fraction.now ≤ 2 ^ 63 }
    ensures { result ≡ Spec.scaled minus (whole.now ++ fraction.now) exponent }
{
    if whole.len() + fraction.len() > DIGITS_MOST {
        return Err(DecFault::Digits);
    }
    if exponent < -EXPONENT_MOST || EXPONENT_MOST < exponent {
        return Err(DecFault::Exponent);
    }
    Ok(Dec {
        m: signed_digits(minus, whole, fraction),
        e: exponent as i8,
    })
}

// The exponent of a digit that stands so many places before another.
fn raised(exponent: i128, places: usize) -> i128
    requires low { negsuc (2 ^ 100) ≤ℤ exponent }
    requires high { exponent ≤ℤ pos (2 ^ 100) }
    ensures { result ≡ exponent +ℤ pos places }
{
    exponent + places as i128
}

// The exponent of a digit that stands so many places behind another.
fn lowered(exponent: i64, places: usize) -> i128
    ensures value { result ≡ exponent -ℤ pos places }
    ensures low { negsuc (2 ^ 100) ≤ℤ result }
    ensures high { result ≤ℤ pos (2 ^ 100) }
{
    i128::from(exponent) - places as i128
}

// The decimal of digits that may end in zeros; no digit is the number 0.
fn scaled_from(minus: bool, whole: &[u8], fraction: &[u8], exponent: i128) -> Result<Dec, DecFault>
    requires whole { list_all is_ascii_digit whole.now ≡ true }
    requires fraction { list_all is_ascii_digit fraction.now ≡ true }
    requires fits { length whole.now + length fraction.now ≤ 2 ^ 63 }
    requires low { negsuc (2 ^ 100) ≤ℤ exponent }
    requires high { exponent ≤ℤ pos (2 ^ 100) }
    ensures { result ≡ Spec.scaled_from minus (whole.now ++ fraction.now) exponent }
{
    let digits = whole.len() + fraction.len();
    if digits == 0 {
        return Ok(Dec { m: 0, e: 0 });
    }
    let (whole, fraction) = without_trailing(whole, fraction);
    let zeros = digits - (whole.len() + fraction.len());
    scaled(minus, whole, fraction, raised(exponent, zeros))
}

/// The decimal that a text is, or the first of the three faults.
#[tactic(auto, unfolding(mib_model::specs::Decimals::dec_of))]
pub fn read_dec(text: &[u8]) -> Result<Dec, DecFault>
    ensures { result ≡ Spec.dec_of text.now }
{
    let (minus, _) = split_sign(text);
    let (whole, fraction, behind) = split_text(text);
    if !have_digits(whole, fraction) {
        return Err(DecFault::Form);
    }
    let Some(exponent) = exponent(behind) else {
        return Err(DecFault::Form);
    };
    let exponent = lowered(exponent, fraction.len());
    let (whole, fraction) = without_leading(whole, fraction);
    scaled_from(minus, whole, fraction, exponent)
}
