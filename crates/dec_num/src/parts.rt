// The parts of a decimal's text.
ghost use Rattle.std.specs.Prelude.{◌≡◌, ◌↔◌, ◌≤ℤ◌, ◌^◌, pos, negsuc, true, IfSome, IsSome, option_map};
ghost use Rattle.std.specs.List.{before_first, after_first, list_any, position};
ghost use Rattle.mib_model.specs.Decimals as Spec;
ghost use Rattle.dec_num.specs.Parts.{exponent_of, exponent_behind};

use crate::digits::{are_digits, digits_number};

/// Whether a minus stands at the front of a text, and what stands behind its sign.
pub fn split_sign(text: &[u8]) -> (bool, &[u8])
    ensures minus { result.0 ≡ Spec.has_minus text.now }
    ensures rest { result.1.now ≡ Spec.unsigned_part text.now }
{
    match text {
        [] => (false, text),
        [first, rest @ ..] => {
            if *first == b'-' {
                (true, rest)
            } else if *first == b'+' {
                (false, rest)
            } else {
                (false, text)
            }
        }
    }
}

// Where the mark of an exponent stands first.
fn mark_place(text: &[u8]) -> Option<usize>
    ensures { result ≡ position Spec.is_exponent_mark text.now }
{
    text.iter()
        .position(|octet| *octet == b'E' || *octet == b'e')
}

// Where the point stands first.
fn point_place(text: &[u8]) -> Option<usize>
    ensures { result ≡ position Spec.is_point text.now }
{
    text.iter().position(|octet| *octet == b'.')
}

// What stands before the mark of an exponent, and what stands behind it, if there is one.
fn split_mark(text: &[u8]) -> (&[u8], Option<&[u8]>)
    ensures before { result.0.now ≡ before_first Spec.is_exponent_mark text.now }
    ensures behind { IfSome result.1 (λ rest. rest.now ≡ after_first Spec.is_exponent_mark text.now) }
    ensures marked { IsSome result.1 ↔ (list_any Spec.is_exponent_mark text.now ≡ true) }
{
    match mark_place(text) {
        Some(at) => (&text[..at], Some(&text[at + 1..])),
        None => (text, None),
    }
}

// What stands before the point, and what stands behind it.
fn split_point(text: &[u8]) -> (&[u8], &[u8])
    ensures before { result.0.now ≡ before_first Spec.is_point text.now }
    ensures behind { result.1.now ≡ after_first Spec.is_point text.now }
{
    match point_place(text) {
        Some(at) => (&text[..at], &text[at + 1..]),
        None => (text, &[]),
    }
}

/// The digits before the point and behind it, and what stands behind the mark of the exponent, if there is one.
pub fn split_text(text: &[u8]) -> (&[u8], &[u8], Option<&[u8]>)
    ensures whole { result.0.now ≡ Spec.whole_digits text.now }
    ensures fraction { result.1.now ≡ Spec.fraction_digits text.now }
    ensures exponent { IfSome result.2 (λ rest. rest.now ≡ Spec.exponent_part text.now) }
    ensures marked { IsSome result.2 ↔ (list_any Spec.is_exponent_mark (Spec.unsigned_part text.now) ≡ true) }
{
    let (_, rest) = split_sign(text);
    let (mantissa, exponent) = split_mark(rest);
    let (whole, fraction) = split_point(mantissa);
    (whole, fraction, exponent)
}

// The number of an exponent's text: an optional sign and 1 to 9 digits.
fn signed_exponent(text: &[u8]) -> Option<i64>
    ensures value { result ≡ exponent_of text.now }
    ensures within { IfSome result (λ n. (negsuc (10 ^ 9) ≤ℤ n) × (n ≤ℤ pos (10 ^ 9))) }
{
    let (minus, digits) = split_sign(text);
    if !are_digits(digits, 1, 9) {
        return None;
    }
    let value = digits_number(digits) as i64;
    Some(if minus { -value } else { value })
}

/// The exponent of a decimal's text: 0 where there is no mark, and `None` where it is out of form.
pub fn exponent(text: Option<&[u8]>) -> Option<i64>
    ensures value { result ≡ exponent_behind (option_map (λ r. r.now) text.entry) }
    ensures within { IfSome result (λ n. (negsuc (10 ^ 9) ≤ℤ n) × (n ≤ℤ pos (10 ^ 9))) }
{
    match text {
        Some(digits) => signed_exponent(digits),
        None => Some(0),
    }
}
