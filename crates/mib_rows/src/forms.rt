// Numbers and letters as fields have them.
ghost use Rattle.std.specs.Prelude.{◌≡◌, ◌≤ℤ◌, IfSome};
ghost use Rattle.mib_model.specs.Numbers.{magnitude_of, signed_of, number_of, code_of, capital_of};

use dec_num::{are_digits, digits_number};

// The number that 1 to 20 digits are.
fn magnitude(octets: &[u8]) -> Option<i128>
    ensures { result ≡ magnitude_of octets.now }
{
    if are_digits(octets, 1, 20) {
        Some(digits_number(octets) as i128)
    } else {
        None
    }
}

// The number that digits are behind a sign, which may be missing.
fn signed(octets: &[u8]) -> Option<i128>
    ensures { result ≡ signed_of octets.now }
{
    match octets {
        [] => None,
        [first, rest @ ..] => {
            if *first == b'-' {
                Some(-magnitude(rest)?)
            } else if *first == b'+' {
                magnitude(rest)
            } else {
                magnitude(octets)
            }
        }
    }
}

/// The number of a range that octets are: an optional sign and 1 to 20 digits.
pub fn number(octets: &[u8], low: i128, high: i128) -> Option<i128>
    ensures value { result ≡ number_of low high octets.now }
    ensures low { IfSome result (λ n. low ≤ℤ n) }
    ensures high { IfSome result (λ n. n ≤ℤ high) }
{
    let value = signed(octets)?;
    if low <= value && value <= high {
        Some(value)
    } else {
        None
    }
}

/// The letter that octets are, if they are one of these.
pub fn code(octets: &[u8], letters: &[u8]) -> Option<u8>
    ensures { result ≡ code_of letters.now octets.now }
{
    match octets {
        [letter] if letters.contains(letter) => Some(*letter),
        _ => None,
    }
}

/// The capital that octets are, if they are one.
pub fn capital(octets: &[u8]) -> Option<u8>
    ensures { result ≡ capital_of octets.now }
{
    match octets {
        [letter] if letter.is_ascii_uppercase() => Some(*letter),
        _ => None,
    }
}
