ghost use Rattle.std.specs.Prelude.{◌≡◌, ◌≤◌, ◌<◌, ◌^◌, ◌+◌, ◌-◌, ◌*◌, length, fold, true};
ghost use Rattle.std.specs.Char.{is_ascii_digit};
ghost use Rattle.std.specs.List.{list_all};
ghost use Rattle.mib_model.specs.Digits as Spec;

/// Whether all octets are decimal digits.
pub fn all_digits(octets: &[u8]) -> bool
    ensures { result ≡ list_all is_ascii_digit octets.now }
{
    octets.iter().all(|octet| octet.is_ascii_digit())
}

/// Whether octets are from `least` to `most` decimal digits.
pub fn are_digits(octets: &[u8], least: usize, most: usize) -> bool
    ensures { result ≡ Spec.are_digits least most octets.now }
{
    least <= octets.len() && octets.len() <= most && all_digits(octets)
}

/// The number that digits spell behind others: `before` digits that spell `start`, at most 20 digits in all.
pub fn digits_behind(start: u128, before: usize, digits: &[u8]) -> u128
    requires start { start < 10 ^ before }
    requires short { before + length digits.now ≤ 20 }
    requires digits { list_all is_ascii_digit digits.now ≡ true }
    ensures value { result ≡ fold (λ value digit. 10 * value + (digit - 48)) start digits.now }
    ensures within { result < 10 ^ (before + length digits.now) }
{
    let mut value = start;
    for digit in digits {
        value = 10 * value + u128::from(*digit - b'0');
    }
    value
}

/// The number that at most 20 decimal digits spell, the most significant first.
pub fn digits_number(digits: &[u8]) -> u128
    requires short { length digits.now ≤ 20 }
    requires digits { list_all is_ascii_digit digits.now ≡ true }
    ensures value { result ≡ Spec.digits_value digits.now }
    ensures within { result < 10 ^ length digits.now }
{
    digits_behind(0, 0, digits)
}
